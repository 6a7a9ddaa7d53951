//! Headers, in words.
#![tactic(auto, using(crate::proofs::lemmas::Extended::extending))]

ghost use Rattle.std.specs.Prelude.{◌≡◌, ◌≤◌, ◌++◌, codes, length, option_map};
ghost use Rattle.hart_explain.specs.Header.{address_word, device_words, header_words, master_words, named_number, who_words};
ghost use Rattle.hart_explain.specs.Text.{extended};

use crate::hex_text::device_bytes;
use crate::pairs::Pairs;
use crate::text::{Text, push_byte_number, push_hex, push_text};
use crate::words::push_name_after;
use hart_commands::command_name;
use hart_frame::FrameKind;
use hart_values::{Address, MasterId};

/// Adds the words of a header: who speaks to whom, and the command.
#[inline(always)]
pub(crate) fn push_header(
    text: &mut Text,
    pairs: &Pairs,
    kind: FrameKind,
    master: MasterId,
    address: Address,
    command: u8,
)
    ensures words { text.new ≡ extended text.old
        (header_words (record { kind = kind; master = master; address = address; command = command })) }
    ensures few { length (header_words (record { kind = kind; master = master; address = address; command = command })) ≤ 200 }
{
    push_who(text, pairs, kind, master, address);
    push_text(text, ", Command ");
    push_named_number(text, command, command_name(command));
}

/// Adds a number in decimal, and its name after it, if it has one.
#[inline(always)]
pub(crate) fn push_named_number(text: &mut Text, number: u8, name: Option<&str>)
    ensures { text.new ≡ extended text.old (named_number number (option_map (λ name. name.now) name.entry)) }
{
    push_byte_number(text, number);
    push_name_after(text, name);
}

/// Adds the words of who speaks to whom.
fn push_who(text: &mut Text, pairs: &Pairs, kind: FrameKind, master: MasterId, address: Address)
    ensures words { text.new ≡ extended text.old (who_words kind master address) }
    ensures short { length (address_word address) ≤ 21 }
{
    match kind {
        FrameKind::Stx => {
            push_request_of(text, master);
            push_device(text, pairs, "all devices", address);
        }
        FrameKind::Ack => {
            push_text(text, "reply of ");
            push_device(text, pairs, "one of all devices", address);
            push_to(text, master);
        }
    }
}

/// Adds the words that say which master sends a request, up to the word `to`.
fn push_request_of(text: &mut Text, master: MasterId)
    ensures { text.new ≡ extended text.old (codes "request of " ++ master_words master ++ codes " to ") }
{
    match master {
        MasterId::Primary => push_text(text, "request of the primary master to "),
        MasterId::Secondary => push_text(text, "request of the secondary master to "),
    }
}

/// Adds the words that say to which master a reply goes.
fn push_to(text: &mut Text, master: MasterId)
    ensures { text.new ≡ extended text.old (codes " to " ++ master_words master) }
{
    match master {
        MasterId::Primary => push_text(text, " to the primary master"),
        MasterId::Secondary => push_text(text, " to the secondary master"),
    }
}

/// Adds the words of an address. The words of the broadcast address are the argument `broadcast`.
#[tactic(auto, using(crate::proofs::lemmas::SightingLengths::addresses))]
#[inline(always)]
fn push_device(text: &mut Text, pairs: &Pairs, broadcast: &str, address: Address)
    ensures words { text.new ≡ extended text.old (device_words broadcast.now address) }
    ensures short { length (address_word address) ≤ 21 }
{
    match address {
        Address::Polling(polling) => {
            push_text(text, "the device at polling address ");
            push_byte_number(text, polling.number());
        }
        Address::Unique(device) => {
            if address.is_broadcast() {
                push_text(text, broadcast);
            } else {
                push_text(text, "device ");
                push_hex(text, pairs, &device_bytes(device));
            }
        }
    }
}
