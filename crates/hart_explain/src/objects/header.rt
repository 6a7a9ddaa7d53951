//! A header as members of an object.
#![tactic(auto, using(crate::proofs::lemmas::Json::said), unfolding(json::specs::Print::escape_byte, crate::specs::Json::further_member))]

ghost use Rattle.std.specs.Prelude.{◌≡◌, ◌≤◌, ◌++◌, ◌∷◌, [], codes, length};
ghost use Rattle.json.specs.Print.{quoted};
ghost use Rattle.serde_json.specs.Data.{string};
ghost use Rattle.hart_explain.specs.Header.{address_word, command_members, ends_members, kind_name, master_name};
ghost use Rattle.hart_explain.specs.Json.{further_members};
ghost use Rattle.hart_explain.specs.Text.{extended};

use crate::hex_text::device_bytes;
use crate::objects::{push_escaped, push_name, push_quoted_hex};
use crate::pairs::Pairs;
use crate::text::{Text, push_byte_number, push_text};
use hart_commands::command_name;
use hart_frame::FrameKind;
use hart_values::{Address, MasterId};
use itoa::Buffer;

/// Adds the members of a master and an address.
pub(crate) fn push_ends(text: &mut Text, pairs: &Pairs, master: MasterId, address: Address)
    ensures members { text.new ≡ extended text.old (further_members (ends_members master address)) }
    ensures few { length (further_members (ends_members master address)) ≤ 270 }
{
    push_text(text, ",\"master\":");
    push_master(text, master);
    push_text(text, ",\"address\":");
    push_address(text, pairs, address);
}

/// Adds the members of a command.
pub(crate) fn push_command(text: &mut Text, command: u8)
    ensures { text.new ≡ extended text.old (further_members (command_members command)) }
{
    push_text(text, ",\"command\":");
    push_byte_number(text, command);
    push_text(text, ",\"command_name\":");
    push_name(text, command_name(command));
}

/// Adds a kind of frame as a string of its name.
pub(crate) fn push_kind(text: &mut Text, kind: FrameKind)
    ensures { text.new ≡ extended text.old (quoted (kind_name kind)) }
{
    match kind {
        FrameKind::Stx => push_text(text, "\"request\""),
        FrameKind::Ack => push_text(text, "\"reply\""),
    }
}

/// Adds a master as a string of its name.
fn push_master(text: &mut Text, master: MasterId)
    ensures { text.new ≡ extended text.old (quoted (master_name master)) }
{
    match master {
        MasterId::Primary => push_text(text, "\"primary\""),
        MasterId::Secondary => push_text(text, "\"secondary\""),
    }
}

/// Adds an address as a string of its word.
#[tactic(auto, using(crate::proofs::lemmas::SightingLengths::addresses), unfolding(json::specs::Print::escape_byte))]
fn push_address(text: &mut Text, pairs: &Pairs, address: Address)
    ensures word { text.new ≡ extended text.old (quoted (address_word address)) }
    ensures short { length (address_word address) ≤ 21 }
{
    match address {
        Address::Polling(polling) => {
            push_text(text, "\"@");
            push_escaped(text, Buffer::new().format(polling.number()).as_bytes());
            push_text(text, "\"");
        }
        Address::Unique(device) => {
            if address.is_broadcast() {
                push_text(text, "\"all\"");
            } else {
                push_quoted_hex(text, pairs, &device_bytes(device));
            }
        }
    }
}
