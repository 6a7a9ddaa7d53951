//! Messages, and places where a message only seems to start, in words.
#![tactic(auto, using(crate::proofs::lemmas::Extended::extending))]

ghost use Rattle.std.specs.Prelude.{◌≡◌, ◌≤◌, ◌++◌, ◌+◌, ◌-◌, ◌<◌, ◌^◌, drop, length, option_map};
ghost use Rattle.hart_frame.specs.heard.Frames.{moved};
ghost use Rattle.hart_frame.specs.heard.Sighting.{miss_in_whole, moved_seen};
ghost use Rattle.hart_frame.specs.scan.Sighting.{NamesPlacesBelow, seen_of};
ghost use Rattle.hart_frame.specs.wire.View.{found_of};
ghost use Rattle.hart_frame.specs.wire.FrameParts.{IsLongEnough};
ghost use Rattle.hart_frame.specs.wire.Header.{header_parts};
ghost use Rattle.hart_frame.specs.declared.wire.kind.FrameKind.TheVariants.{Ack};
ghost use Rattle.hart_explain.specs.Message.{burst_line, message_line, paragraph, payload_lines, sending_words};
ghost use Rattle.hart_explain.specs.Miss.{byte_value, miss_line, miss_words, missing_words, seems_line};
ghost use Rattle.hart_explain.specs.Reading.{reading_of_reply};
ghost use Rattle.hart_explain.specs.Sighting.{FitsFrom, date_words, seen_text};
ghost use Rattle.hart_explain.specs.Text.{extended};
ghost use Rattle.hart_explain.specs.Words.{reading_lines};

use crate::before::Before;
use crate::pairs::Pairs;
use crate::reading::{read_reply, read_request};
use crate::text::{Text, push_byte, push_bytes, push_number, push_text};
use crate::words::header::push_header;
use crate::words::status::push_status;
use crate::words::{push_bytes_line, push_name, push_reading};
use hart_frame::{FoundView, FrameKind, Header, Miss, Sighting};

/// Adds the text of a sighting, after the date of its place. The places of the sighting are counted from `first` on. `before` is what is
/// known of it from earlier messages.
pub fn push_sighting(
    text: &mut Text,
    pairs: &Pairs,
    date: &[u8],
    first: u64,
    before: Before,
    sighting: &Sighting<'_>,
)
    requires places { FitsFrom first sighting.now }
    ensures words { text.new ≡ extended text.old (date_words date.now ++ seen_text before (moved_seen first (seen_of sighting.now))) }
    ensures few { length date.now ≤ 32
        → length (date_words date.now ++ seen_text before (moved_seen first (seen_of sighting.now))) ≤ 16384 }
{
    push_date(text, date);
    match sighting {
        Sighting::Message(found) => push_paragraph(text, pairs, first, before, found),
        Sighting::Missed {
            place,
            miss,
            header,
        } => {
            push_miss_line(text, pairs, first, *place, *miss);
            push_seems_line(text, pairs, header);
        }
    }
}

/// Adds a date and a space, if there is a date.
fn push_date(text: &mut Text, date: &[u8])
    ensures { text.new ≡ extended text.old (date_words date.now) }
{
    if !date.is_empty() {
        push_bytes(text, date);
        push_byte(text, b' ');
    }
}

/// Adds the paragraph of a message. The places in it are counted from `first` on.
#[tactic(auto, using(crate::proofs::lemmas::Extended::extending), unfolding(crate::specs::Message::paragraph))]
fn push_paragraph(text: &mut Text, pairs: &Pairs, first: u64, before: Before, found: &FoundView<'_>)
    requires start { first + found.now.start < 2 ^ 64 }
    requires stop { first + found.now.stop < 2 ^ 64 }
    ensures words { text.new ≡ extended text.old (paragraph before (moved first (found_of found.now))) }
    ensures few { length (paragraph before (moved first (found_of found.now))) ≤ 7240 }
{
    push_message_line(text, pairs, first, before, found);
    push_burst_line(text, found.frame.burst());
    push_bytes_line(text, pairs, "expansion bytes", found.frame.expansion());
    push_payload(
        text,
        pairs,
        found.frame.kind(),
        found.frame.command(),
        found.frame.payload(),
    );
}

/// Adds the line of a message. Its places are counted from `first` on.
fn push_message_line(
    text: &mut Text,
    pairs: &Pairs,
    first: u64,
    before: Before,
    found: &FoundView<'_>,
)
    requires start { first + found.now.start < 2 ^ 64 }
    requires stop { first + found.now.stop < 2 ^ 64 }
    ensures words { text.new ≡ extended text.old (message_line before (moved first (found_of found.now))) }
    ensures few { length (message_line before (moved first (found_of found.now))) ≤ 290 }
{
    let frame = &found.frame;
    push_number(text, first + found.start);
    push_byte(text, b'-');
    push_number(text, first + found.stop);
    push_text(text, ": ");
    push_header(
        text,
        pairs,
        frame.kind(),
        frame.master(),
        frame.address(),
        frame.command(),
    );
    push_sending(text, frame.kind(), before);
    push_byte(text, b'\n');
}

/// Adds the number of a request's consecutive sendings so far, if the request is sent again.
fn push_sending(text: &mut Text, kind: FrameKind, before: Before)
    ensures words { text.new ≡ extended text.old (sending_words kind before) }
    ensures few { length (sending_words kind before) ≤ 30 }
{
    if kind == FrameKind::Stx && before.sending > 1 {
        push_text(text, ", sending ");
        push_number(text, before.sending);
    }
}

/// Adds the line of a burst bit, if it is set.
fn push_burst_line(text: &mut Text, burst: bool)
    ensures { text.new ≡ extended text.old (burst_line burst) }
{
    if burst {
        push_text(text, "    burst bit: set\n");
    }
}

/// Adds the lines of the payload of a message.
#[tactic(auto, using(std::proofs::lemmas::Grind::common_steps))]
fn push_payload(text: &mut Text, pairs: &Pairs, kind: FrameKind, command: u8, payload: &[u8])
    requires few { length payload.now ≤ 255 }
    requires long_enough { IsLongEnough kind payload.now }
    ensures words { text.new ≡ extended text.old (payload_lines kind command payload.now) }
    ensures few { length (payload_lines kind command payload.now) ≤ 6800 }
{
    match kind {
        FrameKind::Stx => push_reading(
            text,
            pairs,
            command,
            payload,
            read_request(command, payload),
        ),
        FrameKind::Ack => push_reply(text, pairs, command, payload),
    }
}

/// Adds the lines of the payload of a reply.
fn push_reply(text: &mut Text, pairs: &Pairs, command: u8, payload: &[u8])
    requires few { length payload.now ≤ 255 }
    requires long_enough { 2 ≤ length payload.now }
    ensures words { text.new ≡ extended text.old (payload_lines Ack command payload.now) }
    ensures few { length (payload_lines Ack command payload.now) ≤ 6800 }
{
    push_status(text, command, payload[0], payload[1]);
    push_reply_data(text, pairs, command, payload);
}

/// Adds the lines of the data of a reply, which stand after the two status bytes of its payload.
#[tactic(auto, using(std::proofs::lemmas::Grind::common_steps))]
fn push_reply_data(text: &mut Text, pairs: &Pairs, command: u8, payload: &[u8])
    requires few { length payload.now ≤ 255 }
    requires long_enough { 2 ≤ length payload.now }
    ensures words { text.new ≡ extended text.old (reading_lines command (drop 2 payload.now) (reading_of_reply command payload.now)) }
    ensures few { length (reading_lines command (drop 2 payload.now) (reading_of_reply command payload.now)) ≤ 6300 }
{
    let reading = read_reply(command, payload);
    push_reading(text, pairs, command, &payload[2..], reading);
}

/// Adds the line of a miss. The places in it are counted from `first` on.
fn push_miss_line(text: &mut Text, pairs: &Pairs, first: u64, place: usize, miss: Miss)
    requires place { first + place < 2 ^ 64 }
    requires fits { NamesPlacesBelow (2 ^ 64 - first) miss }
    ensures words { text.new ≡ extended text.old (miss_line (first + place) (miss_in_whole first miss)) }
    ensures few { length (miss_line (first + place) (miss_in_whole first miss)) ≤ 140 }
{
    push_number(text, first + place as u64);
    push_text(text, ": no message: ");
    push_miss(text, pairs, first, miss);
    push_byte(text, b'\n');
}

/// Adds the line that says which message seems to begin at the place of a miss, if its header was heard.
fn push_seems_line(text: &mut Text, pairs: &Pairs, header: &Option<Header>)
    ensures words { text.new ≡ extended text.old (seems_line (option_map header_parts header.now)) }
    ensures few { length (seems_line (option_map header_parts header.now)) ≤ 220 }
{
    if let Some(header) = header {
        push_name(text, "seems");
        push_header(
            text,
            pairs,
            header.kind(),
            header.master(),
            header.address(),
            header.command(),
        );
        push_byte(text, b'\n');
    }
}

/// Adds the words of a miss. The places in it are counted from `first` on.
fn push_miss(text: &mut Text, pairs: &Pairs, first: u64, miss: Miss)
    requires { NamesPlacesBelow (2 ^ 64 - first) miss }
    ensures words { text.new ≡ extended text.old (miss_words (miss_in_whole first miss)) }
    ensures few { length (miss_words (miss_in_whole first miss)) ≤ 100 }
{
    match miss {
        Miss::Faulty { place, faults } => {
            push_text(text, "the character at ");
            push_number(text, first + place as u64);
            push_text(text, " has the fault bits ");
            push_byte_value(text, pairs, faults);
        }
        Miss::Burst => push_text(text, "it is a burst message, which is not read"),
        Miss::BadDelimiter { byte } => {
            push_byte_value(text, pairs, byte);
            push_text(text, " is no delimiter of this profile");
        }
        Miss::EndsBeforeByteCount => push_text(text, "it ends before its byte count"),
        Miss::ShortReply { byte_count } => {
            push_text(text, "it is a reply, and its byte count ");
            push_number(text, u64::from(byte_count));
            push_text(text, " is below 2");
        }
        Miss::Missing { count } => push_missing(text, count),
        Miss::BadCheck { place, byte, fits } => {
            push_text(text, "the check byte is ");
            push_byte_value(text, pairs, byte);
            push_text(text, " at ");
            push_number(text, first + place as u64);
            push_text(text, ", and ");
            push_byte_value(text, pairs, fits);
            push_text(text, " would fit");
        }
        Miss::OnePreamble => push_text(
            text,
            "only one intact preamble byte stands directly before it",
        ),
    }
}

/// Adds the words for this number of missing characters. The last of them is the check byte.
fn push_missing(text: &mut Text, count: usize)
    ensures words { text.new ≡ extended text.old (missing_words count) }
    ensures few { length (missing_words count) ≤ 80 }
{
    if count == 1 {
        push_text(text, "it lacks 1 character, its check byte");
    } else {
        push_text(text, "it lacks ");
        push_number(text, count as u64);
        push_text(text, " characters, the last of them its check byte");
    }
}

/// Adds a byte in hex.
#[tactic(auto, using(std::proofs::lemmas::Grind::common_steps), unfolding(hex::specs::Hex::encode_with, crate::specs::Words::hex_value))]
fn push_byte_value(text: &mut Text, pairs: &Pairs, byte: u8)
    ensures { text.new ≡ extended text.old (byte_value byte) }
{
    let [high, low] = pairs.of(byte);
    push_bytes(text, &[b'0', b'x', high, low]);
}
