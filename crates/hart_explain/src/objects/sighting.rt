//! Messages, and places where a message only seems to start, as objects.
#![tactic(auto, using(crate::proofs::lemmas::Json::said), unfolding(json::specs::Print::escape_byte, crate::specs::Json::further_member))]

ghost use Rattle.std.specs.Prelude.{◌≡◌, ◌≤◌, ◌+◌, ◌-◌, ◌<◌, ◌^◌, ◌++◌, ◌∷◌, [], codes, drop, length, option_map};
ghost use Rattle.serde_json.specs.Data.{boolean, string};
ghost use Rattle.serde_json.specs.Written.{compact_text};
ghost use Rattle.hart_frame.specs.declared.wire.kind.FrameKind.TheVariants.{Ack};
ghost use Rattle.hart_frame.specs.heard.Frames.{moved};
ghost use Rattle.hart_frame.specs.heard.Sighting.{Message, miss_in_whole, moved_seen};
ghost use Rattle.hart_frame.specs.scan.Sighting.{NamesPlacesBelow, seen_of};
ghost use Rattle.hart_frame.specs.wire.View.{found_of};
ghost use Rattle.hart_frame.specs.wire.FrameParts.{IsLongEnough};
ghost use Rattle.hart_frame.specs.wire.Header.{header_parts};
ghost use Rattle.hart_frame.specs.wire.View.{parts_of};
ghost use Rattle.hart_explain.specs.Json.{further_member, further_members, named, object_of, reading_members, word};
ghost use Rattle.hart_explain.specs.Header.{header_value};
ghost use Rattle.hart_explain.specs.Message.{before_member, frame_members, payload_members, preambles_members};
ghost use Rattle.hart_explain.specs.Miss.{miss_members, reason_members, seems_value};
ghost use Rattle.hart_explain.specs.Reading.{reading_of_reply};
ghost use Rattle.hart_explain.specs.Sighting.{FitsFrom, data_of, json_line, time_members};
ghost use Rattle.hart_explain.specs.Text.{extended};

use crate::before::Before;
use crate::objects::header::{push_command, push_ends, push_kind};
use crate::objects::status::push_status;
use crate::objects::{push_quoted, push_quoted_hex, push_reading};
use crate::pairs::Pairs;
use crate::reading::{read_reply, read_request};
use crate::text::{Text, push_number, push_text};
use hart_frame::{FoundView, FrameKind, FrameView, Header, Miss, Sighting};

/// Adds a sighting as a line of JSON. Its places are counted from `first` on. `date` is the date of its place, or empty.
#[tactic(auto, using(crate::proofs::lemmas::Json::line_of), unfolding(crate::specs::Sighting::json_line))]
pub fn push_line(
    text: &mut Text,
    pairs: &Pairs,
    date: &[u8],
    first: u64,
    before: Before,
    sighting: &Sighting<'_>,
)
    requires places { FitsFrom first sighting.now }
    ensures line { text.new ≡ extended text.old (json_line date.now before (moved_seen first (seen_of sighting.now))) }
    ensures few { length date.now ≤ 32 → length (json_line date.now before (moved_seen first (seen_of sighting.now))) ≤ 16384 }
{
    push_object(text, pairs, date, first, before, sighting);
    push_text(text, "\n");
}

/// Adds the object of a sighting.
fn push_object(
    text: &mut Text,
    pairs: &Pairs,
    date: &[u8],
    first: u64,
    before: Before,
    sighting: &Sighting<'_>,
)
    requires places { FitsFrom first sighting.now }
    ensures object { text.new ≡ extended text.old (compact_text (data_of date.now before (moved_seen first (seen_of sighting.now)))) }
    ensures few { length date.now ≤ 32
        → length (compact_text (data_of date.now before (moved_seen first (seen_of sighting.now)))) ≤ 16300 }
{
    match sighting {
        Sighting::Message(found) => push_message(text, pairs, date, first, before, found),
        Sighting::Missed {
            place,
            miss,
            header,
        } => push_miss(text, pairs, date, first, *place, *miss, header),
    }
}

/// Adds the object of a message. The places in it are counted from `first` on.
fn push_message(
    text: &mut Text,
    pairs: &Pairs,
    date: &[u8],
    first: u64,
    before: Before,
    found: &FoundView<'_>,
)
    requires start { first + found.now.start < 2 ^ 64 }
    requires stop { first + found.now.stop < 2 ^ 64 }
    ensures object { text.new ≡ extended text.old (compact_text (data_of date.now before (Message (moved first (found_of found.now))))) }
    ensures few { length date.now ≤ 32
        → length (compact_text (data_of date.now before (Message (moved first (found_of found.now))))) ≤ 16300 }
{
    push_text(text, "{\"type\":\"message\"");
    push_time(text, date);
    push_text(text, ",\"start\":");
    push_number(text, first + found.start);
    push_text(text, ",\"stop\":");
    push_number(text, first + found.stop);
    push_preambles(text, before.preambles);
    push_frame(text, pairs, &found.frame);
    push_before(text, found.frame.kind(), before);
    push_text(text, "}");
}

/// Adds the member of a date, if it is not empty.
fn push_time(text: &mut Text, date: &[u8])
    ensures { text.new ≡ extended text.old (further_members (time_members date.now)) }
{
    if date.is_empty() {
        return;
    }
    push_text(text, ",\"time\":");
    push_quoted(text, date);
}

/// Adds the member of the number of preamble bytes of a message, if it is known.
fn push_preambles(text: &mut Text, preambles: Option<u64>)
    ensures members { text.new ≡ extended text.old (further_members (preambles_members preambles)) }
    ensures few { length (further_members (preambles_members preambles)) ≤ 33 }
{
    if let Some(preambles) = preambles {
        push_text(text, ",\"preambles\":");
        push_number(text, preambles);
    }
}

/// Adds the members of a frame.
fn push_frame(text: &mut Text, pairs: &Pairs, frame: &FrameView<'_>)
    ensures members { text.new ≡ extended text.old (further_members (frame_members (parts_of frame.now))) }
    ensures few { length (further_members (frame_members (parts_of frame.now))) ≤ 15600 }
{
    push_text(text, ",\"kind\":");
    push_kind(text, frame.kind());
    push_ends(text, pairs, frame.master(), frame.address());
    push_burst(text, frame.burst());
    push_text(text, ",\"expansion\":");
    push_quoted_hex(text, pairs, frame.expansion());
    push_command(text, frame.command());
    push_payload(text, pairs, frame.kind(), frame.command(), frame.payload());
}

/// Adds the member of a burst bit.
fn push_burst(text: &mut Text, burst: bool)
    ensures { text.new ≡ extended text.old (further_member (named "burst" (boolean burst))) }
{
    if burst {
        push_text(text, ",\"burst\":true");
    } else {
        push_text(text, ",\"burst\":false");
    }
}

/// Adds the members of the payload of a frame.
fn push_payload(text: &mut Text, pairs: &Pairs, kind: FrameKind, command: u8, payload: &[u8])
    requires few { length payload.now ≤ 255 }
    requires long_enough { IsLongEnough kind payload.now }
    ensures members { text.new ≡ extended text.old (further_members (payload_members kind command payload.now)) }
    ensures few { length (further_members (payload_members kind command payload.now)) ≤ 14501 }
{
    match kind {
        FrameKind::Stx => push_reading(
            text,
            pairs,
            command,
            payload,
            read_request(command, payload),
        ),
        FrameKind::Ack => push_reply(text, pairs, command, payload),
    }
}

/// Adds the members of the payload of a reply.
fn push_reply(text: &mut Text, pairs: &Pairs, command: u8, payload: &[u8])
    requires few { length payload.now ≤ 255 }
    requires long_enough { 2 ≤ length payload.now }
    ensures members { text.new ≡ extended text.old (further_members (payload_members Ack command payload.now)) }
    ensures few { length (further_members (payload_members Ack command payload.now)) ≤ 14501 }
{
    push_status(text, pairs, command, payload[0], payload[1]);
    push_reply_data(text, pairs, command, payload);
}

/// Adds the members of the data of a reply, which stand after the two status bytes of its payload.
fn push_reply_data(text: &mut Text, pairs: &Pairs, command: u8, payload: &[u8])
    requires few { length payload.now ≤ 255 }
    requires long_enough { 2 ≤ length payload.now }
    ensures members { text.new ≡ extended text.old
        (further_members (reading_members command (drop 2 payload.now) (reading_of_reply command payload.now))) }
    ensures few { length (further_members (reading_members command (drop 2 payload.now) (reading_of_reply command payload.now))) ≤ 12000 }
{
    let reading = read_reply(command, payload);
    push_reading(text, pairs, command, &payload[2..], reading);
}

/// Adds the member that is known of a message from earlier messages.
fn push_before(text: &mut Text, kind: FrameKind, before: Before)
    ensures member { text.new ≡ extended text.old (further_member (before_member kind before)) }
    ensures few { length (further_member (before_member kind before)) ≤ 66 }
{
    match (kind, before.answers) {
        (FrameKind::Stx, _) => {
            push_text(text, ",\"sending\":");
            push_number(text, before.sending);
        }
        (FrameKind::Ack, Some(start)) => {
            push_text(text, ",\"answers\":");
            push_number(text, start);
        }
        (FrameKind::Ack, None) => push_text(text, ",\"answers\":null"),
    }
}

/// Adds the object of a miss. The places in it are counted from `first` on.
fn push_miss(
    text: &mut Text,
    pairs: &Pairs,
    date: &[u8],
    first: u64,
    place: usize,
    miss: Miss,
    header: &Option<Header>,
)
    requires place { first + place < 2 ^ 64 }
    requires fits { NamesPlacesBelow (2 ^ 64 - first) miss }
    ensures object { text.new ≡ extended text.old (compact_text (object_of (named "type" (word "miss") ∷ time_members date.now
        ++ miss_members (first + place) (miss_in_whole first miss) (option_map header_parts header.now)))) }
    ensures few { length date.now ≤ 32 → length (compact_text (object_of (named "type" (word "miss") ∷ time_members date.now
        ++ miss_members (first + place) (miss_in_whole first miss) (option_map header_parts header.now)))) ≤ 16300 }
{
    push_text(text, "{\"type\":\"miss\"");
    push_time(text, date);
    push_text(text, ",\"start\":");
    push_number(text, first + place as u64);
    push_text(text, ",\"place\":");
    push_number(text, first + place as u64);
    push_reason(text, pairs, first, miss);
    push_seems(text, pairs, header);
    push_text(text, "}");
}

/// Adds the members of the reason of a miss. The places in it are counted from `first` on.
fn push_reason(text: &mut Text, pairs: &Pairs, first: u64, miss: Miss)
    requires { NamesPlacesBelow (2 ^ 64 - first) miss }
    ensures members { text.new ≡ extended text.old (further_members (reason_members (miss_in_whole first miss))) }
    ensures few { length (further_members (reason_members (miss_in_whole first miss))) ≤ 600 }
{
    match miss {
        Miss::Faulty { place, faults } => {
            push_text(text, ",\"reason\":\"faulty\",\"at\":");
            push_number(text, first + place as u64);
            push_text(text, ",\"faults\":");
            push_quoted_hex(text, pairs, &[faults]);
        }
        Miss::Burst => push_text(text, ",\"reason\":\"burst\""),
        Miss::BadDelimiter { byte } => {
            push_text(text, ",\"reason\":\"bad_delimiter\",\"byte\":");
            push_quoted_hex(text, pairs, &[byte]);
        }
        Miss::EndsBeforeByteCount => push_text(text, ",\"reason\":\"ends_before_byte_count\""),
        Miss::ShortReply { byte_count } => {
            push_text(text, ",\"reason\":\"short_reply\",\"byte_count\":");
            push_number(text, u64::from(byte_count));
        }
        Miss::Missing { count } => {
            push_text(text, ",\"reason\":\"missing\",\"count\":");
            push_number(text, count as u64);
        }
        Miss::BadCheck { place, byte, fits } => {
            push_text(text, ",\"reason\":\"bad_check\",\"at\":");
            push_number(text, first + place as u64);
            push_text(text, ",\"byte\":");
            push_quoted_hex(text, pairs, &[byte]);
            push_text(text, ",\"fits\":");
            push_quoted_hex(text, pairs, &[fits]);
        }
        Miss::OnePreamble => push_text(text, ",\"reason\":\"one_preamble\""),
    }
}

/// Adds the member that says which message seems to begin at the place of a miss.
fn push_seems(text: &mut Text, pairs: &Pairs, header: &Option<Header>)
    ensures member { text.new ≡ extended text.old (further_member (named "seems" (seems_value (option_map header_parts header.now)))) }
    ensures few { length (further_member (named "seems" (seems_value (option_map header_parts header.now)))) ≤ 1000 }
{
    match header {
        Some(header) => {
            push_text(text, ",\"seems\":");
            push_header(text, pairs, header);
        }
        None => push_text(text, ",\"seems\":null"),
    }
}

/// Adds the object of a header.
fn push_header(text: &mut Text, pairs: &Pairs, header: &Header)
    ensures object { text.new ≡ extended text.old (compact_text (header_value (header_parts header.now))) }
    ensures few { length (compact_text (header_value (header_parts header.now))) ≤ 900 }
{
    push_text(text, "{\"kind\":");
    push_kind(text, header.kind());
    push_ends(text, pairs, header.master(), header.address());
    push_command(text, header.command());
    push_text(text, "}");
}
