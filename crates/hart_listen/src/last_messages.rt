//! The last request of each master, until a reply completes it.
ghost use Rattle.std.specs.Prelude.{◌≡◌, ◌+◌, ◌-◌, ◌<◌, ◌++◌, ◌∷◌, [], ℕ, ◌^◌, IfSome, None, Some, false};
ghost use Rattle.hart_frame.specs.heard.Frames.{moved};
ghost use Rattle.hart_frame.specs.heard.Sighting.{Message, moved_seen};
ghost use Rattle.hart_frame.specs.scan.Sighting.{seen_of};
ghost use Rattle.hart_frame.specs.wire.View.{found_of, parts_of};
ghost use Rattle.hart_values.specs.declared.master_id.MasterId.{MasterId};
ghost use Rattle.hart_listen.specs.Before.{AreAlike, answered, asks_device, before_of, has_faults, is_busy};
ghost use Rattle.hart_listen.specs.Before.{leaves_open, repeats, replies_to};
ghost use Rattle.hart_listen.specs.Before.{same_content, same_ends, same_request};
ghost use Rattle.hart_listen.specs.LastMessages.{Agree, IsOwn, KeepsOwn, after_reply, listed, no_messages, recalled};
ghost use Rattle.hart_explain.specs.Sighting.{FitsFrom};

use hart_explain::Before;
use hart_frame::{FoundView, Frame, FrameKind, FrameView, Sighting};
use hart_values::{Address, EachMaster, MasterId, Payload};
use std::marker::Model;

/// A request that was heard. All later messages of its master are replies that leave it open.
#[derive(Drop)]
pub struct LastRequest {
    /// The place of its delimiter in all that was heard.
    pub start: u64,
    /// The frame of the request.
    pub frame: Frame,
    /// How many messages right before it are the same request. Replies that leave it open do not count.
    pub sent_before: u64,
    /// Whether a reply that leaves it open came after it.
    pub is_left_open: bool,
}

/// The last request of a master, until a reply completes it. The next request is written over it, so that no frame is moved in memory.
#[derive(Drop)]
pub struct KeptRequest {
    /// The last request, whether it is kept or not.
    request: LastRequest,
    /// Whether the request is kept.
    is_kept: bool,
}

impl Model for KeptRequest {
    ghost use Rattle.std.specs.Prelude.{if◌then◌else◌, Option, None, Some};
    ghost use Rattle.hart_listen.specs.declared.last_messages.LastRequest.{LastRequest};

    ghost Value = { Option LastRequest };

    ghost view = { λ it. if it.is_kept then Some it.request else None };
}

/// The kept request of each master.
pub type LastMessages = EachMaster<KeptRequest>;

/// The response code of a device that cannot carry out the command now.
const BUSY: u8 = 32;

/// The value for a miss and for a master's first message: no request is answered, and the message is sent for the first time.
const NOTHING_BEFORE: Before = Before {
    answers: None,
    sending: 1,
    preambles: None,
};

/// Returns the state in which no message was heard.
pub fn no_messages() -> LastMessages
    ensures { result ≡ no_messages }
{
    EachMaster {
        primary: no_request(),
        secondary: no_request(),
    }
}

/// Returns the state of a master in which no request is kept.
fn no_request() -> KeptRequest
    ensures { result ≡ None }
{
    let address = Address::polling(0).unwrap();
    KeptRequest {
        request: LastRequest {
            start: 0,
            frame: Frame::request(MasterId::Primary, address, 0, Payload::new()),
            sent_before: 0,
            is_left_open: false,
        },
        is_kept: false,
    }
}

/// Returns which earlier request a sighting answers, and which sending of its request it is. If the sighting is a message, it becomes the
/// last message of its master.
pub fn hear_sighting(last: &mut LastMessages, first: u64, sighting: &Sighting<'_>) -> Before
    requires places { FitsFrom first sighting.now }
    requires own { KeepsOwn (2 ^ 64 - 2) last.old }
    ensures before { result ≡ before_of (recalled last.old) (moved_seen first (seen_of sighting.now)) }
    ensures alike { AreAlike (recalled last.new) (recalled last.old ++ moved_seen first (seen_of sighting.now) ∷ []) }
    ensures own { (most : ℕ) → KeepsOwn most last.old → KeepsOwn (most + 1) last.new }
{
    match sighting {
        Sighting::Message(found) => hear_message(last, first, found),
        Sighting::Missed { .. } => NOTHING_BEFORE,
    }
}

/// Returns which earlier request a message answers, and which sending of its request it is. Makes it the last message of its master.
fn hear_message(last: &mut LastMessages, first: u64, found: &FoundView<'_>) -> Before
    requires start { first + found.now.start < 2 ^ 64 }
    requires own { KeepsOwn (2 ^ 64 - 2) last.old }
    ensures before { result ≡ before_of (recalled last.old) (Message (moved first (found_of found.now))) }
    ensures alike { AreAlike (recalled last.new) (recalled last.old ++ Message (moved first (found_of found.now)) ∷ []) }
    ensures own { (most : ℕ) → KeepsOwn most last.old → KeepsOwn (most + 1) last.new }
{
    let start = first + found.start;
    match found.frame.master() {
        MasterId::Primary => hear_frame(&mut last.primary, start, &found.frame),
        MasterId::Secondary => hear_frame(&mut last.secondary, start, &found.frame),
    }
}

/// Returns which request a frame answers, and which sending of its request it is, by the last message of its master. Makes the frame the
/// last message of its master.
#[inline(always)]
fn hear_frame(last: &mut KeptRequest, start: u64, frame: &FrameView<'_>) -> Before
    requires { IfSome last.old (λ request. request.sent_before < 2 ^ 64 - 2) }
    ensures answers { result.answers ≡ answered (parts_of frame.now) (listed last.old) }
    ensures sending { result.sending ≡ 1 + repeats (parts_of frame.now) (listed last.old) }
    ensures preambles { result.preambles ≡ None }
    ensures agree { (stop : ℕ)
        → Agree (listed last.new) (record { start = start; stop = stop; frame = parts_of frame.now } ∷ listed last.old) }
    ensures own { (master : MasterId) (most : ℕ) → (parts_of frame.now).master ≡ master → IfSome last.old (IsOwn master most)
        → IfSome last.new (IsOwn master (most + 1)) }
{
    match frame.kind() {
        FrameKind::Stx => Before {
            answers: None,
            sending: hear_request(last, start, frame),
            preambles: None,
        },
        FrameKind::Ack => Before {
            answers: hear_reply(last, frame),
            sending: 1,
            preambles: None,
        },
    }
}

/// Makes a request the last message of its master, and returns which sending of the request it is, counted from 1. A request that is the
/// same as the last one is not copied again.
#[tactic(auto, using(crate::proofs::lemmas::Before::repeats_same, crate::proofs::lemmas::Before::other_counted))]
fn hear_request(last: &mut KeptRequest, start: u64, frame: &FrameView<'_>) -> u64
    requires { IfSome last.old (λ request. request.sent_before < 2 ^ 64 - 2) }
    ensures kept { last.new ≡ Some (record {
      start = start;
      frame = parts_of frame.now;
      sent_before = repeats (parts_of frame.now) (listed last.old);
      is_left_open = false;
    }) }
    ensures sending { result ≡ 1 + repeats (parts_of frame.now) (listed last.old) }
{
    if last.is_kept && same_request(&last.request.frame, frame) {
        return repeat_request(&mut last.request, start);
    }
    last.is_kept = true;
    write_request(&mut last.request, start, frame);
    1
}

/// Writes a request, which is sent for the first time and begins at `start`, over an earlier one.
fn write_request(request: &mut LastRequest, start: u64, frame: &FrameView<'_>)
    ensures { request.new ≡ record { start = start; frame = parts_of frame.now; sent_before = 0; is_left_open = false } }
{
    request.start = start;
    request.frame.set_view(frame);
    request.is_left_open = false;
    request.sent_before = 0;
}

/// Counts one more sending of a request, which begins at `start`, and returns the number of this sending.
fn repeat_request(request: &mut LastRequest, start: u64) -> u64
    requires { request.old.sent_before < 2 ^ 64 - 2 }
    ensures counted { request.new ≡ record request.old { start = start; sent_before = request.old.sent_before + 1; is_left_open = false } }
    ensures sending { result ≡ request.old.sent_before + 2 }
{
    request.start = start;
    request.sent_before += 1;
    request.is_left_open = false;
    request.sent_before + 1
}

/// Returns the start of the request that a reply answers, and makes the reply the last message of its master.
fn hear_reply(last: &mut KeptRequest, frame: &FrameView<'_>) -> Option<u64>
    ensures answers { result ≡ answered (parts_of frame.now) (listed last.old) }
    ensures kept { last.new ≡ after_reply last.old (parts_of frame.now) }
{
    let answers = if last.is_kept {
        answered(&last.request, frame)
    } else {
        None
    };
    keep_reply(last, frame);
    answers
}

/// Makes a reply the last message of its master. A reply that does not leave the last request open ends it, so that no request is kept.
fn keep_reply(last: &mut KeptRequest, frame: &FrameView<'_>)
    ensures { last.new ≡ after_reply last.old (parts_of frame.now) }
{
    if last.is_kept && leaves_open(&last.request.frame, frame) {
        last.request.is_left_open = true;
    } else {
        last.is_kept = false;
    }
}

/// Returns the start of `request` if a frame that comes right after it is a reply to it, and otherwise `None`.
fn answered(request: &LastRequest, frame: &FrameView<'_>) -> Option<u64>
    ensures { result ≡ answered (parts_of frame.now) (listed (Some request.now)) }
{
    if !request.is_left_open && replies_to(&request.frame, frame) {
        Some(request.start)
    } else {
        None
    }
}

/// Returns true if a frame leaves a request open: it is a reply with the request's address, and has either communication faults and any
/// command, or the request's command and the response code 32, busy.
fn leaves_open(request: &Frame, frame: &FrameView<'_>) -> bool
    ensures { result ≡ leaves_open request.now (parts_of frame.now) }
{
    asks_device(request, frame)
        && frame.kind() == FrameKind::Ack
        && (has_faults(frame.payload())
            || request.command() == frame.command() && is_busy(frame.payload()))
}

/// Returns true if the payload of a reply has communication faults.
fn has_faults(payload: &[u8]) -> bool
    ensures { result ≡ has_faults payload.now }
{
    match payload.first() {
        Some(first) => *first >= 0x80,
        None => false,
    }
}

/// Returns true if the payload of a reply has the response code 32, busy.
fn is_busy(payload: &[u8]) -> bool
    ensures { result ≡ is_busy payload.now }
{
    match payload.first() {
        Some(first) => *first == BUSY,
        None => false,
    }
}

/// Returns true if a frame is a reply to a request: a reply with its address and command.
fn replies_to(request: &Frame, frame: &FrameView<'_>) -> bool
    ensures { result ≡ replies_to request.now (parts_of frame.now) }
{
    asks_device(request, frame)
        && frame.kind() == FrameKind::Ack
        && request.command() == frame.command()
}

/// Returns true if `request` is a request to the address of `frame`.
fn asks_device(request: &Frame, frame: &FrameView<'_>) -> bool
    ensures { result ≡ asks_device request.now (parts_of frame.now) }
{
    request.kind() == FrameKind::Stx && request.address() == frame.address()
}

/// Returns true if both frames are requests, and all their parts are the same.
fn same_request(one: &Frame, other: &FrameView<'_>) -> bool
    ensures { result ≡ same_request one.now (parts_of other.now) }
{
    one.kind() == FrameKind::Stx
        && other.kind() == FrameKind::Stx
        && same_ends(one, other)
        && same_content(one, other)
}

/// Returns true if two frames have the same master, the same burst bit and the same address.
fn same_ends(one: &Frame, other: &FrameView<'_>) -> bool
    ensures { result ≡ same_ends one.now (parts_of other.now) }
{
    one.master() == other.master()
        && one.burst() == other.burst()
        && one.address() == other.address()
}

/// Returns true if two frames have the same expansion bytes, the same command and the same payload.
fn same_content(one: &Frame, other: &FrameView<'_>) -> bool
    ensures { result ≡ same_content one.now (parts_of other.now) }
{
    one.expansion() == other.expansion()
        && one.command() == other.command()
        && one.payload() == other.payload()
}
