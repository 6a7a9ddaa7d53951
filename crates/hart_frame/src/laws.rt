//! Laws that follow from the definitions, for readers and for the crates that use this crate.
//!
//! - Of frames and bytes: [`bodies_are_unambiguous`], [`headers_are_those_of_frames`], [`bytes_have_one_fault`],
//!   [`messages_are_short`], [`truncated_bytes_can_become_a_body`], [`open_places_can_begin_a_frame`], [`frames_are_unambiguous`],
//!   [`every_list_has_frames`], [`messages_have_their_frame_alone`].
//! - Of starts, misses and damage: [`first_starts_are_decided`], [`every_start_has_a_frame_or_a_miss`], [`misses_are_in_the_way`],
//!   [`misses_say_what_is_wrong`], [`misses_are_faults`], [`damaged_messages_have_no_other_frame`], [`damage_by_example`].
//! - Of a scanner: [`frames_are_streamed`], [`scanners_move_past_the_next_frames`], [`any_chunking_gives_the_same_frames`],
//!   [`held_frames_are_given`].
//! - For a caller that keeps only the rest of what was heard: [`the_rest_has_the_later_frames`].
//! - For a scanner, which keeps the characters from [`Scanner::first_held`](crate::Scanner::first_held) on:
//!   [`held_characters_have_the_later_frames`].
//! - For [`next_in_bytes`](crate::next_in_bytes): [`next_frames_are_all`].
//! - Of messages and misses: [`sightings_are_unambiguous`], [`the_rest_has_the_later_sightings`]; and for
//!   [`next_sighting`](crate::next_sighting), [`next_sightings_are_all`].
ghost use Rattle.std.specs.Prelude.{◌≡◌, ◌<◌, ◌≤◌, ◌↔◌, List, ℕ, [], ◌∷◌, ◌++◌, Some, length, drop, map, All, IsSome};
ghost use Rattle.hart_frame.specs.wire.FrameParts.{FrameParts};
ghost use Rattle.hart_frame.specs.wire.Body.{IsBody, BeginsWithBody, CanBecomeBody, HasNoBody};
ghost use Rattle.hart_frame.specs.heard.Character.{Character, faultless};
ghost use Rattle.hart_frame.specs.heard.Frames.{AreFrames, IsFirst, moved};
ghost use Rattle.hart_frame.specs.wire.Header.{HeaderParts, header_in, header_of};
ghost use Rattle.hart_frame.specs.wire.Layout.{command_place};
ghost use Rattle.hart_frame.specs.wire.Message.{IsMessage};
ghost use Rattle.hart_frame.specs.heard.Place.{IsOpen, StandsIn};
ghost use Rattle.hart_frame.specs.wire.Refusal.{HasDelimiter, IsRefusedWith, IsTruncated};
ghost use Rattle.hart_frame.specs.declared.wire.fault.FrameFault.{FrameFault};
ghost use Rattle.hart_frame.specs.declared.heard.found.Found.{Found};

pub use crate::heard::damage::{damage_by_example, damaged_messages_have_no_other_frame};
pub use crate::heard::miss::{
    every_start_has_a_frame_or_a_miss, misses_are_faults, misses_are_in_the_way,
    misses_say_what_is_wrong,
};
pub use crate::heard::start::first_starts_are_decided;
pub use crate::scan::next::next_frames_are_all;
pub use crate::scan::sighting::{
    next_sightings_are_all, sightings_are_unambiguous, the_rest_has_the_later_sightings,
};
pub use crate::scan::streamed::{
    any_chunking_gives_the_same_frames, frames_are_streamed, held_characters_have_the_later_frames,
    held_frames_are_given, scanners_move_past_the_next_frames,
};

/// Bodies are unambiguous. At most one prefix of a list of bytes is a body. A body belongs to only one frame, and a frame has only one
/// body. A body stays the body of its frame, whatever bytes follow it.
pub fn bodies_are_unambiguous()
    ensures one_frame { (f g : FrameParts) (bytes : List ℕ) → IsBody f bytes → IsBody g bytes → f ≡ g }
    ensures one_body { (f : FrameParts) (bytes others : List ℕ) → IsBody f bytes → IsBody f others → bytes ≡ others }
    ensures no_proper_prefix { (f g : FrameParts) (bytes rest : List ℕ)
        → IsBody f bytes → IsBody g (bytes ++ rest) → rest ≡ [] }
    ensures one_prefix { (f g : FrameParts) (bytes : List ℕ) (m n : ℕ)
        → BeginsWithBody bytes f m → BeginsWithBody bytes g n → (f ≡ g) × (m ≡ n) }
    ensures whatever_follows { (f : FrameParts) (body rest : List ℕ)
        → IsBody f body → BeginsWithBody (body ++ rest) f (length body) }
{}

/// Bytes have a header exactly if they begin with an STX or ACK delimiter and reach the command. Bytes that begin with a body have the
/// header of that body's frame. Bytes that have a header keep it, whatever follows them. So if the bytes become a body, its frame has this
/// header.
pub fn headers_are_those_of_frames()
    ensures exactly { (bytes : List ℕ) → IsSome (header_in bytes) ↔ (HasDelimiter bytes × (command_place bytes < length bytes)) }
    ensures body { (bytes : List ℕ) (frame : FrameParts) (len : ℕ)
        → BeginsWithBody bytes frame len → header_in bytes ≡ Some (header_of frame) }
    ensures stays { (bytes more : List ℕ) (header : HeaderParts)
        → header_in bytes ≡ Some header → header_in (bytes ++ more) ≡ Some header }
{}

/// A body has at most 267 bytes, and a message with at most 20 preamble bytes has at most 287 bytes.
pub fn messages_are_short()
    ensures body { (frame : FrameParts) (body : List ℕ) → IsBody frame body → length body ≤ 267 }
    ensures message { (frame : FrameParts) (preambles : ℕ) (message : List ℕ) → preambles ≤ 20
        → IsMessage frame preambles message → length message ≤ 287 }
{}

/// Bytes are refused with at most one fault. Bytes that begin with a body are not refused.
pub fn bytes_have_one_fault()
    ensures one { (bytes : List ℕ) (fault other : FrameFault) → IsRefusedWith bytes fault → IsRefusedWith bytes other → fault ≡ other }
    ensures not_both { (bytes : List ℕ) (frame : FrameParts) (len : ℕ) (fault : FrameFault)
        → BeginsWithBody bytes frame len → IsRefusedWith bytes fault → ⊥ }
{}

/// Bytes are refused as truncated exactly if they do not begin with a body, but some bytes can be appended so that they do.
pub fn truncated_bytes_can_become_a_body()
    ensures { (bytes : List ℕ) → All (λ byte. byte < 256) bytes
        → IsTruncated bytes ↔ (CanBecomeBody bytes × HasNoBody bytes) }
{}

/// If a place of a list is open, certain characters appended to the list make a frame stand at that place.
pub fn open_places_can_begin_a_frame()
    ensures { (place : ℕ) (chars : List Character) → All (λ character. character.byte < 256) chars → IsOpen place chars
        → (more : List Character) × (found : Found) × StandsIn found (chars ++ more) 0 × (found.start ≡ place) }
{}

/// Frames are unambiguous: from each place on, characters have at most one first frame, and at most one list of frames.
pub fn frames_are_unambiguous()
    ensures one_first { (f g : Found) (chars : List Character) (from : ℕ)
        → IsFirst f chars from → IsFirst g chars from → f ≡ g }
    ensures one_list { (chars : List Character) (from : ℕ) (xs ys : List Found)
        → AreFrames chars from xs → AreFrames chars from ys → xs ≡ ys }
{}

/// Every list of characters has a list of frames from each place on.
pub fn every_list_has_frames()
    ensures { (chars : List Character) (from : ℕ) → (frames : List Found) × AreFrames chars from frames }
{}

/// If a message with at least two preamble bytes is heard without faults, exactly one frame is heard: the frame of the message. An empty
/// list of characters has no frame.
#[tactic(auto, using(crate::proofs::lemmas::heard::Damage::messages_alone))]
pub fn messages_have_their_frame_alone()
    ensures message { (frame : FrameParts) (preambles : ℕ) (bytes : List ℕ) → 2 ≤ preambles → IsMessage frame preambles bytes
        → AreFrames (faultless bytes) 0 (record { start = preambles; stop = length bytes; frame = frame } ∷ []) }
    ensures nothing { AreFrames [] 0 [] }
{}

/// The rest of a list, after its first `place` characters, has exactly the list's frames from `place` on. Each of these frames stands
/// `place` places later in the list than in the rest. So a caller that keeps only the rest misses no later frame.
pub fn the_rest_has_the_later_frames()
    ensures { (place : ℕ) (chars : List Character) (frames : List Found)
        → AreFrames (drop place chars) 0 frames ↔ AreFrames chars place (map (moved place) frames) }
{}
