//! Why no frame stands at a place where a message seems to start.
ghost use Rattle.std.specs.Prelude.{◌≡◌, ◌≢◌, ◌+◌, ◌^◌, ◌<◌, ◌≤◌, ◌⊎◌, ◌↔◌, ℕ, List, [], ◌∷◌, ◌++◌, None, Some, length, drop, insert, set};
ghost use Rattle.std.specs.Prelude.{All, IsSome, MatchOption, slice_get};
ghost use Rattle.hart_frame.specs.heard.Character.{Character, faultless, faultless_bytes};
ghost use Rattle.hart_frame.specs.heard.InTheWay.{FollowsOnePreamble, HasBodyAt, HasFaultsAt, IsInTheWay, IsMiss, bytes_from, fault_of};
ghost use Rattle.hart_frame.specs.private.Miss.{IsOfBytes, cut_miss, wrong_miss};
ghost use Rattle.hart_frame.specs.private.Prefix.{shown_by};
ghost use Rattle.hart_frame.specs.heard.Place.{HasFrameAt, HasFrameUpTo};
ghost use Rattle.hart_frame.specs.heard.Miss.{body_miss, delimiter_miss, faulty_or, follows_one_preamble, follows_preamble, miss_of};
ghost use Rattle.hart_frame.specs.heard.Place.{IsStart};
ghost use Rattle.hart_frame.specs.wire.Body.{BeginsWithBody};
ghost use Rattle.hart_frame.specs.wire.FrameParts.{FrameParts};
ghost use Rattle.hart_frame.specs.wire.Parity.{IsCheckByte};
ghost use Rattle.hart_frame.specs.wire.Refusal.{IsRefusedWith};
ghost use Rattle.hart_frame.specs.declared.wire.fault.FrameFault.{FrameFault};
ghost use Rattle.hart_frame.specs.declared.heard.miss.Miss.{Miss};
ghost use Rattle.hart_frame.specs.declared.heard.miss.Miss.TheVariants.{BadCheck, Faulty, Missing, OnePreamble};

use crate::heard::character::faultless_front;
use crate::heard::start::is_start;
use crate::wire::delimiter::is_burst_delimiter;
use crate::wire::message::PREAMBLE;
use crate::wire::prefix::{Prefix, Wrong, prefix_of};
use crate::{Body, Char};

/// Why no frame stands at a place of what was heard. Places are counted from 0, the place of the first character.
#[derive(Clone, Copy, Debug, PartialEq, Eq)]
pub enum Miss {
    /// The character at `place` has the fault bits `faults`, and the bytes before this character end too early for a body.
    Faulty { place: usize, faults: u8 },
    /// The first byte is the delimiter of a burst message. This crate does not decode burst messages.
    Burst,
    /// The first byte is `byte`, which is neither an STX or ACK delimiter nor the delimiter of a burst message.
    BadDelimiter { byte: u8 },
    /// The characters end before the byte count.
    EndsBeforeByteCount,
    /// An ACK has the byte count `byte_count`, which is below 2.
    ShortReply { byte_count: u8 },
    /// The characters end before the check byte. `count` characters are missing, and the last of these is the check byte.
    Missing { count: usize },
    /// The check byte at this place is `byte`, but the byte that would fit is `fits`.
    BadCheck { place: usize, byte: u8, fits: u8 },
    /// A whole body stands at the place, but only a single preamble byte `FF` stands before it.
    OnePreamble,
}

/// Returns why no frame stands at `start`, if a message seems to start there. Returns `None` if a frame stands there, or if no message
/// seems to start there.
///
/// Where a body may start (see [`is_start`](crate::is_start)), the miss is the first of these that applies:
///
/// - The first byte is the delimiter of a burst message, or another byte that is no STX or ACK delimiter.
/// - The characters end before the byte count.
/// - An ACK has a byte count below 2.
/// - The characters end before the check byte.
/// - The check byte does not fit.
///
/// If a character with fault bits comes before it is clear which of these applies, the miss is a [`Miss::Faulty`] for that character. A
/// whole body after a single faultless `FF` is a [`Miss::OnePreamble`].
///
/// The function looks at no more than 267 characters from `start` on, the length of the longest body.
///
/// ```rust
/// // FF FF 02 80 00 00 83 was heard.
/// let wanted = Miss::BadCheck {
///     place: 6,
///     byte: 0x83,
///     fits: 0x82,
/// };
/// assert_eq!(rt; why_none(chars, 2), Some(wanted));
/// ```
pub fn why_none(chars: &[Char], start: usize) -> Option<Miss>
    ensures miss { MatchOption result ((miss : Miss) → IsMiss chars.now start miss → ⊥) (IsMiss chars.now start) }
    ensures found { result ≡ miss_of chars.now start }
{
    let heard = chars.get(start..)?;
    if is_start(chars, start) {
        return body_miss(heard, start);
    }
    if follows_one_preamble(chars, start) && body_miss(heard, start).is_none() {
        return Some(Miss::OnePreamble);
    }
    None
}

/// Returns why no body begins at the front of `heard`, or `None` if a body begins there. `heard` has the characters from `start` on.
fn body_miss(heard: &[Char], start: usize) -> Option<Miss>
    requires within { start + length heard.now < 2 ^ 64 }
    ensures found { result ≡ body_miss start heard.now }
    ensures fit { IsOfBytes heard.now }
{
    let bytes: Body = faultless_front(heard);
    let end = bytes.len();
    match prefix_of(bytes.as_slice()) {
        Prefix::Whole(_) => None,
        Prefix::Wrong(wrong) => Some(wrong_miss(wrong, start)),
        Prefix::Cut(missing) => Some(faulty_or(heard, end, start, cut_miss(missing))),
    }
}

/// Returns the miss of a place at which the bytes can never become a body.
pub(crate) fn wrong_miss(wrong: Wrong, start: usize) -> Miss
    requires some { 0 < shown_by wrong }
    requires within { start + shown_by wrong < 2 ^ 64 }
    ensures { result ≡ wrong_miss wrong start }
{
    match wrong {
        Wrong::BadDelimiter { byte } => delimiter_miss(byte),
        Wrong::ShortReply { byte_count, .. } => Miss::ShortReply { byte_count },
        Wrong::BadCheck { len, byte, fits } => Miss::BadCheck {
            place: start + (len - 1),
            byte,
            fits,
        },
    }
}

/// Returns why this first byte is no STX or ACK delimiter.
fn delimiter_miss(byte: u8) -> Miss
    ensures { result ≡ delimiter_miss byte }
{
    if is_burst_delimiter(byte) {
        return Miss::Burst;
    }
    Miss::BadDelimiter { byte }
}

/// Returns the miss of bytes that end too early for a body, with no character after them. `missing` is the number of missing bytes, or
/// `None` if the bytes end before the byte count.
pub(crate) fn cut_miss(missing: Option<usize>) -> Miss
    ensures { result ≡ cut_miss missing }
{
    match missing {
        Some(count) => Miss::Missing { count },
        None => Miss::EndsBeforeByteCount,
    }
}

/// Returns the miss that names the character after the first `count` characters and its fault bits, or `at_end` if there is no such
/// character.
fn faulty_or(heard: &[Char], count: usize, start: usize, at_end: Miss) -> Miss
    requires within { start + length heard.now < 2 ^ 64 }
    ensures { result ≡ faulty_or (slice_get heard.now count) (start + count) at_end }
{
    match heard.get(count) {
        Some(character) => Miss::Faulty {
            place: start + count,
            faults: character.faults(),
        },
        None => at_end,
    }
}

/// Returns true if exactly one faultless preamble byte `FF` stands right before this place.
fn follows_one_preamble(chars: &[Char], place: usize) -> bool
    requires within { place ≤ length chars.now }
    ensures { result ≡ follows_one_preamble chars.now place }
{
    follows_preamble(chars, place) && !follows_preamble(chars, place - 1)
}

/// Returns true if a faultless preamble byte `FF` stands right before this place.
#[tactic(auto, using(std::proofs::lemmas::Bool::Decides::nat_tests, crate::proofs::lemmas::heard::InTheWay::character_at))]
fn follows_preamble(chars: &[Char], place: usize) -> bool
    requires within { place ≤ length chars.now }
    ensures { result ≡ follows_preamble chars.now place }
{
    if place == 0 {
        return false;
    }
    let before = chars[place - 1];
    before.byte() == PREAMBLE && before.is_faultless()
}

/// A place where a body may start has a frame or a miss. No place has both. At a place where no body may start, the only possible miss is
/// [`Miss::OnePreamble`], for a whole body after a single preamble byte.
pub fn every_start_has_a_frame_or_a_miss()
    ensures one { (place : ℕ) (chars : List Character) → All (λ character. character.byte < 256) chars → IsStart place chars
        → HasFrameAt chars place ⊎ IsSome (miss_of chars place) }
    ensures not_both { (place : ℕ) (chars : List Character) → HasFrameAt chars place → miss_of chars place ≡ None }
    ensures only_there { (place : ℕ) (chars : List Character) (miss : Miss) → miss_of chars place ≡ Some miss
        → IsStart place chars ⊎ (miss ≡ OnePreamble) }
{}

/// A miss names what really stands in the way of a frame.
///
/// - `BadCheck`: if the byte that fits replaces the byte at the named place, a frame starts at `start` and ends with that byte.
/// - `Faulty`: the character at the named place has the named fault bits. If a faultless character replaces this character, the miss no
///   longer names the place as faulty.
/// - `Missing`: append any `count - 1` bytes, and then the check byte of all bytes from `start` on. A frame then starts at `start` and ends
///   with that check byte.
/// - `OnePreamble`: if another faultless `FF` is inserted right after the single `FF`, a frame stands right after both `FF`.
pub fn misses_say_what_is_wrong()
    ensures bad_check { (start place byte fits : ℕ) (chars : List Character) → All (λ character. character.byte < 256) chars
        → miss_of chars start ≡ Some (BadCheck place byte fits)
        → HasFrameUpTo (set chars place (record { byte = fits; faults = 0 })) start (place + 1) }
    ensures faulty { (start place faults byte others : ℕ) (chars : List Character) → miss_of chars start ≡ Some (Faulty place faults)
        → miss_of (set chars place (record { byte = byte; faults = 0 })) start ≢ Some (Faulty place others) }
    ensures fault_bits { (start place faults : ℕ) (chars : List Character) → miss_of chars start ≡ Some (Faulty place faults)
        → HasFaultsAt chars place faults }
    ensures missing { (start count : ℕ) (chars : List Character) (bytes : List ℕ) → All (λ character. character.byte < 256) chars
        → All (λ byte. byte < 256) bytes → miss_of chars start ≡ Some (Missing count) → count ≡ length bytes + 1
        → (last : ℕ) × IsCheckByte (bytes_from chars start ++ bytes) last
        × HasFrameUpTo (chars ++ faultless (bytes ++ last ∷ [])) start (length chars + count) }
    ensures one_preamble { (start : ℕ) (chars : List Character) → All (λ character. character.byte < 256) chars
        → miss_of chars start ≡ Some OnePreamble
        → HasFrameAt (insert chars start (record { byte = 255; faults = 0 })) (start + 1) }
{}

/// Where a body may start, the miss corresponds to the fault with which [`decode`](crate::decode) refuses the bytes from there up to the
/// first character with fault bits, or up to the end. So `miss_of` and `decode` test their conditions in the same order. If the bytes from
/// a place on begin with a body, a miss of that place corresponds to no fault.
pub fn misses_are_faults()
    ensures refused { (start : ℕ) (chars : List Character) (miss : Miss) → All (λ character. character.byte < 256) chars
        → IsStart start chars → miss_of chars start ≡ Some miss
        → (fault : FrameFault) × (fault_of miss ≡ Some fault) × IsRefusedWith (faultless_bytes (drop start chars)) fault }
    ensures whole { (start len : ℕ) (chars : List Character) (miss : Miss) (frame : FrameParts)
        → All (λ character. character.byte < 256) chars → miss_of chars start ≡ Some miss
        → BeginsWithBody (faultless_bytes (drop start chars)) frame len → fault_of miss ≡ None }
{}

/// `miss_of` tests one condition after another, and finds exactly the misses that `IsMiss` describes. A place has at most one miss. Where a
/// body may start, the misses are exactly those that `IsInTheWay` describes. At any other place there is a miss only if a whole body stands
/// there after a single preamble byte.
pub fn misses_are_in_the_way()
    ensures found { (start : ℕ) (chars : List Character) (miss : Miss) → All (λ character. character.byte < 256) chars
        → (miss_of chars start ≡ Some miss) ↔ IsMiss chars start miss }
    ensures one { (start : ℕ) (chars : List Character) (miss other : Miss) → All (λ character. character.byte < 256) chars
        → IsMiss chars start miss → IsMiss chars start other → miss ≡ other }
    ensures in_the_way { (start : ℕ) (chars : List Character) (miss : Miss) → All (λ character. character.byte < 256) chars
        → IsStart start chars → (miss_of chars start ≡ Some miss) ↔ IsInTheWay chars start miss }
    ensures one_alone { (start : ℕ) (chars : List Character) → All (λ character. character.byte < 256) chars
        → (miss_of chars start ≡ Some OnePreamble) ↔ (FollowsOnePreamble chars start × HasBodyAt chars start) }
{}
