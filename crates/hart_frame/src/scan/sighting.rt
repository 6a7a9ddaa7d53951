//! The next message in bytes that were heard, or the next place where a message seems to start but no frame stands.
ghost use Rattle.std.specs.Prelude.{None, Some, ◌≡◌, ◌↔◌, ◌<◌, ◌≤◌, ◌+◌, ◌-◌, ◌^◌, ◌++◌, [], ℕ, Bool, List, false, IfSome};
ghost use Rattle.std.specs.Prelude.{IsTrue, Option, drop, length, map, option_map, take};
ghost use Rattle.hart_frame.specs.heard.Character.{Character, faultless};
ghost use Rattle.hart_frame.specs.heard.Sighting.{AreSightings, IsUndecidedSighting, Seen, SeesOn, has_two_preambles, moved_seen};
ghost use Rattle.hart_frame.specs.private.Prefix.{IsPrefix, IsWholeBody};
ghost use Rattle.hart_frame.specs.scan.Sighting.{AfterIsValid, EndsAt, heard_with, is_end, sightings_of};
ghost use Rattle.hart_frame.specs.private.Sighting.{HasBodyMiss, IsAfterOne, IsAfterTwo, IsAsked, IsNextAsked, IsMessageAt, IsPassed};
ghost use Rattle.hart_frame.specs.private.Sighting.{IsStandingAt, LacksOnePreamble, MayStandAlone, Whatever, stands_alone};
ghost use Rattle.hart_frame.specs.wire.Header.{header_in, header_parts};
ghost use Rattle.hart_frame.specs.wire.Layout.{body_length};
ghost use Rattle.hart_frame.specs.private.Layout.{layout_length};
ghost use Rattle.hart_frame.specs.declared.scan.sighting.After.TheVariants.{More};
ghost use Rattle.hart_frame.specs.declared.scan.sighting.Sighting.TheVariants.{Message, Missed};
ghost use Rattle.hart_frame.specs.declared.scan.view.FoundView.{FoundView};
ghost use Rattle.hart_frame.specs.declared.wire.header.Header.{Header};
ghost use Rattle.hart_frame.specs.declared.wire.prefix.Prefix.TheVariants.{Cut};

use crate::heard::miss::{cut_miss, wrong_miss};
use crate::scan::search::{next_preamble, preamble_end};
use crate::wire::layout::Layout;
use crate::wire::message::PREAMBLE;
use crate::wire::parity::body_check;
use crate::wire::prefix::{Prefix, prefix_of};
use crate::{Char, FoundView, FrameView, Header, Miss};

/// What comes after bytes that were heard without faults.
#[derive(Clone, Copy, Debug, PartialEq, Eq)]
pub enum After {
    /// More characters may come.
    More,
    /// This character comes next, and has fault bits.
    Damaged(Char),
    /// Nothing comes after the bytes.
    End,
}

/// A message, or a place where a message seems to start but no frame stands.
#[derive(Drop)]
pub enum Sighting<'a> {
    /// A message. Its frame is borrowed from the bytes in which it was found.
    Message(FoundView<'a>),
    /// Why no frame stands at this place. `header` is the header at the front of the faultless bytes from this place on. It is `None` if
    /// these bytes do not begin with an STX or ACK delimiter, or if they end before the command.
    Missed {
        place: usize,
        miss: Miss,
        header: Option<Header>,
    },
}

/// The next sighting in bytes.
#[derive(Drop)]
pub struct NextSighting<'a> {
    /// The next message or miss, or `None` if no sighting is decided yet, or no sighting is left.
    pub sighting: Option<Sighting<'a>>,
    /// The place from which to continue. All later sightings stand at or after it.
    pub used: usize,
}

/// Returns the next message or miss in bytes that were heard without faults and in what comes after them.
///
/// The preamble bytes before the message, or before the place of the miss, stand at or after `from`. Sightings come in the order of their
/// places. A whole body after a single `FF` is a miss only if no two `FF` in a row begin within that body. All places, also the places in a
/// miss, are counted from the first of `bytes`.
///
/// Continue from [`NextSighting::used`] to get the next sighting. If there is no sighting and `after` is [`After::More`], at most 268 bytes
/// are left, and these bytes decide no sighting. If there is no sighting and `after` is another value, all bytes are used up. The character
/// of [`After::Damaged`] is then used up too.
pub fn next_sighting(bytes: &[u8], after: After, from: usize) -> NextSighting<'_>
    requires within { from ≤ length (heard_with bytes.now after) }
    requires valid { AfterIsValid after }
    requires places { length bytes.now < 2 ^ 64 - 1 }
    ensures sightings { SeesOn (heard_with bytes.now after) (is_end after) from (sightings_of result.sighting) result.used }
    ensures within { result.used ≤ length (heard_with bytes.now after) }
    ensures onward { from ≤ result.used }
    ensures further { IfSome result.sighting (λ sighting. from < result.used) }
    ensures places { IfSome result.sighting (EndsAt (length (heard_with bytes.now after)) result.used) }
    ensures few { result.sighting ≡ None → length (heard_with bytes.now after) < result.used + 269 }
    ensures all { result.sighting ≡ None → (after ≡ More → ⊥) → result.used ≡ length (heard_with bytes.now after) }
    ensures undecided { result.sighting ≡ None → after ≡ More → IsUndecidedSighting (heard_with (drop result.used bytes.now) More) }
{
    if from > bytes.len() {
        return none_decided(from);
    }
    let mut place = from;
    while let Some(start) = next_asked(bytes, &after, place) {
        match standing_at(bytes, &after, from, start) {
            Standing::Nothing => place = start,
            Standing::Open(used) => return none_decided(used),
            Standing::Message(layout) => return message_at(bytes, start, layout),
            Standing::Missed(miss) => return missed(bytes, start, miss),
        }
    }
    none_decided(passed(bytes, &after, from))
}

/// Returns no sighting. All characters before the place `used` are used up.
fn none_decided<'a>(used: usize) -> NextSighting<'a>
    ensures { result ≡ record { sighting = None; used = used } }
{
    NextSighting {
        sighting: None,
        used,
    }
}

/// Returns the miss of a place, with the header of the bytes from there on.
fn missed<'a>(bytes: &[u8], place: usize, miss: Miss) -> NextSighting<'a>
    requires within { place ≤ length bytes.now }
    requires places { length bytes.now < 2 ^ 64 - 1 }
    ensures miss { (header : Option Header) × (result.sighting ≡ Some (Missed place miss header))
        × (option_map header_parts header ≡ header_in (drop place bytes.now)) }
    ensures used { result.used ≡ place + 1 }
{
    NextSighting {
        sighting: Some(Sighting::Missed {
            place,
            miss,
            header: Header::read(&bytes[place..]),
        }),
        used: place + 1,
    }
}

/// Returns the message whose body stands at `start` and has this layout.
fn message_at(bytes: &[u8], start: usize, layout: Layout) -> NextSighting<'_>
    requires order { start ≤ length bytes.now }
    requires places { length bytes.now < 2 ^ 64 - 1 }
    requires within { layout_length layout ≤ length (drop start bytes.now) }
    requires whole { IsWholeBody layout (take (layout_length layout) (drop start bytes.now)) }
    ensures message { (view : FoundView) × (result.sighting ≡ Some (Message view)) × IsMessageAt bytes.now start result.used view }
    ensures used { result.used ≡ start + layout_length layout }
{
    let stop = start + layout.body_len();
    NextSighting {
        sighting: Some(Sighting::Message(FoundView {
            start: start as u64,
            stop: stop as u64,
            frame: FrameView::view_in(layout, &bytes[start..stop]),
        })),
        used: stop,
    }
}

/// What stands at a place right after a preamble byte.
#[derive(Clone, Copy)]
pub(crate) enum Standing {
    /// No sighting.
    Nothing,
    /// What stands there is not decided yet. All characters before the place in this field are used up.
    Open(usize),
    /// A message, whose body has this layout.
    Message(Layout),
    /// A miss.
    Missed(Miss),
}

/// Returns what stands at `start`.
fn standing_at(bytes: &[u8], after: &After, from: usize, start: usize) -> Standing
    requires asked { IsAsked bytes.now after.now from start }
    requires places { length bytes.now < 2 ^ 64 - 1 }
    ensures { IsStandingAt bytes.now after.now from start result }
{
    if start >= from + 2 && bytes[start - 2] == PREAMBLE {
        return after_two(bytes, after, start);
    }
    after_one(bytes, after, start)
}

/// Returns what stands at `start`, which is right after two preamble bytes.
fn after_two(bytes: &[u8], after: &After, start: usize) -> Standing
    requires two { 2 ≤ start }
    requires within { start ≤ length bytes.now }
    requires places { length bytes.now < 2 ^ 64 - 1 }
    ensures { IsAfterTwo bytes.now after.now start result }
{
    match prefix_of(&bytes[start..]) {
        Prefix::Whole(layout) => Standing::Message(layout),
        Prefix::Wrong(wrong) => Standing::Missed(wrong_miss(wrong, start)),
        Prefix::Cut(missing) => match after {
            After::More => Standing::Open(start - 2),
            After::Damaged(character) => Standing::Missed(Miss::Faulty {
                place: bytes.len(),
                faults: character.faults(),
            }),
            After::End => Standing::Missed(cut_miss(missing)),
        },
    }
}

/// Returns what stands at `start`, which is right after exactly one preamble byte. A whole body at `start` is a miss, unless two preamble
/// bytes in a row begin within that body. Without this exception, up to 535 characters would be held until it is decided whether a message
/// begins there.
fn after_one(bytes: &[u8], after: &After, start: usize) -> Standing
    requires one { 1 ≤ start }
    requires within { start ≤ length bytes.now }
    requires places { length bytes.now < 2 ^ 64 - 1 }
    ensures { IsAfterOne bytes.now after.now start result }
{
    let heard = &bytes[start..];
    match prefix_of(heard) {
        Prefix::Whole(layout) => lone_body(bytes, after, start, start + layout.body_len()),
        Prefix::Wrong(_) => Standing::Nothing,
        Prefix::Cut(missing) => {
            if *after == After::More && can_stand_alone(heard, missing) {
                Standing::Open(start - 1)
            } else {
                Standing::Nothing
            }
        }
    }
}

/// Returns what stands at `start`. A single preamble byte stands right before `start`, and a whole body stands from `start` up to `stop`.
fn lone_body(bytes: &[u8], after: &After, start: usize, stop: usize) -> Standing
    requires one { 1 ≤ start }
    requires order { start < stop }
    requires within { stop ≤ length bytes.now }
    requires body { body_length (drop start bytes.now) ≡ stop - start }
    requires long { stop ≤ start + 267 }
    requires whole { Whatever bytes.now after.now (HasBodyMiss start None) }
    requires places { length bytes.now < 2 ^ 64 - 1 }
    ensures { IsAfterOne bytes.now after.now start result }
{
    let end = bytes.len().min(stop + 1);
    if has_two_preambles(&bytes[start..end]) {
        return Standing::Nothing;
    }
    if *after == After::More && stop == bytes.len() && bytes[stop - 1] == PREAMBLE {
        return Standing::Open(start - 1);
    }
    Standing::Missed(Miss::OnePreamble)
}

/// Returns true if more bytes can make these bytes a body in which no two preamble bytes in a row begin. `missing` is the number of bytes
/// that are missing for a body, or `None` if the bytes end before the byte count.
fn can_stand_alone(bytes: &[u8], missing: Option<usize>) -> bool
    requires { IsPrefix bytes.now (Cut missing) }
    ensures may { IsTrue result → MayStandAlone bytes.now 0 }
    ensures never { result ≡ false → (more : List Character) → stands_alone (faultless bytes.now ++ more) 0 ≡ false }
{
    !has_two_preambles(bytes) && !lacks_one_preamble(bytes, missing)
}

/// Returns true if the bytes end in a preamble byte and lack only their check byte, and if the check byte that fits is `FF` too.
fn lacks_one_preamble(bytes: &[u8], missing: Option<usize>) -> bool
    requires { IsPrefix bytes.now (Cut missing) }
    ensures { IsTrue result ↔ LacksOnePreamble bytes.now }
{
    let Some(1) = missing else {
        return false;
    };
    bytes.last() == Some(&PREAMBLE) && body_check(bytes) == PREAMBLE
}

/// Returns true if two preamble bytes stand in a row.
#[tactic(auto, using(std::proofs::lemmas::Bool::Decides::nat_tests, crate::proofs::lemmas::scan::Alone::two_preambles))]
fn has_two_preambles(bytes: &[u8]) -> bool
    ensures { result ≡ has_two_preambles bytes.now }
{
    let mut before = false;
    for byte in bytes {
        let preamble = *byte == PREAMBLE;
        if before && preamble {
            return true;
        }
        before = preamble;
    }
    false
}

/// Returns the place up to which bytes are used up if they have no sighting and no open place. For [`After::Damaged`], the character with
/// fault bits is used up too. For [`After::More`], the preamble bytes at the end, at most two, are not used up.
fn passed(bytes: &[u8], after: &After, from: usize) -> usize
    requires within { from ≤ length bytes.now }
    requires places { length bytes.now < 2 ^ 64 - 1 }
    ensures { IsPassed bytes.now after.now from result }
{
    let len = bytes.len();
    match after {
        After::End => len,
        After::Damaged(_) => len + 1,
        After::More => {
            if len == from || bytes[len - 1] != PREAMBLE {
                len
            } else if len - 1 == from || bytes[len - 2] != PREAMBLE {
                len - 1
            } else {
                len - 2
            }
        }
    }
}

/// Finds the next place after `from` where a sighting may stand, or `None` if there is no such place. A preamble byte stands right before
/// such a place, and a character that is no preamble byte stands at it.
fn next_asked(bytes: &[u8], after: &After, from: usize) -> Option<usize>
    requires within { from ≤ length bytes.now }
    ensures { IsNextAsked bytes.now after.now from result }
{
    let first = next_preamble(bytes, from);
    if first == bytes.len() {
        return None;
    }
    let place = preamble_end(bytes, first);
    let stands = place < bytes.len() || matches!(after, After::Damaged(_));
    stands.then_some(place)
}

/// The rest of a list, after its first `place` characters, has exactly the list's sightings from `place` on. Each of these sightings stands
/// `place` places later in the list than in the rest. So a caller that keeps only the rest misses no later sighting.
#[tactic(auto, using(crate::proofs::lemmas::scan::SightingLaws::rest))]
pub fn the_rest_has_the_later_sightings()
    ensures { (place : ℕ) (chars : List Character) (seen : List Seen)
        → AreSightings (drop place chars) 0 seen → AreSightings chars place (map (moved_seen place) seen) }
{}

/// A list of characters has exactly one list of sightings from each place on.
pub fn sightings_are_unambiguous()
    ensures one { (chars : List Character) (from : ℕ) (xs ys : List Seen)
        → AreSightings chars from xs → AreSightings chars from ys → xs ≡ ys }
    ensures some { (chars : List Character) (from : ℕ) → (seen : List Seen) × AreSightings chars from seen }
{}

/// Sightings that calls find one after another are the next sightings of the list, whether more characters follow or not. Every sighting
/// that is still to be found stands in the characters that are not used up and in those that come later. Once all characters are used up,
/// all sightings of the list are found.
pub fn next_sightings_are_all()
    ensures onward { (chars : List Character) (ended : Bool) (from to after : ℕ) (given found : List Seen)
        → SeesOn chars ended from given to → SeesOn chars ended to found after → SeesOn chars ended from (given ++ found) after }
    ensures grown { (chars piece : List Character) (ended : Bool) (from to : ℕ) (given : List Seen)
        → SeesOn chars false from given to → SeesOn (chars ++ piece) ended from given to }
    ensures rest { (chars more : List Character) (ended : Bool) (given later : List Seen) (to : ℕ) → to ≤ length chars
        → SeesOn chars ended 0 given to → (IsTrue ended → more ≡ []) → AreSightings (drop to chars ++ more) 0 later
        → AreSightings (chars ++ more) 0 (given ++ map (moved_seen to) later) }
    ensures all { (chars : List Character) (ended : Bool) (given : List Seen) → SeesOn chars ended 0 given (length chars)
        → AreSightings chars 0 given }
{}
