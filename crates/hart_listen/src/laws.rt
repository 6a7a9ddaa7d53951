//! Laws: what a listener tells, and what an explanation of it says.
ghost use Rattle.std.specs.Prelude.{◌≡◌, ◌+◌, ◌-◌, ◌*◌, ◌<◌, ◌≤◌, ◌↔◌, ◌⊎◌, ◌++◌, ◌∷◌, [], ℕ, Bool, false, true, List, All, AllPairs};
ghost use Rattle.std.specs.Prelude.{Contains, IsSome};
ghost use Rattle.std.specs.Prelude.{Option, Some};
ghost use Rattle.std.specs.Prelude.{drop, length, option_map, set, take};
ghost use Rattle.std.specs.List.{flat_map};
ghost use Rattle.hart_frame.specs.heard.Character.{Character, faultless};
ghost use Rattle.hart_frame.specs.heard.Frames.{AreFrames};
ghost use Rattle.hart_frame.specs.heard.InTheWay.{HasBodyAt, HasFaultsAt, IsInTheWay, bytes_from};
ghost use Rattle.hart_frame.specs.heard.Place.{HasFrameUpTo};
ghost use Rattle.hart_frame.specs.heard.Sighting.{AreSightings, Message, Missed, Seen, header_at, miss_in_whole, missed, seen_miss};
ghost use Rattle.hart_frame.specs.heard.Sighting.{sightings};
ghost use Rattle.hart_frame.specs.heard.Sighting.{two_begin_in_body};
ghost use Rattle.hart_frame.specs.heard.Place.{IsStart};
ghost use Rattle.hart_frame.specs.declared.heard.found.Found.{Found};
ghost use Rattle.hart_frame.specs.declared.heard.miss.Miss.{Miss};
ghost use Rattle.hart_frame.specs.declared.heard.miss.Miss.TheVariants.{BadCheck, Faulty, Missing, OnePreamble};
ghost use Rattle.hart_frame.specs.wire.Header.{HeaderParts, header_of};
ghost use Rattle.hart_frame.specs.wire.Layout.{command_place};
ghost use Rattle.hart_frame.specs.wire.Parity.{IsCheckByte};
ghost use Rattle.hart_text.specs.Heard.{Heard, IsDateWord, ReadsHeard, heard_chars};
ghost use Rattle.hart_listen.specs.Before.{before_of};
ghost use Rattle.hart_listen.specs.Dated.{Dated, explanation, words_of};
ghost use Rattle.hart_listen.specs.Gaps.{HasOnePreamble, IsGap, seen_place};
ghost use Rattle.hart_listen.specs.Listener.{HasTold, Hears, IsWaiting};
ghost use Rattle.hart_listen.specs.Preambles.{told_of};
ghost use Rattle.hart_listen.specs.Sightings.{AreDecided, AreSightingsOf, date_of, undated};
ghost use Rattle.hart_listen.specs.Teller.{Moment};
ghost use Rattle.hart_listen.specs.declared.listener.Listener.{Listener};
ghost use Rattle.hart_explain.specs.Message.{paragraph};
ghost use Rattle.hart_explain.specs.Miss.{miss_line, seems_line};
ghost use Rattle.hart_explain.specs.Sighting.{date_words};
ghost use Rattle.hart_explain.specs.Text.{IsOneLine};

use crate::teller::Teller;
use hart_explain::laws::misses_are_lines;
use hart_frame::laws::{
    every_start_has_a_frame_or_a_miss, misses_are_in_the_way, misses_say_what_is_wrong,
};

/// A listener tells each sighting as soon as it is decided, with its date, with what the messages before it say of it, and with the number
/// of its preamble bytes.
///
/// A listener that waits for more has told the decided sightings. All calls but `hear_end` leave a listener waiting. `hear_end` leaves it
/// with nothing held, and then it has told all sightings.
pub fn listeners_tell_all_sightings()
    ensures decided { (listener : Listener) (heard : List Heard) (list : List Dated)
        → HasTold false listener heard list → IsWaiting listener
        → (seen : List Seen) × AreDecided heard seen × (list ≡ told_of heard seen) }
    ensures all { (listener : Listener) (heard : List Heard) (list : List Dated)
        → HasTold true listener heard list → listener.held ≡ []
        → (seen : List Seen) × AreSightingsOf heard seen × (list ≡ told_of heard seen) }
{}

/// Each character that a listener hears takes at least two bytes of the text in which it is heard. Bytes of the text that are left are not
/// among them.
pub fn characters_take_two_bytes()
    ensures { (listener : Listener) (heard : List Heard) (list : List Dated) (text rest : List ℕ)
        → HasTold false listener heard list → ReadsHeard text heard rest
        → 2 * (listener.first + length listener.held) + length rest ≤ length text }
{}

/// If a teller was told all that its listener has told when a call begins, this is also true when the call ends. At the start a caller has
/// to show that `told` is true of the empty list.
pub fn tellers_are_told_what_is_heard<W, T: Teller<W>>()
    ensures { (old new : Listener) (more : List Heard) (ended : Bool) (before after : Moment T W)
        → Hears T.told old new more ended before after
        → (start since : Moment T W) (heard : List Heard) (list : List Dated)
        → HasTold false old heard list → T.told start since before list
        → (all : List Dated) × HasTold ended new (heard ++ more) all × T.told start since after all }
{}

/// What was heard has exactly one list of sightings. At most one list is the list of those that it decides.
pub fn heard_sightings_are_unambiguous()
    ensures one { (heard : List Heard) (xs ys : List Seen) → AreSightingsOf heard xs → AreSightingsOf heard ys → xs ≡ ys }
    ensures some { (heard : List Heard) → (seen : List Seen) × AreSightingsOf heard seen }
    ensures decided { (heard : List Heard) (xs ys : List Seen) → AreDecided heard xs → AreDecided heard ys → xs ≡ ys }
{}

/// Whatever is heard next, the sightings decided so far are the first ones of all, and what is told of them stays the same.
#[tactic(auto, using(crate::proofs::lemmas::Laws::told_sightings_stay))]
pub fn told_sightings_stay()
    ensures { (heard more : List Heard) (seen all : List Seen) → AreDecided heard seen → AreSightingsOf (heard ++ more) all
        → (rest : List Dated) × (told_of (heard ++ more) all ≡ told_of heard seen ++ rest) }
{}

/// The words of what is told are the explanation of the sightings: words say nothing of preamble bytes.
#[tactic(auto, using(crate::proofs::lemmas::Laws::words_leave_out_preamble_bytes))]
pub fn words_leave_out_preamble_bytes()
    ensures { (heard : List Heard) (seen : List Seen) → flat_map words_of (told_of heard seen) ≡ explanation (date_of heard) [] seen }
{}

/// Characters without silences and dates are one stretch, and their explanation has no dates.
pub fn characters_are_one_stretch()
    ensures sightings { (chars : List Character) (seen : List Seen) → AreSightingsOf (heard_chars chars) seen → AreSightings chars 0 seen }
    ensures undated { (chars : List Character) (seen : List Seen)
        → explanation (date_of (heard_chars chars)) [] seen ≡ explanation undated [] seen }
{}

/// An explanation has three parts: the lines about the places before the first message, the date and the paragraph of that message, and the
/// explanation of what follows. After the last message, the explanation is the lines about the places up to the end. The sightings in
/// `earlier` come before all of these.
///
/// A gap between messages has one line for each place with a miss, in the order of the places. A second line follows if, and only if, a
/// header is heard at the place. Let the tail be the characters from the beginning of the gap on. If a body may start in the tail at a
/// place of the gap, this place has a line. If any other place of the gap has a line, the line says that only one intact preamble byte
/// stands directly before the place.
pub fn every_start_outside_messages_has_one_line()
    ensures by_message { (date : ℕ → List ℕ) (earlier : List Seen) (chars : List Character) (from : ℕ) (found : Found) (later : List Found)
        → explanation date earlier (sightings chars from (found ∷ later))
        ≡ explanation date earlier (missed chars from found.start)
        ++ (date_words (date found.start) ++ paragraph (before_of (earlier ++ missed chars from found.start) (Message found)) found)
        ++ explanation date (earlier ++ missed chars from found.start ++ Message found ∷ []) (sightings chars found.stop later) }
    ensures last_gap { (date : ℕ → List ℕ) (earlier : List Seen) (chars : List Character) (from : ℕ)
        → explanation date earlier (sightings chars from []) ≡ explanation date earlier (missed chars from (length chars)) }
    ensures dated_line { (word : List ℕ) (place : ℕ) (miss : Miss) → IsDateWord word → IsOneLine (word ++ 32 ∷ miss_line place miss) }
    ensures one_line { (place : ℕ) (miss : Miss) → IsOneLine (miss_line place miss) }
    ensures second_line { (header : HeaderParts) → IsOneLine (seems_line (Some header)) }
    ensures in_order { (chars : List Character) (from stop : ℕ)
        → AllPairs (λ told later. seen_place told < seen_place later) (missed chars from stop) }
    ensures exactly { (chars : List Character) (from stop place : ℕ) (miss : Miss) (header : Option HeaderParts)
        → Contains (missed chars from stop) (Missed place miss header)
        ↔ ((from ≤ place) × (place < stop)
        × (option_map (miss_in_whole from) (seen_miss (drop from chars) (place - from)) ≡ Some miss)
        × (header ≡ header_at chars place)) }
    ensures every_start { (chars : List Character) (frames : List Found) (from stop place : ℕ)
        → All (λ character. character.byte < 256) chars → AreFrames chars 0 frames → IsGap chars 0 frames from stop
        → from ≤ place → place < stop → IsStart (place - from) (drop from chars) → IsSome (seen_miss (drop from chars) (place - from)) }
    ensures only_there { (chars : List Character) (from stop place : ℕ) (miss : Miss) (header : Option HeaderParts)
        → Contains (missed chars from stop) (Missed place miss header) → IsStart (place - from) (drop from chars) ⊎ (miss ≡ OnePreamble) }
{
    // These calls do nothing: only their contracts are needed.
    every_start_has_a_frame_or_a_miss();
    misses_are_lines();
}

/// Each line of a gap says correctly why no message stands at its place.
///
/// Let the tail be the characters from the beginning of the gap on. At a place where a body may start in the tail, the reason in the line
/// holds in the whole input, too. A line may name the check byte that would fit. If this byte replaces the check byte that was heard, a
/// frame stands at the line's place and ends with it. A character that a line names as damaged has exactly the fault bits that the line
/// says. A line may count missing characters. If this number of characters follows, any bytes and then the right check byte, a frame stands
/// at the line's place and ends with that check byte. A line may say that only one intact preamble byte stands directly before its place.
/// In the whole input, this byte is a faultless `FF` that belongs to no message. The character before it, if any, is no faultless `FF`, or
/// is the check byte of a message. A whole body stands at this place, and no pair of adjacent `FF` begins in the body. A second line tells
/// a header. If the characters after the header's command are replaced so that a body stands at the place, the body has this header.
pub fn hints_of_explanations_are_right()
    ensures in_the_way { (chars : List Character) (from stop place : ℕ) (miss : Miss) (header : Option HeaderParts)
        → All (λ character. character.byte < 256) chars
        → Contains (missed chars from stop) (Missed place miss header) → IsStart (place - from) (drop from chars)
        → IsInTheWay chars place miss }
    ensures fits { (chars : List Character) (from stop place at byte fits : ℕ) (header : Option HeaderParts)
        → All (λ character. character.byte < 256) chars
        → Contains (missed chars from stop) (Missed place (BadCheck at byte fits) header)
        → HasFrameUpTo (set chars at (record { byte = fits; faults = 0 })) place (at + 1) }
    ensures faulty { (chars : List Character) (from stop place at faults : ℕ) (header : Option HeaderParts)
        → All (λ character. character.byte < 256) chars
        → Contains (missed chars from stop) (Missed place (Faulty at faults) header) → HasFaultsAt chars at faults }
    ensures missing { (chars : List Character) (from stop place count : ℕ) (bytes : List ℕ) (header : Option HeaderParts)
        → All (λ character. character.byte < 256) chars → All (λ byte. byte < 256) bytes
        → Contains (missed chars from stop) (Missed place (Missing count) header) → count ≡ length bytes + 1
        → (last : ℕ) × IsCheckByte (bytes_from chars place ++ bytes) last
        × HasFrameUpTo (chars ++ faultless (bytes ++ last ∷ [])) place (length chars + count) }
    ensures alone { (chars : List Character) (frames : List Found) (from stop place : ℕ) (header : Option HeaderParts)
        → All (λ character. character.byte < 256) chars → AreFrames chars 0 frames → IsGap chars 0 frames from stop
        → Contains (missed chars from stop) (Missed place OnePreamble header)
        → HasOnePreamble chars frames place × HasBodyAt chars place × (two_begin_in_body chars place ≡ false) }
    ensures seems { (chars others : List Character) (from stop place : ℕ) (miss : Miss) (header : HeaderParts)
        → Contains (missed chars from stop) (Missed place miss (Some header))
        → take (command_place (bytes_from chars place) + 1) (drop place others)
        ≡ take (command_place (bytes_from chars place) + 1) (drop place chars)
        → (body : HasBodyAt others place) → header ≡ header_of body.frame }
{
    // These calls do nothing: only their contracts are needed.
    every_start_has_a_frame_or_a_miss();
    misses_are_in_the_way();
    misses_say_what_is_wrong();
}
