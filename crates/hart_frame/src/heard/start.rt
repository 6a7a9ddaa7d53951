//! Where the body of a message may start.
ghost use Rattle.std.specs.Prelude.{◌≡◌, ◌<◌, ◌≤◌, ◌⊎◌, ◌↔◌, ℕ, List, length, IsTrue, MatchOption};
ghost use Rattle.hart_frame.specs.heard.Character.{Character};
ghost use Rattle.hart_frame.specs.heard.Place.{HasNoStart, IsFirstStart, IsStart};

use crate::Char;
use crate::wire::message::PREAMBLE;

/// Returns the first place where a body may start, or `None` if there is no such place. A body may start at a place if two faultless
/// preamble bytes `FF` stand right before it and the character at it is not a faultless `FF`. An intact body need not follow.
pub fn first_start(chars: &[Char]) -> Option<usize>
    ensures { MatchOption result (HasNoStart chars.now) (λ place. IsFirstStart place chars.now) }
{
    for place in 2..chars.len() {
        if is_start(chars, place) {
            return Some(place);
        }
    }
    None
}

/// Returns true if a body may start at this place. Two faultless preamble bytes `FF` stand right before such a place, and the character at
/// it is not a faultless `FF`. An intact body need not follow.
pub fn is_start(chars: &[Char], place: usize) -> bool
    ensures { IsTrue result ↔ IsStart place chars.now }
{
    if place < 2 || chars.len() <= place {
        return false;
    }
    is_start_within(chars, place)
}

/// Does the same as [`is_start`] for a place that is at least 2 and below the number of characters.
fn is_start_within(chars: &[Char], place: usize) -> bool
    requires after_two { 2 ≤ place }
    requires within { place < length chars.now }
    ensures { IsTrue result ↔ IsStart place chars.now }
{
    let preamble = Char::new(PREAMBLE, 0).unwrap();
    let (first, second, third) = (chars[place - 2], chars[place - 1], chars[place]);
    if first != preamble || second != preamble {
        return false;
    }
    third != preamble
}

/// A list of characters has either exactly one first start, or no start.
pub fn first_starts_are_decided()
    ensures one { (place other : ℕ) (chars : List Character)
        → IsFirstStart place chars → IsFirstStart other chars → place ≡ other }
    ensures decided { (chars : List Character) → ((place : ℕ) × IsFirstStart place chars) ⊎ HasNoStart chars }
{}
