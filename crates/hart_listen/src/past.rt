//! What is kept of what was told and dropped.
ghost use Rattle.std.specs.Prelude.{◌≡◌, ◌+◌, ◌-◌, ◌<◌, ◌≤◌, ◌++◌, ◌∷◌, ◌^◌, [], ℕ, List, length};
ghost use Rattle.hart_explain.specs.Sighting.{FitsFrom};
ghost use Rattle.hart_frame.specs.heard.Character.{faultless};
ghost use Rattle.hart_frame.specs.heard.Sighting.{Seen, moved_seen};
ghost use Rattle.hart_frame.specs.scan.Sighting.{seen_of};
ghost use Rattle.hart_listen.specs.Before.{AreAlike, before_of};
ghost use Rattle.hart_listen.specs.Gaps.{seen_place};
ghost use Rattle.hart_listen.specs.LastMessages.{KeepsOwn, recalled};
ghost use Rattle.hart_listen.specs.Past.{no_past};
ghost use Rattle.hart_listen.specs.Preambles.{after_preambles, last_preambles, last_stop, own_preambles, preambles_at, preambles_dropped};
ghost use Rattle.hart_listen.specs.Preambles.{stop_after};

use crate::last_messages::{LastMessages, hear_sighting, no_messages};
use hart_explain::Before;
use hart_frame::Sighting;

/// A preamble byte.
const PREAMBLE: u8 = 0xFF;

/// The preamble bytes of most messages. To compare them all takes fewer instructions than to count them.
const USUAL: [u8; 5] = [PREAMBLE; 5];

/// What is kept of what was told and dropped, since later sightings need it.
#[derive(Drop)]
pub struct Past {
    /// The last request of each master, until a reply completes it.
    pub last: LastMessages,
    /// The place after the last message, or 0.
    pub stop: u64,
    /// How many intact preamble bytes stand right before the first held character, in its stretch.
    pub preambles: u64,
}

impl Past {
    /// Returns the state in which nothing was heard.
    pub fn new() -> Past
        ensures { result ≡ no_past }
    {
        Past {
            last: no_messages(),
            stop: 0,
            preambles: 0,
        }
    }

    /// Returns what is known of a sighting from what was heard before it, and keeps what later sightings need. The first of the `held`
    /// bytes has the place `first`.
    pub fn hear(&mut self, first: u64, held: &[u8], sighting: &Sighting<'_>) -> Before
        requires places { FitsFrom first sighting.now }
        requires within { seen_place (seen_of sighting.now) ≤ length held.now }
        requires few { self.old.preambles + length held.now < 2 ^ 64 }
        requires own { KeepsOwn (2 ^ 64 - 2) self.old.last }
        ensures before { (earlier : List Seen) → self.old.stop ≡ last_stop earlier
            → let seen = moved_seen first (seen_of sighting.now) in
            result ≡ record (before_of (recalled self.old.last) seen)
            { preambles = own_preambles (preambles_at self.old.preambles first (faultless held.now)) earlier seen } }
        ensures alike { AreAlike (recalled self.new.last) (recalled self.old.last ++ moved_seen first (seen_of sighting.now) ∷ []) }
        ensures own { (most : ℕ) → KeepsOwn most self.old.last → KeepsOwn (most + 1) self.new.last }
        ensures stop { self.new.stop ≡ stop_after self.old.stop (moved_seen first (seen_of sighting.now)) }
        ensures preambles { self.new.preambles ≡ self.old.preambles }
    {
        let preambles = self.count(first, held, sighting);
        let before = hear_sighting(&mut self.last, first, sighting);
        Before {
            answers: before.answers,
            sending: before.sending,
            preambles,
        }
    }

    /// Returns the number of preamble bytes of a message, which becomes the last message. Returns `None` for a miss.
    fn count(&mut self, first: u64, held: &[u8], sighting: &Sighting<'_>) -> Option<u64>
        requires places { FitsFrom first sighting.now }
        requires within { seen_place (seen_of sighting.now) ≤ length held.now }
        requires few { self.old.preambles + length held.now < 2 ^ 64 }
        ensures count { (earlier : List Seen) → self.old.stop ≡ last_stop earlier
            → result ≡ own_preambles
            (preambles_at self.old.preambles first (faultless held.now)) earlier
            (moved_seen first (seen_of sighting.now)) }
        ensures stop { self.new ≡ record self.old { stop = stop_after self.old.stop (moved_seen first (seen_of sighting.now)) } }
    {
        let Sighting::Message(found) = sighting else {
            return None;
        };
        let heard = preambles_of_message(self.preambles, &held[..found.start as usize]);
        let own = (first + found.start).saturating_sub(self.stop);
        self.stop = first + found.stop;
        Some(heard.min(own))
    }

    /// Hears that the first `used` characters are dropped: held bytes, and maybe a damaged character after all of them.
    pub fn let_go(&mut self, held: &[u8], used: usize)
        requires few { self.old.preambles + length held.now < 2 ^ 64 }
        ensures { self.new ≡ record self.old { preambles = preambles_dropped self.old.preambles held.now used } }
    {
        self.preambles = match held.get(..used) {
            Some(dropped) => preambles_after(self.preambles, dropped),
            None => 0,
        };
    }

    /// Hears a silence.
    pub fn hear_silence(&mut self)
        ensures { self.new ≡ record self.old { preambles = 0 } }
    {
        self.preambles = 0;
    }
}

/// Returns how many preamble bytes stand right before a message, which comes after some bytes. `preambles` of them stand right before the
/// bytes.
fn preambles_of_message(preambles: u64, bytes: &[u8]) -> u64
    requires { preambles + length bytes.now < 2 ^ 64 }
    ensures { result ≡ last_preambles (after_preambles preambles (faultless bytes.now)) }
{
    match bytes.strip_suffix(&USUAL) {
        Some(rest) => 5 + preambles_after(preambles, rest),
        None => preambles_after(preambles, bytes),
    }
}

/// Returns how many preamble bytes stand right before the end of some bytes. `preambles` of them stand right before the bytes.
fn preambles_after(preambles: u64, bytes: &[u8]) -> u64
    requires { preambles + length bytes.now < 2 ^ 64 }
    ensures { result ≡ last_preambles (after_preambles preambles (faultless bytes.now)) }
{
    let mut place = bytes.len();
    while place > 0 {
        if bytes[place - 1] != PREAMBLE {
            return (bytes.len() - place) as u64;
        }
        place -= 1;
    }
    preambles + bytes.len() as u64
}
