//! What is spoken in one event.
ghost use Rattle.std.specs.Prelude.{◌≡◌, ◌<◌, ◌+◌, ◌≤◌, [], Any, IfErr, OnOk, length};
ghost use Rattle.std.specs.Option.{option_copied};
ghost use Rattle.hart_line.specs.world.Spoken.{IsSpoken, Speaks, spoken_by};

use crate::line::log::Log;
use crate::{NoRoom, Party, Spoken};
use hart_frame::{Body, Frame};
use std::marker::Model;

/// The frames that are spoken in one event: at most two, a request and a reply. The frames are stored in the value itself, without
/// allocation.
///
/// In contracts, a value of this type is the list of these frames.
#[derive(Drop)]
pub struct EventFrames {
    first: Spoken,
    second: Spoken,
    count: usize,
}

impl Model for EventFrames {
    ghost use Rattle.std.specs.Prelude.{◌≤◌, [], ◌∷◌, List, take};
    ghost use Rattle.hart_line.specs.declared.line.report.Spoken.{Spoken};

    ghost Value = { List Spoken };

    ghost view = { λ frames. take frames.count (frames.first ∷ frames.second ∷ []) };

    ghost invariant = { λ frames. frames.count ≤ 2 };
}

impl EventFrames {
    /// Returns an empty list, for an event in which nothing was spoken yet.
    pub fn new() -> Self
        ensures { result ≡ [] }
    {
        EventFrames {
            first: no_spoken(),
            second: no_spoken(),
            count: 0,
        }
    }

    /// Appends a frame, with the party that spoke it and its number of preamble bytes. Without a frame, appends nothing.
    pub fn speak(&mut self, party: Party, preambles: u8, frame: Option<&Frame>)
        requires { length self.old ≤ 1 }
        ensures speaks { Speaks (spoken_by party preambles (option_copied frame.entry)) self.old self.new }
        ensures one { length self.new ≤ length self.old + 1 }
    {
        let Some(frame) = frame else {
            return;
        };
        if self.count == 0 {
            put_down(&mut self.first, party, preambles, frame);
            self.count = 1;
        } else {
            put_down(&mut self.second, party, preambles, frame);
            self.count = 2;
        }
    }

    /// Notes these frames in a log, in order, and stops at the first frame for which the log has no room. Afterwards this list is empty,
    /// whether or not all of its frames were noted.
    pub fn note_in<L: Log>(&mut self, log: &mut L) -> Result<(), NoRoom>
        ensures noted { OnOk result (L.notes log.old self.old log.new) }
        ensures refused { IfErr result (λ none. (0 < none.items) × Any (λ said. L.needs said none.items) self.old) }
        ensures empty { self.new ≡ [] }
    {
        let count = self.count;
        self.count = 0;
        if count == 0 {
            return Ok(());
        }
        log.note(&self.first)?;
        if count == 1 {
            return Ok(());
        }
        log.note(&self.second)?;
        Ok(())
    }
}

/// Overwrites `spoken` with this frame, its party and its number of preamble bytes.
fn put_down(spoken: &mut Spoken, party: Party, preambles: u8, frame: &Frame)
    ensures { IsSpoken (record { party = party; preambles = preambles; frame = frame.now }) spoken.new }
{
    spoken.party = party;
    spoken.preambles = preambles;
    frame.write_body(&mut spoken.bytes);
}

/// Returns a placeholder for a spoken frame that is not written yet.
fn no_spoken() -> Spoken {
    Spoken {
        party: Party::Device,
        preambles: 0,
        bytes: Body::new(),
    }
}
