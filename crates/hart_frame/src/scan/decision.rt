//! Decides whether a frame begins in the characters that a scanner holds.
ghost use Rattle.std.specs.Prelude.{◌≡◌, MatchOption};
ghost use Rattle.hart_frame.specs.private.Buffer.{IsSound, scan_of};
ghost use Rattle.hart_frame.specs.private.Decision.{GivesSpan, HoldsWhole, IsHeldSearched};
ghost use Rattle.hart_frame.specs.scan.Scanner.{GivesNothing};
ghost use Rattle.hart_frame.specs.declared.scan.buffer.State.TheVariants.{Busy};

use crate::scan::buffer::{Buffer, Span, State};
use crate::scan::search::{SearchResult, search_to_end};
use crate::wire::layout::Layout;

impl Buffer {
    /// Returns where the body of the next frame lies, and drops the frame's characters from what is held. Returns `None` if no frame is
    /// decided yet, or if the buffer is finished and no frame is left.
    #[tactic(auto, using(crate::proofs::lemmas::scan::Decision::gives_span))]
    pub(crate) fn next(&mut self) -> Option<Span>
        requires sound { IsSound self.old }
        ensures sound { IsSound self.new }
        ensures given { MatchOption result (GivesNothing (scan_of self.old) (scan_of self.new)) (GivesSpan self.old self.new) }
    {
        let layout = self.peek()?;
        Some(self.release(layout))
    }

    /// Returns the layout of the next frame, which then stands at the front of the held bytes. Returns `None` if no frame is decided yet,
    /// or if the buffer is finished and no frame is left.
    #[tactic(auto, using(std::proofs::lemmas::Grind::common_steps, crate::proofs::lemmas::scan::Buffer::peeking))]
    pub(crate) fn peek(&mut self) -> Option<Layout>
        requires sound { IsSound self.old }
        ensures sound { IsSound self.new }
        ensures seen { MatchOption result (GivesNothing (scan_of self.old) (scan_of self.new)) (HoldsWhole self.old self.new) }
    {
        match self.state {
            State::Drained => None,
            State::Stands(layout) => Some(layout),
            State::Busy => self.decide(),
        }
    }

    /// Drops the bytes before the first place at which a frame begins or may still begin. Returns what [`Buffer::peek`] returns.
    fn decide(&mut self) -> Option<Layout>
        requires sound { IsSound self.old }
        requires busy { self.old.state ≡ Busy }
        ensures sound { IsSound self.new }
        ensures seen { MatchOption result (GivesNothing (scan_of self.old) (scan_of self.new)) (HoldsWhole self.old self.new) }
    {
        if self.held().is_empty() {
            self.end();
            return None;
        }
        self.decide_held()
    }

    /// Like [`Buffer::decide`], for a buffer that holds bytes. After most frames no bytes are held, so this function is seldom called and
    /// is not inlined.
    #[inline(never)]
    fn decide_held(&mut self) -> Option<Layout>
        requires sound { IsSound self.old }
        requires busy { self.old.state ≡ Busy }
        ensures sound { IsSound self.new }
        ensures seen { MatchOption result (GivesNothing (scan_of self.old) (scan_of self.new)) (HoldsWhole self.old self.new) }
    {
        let found = self.search_held();
        self.pass(found.place);
        if let Some(layout) = found.layout {
            self.state = State::Stands(layout);
            return Some(layout);
        }
        if self.held().is_empty() {
            self.end();
        } else {
            self.state = State::Drained;
        }
        None
    }

    /// Searches the held bytes for a frame. If no byte can follow the held bytes, the search skips each place at which a frame could begin
    /// only with more bytes.
    #[tactic(auto, using(crate::proofs::lemmas::scan::Decision::held_searched))]
    fn search_held(&self) -> SearchResult
        requires sound { IsSound self.now }
        ensures { IsHeldSearched self.now result }
    {
        search_to_end(self.held(), 0, self.is_ended())
    }
}
