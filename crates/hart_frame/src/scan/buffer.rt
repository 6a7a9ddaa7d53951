//! The characters that a scanner holds.
ghost use Rattle.std.specs.Prelude.{◌≡◌, ◌<◌, ◌≤◌, ◌+◌, ◌-◌, ◌^◌, ◌∷◌, [], ◌++◌, ◌↔◌, None, IsTrue, drop, length, take};
ghost use Rattle.hart_frame.specs.private.Buffer.{IsEnded, IsSound, IsStored, held_bytes, scan_of};
ghost use Rattle.hart_frame.specs.private.Prefix.{IsWholeBody};
ghost use Rattle.hart_frame.specs.private.Decision.{body_at};
ghost use Rattle.hart_frame.specs.scan.Scanner.{GivesNothing, MovesPast, finishing, hearing, new_scan};
ghost use Rattle.hart_frame.specs.wire.View.{parts_of};
ghost use Rattle.hart_frame.specs.wire.Body.{IsBody};
ghost use Rattle.hart_frame.specs.private.Layout.{layout_length};
ghost use Rattle.hart_frame.specs.declared.scan.buffer.State.TheVariants.{Busy, Drained};

use crate::wire::layout::Layout;
use crate::{Char, FoundView, FrameView};
use hart_values::ByteList;

/// The greatest number of characters that are held: two preamble bytes and a body.
pub(crate) const MOST_HELD: usize = 269;

/// The capacity of a buffer's list of bytes: twice [`MOST_HELD`], so that the held bytes seldom have to be moved to the start of the list.
pub(crate) const ROOM: usize = 538;

/// The held characters: the bytes of the list `bytes` from index `from` on, without faults, and then at most one character with faults.
#[derive(Drop)]
pub(crate) struct Buffer {
    pub(crate) bytes: ByteList<ROOM>,
    pub(crate) from: usize,
    /// The place, in what is heard, of the first character that is held.
    pub(crate) first: u64,
    pub(crate) damaged: Option<Char>,
    pub(crate) state: State,
    pub(crate) finished: bool,
}

/// What a buffer knows of the characters that it holds.
#[derive(Clone, Copy)]
pub(crate) enum State {
    /// The held characters decide no frame until another character or the end comes.
    Drained,
    /// A character or the end came, or bytes were dropped. What is held has not been searched since then.
    Busy,
    /// The held bytes begin with two preamble bytes and a body of this layout.
    Stands(Layout),
}

/// Where the body of a frame lies in a buffer's list, and where it stands in what is heard.
#[derive(Clone, Copy)]
pub(crate) struct Span {
    pub(crate) at: usize,
    pub(crate) layout: Layout,
    pub(crate) start: u64,
    pub(crate) stop: u64,
}

impl Buffer {
    pub(crate) fn new() -> Self
        ensures sound { IsSound result }
        ensures is_new { scan_of result ≡ new_scan }
    {
        Buffer {
            bytes: ByteList::new(),
            from: 0,
            first: 0,
            damaged: None,
            state: State::Drained,
            finished: false,
        }
    }

    /// Returns the faultless bytes that are held.
    pub(crate) fn held(&self) -> &[u8]
        requires stored { IsStored self.now }
        ensures held { result.now ≡ held_bytes self.now }
        ensures few { length result.now ≤ 269 }
    {
        &self.bytes.as_slice()[self.from..]
    }

    pub(crate) fn push(&mut self, character: Char)
        requires sound { IsSound self.old }
        requires drained { self.old.state ≡ Drained }
        requires room { self.old.first + length (held_bytes self.old) + 1 < 2 ^ 64 }
        ensures sound { IsSound self.new }
        ensures pushed { scan_of self.new ≡ hearing (scan_of self.old) (character ∷ []) }
        ensures busy { self.new.state ≡ Busy }
        ensures going { self.new.finished ≡ self.old.finished }
    {
        self.state = State::Busy;
        if !character.is_faultless() {
            self.damaged = Some(character);
            return;
        }
        self.make_room();
        self.bytes.push(character.byte());
    }

    pub(crate) fn finish(&mut self)
        requires sound { IsSound self.old }
        ensures sound { IsSound self.new }
        ensures finished { scan_of self.new ≡ finishing (scan_of self.old) }
    {
        self.finished = true;
        if self.is_drained() {
            self.state = State::Busy;
        }
    }

    /// Returns true if the held characters decide no frame until another character or the end comes.
    pub(crate) fn is_drained(&self) -> bool
        ensures { IsTrue result ↔ (self.now.state ≡ Drained) }
    {
        matches!(self.state, State::Drained)
    }

    /// Returns the number of characters that were pushed since the buffer was new.
    pub(crate) fn pushed(&self) -> u64
        requires sound { IsSound self.now }
        ensures pushed { result ≡ self.now.first + length (scan_of self.now).held }
        ensures few { length (scan_of self.now).held ≤ 269 }
    {
        let damaged = if self.damaged.is_some() { 1 } else { 0 };
        self.first + self.held().len() as u64 + damaged
    }

    /// Returns true if no byte can follow the held bytes: the buffer is finished, or holds a character with faults.
    pub(crate) fn is_ended(&self) -> bool
        ensures { IsTrue result ↔ IsEnded self.now }
    {
        self.finished || self.damaged.is_some()
    }

    /// Drops the first `count` bytes that are held.
    pub(crate) fn pass(&mut self, count: usize)
        requires sound { IsSound self.old }
        requires within { count ≤ length (held_bytes self.old) }
        ensures sound { IsSound self.new }
        ensures passed { self.new ≡ record self.old { from = self.old.from + count; first = self.old.first + count; state = Busy } }
    {
        self.from += count;
        self.first += count as u64;
        self.state = State::Busy;
    }

    /// Drops two preamble bytes and the body after them from what is held, and returns where that body lies in the list.
    pub(crate) fn release(&mut self, layout: Layout) -> Span
        requires sound { IsSound self.old }
        requires within { 2 + layout_length layout ≤ length (held_bytes self.old) }
        ensures sound { IsSound self.new }
        ensures given { self.new ≡ record self.old {
          from = self.old.from + (2 + layout_length layout);
          first = self.old.first + (2 + layout_length layout);
          state = Busy;
        } }
        ensures span { result ≡ record {
          at = self.old.from + 2;
          layout = layout;
          start = self.old.first + 2;
          stop = self.old.first + (2 + layout_length layout);
        } }
    {
        let at = self.from + 2;
        let start = self.first + 2;
        self.pass(2 + layout.body_len());
        Span {
            at,
            layout,
            start,
            stop: self.first,
        }
    }

    /// Returns the frame at a span.
    pub(crate) fn found(&self, span: Span) -> FoundView<'_>
        requires within { span.at + layout_length span.layout ≤ length self.now.bytes }
        requires body { IsWholeBody span.layout (body_at self.now span) }
        ensures frame { IsBody (parts_of result.frame) (body_at self.now span) }
        ensures start { result.start ≡ span.start }
        ensures stop { result.stop ≡ span.stop }
    {
        let bytes = self.bytes.as_slice();
        let len = span.layout.body_len();
        let body = &bytes[span.at..span.at + len];
        FoundView {
            start: span.start,
            stop: span.stop,
            frame: FrameView::view_in(span.layout, body),
        }
    }

    /// Joins the held bytes and the chunk, and then holds only the joined bytes from `place` up to `stop`.
    #[tactic(auto, using(crate::proofs::lemmas::scan::Buffer::kept_after, crate::proofs::lemmas::scan::Buffer::kept_past))]
    pub(crate) fn keep(&mut self, chunk: &[u8], place: usize, stop: usize)
        requires stored { IsStored self.old }
        requires clear { self.old.damaged ≡ None }
        requires order { place ≤ stop }
        requires after { length (held_bytes self.old) ≤ stop }
        requires within { stop ≤ length (held_bytes self.old) + length chunk.now }
        requires few { stop ≤ place + 269 }
        requires places { self.old.first + stop < 2 ^ 64 }
        ensures stored { IsStored self.new }
        ensures held { held_bytes self.new ≡ drop place (take stop (held_bytes self.old ++ chunk.now)) }
        ensures first { self.new.first ≡ self.old.first + place }
        ensures damaged { self.new.damaged ≡ None }
        ensures state { self.new.state ≡ self.old.state }
        ensures finished { self.new.finished ≡ self.old.finished }
    {
        let held = self.held().len();
        self.first += place as u64;
        if held <= place {
            self.pass_all();
            self.bytes
                .extend_from_slice(&chunk[place - held..stop - held]);
        } else {
            self.make_room();
            self.from += place;
            self.bytes.extend_from_slice(&chunk[..stop - held]);
        }
    }

    /// Drops all held bytes, and clears the list if 269 more bytes do not fit at its end.
    fn pass_all(&mut self)
        ensures room { length self.new.bytes + 269 ≤ 538 }
        ensures same { self.new ≡ record self.old { bytes = self.new.bytes; from = length self.new.bytes } }
    {
        if self.bytes.len() + MOST_HELD > ROOM {
            self.bytes.clear();
        }
        self.from = self.bytes.len();
    }

    /// Moves what is held to the start of the list if 269 more bytes do not fit at the end of the list.
    #[inline(never)]
    fn make_room(&mut self)
        requires within { self.old.from ≤ length self.old.bytes }
        requires few { length (held_bytes self.old) ≤ 269 }
        ensures room { length self.new.bytes + 269 ≤ 538 }
        ensures within { self.new.from ≤ length self.new.bytes }
        ensures held { held_bytes self.new ≡ held_bytes self.old }
        ensures same { self.new ≡ record self.old { bytes = self.new.bytes; from = self.new.from } }
    {
        if self.bytes.len() + MOST_HELD <= ROOM {
            return;
        }
        self.bytes = ByteList::from_slice(&self.bytes.as_slice()[self.from..]).unwrap();
        self.from = 0;
    }

    /// Drops the character with faults, if one is held.
    #[tactic(auto, using(std::proofs::lemmas::Grind::common_steps, crate::proofs::lemmas::scan::Scan::moves_past))]
    fn drop_damaged(&mut self)
        requires sound { IsSound self.old }
        requires empty { held_bytes self.old ≡ [] }
        ensures moves { MovesPast (scan_of self.old) (scan_of self.new) [] }
        ensures left { self.new ≡ record self.old { first = self.new.first; damaged = None; state = Drained } }
        ensures first { self.new.first < 2 ^ 64 }
    {
        self.state = State::Drained;
        if self.damaged.is_none() {
            return;
        }
        self.damaged = None;
        self.first += 1;
    }

    /// Drops the character with faults, if one is held. The buffer must hold no bytes. A finished scanner is new afterwards.
    pub(crate) fn end(&mut self)
        requires sound { IsSound self.old }
        requires empty { held_bytes self.old ≡ [] }
        ensures sound { IsSound self.new }
        ensures given { GivesNothing (scan_of self.old) (scan_of self.new) }
    {
        self.drop_damaged();
        if !self.finished {
            return;
        }
        self.finished = false;
        self.first = 0;
    }
}
