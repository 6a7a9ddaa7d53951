//! Chunks: characters that a scanner hears in one call.
ghost use Rattle.std.specs.Prelude.{◌≡◌, ◌<◌, ◌≤◌, ◌+◌, ◌^◌, ◌++◌, length};
ghost use Rattle.hart_frame.specs.heard.Character.{faultless};
ghost use Rattle.hart_frame.specs.private.Buffer.{IsSound, held_bytes, scan_of, state_of, Hears, HearsPart};
ghost use Rattle.hart_frame.specs.private.Search.{IsSearched};
ghost use Rattle.hart_frame.specs.declared.scan.buffer.State.TheVariants.{Drained};

use crate::Char;
use crate::heard::character::faultless_front;
use crate::scan::buffer::{Buffer, MOST_HELD, ROOM, State};
use crate::scan::search::{SearchResult, search};
use crate::wire::layout::Layout;
use hart_values::ByteList;

/// The greatest number of faultless characters that are searched together. The search takes bytes, so the bytes of the characters are
/// copied first: a second search, over characters, would repeat the code. Because of this limit, a frame at the front does not cost a copy
/// of many characters after it.
const STRETCH: usize = 64;

impl Buffer {
    /// Hears the bytes of a chunk up to the first byte at which a frame is decided, or all bytes if no frame is decided. Returns how many
    /// bytes it heard.
    pub(crate) fn push_bytes(&mut self, chunk: &[u8]) -> usize
        requires sound { IsSound self.old }
        requires drained { self.old.state ≡ Drained }
        requires room { self.old.first + length (scan_of self.old).held + length chunk.now < 2 ^ 64 }
        ensures sound { IsSound self.new }
        ensures hears { Hears (scan_of self.old) (scan_of self.new) (faultless chunk.now) result }
    {
        let mut taken = 0;
        while taken < chunk.len() {
            taken += self.push_part(&chunk[taken..]);
            if !self.is_drained() {
                return taken;
            }
        }
        taken
    }

    /// Hears at least one byte at the front of a chunk, and no byte after the first that decides a frame. Returns how many bytes it heard.
    /// If no byte is held, the chunk is searched without a copy.
    fn push_part(&mut self, chunk: &[u8]) -> usize
        requires sound { IsSound self.old }
        requires drained { self.old.state ≡ Drained }
        requires some { 0 < length chunk.now }
        requires room { self.old.first + length (scan_of self.old).held + length chunk.now < 2 ^ 64 }
        ensures sound { IsSound self.new }
        ensures hears { HearsPart (scan_of self.old) (scan_of self.new) (faultless chunk.now) result }
    {
        if self.held().is_empty() {
            return self.settle(chunk, search(chunk, 0, 1));
        }
        let part = &chunk[..chunk.len().min(MOST_HELD)];
        self.settle(part, self.search_joined(part))
    }

    /// Searches the held bytes followed by `part`. Returns what is found.
    fn search_joined(&self, part: &[u8]) -> SearchResult
        requires sound { IsSound self.now }
        requires drained { self.now.state ≡ Drained }
        requires some { 0 < length part.now }
        requires few { length part.now ≤ 269 }
        ensures { IsSearched (held_bytes self.now ++ part.now) 0 (length (held_bytes self.now) + 1) result }
    {
        let held = self.held();
        let mut joined: ByteList<ROOM> = ByteList::new();
        joined.extend_from_slice(held);
        joined.extend_from_slice(part);
        search(joined.as_slice(), 0, held.len() + 1)
    }

    /// Takes the result `found` of a search in the held bytes followed by `part`. Hears the bytes of `part` up to the last byte that the
    /// search needed. Returns how many bytes it heard.
    #[inline(always)]
    fn settle(&mut self, part: &[u8], found: SearchResult) -> usize
        requires sound { IsSound self.old }
        requires drained { self.old.state ≡ Drained }
        requires some { 0 < length part.now }
        requires room { self.old.first + length (scan_of self.old).held + length part.now < 2 ^ 64 }
        requires found { IsSearched (held_bytes self.old ++ part.now) 0 (length (held_bytes self.old) + 1) found }
        ensures sound { IsSound self.new }
        ensures hears { Hears (scan_of self.old) (scan_of self.new) (faultless part.now) result }
    {
        let held = self.held().len();
        self.keep(part, found.place, found.decided);
        self.state = state_of(found.layout);
        found.decided - held
    }

    /// Hears the characters of a chunk up to the first character at which a frame is decided, or all characters if no frame is decided.
    /// Returns how many characters it heard.
    pub(crate) fn push_chars(&mut self, chunk: &[Char]) -> usize
        requires sound { IsSound self.old }
        requires drained { self.old.state ≡ Drained }
        requires room { self.old.first + length (scan_of self.old).held + length chunk.now < 2 ^ 64 }
        ensures sound { IsSound self.new }
        ensures hears { Hears (scan_of self.old) (scan_of self.new) chunk.now result }
    {
        let mut taken = 0;
        while taken < chunk.len() {
            taken += self.push_stretch(&chunk[taken..]);
            if !self.is_drained() {
                return taken;
            }
        }
        taken
    }

    /// Hears either faultless characters at the front of a chunk or one character with faults. Returns how many characters it heard.
    fn push_stretch(&mut self, chunk: &[Char]) -> usize
        requires sound { IsSound self.old }
        requires drained { self.old.state ≡ Drained }
        requires some { 0 < length chunk.now }
        requires room { self.old.first + length (scan_of self.old).held + length chunk.now < 2 ^ 64 }
        ensures sound { IsSound self.new }
        ensures hears { HearsPart (scan_of self.old) (scan_of self.new) chunk.now result }
    {
        let stretch: ByteList<STRETCH> = faultless_front(chunk);
        if !stretch.is_empty() {
            return self.push_bytes(stretch.as_slice());
        }
        self.push(chunk[0]);
        let _layout = self.peek();
        1
    }
}

/// Returns the state of a buffer that begins with a frame of this layout, or the drained state if there is no layout.
fn state_of(layout: Option<Layout>) -> State
    ensures { result ≡ state_of layout }
{
    match layout {
        Some(layout) => State::Stands(layout),
        None => State::Drained,
    }
}
