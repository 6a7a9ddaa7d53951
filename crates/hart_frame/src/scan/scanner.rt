ghost use Rattle.std.specs.Prelude.{◌≡◌, ◌+◌, ◌-◌, ◌<◌, ◌≤◌, ◌^◌, ◌++◌, ◌∷◌, [], false, IsTrue, ℕ, length, take};

use crate::scan::buffer::Buffer;
use crate::{Char, FoundView};
use std::marker::Model;

/// Finds frames while their characters are heard, and lends a view of each frame as soon as the frame is decided.
///
/// A scanner allocates no memory. It holds at most 269 characters: two preamble bytes and the longest body. While it waits for more
/// characters, it holds at most 268, because the last character of the longest frame decides that frame.
///
/// ```rust
/// let mut scanner = Scanner::new();
/// let used = scanner.push_bytes(&[0xFF, 0xFF, 0x02, 0x80, 0x00, 0x00, 0x82]);
/// let view = scanner.take().ok_or("no frame")?;
/// assert_eq!(rt; (used, view.start, view.stop), (7, 2, 7));
/// ```
#[derive(Drop)]
pub struct Scanner {
    buffer: Buffer,
}

impl Model for Scanner {
    ghost use Rattle.hart_frame.specs.scan.Scanner.{Scan};
    ghost use Rattle.hart_frame.specs.private.Buffer.{IsSound, scan_of};

    ghost Value = { Scan };

    ghost view = { λ s. scan_of s.buffer };

    ghost invariant = { λ s. IsSound s.buffer };
}

impl Scanner {
    ghost use Rattle.std.specs.Prelude.{⊤};
    ghost use mathlib.Core.Option.{none};
    ghost use denote.Follow.{follows_so};
    ghost use Rattle.std.specs.Borrow.{sem};
    ghost use Rattle.hart_frame.specs.contracts.scan.scanner.Scanner.{the_row};
    ghost use Rattle.hart_frame.specs.heard.Character.{faultless};
    ghost use Rattle.hart_frame.specs.heard.Frames.{IsUndecided};
    ghost use Rattle.hart_frame.specs.scan.Chunk.{StopsAt};
    ghost use Rattle.hart_frame.specs.scan.Scanner.{GivesNextOrNothing, MovesPast, finishing, hearing, new_scan};

    /// Returns a scanner that has heard nothing.
    pub fn new() -> Self
        ensures { result ≡ new_scan }
    {
        Scanner {
            buffer: Buffer::new(),
        }
    }

    /// Hears one more character. The scanner must be drained (see [`Scanner::is_drained`]), and must have heard fewer than 2^64 - 1
    /// characters so far. Afterwards it holds at most 269 characters.
    pub fn push(&mut self, character: Char)
        requires drained { IsTrue self.old.drained }
        requires room { self.old.first + length self.old.held < 2 ^ 64 - 1 }
        ensures heard { self.new ≡ hearing self.old (character ∷ []) }
        ensures few { length self.new.held ≤ 269 }
    {
        self.buffer.push(character);
    }

    /// Hears the bytes of a chunk, as characters without faults, up to the first byte that decides a frame, or all bytes if no byte decides
    /// a frame. Returns how many bytes it heard. If a frame is decided, [`Scanner::take`] returns it. The scanner must be drained, and the
    /// characters pushed so far and those of the chunk must together be fewer than 2^64.
    ///
    /// The effect is the same as calling [`Scanner::push`] for each of these bytes, with [`Scanner::take`] returning `None` after each byte
    /// except the last. An empty scanner searches the bytes in place, and copies only the bytes that it still holds afterwards.
    pub fn push_bytes(&mut self, chunk: &[u8]) -> usize
        requires drained { IsTrue self.old.drained }
        requires room { self.old.first + length self.old.held + length chunk.now < 2 ^ 64 }
        ensures within { result ≤ length chunk.now }
        ensures some { 0 < length chunk.now → 0 < result }
        ensures moves { MovesPast (hearing self.old (faultless (take result chunk.now))) self.new [] }
        ensures before { (count : ℕ) → count < result → IsUndecided (self.old.held ++ faultless (take count chunk.now)) }
        ensures stops { StopsAt self.new result (length chunk.now) }
        ensures finished { self.new.finished ≡ self.old.finished }
        ensures pushed { self.new.first + length self.new.held ≡ self.old.first + length self.old.held + result }
        ensures few { length self.new.held ≤ 269 }
    {
        self.buffer.push_bytes(chunk)
    }

    /// Hears the characters of a chunk, with or without faults, as [`Scanner::push_bytes`] hears bytes. Returns how many characters it
    /// heard.
    pub fn push_chars(&mut self, chunk: &[Char]) -> usize
        requires drained { IsTrue self.old.drained }
        requires room { self.old.first + length self.old.held + length chunk.now < 2 ^ 64 }
        ensures within { result ≤ length chunk.now }
        ensures some { 0 < length chunk.now → 0 < result }
        ensures moves { MovesPast (hearing self.old (take result chunk.now)) self.new [] }
        ensures before { (count : ℕ) → count < result → IsUndecided (self.old.held ++ take count chunk.now) }
        ensures stops { StopsAt self.new result (length chunk.now) }
        ensures finished { self.new.finished ≡ self.old.finished }
        ensures pushed { self.new.first + length self.new.held ≡ self.old.first + length self.old.held + result }
        ensures few { length self.new.held ≤ 269 }
    {
        self.buffer.push_chars(chunk)
    }

    /// Returns the next frame, or `None` if no frame is decided yet. After [`Scanner::finish`], `None` means that no frame is left. The
    /// scanner is then new, and its places begin at 0 again.
    pub fn take(&mut self) -> Option<FoundView<'_>>
        // The view borrows the scanner. So this clause is about `after`, the scanner once the view is dropped: GivesNextOrNothing self.old
        // after result.
        ensures* after { sem 𝓛 (follows_so the_row the_row self.entry.ghost_name none (λ _ _. ⊤)
            (λ after. GivesNextOrNothing self.old after result)) }
    {
        let span = self.buffer.next()?;
        Some(self.buffer.found(span))
    }

    /// Returns true if the scanner is drained: it has no frame to give before the next character or the call of [`Scanner::finish`]. A
    /// drained scanner holds at most 268 characters.
    pub fn is_drained(&self) -> bool
        ensures drained { result ≡ self.now.drained }
        ensures waiting { IsTrue self.now.drained → (self.now.finished ≡ false) × IsUndecided self.now.held }
        ensures few { IsTrue self.now.drained → length self.now.held ≤ 268 }
    {
        self.buffer.is_drained()
    }

    /// Tells the scanner that no more characters come. The next calls of [`Scanner::take`] return the frames that are left in the held
    /// characters, and then `None`.
    pub fn finish(&mut self)
        ensures { self.new ≡ finishing self.old }
    {
        self.buffer.finish();
    }

    /// Returns the place of the first character that is held. If no character is held, returns the place of the next character to come. At
    /// most 269 characters are held, and no later frame begins before that place.
    pub fn first_held(&self) -> u64
        ensures first { result ≡ self.now.first }
        ensures few { length self.now.held ≤ 269 }
    {
        self.buffer.first
    }

    /// Returns how many characters were pushed since the scanner was new. At most 269 of these are still held.
    pub fn pushed(&self) -> u64
        ensures pushed { result ≡ self.now.first + length self.now.held }
        ensures few { length self.now.held ≤ 269 }
    {
        self.buffer.pushed()
    }
}
