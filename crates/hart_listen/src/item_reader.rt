//! What the reading of items takes.
ghost use Rattle.std.specs.Prelude.{◌≡◌, []};

use hart_text::{Chunk, Digits};

/// The table of hex digits, and a chunk for the characters that are read together. To make a chunk takes longer than to hear a short
/// delivery, so a caller makes one for all that it hears.
#[derive(Drop)]
pub struct ItemReader {
    /// The table of hex digits.
    pub digits: Digits,
    /// The characters that were read together last.
    pub chunk: Chunk,
}

impl ItemReader {
    /// Returns a reader that has read nothing.
    pub fn new() -> ItemReader
        ensures { result.chunk ≡ [] }
    {
        ItemReader {
            digits: Digits::new(),
            chunk: Chunk::new(),
        }
    }
}
