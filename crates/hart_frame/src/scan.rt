//! How frames are found: by the scanner while they are heard, and in bytes in memory without a copy.

pub mod buffer;
pub mod candidate;
pub mod chunk;
pub mod decision;
pub mod first;
pub mod next;
pub mod scanner;
pub mod search;
pub mod sighting;
pub mod streamed;
pub mod view;
