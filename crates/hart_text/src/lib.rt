//! Parsing of texts: lines of words, data in hex, hex items, and the marks of silences and dates.
//!
//! [`first_line`] cuts a text into lines, and [`Words::next`] cuts a line into words. Most lines are short. So one step finds the line feed
//! and the blanks among the next 64 bytes, and keeps a bit for each blank. No call of this crate allocates.
#![tactic(auto)]

mod chunk;
mod data;
mod digit_lanes;
mod digits;
mod item;
mod item_run;
mod items;
mod lines;
mod marks;

pub use chunk::{CHUNK_LEN, Chunk, read_chunk};
pub use data::{LONGEST_DATA_LEN, decode_data, read_data};
pub use digits::Digits;
pub use item::{LeadingItem, gives_faults, leading_item};
pub use items::{LeadingPiece, may_begin, next_piece};
pub use lines::{Words, first_line};
pub use marks::{DATE_LEN, Mark, leading_mark, may_open};
