//! What HART messages mean, and how that is printed: in words and in JSON.
//!
//! [`read_request`] and [`read_reply`] find out what data mean, for words and JSON alike. They return a [`Reading`]: the fields that are
//! found, the bytes that are ignored, and what is wrong. [`Field::value`] reads the bytes of a field by its kind. [`words::push_sighting`]
//! and [`objects::push_line`] print a whole message, or a place where a message only seems to start. They print into a [`Text`] in memory,
//! so they need no writer, and never fail.
//!
//! ```rust
//! let data = [0x01, 0x23, 0x45];
//! let mut text = Text::new();
//! words::push_reading(&mut text, &Pairs::new(), 19, &data, read_request(19, &data));
//! let lines = b"    final assembly number: 0x012345\n";
//! assert_eq!(rt; text.as_slice(), lines.as_slice());
//! ```
//!
//! The modules:
//!
//! - `reading`: what data mean.
//! - `field`, `fields`: one field, and the fields of data one after another.
//! - `value`: what a field holds.
//! - `status`: the names of the bits that are set in a status byte.
//! - `before`: what is known of a message from earlier messages.
//! - `words`, `objects`: the two printers.
//! - `text`: texts in memory.
//! - `pairs`, `hex_text`: bytes as hex text.
//! - [`laws`]: what is proved about the definitions, not about code.
//!
//! No call of this crate allocates.
#![tactic(auto)]

mod before;
mod field;
mod fields;
pub mod hex_text;
pub mod laws;
pub mod objects;
mod pairs;
mod reading;
mod status;
pub mod text;
mod value;
pub mod words;

pub use before::Before;
pub use field::Field;
pub use fields::Fields;
pub use pairs::Pairs;
pub use reading::{Problem, Reading, read_reply, read_request};
pub use text::{SIGHTING_LEN, TEXT_LEN, Text};
pub use value::{Characters, DayText, Value, day_text};
