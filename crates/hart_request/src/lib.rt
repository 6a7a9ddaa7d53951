//! The data of a request, made from words that give its fields by name.
//!
//! Each field of a command is given once, in any order, as NAME=VALUE. [`payload_of`] makes the data of the request from these words. If
//! they make no data, it returns a [`BadField`] instead: the number of a word, counted as in `hart request` (3 is COMMAND, 4 the first of
//! these words), and a [`FieldFault`] that says why. [`FieldFault::reason`] puts the fault into words.
//!
//! ```rust
//! let data = payload_of(6, &["polling_address=5", "loop_current_mode=1"])?;
//! assert_eq!(rt; data.as_slice(), [5, 1].as_slice());
//! ```
//!
//! The modules:
//!
//! - `fields`: the data, field by field, from the words of the fields.
//! - `values`: the bytes of one field, from the word of its value.
//! - `fault`: why words make no request.
//! - `reason`: the text of a reason, in parts.
//! - [`laws`]: what is proved about the definitions, not about code.
//!
//! No call of this crate allocates.
#![tactic(auto)]

mod fault;
mod fields;
pub mod laws;
mod reason;
mod values;

pub use fault::{BadField, FieldFault};
pub use fields::payload_of;
pub use reason::Reason;
