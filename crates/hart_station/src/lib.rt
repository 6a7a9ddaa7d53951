//! Stations: a device and a master that answer lines of text, one answer for each line.
//!
//! [`DeviceLines`] is the device of `hart serve`, and [`MasterLines`] is the master of `hart master`. Each is a [`Station`]: it answers one
//! line at a time, and neither reads an input nor writes an output. The crate also has what the calls of `hart` share with the stations:
//! the words of requests, lines of text, and [`TextFault`], the reason why a line or a word is bad.
//!
//! ```rust
//! let device = Device::new(bench::identity(), &bench::register_values());
//! let mut station = DeviceLines::new(rt.alloc(), device)?;
//! // A station reads a line and one more space.
//! let said = station.answer(b"counter ".as_slice());
//! assert_eq!(rt; said.as_slice(), b"counter 0\n".as_slice());
//! ```
//!
//! The modules:
//!
//! - `station`: what a station is.
//! - `device_lines`: the device.
//! - `master_lines`, `ask`, `line_words`: the master, what a line asks of it, and the words of a line.
//! - [`encode`], [`request`]: the words of a message, and the request that they describe.
//! - `fault`: why a line or a word is bad.
//! - [`pieces`], [`lines`]: characters from hex items, and lines of words and bytes.
//! - [`laws`]: what is proved about the definitions, not about code.
#![tactic(auto)]

mod ask;
mod device_lines;
pub mod encode;
mod fault;
pub mod laws;
mod line_words;
pub mod lines;
mod master_lines;
pub mod pieces;
pub mod request;
mod station;

pub use device_lines::DeviceLines;
pub use fault::{FaultLine, TextFault, line_of_parts};
pub use master_lines::{MasterLines, MasterSettings};
pub use station::{INPUT_LIMIT, SaidLine, Station};
