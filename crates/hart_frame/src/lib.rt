//! Frames and their bytes on a HART line (HCF_SPEC-081, data link layer).
//!
//! A [`Frame`] is what one message says. [`encode`] writes it as a message. [`decode`] reads the frame at the front of some bytes, or says
//! what is wrong with them. [`first_frame`] finds frames in what was heard: a list of characters ([`Char`]), each a byte with the faults
//! that the receiver noticed. [`why_none`] says why no frame stands at a place. A [`Scanner`] finds frames while they are heard, and
//! [`next_in_bytes`] finds them in bytes in memory, without a copy. [`next_sighting`] finds messages, and places where a message seems to
//! start but no frame stands, as soon as they are decided.
//!
//! ```rust
//! let (frame, len) = decode(&[0x02, 0x80, 0x00, 0x00, 0x82])?;
//! assert_eq!(rt; (frame.command(), len), (0, 5));
//! ```
//!
//! No call of this crate allocates memory. Its modules, each of which uses only the modules before it:
//!
//! - `wire`: a frame, and the bytes of its body and its message on the wire.
//! - `heard`: what was heard, as characters: where frames stand in them, why no frame stands at a place, and which damage is always
//!   detected.
//! - `scan`: how frames are found: by the scanner while they are heard, and in bytes in memory without a copy.
//!
//! The laws in [`laws`] say what follows from the definitions.
#![tactic(auto)]

mod heard;
pub mod laws;
mod scan;
mod wire;

pub use hart_values::Payload;
pub use heard::character::{Char, are_faultless};
pub use heard::found::Found;
pub use heard::miss::{Miss, why_none};
pub use heard::start::{first_start, is_start};
pub use scan::first::{LoneFrame, first_frame, lone_frame};
pub use scan::next::{NextInBytes, next_in_bytes};
pub use scan::scanner::Scanner;
pub use scan::sighting::{After, NextSighting, Sighting, next_sighting};
pub use scan::view::FoundView;
pub use wire::body::{Body, decode};
pub use wire::delimiter::{UNIQUE_COMMAND_PLACE, UNIQUE_REQUEST};
pub use wire::fault::FrameFault;
pub use wire::frame::{Expansion, Frame};
pub use wire::header::Header;
pub use wire::kind::FrameKind;
pub use wire::layout::unique_request_len;
pub use wire::message::{LEAST_PREAMBLES, MOST_PREAMBLES, Message, encode, is_preamble_count};
pub use wire::parity::check_byte;
pub use wire::view::FrameView;
