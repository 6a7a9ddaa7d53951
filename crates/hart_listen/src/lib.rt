//! What is heard on a HART line: characters, silences and dates in, and dated sightings out.
//!
//! A [`Listener`] hears hex items with marks by [`Listener::hear_text`], or raw bytes by [`Listener::hear_bytes`]. A sighting is a frame,
//! or a place where a message only seems to start. As soon as a sighting is decided, the listener tells it to a [`Teller`], with the date
//! of its place and with what is known of it from what was heard before it. [`Listener::hear_end`] tells the rest. In what form sightings
//! are told, and where to, is the teller's affair: this crate writes nothing.
//!
//! The modules:
//!
//! - `listener`: what is heard and not yet told.
//! - `teller`: those that are told.
//! - [`held`]: characters that may still decide something.
//! - `dates`: the dates of these characters.
//! - `item_reader`: what the reading of items takes.
//! - `past`: what is kept of what was told and dropped.
//! - `last_messages`: what later messages need of the earlier ones.
//! - [`laws`]: what is proved about the definitions: what a listener tells, and what an explanation of it says.
//!
//! No call of this crate allocates.
#![tactic(auto)]

mod dates;
pub mod held;
mod item_reader;
mod last_messages;
pub mod laws;
mod listener;
mod past;
mod teller;

pub use item_reader::ItemReader;
pub use listener::Listener;
pub use teller::Teller;
