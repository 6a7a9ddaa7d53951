//! The calls of the command line `hart`, over any reader and any writer.
//!
//! Each subcommand is a call. [`dump`] lists the messages in what was heard, and [`explain`] says what they mean, in words or as JSON.
//! [`answer`] gives the bench device's reply to one delivery. [`serve`] gives its replies to many deliveries, one line for each line that
//! it reads. [`master`] is the counterpart of `serve`: a master that answers each line that it reads. [`simulate`] carries out a script.
//! [`encode_text`] writes a message to send, and [`request`] makes such a message from named fields. [`program`] makes the call that its
//! words name, and returns the exit status. Calls read from a [`Source`] and write to a [`Sink`]; [`Plain`] makes them from readers and
//! writers of the standard library. A call that cannot do all of its work returns a [`CliFault`].
//!
//! ```rust
//! let mut reader = Plain::new(b"FF FF 02 80 00 00 82".as_slice());
//! let mut writer = Plain::new(Vec::new(rt.alloc()));
//! dump(rt.alloc(), &mut reader, &mut writer)?;
//! assert_eq!(rt;
//!     writer.into_inner().as_slice(),
//!     b"2 7 STX P 0 @0 - 0 -\n".as_slice()
//! );
//! ```
//!
//! The crate `hart` has only `main`, which calls [`program`] with the arguments and the standard streams.
//!
//! The modules:
//!
//! - `fault`: why a call ended early.
//! - `image_word`: the device with which a call starts.
//! - `input`: the reading of an input.
//! - `output`, `kept`: the writing of a text, either whole or piece by piece.
//! - `session`: calls that answer each line that they read.
//! - `stream`: readers and writers as the calls see them.
//! - `calls`: a module for each call.
#![tactic(auto)]

mod calls;
mod fault;
mod image_word;
mod input;
mod kept;
mod output;
mod session;
mod stream;

pub use calls::answer::{answer, one_answer};
pub use calls::dump::{dump, one_dump};
pub use calls::encode::encode_text;
pub use calls::explain::laws::{
    explanations_grow, explanations_name_the_messages_of_dump, json_has_the_sightings_of_explain,
};
pub use calls::explain::printer::Style;
pub use calls::explain::{explain, one_explanation};
pub use calls::master::{MasterWords, master, master_by_words, one_session};
pub use calls::program::laws::{one_call, words_are_calls};
pub use calls::program::{DONE, FAULT, NO_CALL, program};
pub use calls::request::request;
pub use calls::serve::{one_service, serve};
pub use calls::sim::{one_simulation, simulate};
pub use fault::CliFault;
pub use hart_explain::laws::json_objects_are_lines;
pub use hart_listen::laws::{
    every_start_outside_messages_has_one_line, hints_of_explanations_are_right,
};
pub use hart_request::laws::{shown_values_are_accepted, values_are_shown_as_given};
pub use hart_request::{BadField, FieldFault};
pub use hart_station::laws::{fields_of_requests_are_those_given, one_encoding, one_request};
pub use hart_station::request::RequestWords;
pub use hart_station::{INPUT_LIMIT, MasterSettings};
pub use image_word::one_device;
pub use input::input_chars::inputs_are_unambiguous;
pub use stream::plain::Plain;
pub use stream::{Failed, Sink, Source};
