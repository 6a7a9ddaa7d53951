//! What the data bytes of HART messages mean: requests, replies, and the registers that a write sets (HCF_SPEC-127).
//!
//! The definitions in `specs/` have a table with one row for each known command. They say what the data bytes of a
//! request ask for, which response code refuses these bytes, and what the payload of a reply means. [`Request::read`] and
//! [`Reply::read`] return exactly what the definitions say. [`Request::write`] and [`Reply::write`] write the bytes.
//!
//! ```rust
//! let request = Request::read(19, &[0x01, 0x23, 0x45, 0x67])?;
//! assert_eq!(rt; request, Request::WriteAssembly([0x01, 0x23, 0x45]));
//! let mut data = Payload::new();
//! request.write(&mut data);
//! assert_eq!(rt; data.as_slice(), [0x01, 0x23, 0x45].as_slice());
//! ```
//!
//! [`request_code`] returns the response code of a request, which depends on the device's write protection and configuration change
//! counter. [`writes_of`] returns the registers that a write sets. The crate `hart_device` decides whether a device answers. No call of
//! this crate allocates.
//!
//! [`command_name`] names a command; [`request_rows`] and [`reply_rows`] name the fields of its data. [`needed_data`] returns how
//! many data bytes a command needs; [`Request::data_len`] and [`Reply::data_len`] return how many data bytes a message has.
//!
//! Outside this crate, only tests call [`is_write`] and [`CodeList::new`]: they are for programs that make requests. The module [`laws`]
//! states what is proved about the definitions, for example that written data are read back as the same request or reply, that the fields
//! cover all data, and that the configuration writes are Commands 6, 17, 18, 19 and 22.
#![tactic(auto)]

mod code_list;
mod codes;
mod commands;
mod content;
mod fields;
mod first_bytes;
mod identity;
pub mod laws;
mod output;
mod overwrite;
mod register;
mod reply;
mod request;
mod sensor;
mod short_list;
mod status_bits;
mod tag_bytes;
mod units;
mod value;

pub use code_list::CodeList;
pub use codes::code_name;
pub use commands::{
    command_name, is_write, may_be_broadcast, needed_data, reply_rows, request_rows,
};
pub use content::ReplyContent;
pub use fields::{FieldKind, FieldRow, FieldSize};
pub use identity::IdentityContent;
pub use output::OutputContent;
pub use overwrite::{Overwrite, writes_of};
pub use register::Register;
pub use reply::Reply;
pub use request::code::request_code;
pub use request::{Request, mode_bytes};
pub use sensor::SensorContent;
pub use short_list::ShortList;
pub use status_bits::{COMM_FAULTS, DEVICE_STATES, NamedBit, comm_fault_name, device_state_name};
pub use units::unit_name;
pub use value::{UnitValue, VariableReading};
