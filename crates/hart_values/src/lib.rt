//! The values that a HART message carries, and their bytes (HCF_SPEC-081, HCF_SPEC-099, HCF_SPEC-127).
//!
//! Each value of this crate is a value of the standard. If the standard defines how a value is coded in bytes, a relation in `specs/`
//! states this coding. Two calls convert a value to bytes and back:
//!
//! - [`Address::bytes`] and [`Address::read`] for an address,
//! - [`PackedText::from_text`] and [`PackedText::write_text`] for a text,
//! - [`HartDate::from_bytes`] and [`HartDate::as_bytes`] for a date,
//! - [`Status::bytes`] and [`Status::read`] for a status.
//!
//! ```rust
//! let address = Address::unique(0x3742, 0x0A1B2C)?;
//! let bytes = address.bytes(MasterId::Primary, false);
//! assert_eq!(rt; bytes.as_slice(), [0xB7, 0x42, 0x0A, 0x1B, 0x2C].as_slice());
//!
//! let tag = PackedText::<6>::from_text("PUMP-101".as_bytes())?;
//! assert_eq!(rt;
//!     tag.as_bytes(),
//!     [0x41, 0x53, 0x50, 0xB7, 0x1C, 0x31].as_slice()
//! );
//! ```
//!
//! The program `hart` does not call [`Status::read`]. This call is for programs that use this library to show replies to a person.
//!
//! No call of this crate allocates. Its modules are independent of each other:
//!
//! - `address`: polling and unique addresses, and the bytes that they have in a message.
//! - `packed_text`: texts with four characters in every three bytes.
//! - `hart_date`: dates, and the calendar that they are checked against.
//! - `status`: the two status bytes of a reply: either a response code and a device status, or communication faults.
//!
//! All other types are in the root of the crate: small values of one or four bytes that need no invariant, lists of bytes, a pair of values
//! for the two masters, and [`ValueFault`]. The module [`laws`] states what is proved about the definitions, not about code.
#![tactic(auto)]

mod address;
mod bits32;
mod byte_list;
mod each_master;
mod fault;
mod hart_date;
pub mod laws;
mod loop_mode;
mod master_id;
mod packed_text;
mod status;

pub use address::polling_address::PollingAddress;
pub use address::unique_address::UniqueAddress;
pub use address::{Address, AddressBytes};
pub use bits32::Bits32;
pub use byte_list::{ByteList, Payload};
pub use each_master::EachMaster;
pub use fault::ValueFault;
pub use hart_date::HartDate;
pub use loop_mode::LoopMode;
pub use master_id::MasterId;
pub use packed_text::PackedText;
pub use status::Status;
pub use status::comm_faults::CommFaults;
pub use status::device_status::DeviceStatus;
pub use status::response_code::ResponseCode;
