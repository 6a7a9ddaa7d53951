//! On the wire: a frame, and the bytes of its body and its message.

pub mod body;
pub mod delimiter;
pub mod fault;
pub mod frame;
pub mod header;
pub mod kind;
pub mod layout;
pub mod message;
pub mod parity;
pub mod plain_address;
pub mod prefix;
pub mod sums;
pub mod view;
