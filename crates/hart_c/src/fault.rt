//! The faults of calls, as numbers for C.
ghost use Rattle.std.specs.Prelude.{◌≡◌};
ghost use Rattle.hart_frame.specs.wire.FaultNumbers.{frame_fault_number};
ghost use Rattle.hart_c.specs.Faults.{number_of, number_of_result};

use hart_device::DeviceFault;
use hart_frame::FrameFault;

/// No fault.
pub const HART_OK: u8 = 0;

/// A reply whose payload is shorter than the two status bytes.
pub const HART_TOO_SHORT_REPLY: u8 = 1;

/// A number of preamble bytes outside 5 to 20.
pub const HART_BAD_PREAMBLE: u8 = 2;

/// The first byte is no STX or ACK delimiter.
pub const HART_BAD_DELIMITER: u8 = 3;

/// The bytes end before the check byte.
pub const HART_TRUNCATED: u8 = 4;

/// The check byte does not give the body even parity: the exclusive or of the whole body is not 0.
pub const HART_BAD_CHECK: u8 = 5;

/// The byte count of a reply is below 2.
pub const HART_SHORT_REPLY: u8 = 6;

/// A number of an address is out of range.
pub const HART_BAD_ADDRESS: u8 = 10;

/// More than three expansion bytes.
pub const HART_LONG_EXPANSION: u8 = 11;

/// The output has no room for what is to be written.
pub const HART_NO_ROOM: u8 = 12;

/// The `faults` of a character have a bit that is no fault bit.
pub const HART_BAD_FAULT_BITS: u8 = 13;

/// A payload is no reply to the command.
pub const HART_NO_REPLY: u8 = 14;

/// The command, the field or the name is not known.
pub const HART_UNKNOWN: u8 = 15;

/// A number of an identity is out of range.
pub const HART_OUT_OF_RANGE: u8 = 16;

/// The unique address of an identity would be the broadcast address.
pub const HART_BROADCAST_ADDRESS: u8 = 17;

/// An image of an unknown version.
pub const HART_BAD_VERSION: u8 = 18;

/// An image has no bytes, more than 86, or the wrong number for its version; or packed text has a length other than 6, 12 or 24 bytes.
pub const HART_BAD_LENGTH: u8 = 19;

/// A register would hold bytes that are not valid in it, or the flags of an image are above 7.
pub const HART_BAD_FIELD: u8 = 20;

/// A process without a dynamic variable, or with more than four.
pub const HART_BAD_VARIABLES: u8 = 21;

/// More than 1,024 characters are heard at once, more data are given than a reply can have, or a text is too long for its packed text.
pub const HART_TOO_LONG: u8 = 22;

/// A frame that is no request of a master.
pub const HART_NO_REQUEST: u8 = 23;

/// A request that may not be sent to its address.
pub const HART_WRONG_ADDRESS: u8 = 24;

/// A request is in hand already.
pub const HART_PENDING: u8 = 25;

/// A master has more than 15 retries or a reply limit of 0, or a kept master has numbers that no call writes.
pub const HART_BAD_MASTER: u8 = 26;

/// A response code above 127.
pub const HART_BAD_CODE: u8 = 27;

/// A text has a character that packed text cannot have.
pub const HART_BAD_CHARACTER: u8 = 28;

/// A style of explanation other than words and JSON.
pub const HART_BAD_STYLE: u8 = 29;

/// The result of a call: how many bytes were written or read, or the fault.
#[repr(C)]
#[derive(Clone, Copy)]
pub struct HartOutcome {
    /// How many bytes were written or read; 0 if there is a fault.
    pub len: usize,
    /// The number of the fault, or 0 if there is no fault.
    pub fault: u8,
}

/// The fault of a call.
#[derive(Clone, Copy)]
pub(crate) enum Fault {
    /// The fault of a frame, of a number of preamble bytes, or of bytes that were to be read.
    Frame(FrameFault),
    /// A number of an address is out of range.
    BadAddress,
    /// There are more than three expansion bytes.
    LongExpansion,
    /// The output has no room for what is to be written.
    NoRoom,
    /// The `faults` of a character have a bit that is no fault bit.
    BadFaultBits,
    /// The fault of an identity, an image or the registers of a device.
    Device(DeviceFault),
    /// A process has no dynamic variable, or more than four.
    BadVariables,
    /// There are more than 1,024 characters, more data than a reply can have, or more text than the packed text can have.
    TooLong,
    /// The frame is no request of a master.
    NoRequest,
    /// The request may not be sent to its address.
    WrongAddress,
    /// A request is in hand already.
    Pending,
    /// A master has more than 15 retries or a reply limit of 0, or a kept master has numbers that no call writes.
    BadMaster,
    /// A response code is above 127.
    BadCode,
    /// A text has a character that packed text cannot have.
    BadCharacter,
    /// There is no such style of explanation.
    BadStyle,
}

impl Fault {
    /// Returns the number of the fault for C.
    pub fn number(self) -> u8
        ensures { result ≡ number_of self }
    {
        match self {
            Fault::Frame(fault) => number_of_frame_fault(fault),
            Fault::BadAddress => HART_BAD_ADDRESS,
            Fault::LongExpansion => HART_LONG_EXPANSION,
            Fault::NoRoom => HART_NO_ROOM,
            Fault::BadFaultBits => HART_BAD_FAULT_BITS,
            Fault::Device(fault) => number_of_device_fault(fault),
            Fault::BadVariables => HART_BAD_VARIABLES,
            Fault::TooLong => HART_TOO_LONG,
            Fault::NoRequest => HART_NO_REQUEST,
            Fault::WrongAddress => HART_WRONG_ADDRESS,
            Fault::Pending => HART_PENDING,
            Fault::BadMaster => HART_BAD_MASTER,
            Fault::BadCode => HART_BAD_CODE,
            Fault::BadCharacter => HART_BAD_CHARACTER,
            Fault::BadStyle => HART_BAD_STYLE,
        }
    }
}

/// Returns the number in C of a fault of a device.
fn number_of_device_fault(fault: DeviceFault) -> u8
    ensures { result ≡ number_of (Fault.Device fault) }
{
    match fault {
        DeviceFault::OutOfRange => HART_OUT_OF_RANGE,
        DeviceFault::BroadcastAddress => HART_BROADCAST_ADDRESS,
        DeviceFault::BadVersion => HART_BAD_VERSION,
        DeviceFault::BadLength => HART_BAD_LENGTH,
        DeviceFault::BadField => HART_BAD_FIELD,
    }
}

/// Returns the number in C of a fault of a frame.
pub(crate) fn number_of_frame_fault(fault: FrameFault) -> u8
    ensures { result ≡ frame_fault_number fault }
{
    match fault {
        FrameFault::TooShortReply => HART_TOO_SHORT_REPLY,
        FrameFault::BadPreamble => HART_BAD_PREAMBLE,
        FrameFault::BadDelimiter => HART_BAD_DELIMITER,
        FrameFault::Truncated => HART_TRUNCATED,
        FrameFault::BadCheck => HART_BAD_CHECK,
        FrameFault::ShortReply => HART_SHORT_REPLY,
    }
}

/// Returns the result of a call that only succeeds or fails, as a number for C: 0, or the number of the fault.
pub(crate) fn number_of_result(done: Result<(), Fault>) -> u8
    ensures { result ≡ number_of_result done }
{
    match done {
        Ok(()) => HART_OK,
        Err(fault) => fault.number(),
    }
}
