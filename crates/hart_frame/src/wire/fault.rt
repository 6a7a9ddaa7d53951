ghost use Rattle.std.specs.Prelude.{◌≡◌};
ghost use Rattle.hart_frame.specs.wire.FaultNumbers.{frame_fault_number};

use thiserror::Error;

/// Why a frame was not made, encoded or decoded.
#[derive(Clone, Copy, Debug, PartialEq, Eq, Error)]
pub enum FrameFault {
    /// The payload of an ACK has fewer than 2 bytes, too few for its two status bytes.
    #[error("reply too short")]
    TooShortReply,
    /// The number of preamble bytes is below 5 or above 20.
    #[error("bad number of preamble bytes")]
    BadPreamble,
    /// The first byte is no STX or ACK delimiter.
    #[error("bad delimiter")]
    BadDelimiter,
    /// The bytes end before the check byte.
    #[error("truncated")]
    Truncated,
    /// The check byte does not give the body even parity.
    #[error("bad check byte")]
    BadCheck,
    /// A frame with an ACK delimiter has a byte count below 2.
    #[error("reply with a short byte count")]
    ShortReply,
}

impl FrameFault {
    /// Returns the number of the fault, 1 to 6.
    pub fn number(self) -> u8
        ensures { result ≡ frame_fault_number self }
    {
        match self {
            FrameFault::TooShortReply => 1,
            FrameFault::BadPreamble => 2,
            FrameFault::BadDelimiter => 3,
            FrameFault::Truncated => 4,
            FrameFault::BadCheck => 5,
            FrameFault::ShortReply => 6,
        }
    }
}
