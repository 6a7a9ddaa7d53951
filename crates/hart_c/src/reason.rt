//! Why no reply was accepted, as numbers for C.
ghost use Rattle.std.specs.Prelude.{◌≡◌};
ghost use Rattle.hart_c.specs.Acceptance.{reason_number};

/// A reply was accepted, or the call has a fault.
pub const HART_NO_REASON: u8 = 0;

/// Nothing that was heard is a frame.
pub const HART_NO_FRAME: u8 = 1;

/// Several frames were heard at once.
pub const HART_SEVERAL_FRAMES: u8 = 2;

/// The frame answers another request, or it is no reply.
pub const HART_OTHER_FRAME: u8 = 3;

/// The reply tells that the device heard the request with communication faults.
pub const HART_COMMUNICATION_FAULTS: u8 = 4;

/// The data of the reply do not fit its command.
pub const HART_UNFIT_DATA: u8 = 5;

/// Why no reply was accepted.
#[derive(Clone, Copy)]
pub(crate) enum Unaccepted {
    /// Nothing that was heard is a frame.
    NoFrame,
    /// Several frames were heard at once.
    SeveralFrames,
    /// The frame answers another request, or it is no reply.
    OtherFrame,
    /// The device heard the request with communication faults.
    CommunicationFaults,
    /// The data of the reply do not fit its command.
    UnfitData,
}

impl Unaccepted {
    /// Returns the number of the reason for C.
    pub fn number(self) -> u8
        ensures { result ≡ reason_number self }
    {
        match self {
            Unaccepted::NoFrame => HART_NO_FRAME,
            Unaccepted::SeveralFrames => HART_SEVERAL_FRAMES,
            Unaccepted::OtherFrame => HART_OTHER_FRAME,
            Unaccepted::CommunicationFaults => HART_COMMUNICATION_FAULTS,
            Unaccepted::UnfitData => HART_UNFIT_DATA,
        }
    }
}
