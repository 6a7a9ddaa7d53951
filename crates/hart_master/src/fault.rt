ghost use Rattle.std.specs.Prelude.{◌≡◌};
ghost use Rattle.hart_master.specs.FaultNumbers.{master_fault_number};

use hart_commands::Request;
use thiserror::Error;

/// Why a master could not be made, or did not take a request.
#[derive(Clone, Copy, Debug, PartialEq, Eq, Error)]
pub enum MasterFault {
    /// More than 15 retries, or a reply limit of 0. Also a frame that is no request of a master, or a [`FrameHand`](crate::FrameHand) that
    /// a master with these retries cannot have.
    #[error("out of range")]
    OutOfRange,
    /// A request is in hand already.
    #[error("a request is pending")]
    Pending,
    /// The request may not be sent to this address.
    #[error("wrong address")]
    WrongAddress,
}

impl MasterFault {
    /// Returns the number of the fault, 1 to 3.
    pub fn number(self) -> u8
        ensures { result ≡ master_fault_number self }
    {
        match self {
            MasterFault::OutOfRange => 1,
            MasterFault::Pending => 2,
            MasterFault::WrongAddress => 3,
        }
    }
}

/// A request that a master did not take, and the reason.
#[derive(Debug, Drop, PartialEq, Eq, Error)]
#[error("{fault}")]
pub struct Rejected {
    /// Why the request was not taken.
    pub fault: MasterFault,
    /// The request.
    pub request: Request,
}
