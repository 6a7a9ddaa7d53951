use crate::MasterFault;
use hart_frame::Frame;
use thiserror::Error;

/// What became of the request frame in hand.
#[derive(Clone, Copy, Debug, PartialEq, Eq)]
pub enum FrameEvent {
    /// The received frame is the reply. The request was sent this number of times.
    Answered(u8),
    /// Nothing happened.
    Nothing,
    /// The request is due to be sent again.
    Retry,
    /// The request was given up after it was sent this number of times.
    NoReply(u8),
}

/// A request frame that a master did not take, and the reason.
#[derive(Debug, Drop, PartialEq, Eq, Error)]
#[error("{fault}")]
pub struct RejectedFrame {
    /// Why the frame was not taken.
    pub fault: MasterFault,
    /// The frame.
    pub request: Frame,
}
