use hart_frame::Frame;

/// What a [`FrameMaster`](crate::FrameMaster) has in hand.
#[derive(Debug, Drop)]
pub enum FrameHand {
    /// No request.
    Empty,
    /// A request that is due to be sent, for the first time or again.
    Due(FrameTransaction),
    /// A request whose reply is awaited, and how many character times have passed since it was sent. The number 255 means 255 or more.
    Awaiting(FrameTransaction, u8),
    /// A request that was answered. The master is idle, but the caller can still repeat the request.
    Answered(FrameTransaction),
}

/// A request frame, and how often it was sent.
#[derive(Debug, Drop)]
pub struct FrameTransaction {
    /// The frame.
    pub request: Frame,
    /// How often the frame was sent.
    pub sendings: u8,
}
