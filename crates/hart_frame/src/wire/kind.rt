/// Whether a frame is a request or a reply (HCF_SPEC-081).
#[derive(Clone, Copy, Debug, PartialEq, Eq)]
pub enum FrameKind {
    /// A master's request to a device.
    Stx,
    /// A device's reply to a master.
    Ack,
}
