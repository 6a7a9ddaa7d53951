use crate::FrameView;

/// A frame that was found, and where it stands in what was heard.
#[derive(Drop)]
pub struct FoundView<'a> {
    /// The place of the delimiter, counted from 0.
    pub start: u64,
    /// The place after the check byte.
    pub stop: u64,
    /// The frame.
    pub frame: FrameView<'a>,
}
