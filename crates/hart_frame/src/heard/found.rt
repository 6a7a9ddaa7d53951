use crate::Frame;

/// A frame, and where it stands in what was heard.
#[derive(Debug, Drop, PartialEq, Eq)]
pub struct Found {
    /// The place of the delimiter, counted from 0.
    pub start: usize,
    /// The place after the check byte.
    pub stop: usize,
    /// The frame.
    pub frame: Frame,
}
