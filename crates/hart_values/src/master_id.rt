/// One of the two masters that may speak on the line (HCF_SPEC-081).
#[derive(Clone, Copy, Debug, PartialEq, Eq, Hash)]
pub enum MasterId {
    /// The primary master, such as a control system; its master bit is 1.
    Primary,
    /// The secondary master, such as a handheld tool; its master bit is 0.
    Secondary,
}
