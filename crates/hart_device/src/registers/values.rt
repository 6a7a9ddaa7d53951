use hart_values::{HartDate, LoopMode, PackedText, PollingAddress};

/// One value for each register of a device (HCF_SPEC-127).
#[derive(Clone, Copy, Debug, PartialEq, Eq)]
pub struct RegisterValues {
    /// The polling address.
    pub polling: PollingAddress,
    /// The loop current mode.
    pub mode: LoopMode,
    /// The message.
    pub message: PackedText<24>,
    /// The tag.
    pub tag: PackedText<6>,
    /// The descriptor.
    pub descriptor: PackedText<12>,
    /// The date.
    pub date: HartDate,
    /// The final assembly number.
    pub assembly: [u8; 3],
    /// The long tag.
    pub long_tag: [u8; 32],
}
