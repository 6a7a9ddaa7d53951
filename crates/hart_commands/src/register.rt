/// A register of the device's configuration, with the commands that write it (HCF_SPEC-127).
#[derive(Clone, Copy, Debug, PartialEq, Eq, Hash)]
pub enum Register {
    /// The polling address, 1 byte (Command 6).
    Polling,
    /// The loop current mode, 1 byte: 0 disabled, 1 enabled (Command 6).
    Mode,
    /// The message, 24 bytes of packed text (Command 17).
    Message,
    /// The tag, 6 bytes of packed text (Command 18).
    Tag,
    /// The descriptor, 12 bytes of packed text (Command 18).
    Descriptor,
    /// The date, 3 bytes (Command 18).
    Date,
    /// The final assembly number, 3 bytes (Command 19).
    Assembly,
    /// The long tag, 32 bytes (Command 22). Any bytes are valid, because a device need not read them as characters.
    LongTag,
}

impl Register {
    /// Every register once, in the order in which an image has them.
    pub const ALL: [Register; 8] = [
        Register::Polling,
        Register::Mode,
        Register::Message,
        Register::Tag,
        Register::Descriptor,
        Register::Date,
        Register::Assembly,
        Register::LongTag,
    ];
}
