ghost use Rattle.std.specs.Prelude.{◌≡◌, ◌<◌, ◌↔◌, IsSome, IfSome};
ghost use Rattle.hart_values.specs.LoopMode.{mode_byte};

/// Whether the loop current follows the process (HCF_SPEC-127).
#[derive(Clone, Copy, Debug, PartialEq, Eq)]
pub enum LoopMode {
    /// The loop current is held at a fixed value, so that several devices can share the line.
    Disabled,
    /// The loop current follows the primary variable.
    Enabled,
}

impl LoopMode {
    /// Returns the mode of this byte, or `None` if the byte is above 1.
    pub fn from_byte(byte: u8) -> Option<Self>
        ensures known { IsSome result ↔ (byte < 2) }
        ensures mode { IfSome result (λ mode. mode_byte mode ≡ byte) }
    {
        match byte {
            0 => Some(LoopMode::Disabled),
            1 => Some(LoopMode::Enabled),
            _ => None,
        }
    }

    /// Returns the byte of the mode: 0 if disabled, 1 if enabled.
    pub fn byte(self) -> u8
        ensures { result ≡ mode_byte self }
    {
        match self {
            LoopMode::Disabled => 0,
            LoopMode::Enabled => 1,
        }
    }
}
