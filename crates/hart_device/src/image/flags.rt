//! The flags of an image.
ghost use Rattle.std.specs.Prelude.{◌≡◌, ◌≤◌, ◌↔◌, IsSome, IfSome};
ghost use Rattle.hart_device.specs.Image.{flags_of};

use crate::bits::bit_if;
use hart_values::EachMaster;

/// The primary master's configuration-changed bit.
const PRIMARY_CHANGED: u8 = 1;

/// The secondary master's configuration-changed bit.
const SECONDARY_CHANGED: u8 = 2;

/// The write protection bit.
const PROTECTED: u8 = 4;

/// The flags of an image.
#[derive(Clone, Copy)]
pub(crate) struct Flags {
    /// The configuration-changed bit of each master.
    pub changed: EachMaster<bool>,
    /// Whether the device is write protected.
    pub protected: bool,
}

impl Flags {
    /// Reads the flags of a byte, or returns `None` if the byte is above 7.
    pub fn from_byte(byte: u8) -> Option<Self>
        ensures accepted { IsSome result ↔ (byte ≤ 7) }
        ensures kept { IfSome result (λ flags. flags_of flags.changed flags.protected ≡ byte) }
    {
        if byte > PRIMARY_CHANGED | SECONDARY_CHANGED | PROTECTED {
            return None;
        }
        Some(Flags {
            changed: EachMaster {
                primary: byte & PRIMARY_CHANGED != 0,
                secondary: byte & SECONDARY_CHANGED != 0,
            },
            protected: byte & PROTECTED != 0,
        })
    }

    /// Returns the flags as a byte.
    pub fn byte(&self) -> u8
        ensures value { result ≡ flags_of self.now.changed self.now.protected }
    {
        bit_if(self.changed.primary, PRIMARY_CHANGED)
            | bit_if(self.changed.secondary, SECONDARY_CHANGED)
            | bit_if(self.protected, PROTECTED)
    }
}
