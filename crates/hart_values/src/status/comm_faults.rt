ghost use Rattle.std.specs.Prelude.{◌≡◌, ◌<◌, ◌↔◌, IsOk, IfOk, IfErr};

use crate::ValueFault;
use std::marker::Model;

/// The communication faults of one message, as seven bits (HCF_SPEC-099).
///
/// The constants name five of the bits; the bits hex 04 and 01 have no name.
#[derive(Clone, Copy, Debug, PartialEq, Eq)]
pub struct CommFaults {
    bits: u8,
}

impl Model for CommFaults {
    ghost use Rattle.std.specs.Prelude.{ℕ, ◌<◌};

    ghost Value = { ℕ };

    ghost view = { λ faults. faults.bits };

    ghost invariant = { λ faults. faults.bits < 128 };

    ghost inverse = { λ n. record { bits = n } };
}

impl CommFaults {
    /// A character came with a wrong parity bit.
    pub const VERTICAL_PARITY: u8 = 0x40;

    /// A character came before the previous character had been read.
    pub const OVERRUN: u8 = 0x20;

    /// A character came with a wrong stop bit.
    pub const FRAMING: u8 = 0x10;

    /// The check byte was wrong.
    pub const LONGITUDINAL_PARITY: u8 = 0x08;

    /// The message was longer than the receiver's buffer.
    pub const BUFFER_OVERFLOW: u8 = 0x02;

    /// Returns the communication faults with these bits.
    ///
    /// # Errors
    ///
    /// [`ValueFault::OutOfRange`] if bit 7 is set, that is, if `bits` is above 127.
    pub fn new(bits: u8) -> Result<Self, ValueFault>
        ensures accepted { IsOk result ↔ (bits < 128) }
        ensures kept { IfOk result (λ faults. faults ≡ bits) }
        ensures refused { IfErr result (λ fault. fault ≡ ValueFault.OutOfRange) }
    {
        if bits < 128 {
            Ok(CommFaults { bits })
        } else {
            Err(ValueFault::OutOfRange)
        }
    }

    /// Returns the bits. Bit 7 is clear.
    pub fn value(self) -> u8
        ensures same { result ≡ self }
        ensures in_range { result < 128 }
    {
        self.bits
    }
}
