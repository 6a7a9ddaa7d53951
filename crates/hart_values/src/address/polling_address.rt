ghost use Rattle.std.specs.Prelude.{◌≡◌, ◌<◌, ◌↔◌, IsOk, IfOk, IfErr, [], ◌∷◌};

use crate::ValueFault;
use std::marker::Model;
use std::slice;

/// A polling address, 0 to 63 (HCF_SPEC-081).
///
/// A master sends Command 0 to a polling address to learn the unique address of a device.
#[derive(Clone, Copy, Debug, PartialEq, Eq, Hash)]
pub struct PollingAddress {
    number: u8,
}

impl Model for PollingAddress {
    ghost use Rattle.std.specs.Prelude.{ℕ, ◌<◌};

    ghost Value = { ℕ };

    ghost view = { λ address. address.number };

    ghost invariant = { λ address. address.number < 64 };

    ghost inverse = { λ n. record { number = n } };
}

impl PollingAddress {
    /// Returns the polling address with this number.
    ///
    /// # Errors
    ///
    /// [`ValueFault::OutOfRange`] if `number` is above 63.
    pub fn new(number: u8) -> Result<Self, ValueFault>
        ensures accepted { IsOk result ↔ (number < 64) }
        ensures kept { IfOk result (λ address. address ≡ number) }
        ensures refused { IfErr result (λ fault. fault ≡ ValueFault.OutOfRange) }
    {
        if number < 64 {
            Ok(PollingAddress { number })
        } else {
            Err(ValueFault::OutOfRange)
        }
    }

    /// Returns the number, 0 to 63.
    pub fn number(self) -> u8
        ensures same { result ≡ self }
        ensures in_range { result < 64 }
    {
        self.number
    }

    /// Returns the number as a slice of one byte.
    pub fn as_bytes(&self) -> &[u8]
        ensures same { result.now ≡ self.now ∷ [] }
        ensures in_range { self.now < 64 }
    {
        slice::from_ref(&self.number)
    }
}
