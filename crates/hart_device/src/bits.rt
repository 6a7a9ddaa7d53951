//! Bits that are set under a condition.
ghost use Rattle.std.specs.Prelude.{◌≡◌};
ghost use Rattle.hart_device.specs.Bits.{bit_if};

/// Returns `bit` if the condition is true, and 0 otherwise.
pub(crate) fn bit_if(holds: bool, bit: u8) -> u8
    ensures { result ≡ bit_if holds bit }
{
    if holds { bit } else { 0 }
}
