//! Where each register stands in the array of all registers.
ghost use Rattle.std.specs.Prelude.{◌≡◌};
ghost use Rattle.hart_device.specs.Registers.{end_of, start_of};

use hart_commands::Register;
use std::ops::Range;

/// The number of bytes of all registers together.
pub(crate) const ARRAY_LEN: usize = 82;

/// Returns the range of a register in the array.
pub(crate) fn range_of(register: Register) -> Range<usize>
    ensures start { result.start ≡ start_of register }
    ensures end { result.end ≡ end_of register }
{
    match register {
        Register::Polling => 0..1,
        Register::Mode => 1..2,
        Register::Message => 2..26,
        Register::Tag => 26..32,
        Register::Descriptor => 32..44,
        Register::Date => 44..47,
        Register::Assembly => 47..50,
        Register::LongTag => 50..82,
    }
}
