ghost use Rattle.std.specs.Prelude.{◌≡◌};
ghost use Rattle.hart_values.specs.FaultNumbers.{value_fault_number};

use thiserror::Error;

/// Why a value was refused.
#[derive(Clone, Copy, Debug, PartialEq, Eq, Error)]
pub enum ValueFault {
    /// A text or a list of bytes does not have the required length.
    #[error("wrong length")]
    WrongLength,
    /// The byte at `place`, counted from 0, is no character of packed text.
    #[error("bad character at {place}")]
    BadCharacter { place: usize },
    /// Three bytes are neither a calendar date nor three zeros.
    #[error("bad date")]
    BadDate,
    /// A number is above the greatest allowed number.
    #[error("out of range")]
    OutOfRange,
}

impl ValueFault {
    /// Returns the number of the fault, 1 to 4.
    pub fn number(self) -> u8
        ensures { result ≡ value_fault_number self }
    {
        match self {
            ValueFault::WrongLength => 1,
            ValueFault::BadCharacter { place: _ } => 2,
            ValueFault::BadDate => 3,
            ValueFault::OutOfRange => 4,
        }
    }
}
