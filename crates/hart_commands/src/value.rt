//! Variables in a reply.
ghost use Rattle.std.specs.Prelude.{◌≡◌};
ghost use Rattle.hart_commands.specs.Values.{unit_value_of, unit_value_bytes, variable_of, variable_bytes};

use hart_values::Bits32;

/// A value and the code of its unit, as in replies to Commands 1 and 3 (HCF_SPEC-127).
#[derive(Clone, Copy, Debug, Default, PartialEq, Eq)]
pub struct UnitValue {
    /// The code of the unit.
    pub unit: u8,
    /// The value.
    pub value: Bits32,
}

impl UnitValue {
    /// Reads a unit and a value from five bytes.
    pub(crate) fn from_bytes(bytes: [u8; 5]) -> Self
        ensures { result ≡ unit_value_of bytes }
    {
        let [unit, a, b, c, d] = bytes;
        UnitValue {
            unit,
            value: Bits32([a, b, c, d]),
        }
    }

    /// Returns the five bytes of the unit and the value.
    pub(crate) fn to_bytes(self) -> [u8; 5]
        ensures { result ≡ unit_value_bytes self }
    {
        let [a, b, c, d] = self.value.0;
        [self.unit, a, b, c, d]
    }
}

/// A device variable, as in replies to Command 9 (HCF_SPEC-127).
#[derive(Clone, Copy, Debug, Default, PartialEq, Eq)]
pub struct VariableReading {
    /// The variable code that was asked for.
    pub code: u8,
    /// The classification of the variable, 0 if it has none.
    pub classification: u8,
    /// The code of the unit.
    pub unit: u8,
    /// The value.
    pub value: Bits32,
    /// The status of the variable.
    pub status: u8,
}

impl VariableReading {
    /// Reads a device variable from eight bytes.
    pub(crate) fn from_bytes(bytes: [u8; 8]) -> Self
        ensures { result ≡ variable_of bytes }
    {
        let [code, classification, unit, a, b, c, d, status] = bytes;
        VariableReading {
            code,
            classification,
            unit,
            value: Bits32([a, b, c, d]),
            status,
        }
    }

    /// Returns the eight bytes of the variable.
    pub(crate) fn to_bytes(self) -> [u8; 8]
        ensures { result ≡ variable_bytes self }
    {
        let [a, b, c, d] = self.value.0;
        [
            self.code,
            self.classification,
            self.unit,
            a,
            b,
            c,
            d,
            self.status,
        ]
    }
}
