//! A table of the values of hex digits, as the `hex` library gives them.
ghost use Rattle.std.specs.Prelude.{◌≡◌, MatchOption};
ghost use Rattle.hart_text.specs.Digits.{AreDigitsOf, value_of_digit};
ghost use Rattle.hart_text.specs.Item.{AreDigits};

use crate::item::leading_item;
use std::marker::Model;

/// The value in the table for a byte that is no hex digit.
const NO_DIGIT: u8 = 255;

/// The value of each byte as a hex digit. The `hex` library is called once for each value, while the table is built.
#[derive(Drop)]
pub struct Digits {
    values: [u8; 256],
}

impl Model for Digits {
    ghost use Rattle.std.specs.Prelude.{List, ℕ};
    ghost use Rattle.hart_text.specs.Digits.{AreDigitValues};

    ghost Value = { List ℕ };

    ghost view = { λ digits. digits.values };

    ghost invariant = { λ digits. AreDigitValues 256 digits.values };
}

impl Digits {
    /// Builds the table from the values that the `hex` library gives.
    #[tactic(auto, using(crate::proofs::lemmas::Item::place_by_place))]
    pub fn new() -> Digits {
        let mut values = [NO_DIGIT; 256];
        for place in 0..256 {
            values[place] = digit_value(place as u8);
        }
        Digits { values }
    }

    /// Returns the byte that two digits denote, or `None` if one of them is no digit.
    #[inline(always)]
    pub fn byte_of(&self, high: u8, low: u8) -> Option<u8>
        ensures { MatchOption result (AreDigits high low → ⊥) (λ byte. AreDigitsOf byte high low) }
    {
        let high = self.values[usize::from(high)];
        let low = self.values[usize::from(low)];
        if high > 15 || low > 15 {
            return None;
        }
        Some(16 * high + low)
    }
}

/// Returns the value of a hex digit, or 255 if the byte is no hex digit.
fn digit_value(byte: u8) -> u8
    ensures { result ≡ value_of_digit byte }
{
    match leading_item(&[b'0', byte]) {
        Some(lead) => lead.char.byte(),
        None => NO_DIGIT,
    }
}
