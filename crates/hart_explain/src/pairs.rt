//! The two hex digits of each byte, as the crate `hex` writes them, kept in a table. Writing the digits with vector instructions was
//! slower, because most data are short.
ghost use Rattle.std.specs.Prelude.{◌≡◌, ◌∷◌, []};
ghost use Rattle.hex.specs.Hex.{encode_upper};

use crate::hex_text::digits_of;
use std::marker::Model;

/// The two digits of each byte in upper case hex. The table asks the crate `hex` for them only once.
#[derive(Drop)]
pub struct Pairs {
    pairs: [[u8; 2]; 256],
}

impl Model for Pairs {
    ghost use Rattle.std.specs.Prelude.{List, ℕ};
    ghost use Rattle.hart_explain.specs.Pairs.{ArePairs};

    ghost Value = { List (List ℕ) };

    ghost view = { λ pairs. pairs.pairs };

    ghost invariant = { λ pairs. ArePairs 256 pairs.pairs };
}

impl Pairs {
    /// Asks the crate `hex` for the digits of each byte.
    pub fn new() -> Pairs {
        let mut pairs = [[0; 2]; 256];
        for place in 0..256 {
            pairs[place] = digits_of(place as u8);
        }
        Pairs { pairs }
    }

    /// Returns the two digits of a byte.
    #[inline(always)]
    pub fn of(&self, byte: u8) -> [u8; 2]
        ensures { result ≡ encode_upper (byte ∷ []) }
    {
        self.pairs[usize::from(byte)]
    }
}
