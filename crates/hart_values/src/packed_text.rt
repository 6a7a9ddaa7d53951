//! Packed text: four characters in three bytes.
ghost use Rattle.std.specs.Prelude.{◌≡◌, ◌*◌, ◌/◌, ◌↔◌, length, All, IsOk, IfOk, IfErr, OnOk, OnErr};
ghost use Rattle.hart_values.specs.packed_text.Packing.{IsCharacter, IsPacked, IsPackedSize, IsTextFault};

use crate::ValueFault;
use crate::packed_text::packing::{first_bad_character, pack, unpack};
use std::marker::Model;

mod packing;

/// A text of 8, 16 or 32 characters, packed into `N` bytes: four characters into every three bytes (HCF_SPEC-127).
///
/// In contracts, a packed text is its bytes.
#[derive(Clone, Copy, Debug, PartialEq, Eq, Hash)]
pub struct PackedText<const N: usize> {
    bytes: [u8; N],
}

impl<const N: usize> Model for PackedText<N> {
    ghost use Rattle.std.specs.Prelude.{◌≡◌, List, ℕ, length};
    ghost use Rattle.hart_values.specs.packed_text.Packing.{IsPackedSize};

    ghost Value = { List ℕ };

    ghost view = { λ text. text.bytes };

    ghost invariant = { λ text. IsPackedSize N × (length text.bytes ≡ N) };

    ghost inverse = { λ xs. record { bytes = xs } };
}

impl<const N: usize> PackedText<N> {
    /// Packs a text.
    ///
    /// # Errors
    ///
    /// [`ValueFault::WrongLength`] if the text does not have 4N/3 bytes. Otherwise, if a byte is outside hex 20 to 5F,
    /// [`ValueFault::BadCharacter`] with the place of the first such byte.
    pub fn from_text(text: &[u8]) -> Result<Self, ValueFault>
        requires { IsPackedSize N }
        ensures accepted { IsOk result ↔ ((length text.now ≡ 4 * N / 3) × All IsCharacter text.now) }
        ensures packed { IfOk result (IsPacked text.now) }
        ensures refused { IfErr result (IsTextFault (4 * N / 3) text.now) }
    {
        if text.len() != 4 * N / 3 {
            return Err(ValueFault::WrongLength);
        }
        if let Some(place) = first_bad_character(text) {
            return Err(ValueFault::BadCharacter { place });
        }
        let mut bytes = [0; N];
        pack(text, &mut bytes);
        Ok(PackedText { bytes })
    }

    /// Returns the packed text that has these bytes. Any `N` bytes are a packed text.
    pub fn from_bytes(bytes: [u8; N]) -> Self
        requires { IsPackedSize N }
        ensures { result ≡ bytes.entry }
    {
        PackedText { bytes }
    }

    /// Returns the `N` bytes.
    pub fn as_bytes(&self) -> &[u8]
        ensures value { result.now ≡ self.now }
        ensures size { length result.now ≡ N }
    {
        &self.bytes
    }

    /// Writes the characters to `text`.
    ///
    /// # Errors
    ///
    /// [`ValueFault::WrongLength`] if `text` does not have 4N/3 bytes. In this case `text` is unchanged.
    pub fn write_text(&self, text: &mut [u8]) -> Result<(), ValueFault>
        ensures accepted { IsOk result ↔ (length text.old ≡ 4 * N / 3) }
        ensures written { OnOk result (IsPacked text.new self.now) }
        ensures refused { IfErr result (λ fault. fault ≡ ValueFault.WrongLength) }
        ensures unchanged { OnErr result (text.new ≡ text.old) }
    {
        let bytes = &self.bytes;
        if text.len() != 4 * N / 3 {
            return Err(ValueFault::WrongLength);
        }
        unpack(bytes, text);
        Ok(())
    }
}
