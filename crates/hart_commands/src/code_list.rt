ghost use Rattle.std.specs.Prelude.{◌≡◌, ◌<◌, ◌≤◌, ◌↔◌, length, All, IsOk, IfOk, IfErr};

use hart_values::{ByteList, ValueFault};
use std::marker::Model;

/// A list of one to eight codes: the device variables that a request asks for (HCF_SPEC-127, Command 9).
///
/// In contracts, a value of this type is the list of its codes.
#[derive(Debug, Drop, PartialEq, Eq)]
pub struct CodeList {
    codes: ByteList<8>,
}

impl Model for CodeList {
    ghost use Rattle.std.specs.Prelude.{List, ℕ, ◌<◌, ◌≤◌, length};

    ghost Value = { List ℕ };

    ghost view = { λ list. list.codes };

    ghost invariant = { λ list. (0 < length list.codes) × (length list.codes ≤ 8) };

    ghost inverse = { λ xs. record { codes = xs } };
}

impl CodeList {
    /// Makes a list of these codes.
    ///
    /// # Errors
    ///
    /// [`ValueFault::WrongLength`] if there is no code, or if there are more than 8 codes.
    pub fn new(codes: &[u8]) -> Result<Self, ValueFault>
        ensures accepted { IsOk result ↔ ((0 < length codes.now) × (length codes.now ≤ 8)) }
        ensures kept { IfOk result (λ list. list ≡ codes.now) }
        ensures refused { IfErr result (λ fault. fault ≡ ValueFault.WrongLength) }
    {
        if codes.is_empty() {
            return Err(ValueFault::WrongLength);
        }
        let codes = ByteList::from_slice(codes).ok_or(ValueFault::WrongLength)?;
        Ok(CodeList { codes })
    }

    /// Returns a copy of the list.
    pub(crate) fn copy(&self) -> Self
        ensures { result ≡ self.now }
    {
        let codes = ByteList::from_slice(self.as_slice()).unwrap();
        CodeList { codes }
    }

    /// Returns the codes, in order.
    pub fn as_slice(&self) -> &[u8]
        ensures value { result.now ≡ self.now }
        ensures some { 0 < length result.now }
        ensures fits { length result.now ≤ 8 }
        ensures bytes { All (λ code. code < 256) result.now }
    {
        self.codes.as_slice()
    }
}
