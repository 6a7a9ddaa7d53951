ghost use Rattle.std.specs.Prelude.{◌≡◌, ◌↔◌, All, IsSome, IfSome, IsTrue, take};
ghost use Rattle.hart_frame.specs.heard.Character.{faultless_bytes};

use hart_values::ByteList;
use std::marker::Model;

/// The bits that are not fault bits.
const OTHER_BITS: u8 = !0x72;

/// A received character: a byte, and the faults that the receiver noticed (HCF_SPEC-081).
///
/// The fault bits are `0x40` for vertical parity, `0x20` for overrun, `0x10` for framing and `0x02` for buffer overflow. A character is
/// faultless if none of these bits is set.
#[derive(Clone, Copy, Debug, PartialEq, Eq)]
pub struct Char {
    byte: u8,
    faults: u8,
}

impl Model for Char {
    ghost use Rattle.hart_frame.specs.heard.Character.{Character, AreFaultBits};

    ghost Value = { Character };

    ghost view = { λ c. record { byte = c.byte; faults = c.faults } };

    ghost invariant = { λ c. AreFaultBits c.faults };

    ghost inverse = { λ c. record { byte = c.byte; faults = c.faults } };
}

impl Char {
    ghost use Rattle.hart_frame.specs.heard.Character.{AreFaultBits};

    /// Returns the character of this byte and these fault bits, or `None` if `faults` has a bit other than the four fault bits.
    pub fn new(byte: u8, faults: u8) -> Option<Self>
        ensures accepted { IsSome result ↔ AreFaultBits faults }
        ensures kept { IfSome result (λ character. character ≡ record { byte = byte; faults = faults }) }
    {
        if faults & OTHER_BITS != 0 {
            return None;
        }
        Some(Char { byte, faults })
    }

    /// Returns the byte as it was heard.
    pub fn byte(self) -> u8
        ensures { result ≡ self.byte }
    {
        self.byte
    }

    /// Returns the fault bits.
    pub fn faults(self) -> u8
        ensures { result ≡ self.faults }
    {
        self.faults
    }

    /// Returns true if no fault bit is set.
    pub fn is_faultless(self) -> bool
        ensures { IsTrue result ↔ (self.faults ≡ 0) }
    {
        self.faults == 0
    }
}

/// Returns true if no character has a fault.
pub fn are_faultless(chars: &[Char]) -> bool
    ensures { IsTrue result ↔ All (λ character. character.faults ≡ 0) chars.now }
{
    chars.iter().all(|character| character.is_faultless())
}

/// Returns the bytes of the characters before the first character with faults, or of all characters if no character has faults. Returns at
/// most the first `N` of these bytes.
#[tactic(auto, using(std::proofs::lemmas::Grind::common_steps, crate::proofs::lemmas::heard::Front::longer_front))]
pub(crate) fn faultless_front<const N: usize>(chars: &[Char]) -> ByteList<N>
    ensures { result ≡ take N (faultless_bytes chars.now) }
{
    let mut bytes = ByteList::new();
    for character in &chars[..chars.len().min(N)] {
        if !character.is_faultless() {
            return bytes;
        }
        bytes.push(character.byte());
    }
    bytes
}
