//! The names of the bits that are set in a status byte.
ghost use Rattle.std.specs.Prelude.{◌≡◌, ◌∷◌, [], MatchOption, map};
ghost use Rattle.hart_commands.specs.StatusBits.{seen_bit};
ghost use Rattle.hart_explain.specs.Status.{set_names};

use hart_commands::NamedBit;
use std::marker::Model;

/// The names of the bits that are set in a byte, without those that `next` has returned already.
#[derive(Drop)]
pub struct SetNames<'a> {
    bits: &'a [NamedBit],
    byte: u8,
}

impl<'a> Model for SetNames<'a> {
    ghost use Rattle.std.specs.Prelude.{List, ℕ, map};
    ghost use Rattle.hart_commands.specs.StatusBits.{seen_bit};
    ghost use Rattle.hart_explain.specs.Status.{set_names};

    ghost Value = { List (List ℕ) };

    ghost view = { λ names. set_names names.byte (map seen_bit names.bits.now) };
}

impl<'a> SetNames<'a> {
    /// Returns the names of the bits that are set in a byte.
    pub fn new(bits: &'a [NamedBit], byte: u8) -> SetNames<'a>
        ensures { result ≡ set_names byte (map seen_bit bits.now) }
    {
        SetNames { bits, byte }
    }

    /// Returns the next name, or `None` if there is none.
    pub fn next(&mut self) -> Option<&'static str>
        ensures { MatchOption result (self.old ≡ []) (λ name. self.old ≡ name.now ∷ self.new) }
    {
        let (name, others) = first_set(self.bits, self.byte)?;
        self.bits = others;
        Some(name)
    }
}

/// Returns the name of the first bit that is set in a byte, and the bits after it.
fn first_set(bits: &[NamedBit], byte: u8) -> Option<(&'static str, &[NamedBit])>
    ensures { MatchOption result (set_names byte (map seen_bit bits.now) ≡ [])
        (λ (name, others). set_names byte (map seen_bit bits.now) ≡ name.now ∷ set_names byte (map seen_bit others.now)) }
{
    let mut rest = bits;
    while let Some((bit, others)) = rest.split_first() {
        if byte & bit.value != 0 {
            return Some((bit.name, others));
        }
        rest = others;
    }
    None
}
