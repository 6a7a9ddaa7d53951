//! A delivery, which is all that is heard at once, as a caller in C passes it.
ghost use Rattle.std.specs.Prelude.{◌≡◌, ◌≤◌, ◌↔◌, IfErr, IfOk, IsTrue, length, map, take};
ghost use Rattle.hart_c.specs.Find.{HaveFaultBits, char_of, heard_checks};
ghost use Rattle.hart_c.specs.Faults.{AllPass, IsFirstOf};

use crate::fault::Fault;
use crate::find::{HartChar, char_of};
use hart_frame::Char;

/// The maximum number of characters in a delivery. The characters are in an array on the stack, because the proof of a bounded list did not
/// end within 4 minutes.
pub(crate) const MOST_CHARACTERS: usize = 1024;

/// Copies the characters of a delivery to the front of `chars`, and returns their number. Returns a fault if a character has a bit that is
/// no fault bit, or if there are more than 1,024 characters.
pub(crate) fn hear_into(heard: &[HartChar], chars: &mut [Char]) -> Result<usize, Fault>
    requires room { length chars.old ≡ 1024 }
    ensures few { IfOk result (λ len. len ≤ 1024) }
    ensures room { length chars.new ≡ 1024 }
    ensures same { IfOk result (λ len. take len chars.new ≡ map char_of heard.now) }
    ensures accepted { IfOk result (λ len. AllPass (heard_checks heard.now)) }
    ensures refused { IfErr result (IsFirstOf (heard_checks heard.now)) }
{
    check_heard(heard)?;
    for (place, given) in heard.iter().enumerate() {
        chars[place] = char_of(given);
    }
    Ok(heard.len())
}

/// Returns a fault if a character has a bit that is no fault bit, or if there are more than 1,024 characters.
pub(crate) fn check_heard(heard: &[HartChar]) -> Result<(), Fault>
    ensures accepted { IfOk result (λ done. AllPass (heard_checks heard.now)) }
    ensures refused { IfErr result (IsFirstOf (heard_checks heard.now)) }
{
    if !have_fault_bits(heard) {
        return Err(Fault::BadFaultBits);
    }
    if heard.len() > MOST_CHARACTERS {
        return Err(Fault::TooLong);
    }
    Ok(())
}

/// Returns true if the `faults` of each character are fault bits only.
pub(crate) fn have_fault_bits(heard: &[HartChar]) -> bool
    ensures { IsTrue result ↔ HaveFaultBits heard.now }
{
    heard
        .iter()
        .all(|given| Char::new(given.byte, given.faults).is_some())
}
