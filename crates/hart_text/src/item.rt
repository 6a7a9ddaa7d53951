//! Hex items. Each item means one received character.
ghost use Rattle.std.specs.Prelude.{◌≡◌, ◌↔◌, IsTrue, MatchOption, slice_index};
ghost use Rattle.hart_text.specs.Item.{AreDigits, BeginsAsItem, byte_of, NoItemBegins};

use hart_frame::Char;
use hex::FromHex;

/// The item at the beginning of a text: its character and its length in bytes.
#[derive(Clone, Copy, Debug, Drop, PartialEq, Eq)]
pub struct LeadingItem {
    /// The character.
    pub char: Char,
    /// The number of bytes that spell the character.
    pub len: usize,
}

/// Returns the item at the beginning of a text, or `None` if the text begins with no item.
///
/// A `!` directly after two digits belongs to their item. If no valid fault bits follow this `!`, the text begins with no item.
#[tactic(auto, using(crate::proofs::lemmas::Item::begins_as_plain, crate::proofs::lemmas::Item::begins_as_faulty))]
pub fn leading_item(text: &[u8]) -> Option<LeadingItem>
    ensures { MatchOption result (NoItemBegins text.now) (λ lead. BeginsAsItem text.now lead.char lead.len) }
{
    let [high, low, ..] = text else {
        return None;
    };
    let byte = byte_of_digits(*high, *low)?;
    if !gives_faults(text) {
        let char = Char::new(byte, 0)?;
        return Some(LeadingItem { char, len: 2 });
    }
    let [_, _, _, fault_high, fault_low, ..] = text else {
        return None;
    };
    let faults = byte_of_digits(*fault_high, *fault_low)?;
    if faults == 0 {
        return None;
    }
    let char = Char::new(byte, faults)?;
    Some(LeadingItem { char, len: 5 })
}

/// Returns true if the third byte of a text is a `!`. An item at the start of such a text gives fault bits.
pub fn gives_faults(text: &[u8]) -> bool
    ensures { IsTrue result ↔ (slice_index text.now 2 ≡ 33) }
{
    text.len() > 2 && text[2] == b'!'
}

/// Returns the byte that two hex digits denote, or `None` if one of them is no hex digit.
fn byte_of_digits(high: u8, low: u8) -> Option<u8>
    ensures { MatchOption result (AreDigits high low → ⊥) (λ byte. AreDigits high low × (byte ≡ byte_of high low)) }
{
    let [byte] = <[u8; 1]>::from_hex([high, low]).ok()?;
    Some(byte)
}
