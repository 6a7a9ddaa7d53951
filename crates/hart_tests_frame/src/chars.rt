//! Characters of numbers and of bytes.
use hart_frame::Char;
use std::alloc::Global;
use std::test::Fail;

/// Returns the character whose byte is the low byte of `both`, and whose fault bits are the high byte. Returns `None` if the high byte has
/// a bit that is no fault bit.
pub fn char_of(both: u16) -> Option<Char> {
    let [faults, byte] = both.to_be_bytes();
    Char::new(byte, faults)
}

/// Overwrites the first of `chars` with the characters `heard`. The high byte of each number in `heard` is the character's fault bits.
pub fn write_chars(chars: &mut [Char], heard: &[u16]) -> Option<()> {
    for (character, both) in chars.iter_mut().zip(heard) {
        *character = char_of(*both)?;
    }
    Some(())
}

/// Returns the bytes of characters, whatever their faults.
pub fn bytes_of(alloc: Global, chars: &[Char]) -> Result<Vec<u8>, Fail> {
    let mut bytes = Vec::new(alloc);
    for character in chars {
        bytes.push(character.byte())?;
    }
    Ok(bytes)
}
