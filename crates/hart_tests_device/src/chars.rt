//! Characters of texts and of bytes.
use hart_frame::Char;
use std::alloc::Global;
use std::test::Fail;

/// Overwrites the first of `chars` with faultless characters of these bytes.
pub fn write_faultless(chars: &mut [Char], bytes: &[u8]) -> Option<()> {
    for (character, byte) in chars.iter_mut().zip(bytes) {
        *character = Char::new(*byte, 0)?;
    }
    Some(())
}

/// Returns the character of an item: the two hex digits of its byte and, after a `!`, the two hex digits of its fault bits.
fn char_of(item: &str) -> Option<Char> {
    let (byte, faults) = item.split_once('!').unwrap_or((item, "00"));
    let byte = u8::from_str_radix(byte, 16).ok()?;
    let faults = u8::from_str_radix(faults, 16).ok()?;
    Char::new(byte, faults)
}

/// Returns the characters of a text of items with spaces between them.
pub fn chars_of_items(alloc: Global, text: &str) -> Result<Vec<Char>, Fail> {
    let mut chars = Vec::new(alloc);
    for item in text.split_ascii_whitespace() {
        chars.push(char_of(item).ok_or("an item")?)?;
    }
    Ok(chars)
}
