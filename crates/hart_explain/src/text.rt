//! Texts in memory. A text keeps what fits and drops the rest, so a function that prints to a text need not ask whether there is room.
ghost use Rattle.std.specs.Prelude.{◌≡◌, ◌≤◌, ◌∷◌, [], decimal, length};
ghost use Rattle.hex.specs.Hex.{encode_upper};
ghost use Rattle.hart_explain.specs.Text.{extended};

use crate::hex_text;
use crate::pairs::Pairs;
use hart_values::ByteList;
use itoa::Buffer;

/// The greatest number of bytes of a text.
pub const TEXT_LEN: usize = 32_768;

/// The greatest number of bytes of the text for a message or a miss, with a date of at most 32 bytes.
pub const SIGHTING_LEN: usize = 16_384;

/// A text in memory.
pub type Text = ByteList<TEXT_LEN>;

/// Adds bytes. Bytes that do not fit are dropped.
#[tactic(auto, unfolding(crate::specs::Text::extended))]
#[inline(always)]
pub fn push_bytes(text: &mut Text, bytes: &[u8])
    ensures { text.new ≡ extended text.old bytes.now }
{
    if bytes.len() > TEXT_LEN - text.len() {
        push_first_bytes(text, bytes);
    } else {
        text.extend_from_slice(bytes);
    }
}

/// Adds the first of these bytes, as many as fit.
#[tactic(auto, unfolding(crate::specs::Text::extended))]
#[cold]
#[inline(never)]
fn push_first_bytes(text: &mut Text, bytes: &[u8])
    ensures { text.new ≡ extended text.old bytes.now }
{
    let room = TEXT_LEN - text.len();
    text.extend_from_slice(&bytes[..room.min(bytes.len())]);
}

/// Adds a text as it is.
#[inline(always)]
pub fn push_text(text: &mut Text, added: &str)
    ensures { text.new ≡ extended text.old added.now }
{
    push_bytes(text, added.as_bytes());
}

/// Adds a byte.
#[inline(always)]
pub fn push_byte(text: &mut Text, byte: u8)
    ensures { text.new ≡ extended text.old (byte ∷ []) }
{
    push_bytes(text, &[byte]);
}

/// Adds a number in decimal.
pub fn push_number(text: &mut Text, number: u64)
    ensures number { text.new ≡ extended text.old (decimal number) }
    ensures few { length (decimal number) ≤ 20 }
{
    push_text(text, Buffer::new().format(number));
}

/// Adds the value of a byte in decimal. For so few digits this takes fewer instructions than [`push_number`].
#[inline(always)]
pub fn push_byte_number(text: &mut Text, number: u8)
    ensures number { text.new ≡ extended text.old (decimal number) }
    ensures few { length (decimal number) ≤ 3 }
{
    let tens = b'0' + number / 10 % 10;
    let ones = b'0' + number % 10;
    if number >= 100 {
        push_bytes(text, &[b'0' + number / 100, tens, ones]);
    } else if number >= 10 {
        push_bytes(text, &[tens, ones]);
    } else {
        push_byte(text, ones);
    }
}

/// Adds bytes in upper case hex, two digits for each.
#[tactic(auto, unfolding(crate::specs::Text::extended))]
pub fn push_hex(text: &mut Text, pairs: &Pairs, bytes: &[u8])
    ensures { text.new ≡ extended text.old (encode_upper bytes.now) }
{
    if bytes.len() > (TEXT_LEN - text.len()) / 2 {
        push_each_hex(text, pairs, bytes);
    } else {
        hex_text::push_hex(text, pairs, bytes);
    }
}

/// Adds bytes in upper case hex to a text that has no room for all of them.
#[tactic(auto, using(crate::proofs::lemmas::HexText::added_by_byte), unfolding(hex::specs::Hex::encode_with))]
#[inline(never)]
fn push_each_hex(text: &mut Text, pairs: &Pairs, bytes: &[u8])
    ensures { text.new ≡ extended text.old (encode_upper bytes.now) }
{
    for byte in bytes {
        push_bytes(text, &pairs.of(*byte));
    }
}
