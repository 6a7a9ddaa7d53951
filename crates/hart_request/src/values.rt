//! The bytes of a field, from the word of its value.
ghost use Rattle.std.specs.Prelude.{◌≡◌, ◌+◌, ◌*◌, ◌/◌, ◌≤◌, All, Some, length, true};
ghost use Rattle.std.specs.Str.{chars};
ghost use Rattle.hart_values.specs.hart_date.Calendar.{is_calendar_day};
ghost use Rattle.hart_values.specs.packed_text.Packing.{IsCharacter, IsPackedSize};
ghost use Rattle.hart_commands.specs.WellMade.{suits, suits_size};
ghost use Rattle.hart_request.specs.Values.{bytes_value, can_have, date_value, dated, greatest_of, hex_of, has_hex_prefix, latin_value};
ghost use Rattle.hart_request.specs.Values.{number_bytes, number_up_to, number_value, packed, packed_value, padded, sized};
ghost use Rattle.hart_request.specs.Values.{text_value, value_of};

use crate::fault::FieldFault;
use hart_commands::{FieldKind, FieldRow, FieldSize};
use hart_explain::day_text;
use hart_text::read_data;
use hart_values::{ByteList, PackedText, Payload};
use jiff::civil::Date;

/// The first year that a date can have.
const FIRST_YEAR: i16 = 1900;

const LAST_YEAR: i16 = 2155;

/// The greatest number of bytes of a field that a word can give.
const MOST_BYTES: usize = 32;

/// The bytes of a field.
pub type FieldBytes = ByteList<MOST_BYTES>;

/// Returns the bytes of the value that a word gives for a field.
///
/// # Errors
///
/// Why the word gives no value for the field.
pub fn value_of(row: &FieldRow, word: &str) -> Result<FieldBytes, FieldFault>
    requires { suits_size row.now.kind row.now.size ≡ true }
    ensures { result ≡ value_of row.now.kind row.now.size word.now }
{
    let FieldSize::Exactly(size) = row.size else {
        return sized(hex_bytes(word), 1, 8, FieldFault::NoCodes);
    };
    match row.kind {
        FieldKind::Number | FieldKind::UnitCode => number_value(size, word),
        FieldKind::PackedText => packed_value(size, word),
        FieldKind::LatinText => latin_value(word),
        FieldKind::Date => date_value(word),
        FieldKind::Bytes | FieldKind::Float | FieldKind::Variables => bytes_value(size, word),
    }
}

/// Returns the bytes of a field of `size` bytes whose value is written in hex.
fn bytes_value(size: u8, word: &str) -> Result<FieldBytes, FieldFault>
    requires { size ≤ 32 }
    ensures { result ≡ bytes_value size word.now }
{
    let count = usize::from(size);
    sized(
        hex_bytes(word),
        count,
        count,
        FieldFault::NoBytes { count: size },
    )
}

/// Returns the bytes, if there are at least `least` and at most `most` of them, and otherwise the fault.
fn sized(
    read: Option<Payload>,
    least: usize,
    most: usize,
    fault: FieldFault,
) -> Result<FieldBytes, FieldFault>
    requires { most ≤ 32 }
    ensures { result ≡ sized fault least most read }
{
    match read {
        Some(bytes) if least <= bytes.len() && bytes.len() <= most => {
            FieldBytes::from_slice(bytes.as_slice()).ok_or(fault)
        }
        _ => Err(fault),
    }
}

/// Returns true if a word begins with `0x`.
fn has_hex_prefix(word: &str) -> bool
    ensures { result ≡ has_hex_prefix word.now }
{
    matches!(word.as_bytes(), [b'0', b'x', ..])
}

/// Returns the bytes that a word encodes in hex: `0x`, and two digits for each byte. Returns `None` for any other word.
fn hex_bytes(word: &str) -> Option<Payload>
    ensures { result ≡ hex_of word.now }
{
    if !has_hex_prefix(word) {
        return None;
    }
    read_data(&word.as_bytes()[2..])
}

/// Returns the number in a word as `size` bytes, one or two, or the fault of the word.
fn number_value(size: u8, word: &str) -> Result<FieldBytes, FieldFault>
    requires { suits FieldKind.Number size ≡ true }
    ensures { result ≡ number_value size word.now }
{
    let greatest = greatest_of(size);
    match number_up_to(greatest, word) {
        Some(number) => Ok(number_bytes(size, number)),
        None => Err(FieldFault::NoNumber { greatest }),
    }
}

/// Returns the greatest number that one byte or two bytes can have.
fn greatest_of(size: u8) -> u16
    ensures { result ≡ greatest_of size }
{
    if size == 1 { 255 } else { 65535 }
}

/// Returns a number as one byte or two bytes.
fn number_bytes(size: u8, number: u16) -> FieldBytes
    requires { number ≤ greatest_of size }
    ensures { result ≡ number_bytes size number }
{
    let mut bytes = FieldBytes::new();
    if size == 1 {
        bytes.push(number as u8);
        return bytes;
    }
    bytes.push((number / 256) as u8);
    bytes.push((number % 256) as u8);
    bytes
}

/// Returns the number that a word writes in decimal, if it is at most `greatest`.
fn number_up_to(greatest: u16, word: &str) -> Option<u16>
    ensures { result ≡ number_up_to greatest word.now }
{
    let number = word.parse::<u16>().ok()?;
    if number > greatest {
        return None;
    }
    Some(number)
}

/// Returns the packed text in a word as `size` bytes, 6, 12 or 24, or the fault of the word.
fn packed_value(size: u8, word: &str) -> Result<FieldBytes, FieldFault>
    requires { IsPackedSize size }
    ensures { result ≡ packed_value size word.now }
{
    let text = text_value(FieldKind::PackedText, 4 * usize::from(size) / 3, word)?;
    Ok(match size {
        6 => packed::<6>(text.as_slice()),
        12 => packed::<12>(text.as_slice()),
        _ => packed::<24>(text.as_slice()),
    })
}

/// Returns the `N` bytes of a packed text.
fn packed<const N: usize>(text: &[u8]) -> FieldBytes
    requires packed { IsPackedSize N }
    requires size { length text.now ≡ 4 * N / 3 }
    requires characters { All IsCharacter text.now }
    ensures { result ≡ packed text.now }
{
    let packed = PackedText::<N>::from_text(text).unwrap();
    FieldBytes::from_slice(packed.as_bytes()).unwrap()
}

/// Returns the bytes of a text in ISO Latin-1. A word that begins with `0x` is always read as hex, so that a mistyped hex word is not taken
/// for a text.
fn latin_value(word: &str) -> Result<FieldBytes, FieldFault>
    ensures { result ≡ latin_value 32 word.now }
{
    if has_hex_prefix(word) {
        return bytes_value(32, word);
    }
    text_value(FieldKind::LatinText, MOST_BYTES, word)
}

/// Returns the codes of a text, padded with spaces to this number of characters, or the fault of the text.
fn text_value(kind: FieldKind, most: usize, word: &str) -> Result<FieldBytes, FieldFault>
    requires { most ≤ 32 }
    ensures { result ≡ text_value (can_have kind) most (chars word.now) }
{
    let mut text = FieldBytes::new();
    for character in word.chars() {
        if text.len() == most {
            return Err(FieldFault::TooLong { most });
        }
        if !can_have(kind, character) {
            return Err(FieldFault::BadCharacter { place: text.len() });
        }
        text.push(character as u8);
    }
    pad(&mut text, most);
    Ok(text)
}

/// Returns true if a text of this kind can have a character.
fn can_have(kind: FieldKind, character: char) -> bool
    ensures { result ≡ can_have kind character }
{
    match kind {
        FieldKind::PackedText => matches!(character, ' '..='_'),
        _ => matches!(character, ' '..='~' | '\u{A0}'..='\u{FF}'),
    }
}

/// Pads a text with spaces to this number of characters.
fn pad(text: &mut FieldBytes, most: usize)
    requires { most ≤ 32 }
    ensures { text.new ≡ padded most text.old }
{
    while text.len() < most {
        text.push(b' ');
    }
}

/// Returns the bytes of a date, which is written as `explain` shows it: a day, or `not set`.
fn date_value(word: &str) -> Result<FieldBytes, FieldFault>
    ensures { result ≡ date_value word.now }
{
    if word == "not set" {
        return FieldBytes::from_slice(&[0, 0, 0]).ok_or(FieldFault::NoDate);
    }
    let Ok(date) = word.parse::<Date>() else {
        return Err(FieldFault::NoDate);
    };
    let year = date.year();
    if year < FIRST_YEAR || year > LAST_YEAR {
        return Err(FieldFault::NoDate);
    }
    let year = (year - FIRST_YEAR) as u8;
    day_value(word, date.day() as u8, date.month() as u8, year)
}

/// Returns the bytes of a day that a word writes, if the word is exactly what `explain` shows for this day.
fn day_value(word: &str, day: u8, month: u8, year: u8) -> Result<FieldBytes, FieldFault>
    requires { is_calendar_day day month (1900 + year) ≡ true }
    ensures { result ≡ dated word.now day month (Some year) }
{
    let shown = day_text(day, month, year);
    if word.as_bytes() != shown.as_slice() {
        return Err(FieldFault::NoDate);
    }
    FieldBytes::from_slice(&[day, month, year]).ok_or(FieldFault::NoDate)
}
