//! The value of a field.
ghost use Rattle.std.specs.Prelude.{◌≡◌, ◌+◌, ◌*◌, ◌/◌, ◌≤◌, ◌++◌, encode_utf8_all, length, true};
ghost use Rattle.std.specs.List.{list_all};
ghost use Rattle.hart_values.specs.packed_text.Packing.{IsPackedSize};
ghost use Rattle.hart_explain.specs.Values.{held_date, day_words, is_printable, held_latin, number_in, seen_value};
ghost use Rattle.hart_commands.specs.WellMade.{suits};
ghost use Rattle.hart_explain.specs.Values.{two_digits, unpacked, held_value};

use hart_commands::FieldKind;
use hart_values::{ByteList, HartDate, PackedText};
use itoa::Buffer;

/// A text in UTF-8: at most 32 characters of at most two bytes.
pub type Characters = ByteList<64>;

/// The text of a day: a year, a month and a day, with hyphens between them.
pub type DayText = ByteList<30>;

/// The year whose byte is 0.
const FIRST_YEAR: u16 = 1900;

/// What a field holds.
#[derive(Drop)]
pub enum Value<'a> {
    /// Bytes. This is also the value of a float, and of a text that cannot be printed.
    Raw(&'a [u8]),
    /// A number.
    Number(u16),
    /// The code of a unit.
    Unit(u8),
    /// A text in UTF-8.
    Text(Characters),
    /// A day of the calendar, as its text.
    Day(DayText),
    /// A date that is not set.
    NotSet,
    /// Bytes that are no date.
    NoDate(&'a [u8]),
    /// Device variables.
    Variables(&'a [[u8; 8]]),
}

/// Returns the value of a field of this kind.
#[inline(always)]
pub(crate) fn held_value(kind: FieldKind, bytes: &[u8]) -> Value<'_>
    requires { suits kind (length bytes.now) ≡ true }
    ensures { seen_value result ≡ held_value kind bytes.now }
{
    match kind {
        FieldKind::Bytes | FieldKind::Float => Value::Raw(bytes),
        FieldKind::Number => Value::Number(number_of(bytes)),
        FieldKind::UnitCode => Value::Unit(code_of(bytes)),
        FieldKind::PackedText => Value::Text(unpacked(bytes)),
        FieldKind::LatinText => held_latin(bytes),
        FieldKind::Date => held_date(bytes),
        FieldKind::Variables => Value::Variables(bytes.as_chunks::<8>().0),
    }
}

/// Reads one or two bytes as a number.
fn number_of(bytes: &[u8]) -> u16
    requires { suits FieldKind.Number (length bytes.now) ≡ true }
    ensures { result ≡ number_in bytes.now }
{
    match bytes {
        [byte] => u16::from(*byte),
        [high, low] => u16::from_be_bytes([*high, *low]),
        _ => unreachable!(),
    }
}

/// Reads the code of a unit, which has one byte.
fn code_of(bytes: &[u8]) -> u8
    requires { suits FieldKind.UnitCode (length bytes.now) ≡ true }
    ensures { result ≡ number_in bytes.now }
{
    let [code] = bytes else { unreachable!() };
    *code
}

/// Returns the characters of a packed text.
fn unpacked(bytes: &[u8]) -> Characters
    requires { suits FieldKind.PackedText (length bytes.now) ≡ true }
    ensures { result ≡ unpacked bytes.now }
{
    match bytes.len() {
        6 => characters::<6>(bytes),
        12 => characters::<12>(bytes),
        _ => characters::<24>(bytes),
    }
}

/// Returns the characters of a packed text of `N` bytes.
fn characters<const N: usize>(bytes: &[u8]) -> Characters
    requires size { length bytes.now ≡ N }
    requires packed { IsPackedSize N }
    ensures characters { result ≡ unpacked bytes.now }
{
    let packed = PackedText::<N>::from_bytes(*bytes.first_chunk::<N>().unwrap());
    let mut characters = [0; 32];
    let characters = &mut characters[..4 * N / 3];
    packed.write_text(characters).unwrap();
    let mut text = Characters::new();
    text.extend_from_slice(characters);
    text
}

/// Returns the text that these bytes hold in ISO Latin-1, or the bytes if not all of its characters can be printed.
#[tactic(auto, unfolding(crate::specs::Values::held_latin))]
fn held_latin(bytes: &[u8]) -> Value<'_>
    requires { length bytes.now ≤ 32 }
    ensures { seen_value result ≡ held_latin bytes.now }
{
    if are_printable(bytes) {
        Value::Text(in_utf8(bytes))
    } else {
        Value::Raw(bytes)
    }
}

/// Returns true if all characters of a text in ISO Latin-1 can be printed.
fn are_printable(characters: &[u8]) -> bool
    ensures { result ≡ list_all is_printable characters.now }
{
    characters.iter().all(|code| is_printable(*code))
}

/// Returns true if a character of ISO Latin-1 can be printed.
fn is_printable(code: u8) -> bool
    ensures { result ≡ is_printable code }
{
    matches!(code, b' '..=b'~' | 0xA0..)
}

/// Returns characters of ISO Latin-1 in UTF-8.
#[tactic(auto, using(crate::proofs::lemmas::Lengths::one_by_one))]
fn in_utf8(characters: &[u8]) -> Characters
    requires { length characters.now ≤ 32 }
    ensures { result ≡ encode_utf8_all characters.now }
{
    let mut text = Characters::new();
    for code in characters {
        let mut room = [0; 4];
        text.extend_from_slice(char::from(*code).encode_utf8(&mut room).as_bytes());
    }
    text
}

/// Returns the date in three bytes.
fn held_date(bytes: &[u8]) -> Value<'_>
    requires { suits FieldKind.Date (length bytes.now) ≡ true }
    ensures { seen_value result ≡ held_date bytes.now }
{
    let [day, month, year] = bytes else {
        unreachable!()
    };
    match HartDate::from_bytes([*day, *month, *year]) {
        Ok(date) if date.is_set() => Value::Day(day_text(*day, *month, *year)),
        Ok(_) => Value::NotSet,
        Err(_) => Value::NoDate(bytes),
    }
}

/// Returns the text of a day.
pub fn day_text(day: u8, month: u8, year: u8) -> DayText
    ensures { result ≡ day_words day month year }
{
    let mut text = DayText::new();
    text.extend_from_slice(
        Buffer::new()
            .format(FIRST_YEAR + u16::from(year))
            .as_bytes(),
    );
    text.push(b'-');
    push_two_digits(&mut text, month);
    text.push(b'-');
    push_two_digits(&mut text, day);
    text
}

/// Adds a number below a hundred as two digits.
fn push_two_digits(text: &mut DayText, number: u8)
    requires { length text.old ≤ 20 }
    ensures digits { text.new ≡ text.old ++ two_digits number }
    ensures few { length text.new ≤ length text.old + 6 }
{
    text.extend_from_slice(Buffer::new().format(number / 10).as_bytes());
    text.extend_from_slice(Buffer::new().format(number % 10).as_bytes());
}
