//! The words that describe a message to send. Hex digits may have either case, because tools write both; any other word has one spelling.

ghost use Rattle.std.specs.Prelude.{◌≡◌, ◌≤◌, ◌<◌, ◌*◌, [], ◌∷◌, IfSome, IsTrue, MatchOption, Ok, Some, length};
ghost use Rattle.hex.specs.Hex.{decode_of};
ghost use Rattle.hart_line.specs.script.Words.{decimal_of, device_of, numbers_of, polling_of, Finds, HasNoValue};
ghost use Rattle.hart_line.specs.script.Words.{IsAddressWord, IsCommandWord, IsDataWord, IsWho};

use hart_text::{Digits, decode_data};
use hart_values::{Address, MasterId, PollingAddress, UniqueAddress};
use hex::FromHex;

/// Reads WHO: `P` for the primary master, or `S` for the secondary. Returns `None` for anything else.
pub fn read_who(word: &[u8]) -> Option<MasterId>
    ensures { Finds (IsWho word.now) result }
{
    match word {
        b"P" => Some(MasterId::Primary),
        b"S" => Some(MasterId::Secondary),
        _ => None,
    }
}

/// Reads ADDRESS: `@` and a polling address, the ten hex digits of a device, or `all` for all devices. Returns `None` for anything else.
pub fn read_address(word: &[u8]) -> Option<Address>
    ensures { Finds (IsAddressWord word.now) result }
{
    if word == b"all".as_slice() {
        return Address::unique(0, 0).ok();
    }
    if let Some(polling) = read_polling_address(word) {
        return Some(Address::Polling(polling));
    }
    Some(Address::Unique(read_device(word)?))
}

/// Reads ADDRESS as [`read_address`] does. Looks up the digits of a device in the table `digits`, which takes fewer instructions.
pub fn read_address_by(digits: &Digits, word: &[u8]) -> Option<Address>
    ensures { Finds (IsAddressWord word.now) result }
{
    match read_device_by(digits, word) {
        Some(device) => Some(Address::Unique(device)),
        None => read_address(word),
    }
}

/// Reads the unique address of a device, written in ten hex digits, with the table `digits`. Returns `None` for any other word.
#[inline(always)]
fn read_device_by(digits: &Digits, word: &[u8]) -> Option<UniqueAddress>
    ensures { IfSome result (λ device. device_of word.now ≡ Some device) }
{
    let [a, b, c, d, e, f, g, h, i, j] = word else {
        return None;
    };
    let type_high = digits.byte_of(*a, *b)?;
    let type_low = digits.byte_of(*c, *d)?;
    let id_high = digits.byte_of(*e, *f)?;
    let id_middle = digits.byte_of(*g, *h)?;
    let id_low = digits.byte_of(*i, *j)?;
    device_in([type_high, type_low, id_high, id_middle, id_low])
}

/// Reads a polling address up to 63, written as `@` and one or two digits. Returns `None` for any other word.
fn read_polling_address(word: &[u8]) -> Option<PollingAddress>
    ensures { result ≡ polling_of word.now }
{
    let [b'@', digits @ ..] = word else {
        return None;
    };
    PollingAddress::new(read_decimal(digits, 2)?).ok()
}

/// Reads the unique address of a device, written in ten hex digits. Returns `None` for any other word.
fn read_device(word: &[u8]) -> Option<UniqueAddress>
    ensures { result ≡ device_of word.now }
{
    device_in(<[u8; 5]>::from_hex(word).ok()?)
}

/// Returns the unique address of the device with these numbers: two bytes for its type, and three for its id.
fn device_in(bytes: [u8; 5]) -> Option<UniqueAddress>
    ensures { result ≡ Some (numbers_of bytes) }
{
    let [type_high, type_low, id_high, id_middle, id_low] = bytes;
    let expanded_type = u16::from_be_bytes([type_high, type_low]);
    let device_id = u32::from_be_bytes([0, id_high, id_middle, id_low]);
    UniqueAddress::new(expanded_type, device_id).ok()
}

/// Reads COMMAND, a number up to 255 in one to three digits. Returns `None` for anything else.
pub fn read_command(word: &[u8]) -> Option<u8>
    ensures { Finds (IsCommandWord word.now) result }
{
    read_decimal(word, 3)
}

/// Reads a decimal number up to 255 in one to `most_digits` digits. `most_digits` is 2 or 3. Returns `None` for any other word.
fn read_decimal(word: &[u8], most_digits: usize) -> Option<u8>
    requires { (2 ≤ most_digits) × (most_digits ≤ 3) }
    ensures { result ≡ decimal_of most_digits 255 word.now }
{
    match word {
        [ones] => number_of(b'0', b'0', *ones),
        [tens, ones] => number_of(b'0', *tens, *ones),
        [hundreds, tens, ones] if most_digits == 3 => number_of(*hundreds, *tens, *ones),
        _ => None,
    }
}

/// Returns the number written in three digits, or `None` if one of them is no digit or the number is above 255.
fn number_of(hundreds: u8, tens: u8, ones: u8) -> Option<u8>
    ensures { result ≡ decimal_of 3 255 (hundreds ∷ tens ∷ ones ∷ []) }
{
    if !hundreds.is_ascii_digit() || !tens.is_ascii_digit() || !ones.is_ascii_digit() {
        return None;
    }
    let above_ten = 10 * u16::from(hundreds - b'0') + u16::from(tens - b'0');
    u8::try_from(10 * above_ten + u16::from(ones - b'0')).ok()
}

/// Reads DATA as [`decode_data`] does. Looks up the digits in the table `digits`, which takes fewer instructions. `room` must be long
/// enough for the word.
pub fn decode_data_by<'a>(digits: &Digits, word: &[u8], room: &'a mut [u8]) -> Option<&'a [u8]>
    requires room { length room.old ≤ 255 }
    requires enough { length word.now ≤ 2 * length room.old }
    ensures { MatchOption result (HasNoValue (IsDataWord word.now)) (λ bytes. IsDataWord word.now bytes.now) }
{
    let len = word.len() / 2;
    if word.len() != 2 * len || !decode_by(digits, word, &mut room[..len]) {
        return decode_data(word, room);
    }
    Some(&room[..len])
}

/// Decodes a word of hex digits with the table `digits`. Returns false if a byte of the word is no digit; `bytes` then has unspecified
/// values.
#[inline(always)]
fn decode_by(digits: &Digits, word: &[u8], bytes: &mut [u8]) -> bool
    requires { length word.now ≡ 2 * length bytes.old }
    ensures decoded { IsTrue result → decode_of word.now ≡ Ok bytes.new }
    ensures len { length bytes.new ≡ length bytes.old }
{
    for place in 0..bytes.len() {
        let Some(byte) = digits.byte_of(word[2 * place], word[2 * place + 1]) else {
            return false;
        };
        bytes[place] = byte;
    }
    true
}
