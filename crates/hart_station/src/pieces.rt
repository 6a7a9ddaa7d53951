//! The characters of a text of hex items.
ghost use Rattle.std.specs.Prelude.{◌≡◌, ◌≤◌, ◌+◌, ◌*◌, [], ◌++◌, drop, length};
ghost use Rattle.hart_frame.specs.heard.Character.{faultless};
ghost use Rattle.hart_text.specs.Items.{NoPieceBegins, ReadsUpTo};

use hart_frame::Char;
use hart_line::Filling;
use hart_text::{Digits, next_piece, read_chunk};
use hart_values::ByteList;

/// The greatest number of faultless bytes that are decoded at once.
const RUN_LEN: usize = 256;

/// Reads a text up to the first place where neither an item nor a separator begins, and returns that place. The last byte belongs to no
/// item. So `chars` needs room for only one character per two bytes before the last byte.
pub fn read_pieces(digits: &Digits, text: &[u8], chars: &mut Filling<Char>) -> usize
    requires empty { chars.old.items ≡ [] }
    requires room { length text.now ≤ 2 * chars.old.room + 2 }
    ensures within { result ≤ length text.now }
    ensures reads { ReadsUpTo text.now chars.new.items (drop result text.now) }
    ensures stops { NoPieceBegins (drop result text.now) }
    ensures kept { chars.new.room ≡ chars.old.room }
{
    let mut bytes: ByteList<RUN_LEN> = ByteList::new();
    let mut place = 0;
    loop {
        bytes.clear();
        place += read_chunk(digits, &text[place..], &mut bytes);
        push_faultless(chars, bytes.as_slice());
        let Some(lead) = next_piece(digits, &text[place..]) else {
            return place;
        };
        if let Some(char) = lead.char {
            chars.push(char);
        }
        place += lead.len;
    }
}

/// Appends the characters of bytes that came without faults.
fn push_faultless(chars: &mut Filling<Char>, bytes: &[u8])
    requires few { length bytes.now ≤ 256 }
    requires room { length chars.old.items + length bytes.now ≤ chars.old.room }
    ensures { chars.new ≡ record chars.old { items = chars.old.items ++ faultless bytes.now } }
{
    let mut heard = [faultless_char(0); RUN_LEN];
    let heard = &mut heard[..bytes.len()];
    write_faultless(heard, bytes);
    chars.extend(heard);
}

/// Writes the characters of bytes that came without faults. The compiler writes several characters at once only in a separate function.
#[inline(never)]
fn write_faultless(chars: &mut [Char], bytes: &[u8])
    requires { length chars.old ≡ length bytes.now }
    ensures { chars.new ≡ faultless bytes.now }
{
    for place in 0..bytes.len() {
        chars[place] = faultless_char(bytes[place]);
    }
}

/// Returns the character of a byte that came without faults.
fn faultless_char(byte: u8) -> Char
    ensures { result ≡ record { byte = byte; faults = 0 } }
{
    Char::new(byte, 0).unwrap()
}
