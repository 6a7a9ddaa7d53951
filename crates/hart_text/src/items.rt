//! The pieces of a text: hex items, and separators if there are any.
ghost use Rattle.std.specs.Prelude.{◌↔◌, ◌≤◌, length, Some, IfSome, IsTrue, MatchOption};
ghost use Rattle.hart_text.specs.Items.{BeginsAs, IsSeparator, MayBegin, NoPieceBegins};

use crate::digits::Digits;
use crate::item::leading_item;
use hart_frame::Char;

/// The piece at the beginning of a text: what it means, and its length in bytes.
#[derive(Drop)]
pub struct LeadingPiece {
    /// The character of an item, or `None` for a separator.
    pub char: Option<Char>,
    /// The number of bytes that spell the piece.
    pub len: usize,
}

/// Returns the piece at the beginning of a text, or `None` if the text begins with no piece. A piece is a separator, or an item that is
/// whole. An item is whole only if a byte follows it, and this byte does not belong to the item. The table `digits` gives the values of the
/// digits of items without fault bits.
pub fn next_piece(digits: &Digits, text: &[u8]) -> Option<LeadingPiece>
    ensures { MatchOption result (NoPieceBegins text.now) (λ lead. BeginsAs text.now lead.char lead.len) }
{
    if let Some(char) = plain_char(digits, text) {
        return Some(LeadingPiece {
            char: Some(char),
            len: 2,
        });
    }
    leading_piece(text)
}

/// Returns the character of the item at the start of a text, if a byte other than `!` follows the two digits of the item. Returns `None`
/// for any other text.
#[tactic(auto, using(crate::proofs::lemmas::Items::begins_faultless))]
fn plain_char(digits: &Digits, text: &[u8]) -> Option<Char>
    ensures { IfSome result (λ char. BeginsAs text.now (Some char) 2) }
{
    let [high, low, next, ..] = text else {
        return None;
    };
    if *next == b'!' {
        return None;
    }
    let byte = digits.byte_of(*high, *low)?;
    Char::new(byte, 0)
}

/// Returns the piece at the start of a text, or `None` if the text begins with no piece.
fn leading_piece(text: &[u8]) -> Option<LeadingPiece>
    ensures { MatchOption result (NoPieceBegins text.now) (λ lead. BeginsAs text.now lead.char lead.len) }
{
    let first = text.first()?;
    if is_separator(*first) {
        return Some(LeadingPiece { char: None, len: 1 });
    }
    let item = leading_item(text)?;
    if item.len == text.len() {
        // An item is whole only when a byte follows it.
        return None;
    }
    Some(LeadingPiece {
        char: Some(item.char),
        len: item.len,
    })
}

/// Returns true if a byte is a space, a tab, a carriage return or a line feed.
pub fn is_separator(byte: u8) -> bool
    ensures { IsTrue result ↔ IsSeparator byte }
{
    matches!(byte, b' ' | b'\t' | b'\r' | b'\n')
}

/// Returns true if some bytes can be added at the end of `text` so that it begins with a piece. `text` itself must begin with no piece. If
/// the result is true, `text` has at most 5 bytes.
pub fn may_begin(text: &[u8]) -> bool
    requires { NoPieceBegins text.now }
    ensures may { IsTrue result ↔ MayBegin text.now }
    ensures short { IsTrue result → length text.now ≤ 5 }
{
    // This whole item completes the beginning of any item: the missing bytes are the bytes at the same places here.
    let mut item = *b"00!02 ";
    if text.len() > item.len() {
        return false;
    }
    item[..text.len()].copy_from_slice(text);
    leading_piece(&item).is_some()
}
