//! Marks between characters that were heard: silences of the line, and dates.
ghost use Rattle.std.specs.Prelude.{◌≡◌, ◌∷◌, ◌↔◌, ◌<◌, ◌≤◌, IfSome, IsTrue, MatchOption, All, drop, get_or, length, take};
ghost use Rattle.hart_text.specs.Heard.{IsVisible, NoMarkBegins, NothingBegins};
ghost use Rattle.hart_text.specs.Items.{NoPieceBegins, Opens};
ghost use Rattle.hart_text.specs.Marks.{HasMark, MayBeginDate, mark_length};

use crate::items::{is_separator, may_begin};

/// The greatest number of bytes in the word of a date.
pub const DATE_LEN: usize = 32;

/// A mark between characters that were heard.
#[derive(Clone, Copy)]
pub enum Mark {
    /// A `/`: the line fell silent.
    Silence,
    /// A `@` and a word of `len` bytes: the date of what was heard next.
    Date { len: usize },
}

/// Returns the mark at the start of a text, or `None` if the text begins with no mark.
pub fn leading_mark(text: &[u8]) -> Option<Mark>
    ensures mark { MatchOption result (NoMarkBegins text.now) (HasMark text.now) }
    ensures within { IfSome result (λ mark. mark_length mark ≤ length text.now) }
{
    match text {
        [b'/', ..] => Some(Mark::Silence),
        [b'@', ..] => leading_date(text),
        _ => None,
    }
}

/// Returns the date at the start of a text, or `None` if no date begins there. The text begins with `@`. A separator must follow the word
/// of the date.
fn leading_date(text: &[u8]) -> Option<Mark>
    requires at { text.now ≡ 64 ∷ drop 1 text.now }
    ensures mark { MatchOption result (NoMarkBegins text.now) (HasMark text.now) }
    ensures within { IfSome result (λ mark. mark_length mark ≤ length text.now) }
{
    let len = visible_len(&text[1..]);
    let next = text.get(1 + len)?;
    if len == 0 || len > DATE_LEN || !is_separator(*next) {
        return None;
    }
    Some(Mark::Date { len })
}

/// Returns how many visible bytes stand at the start of a text.
fn visible_len(text: &[u8]) -> usize
    ensures within { result ≤ length text.now }
    ensures visible { All IsVisible (take result text.now) }
    ensures stops { result < length text.now → IsVisible (get_or text.now result 0) → ⊥ }
{
    let mut len = 0;
    while len < text.len() && is_visible(text[len]) {
        len += 1;
    }
    len
}

/// Returns true if a byte is visible. A space is not visible.
fn is_visible(byte: u8) -> bool
    ensures { IsTrue result ↔ IsVisible byte }
{
    (b'!'..=b'~').contains(&byte)
}

/// Returns true if some bytes can be added at the end of `text` so that it begins with a piece or a mark. `text` itself must begin with
/// neither. If the result is true, `text` has at most 33 bytes.
pub fn may_open(text: &[u8]) -> bool
    requires { NothingBegins text.now }
    ensures may { IsTrue result ↔ Opens NothingBegins text.now }
    ensures short { IsTrue result → length text.now ≤ 33 }
{
    may_begin(text) || may_begin_date(text)
}

/// Returns true if a text is a `@` and the beginning of a date's word, with nothing after it.
fn may_begin_date(text: &[u8]) -> bool
    ensures { IsTrue result ↔ MayBeginDate text.now }
{
    text.first() == Some(&b'@')
        && text.len() <= 1 + DATE_LEN
        && visible_len(&text[1..]) == text.len() - 1
}
