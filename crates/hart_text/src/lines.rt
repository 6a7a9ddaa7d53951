//! The lines of a text and the words of a line.
ghost use Rattle.std.specs.Prelude.{◌≡◌, ◌≢◌, ◌==◌, ◌<◌, ◌≤◌, ◌↔◌, [], ◌∷◌, length, unwrap_or, IfSome, IsTrue, MatchOption};
ghost use Rattle.std.specs.List.{position_or_len};
ghost use Rattle.std.specs.Option.{option_map};
ghost use Rattle.std.specs.Str.Lines.{strip_carriage_return};
ghost use Rattle.hart_text.specs.Lines.{AreMarks, HasBlanks, after_line_feed, is_blank, lines_in_words, words_of};

use memchr::{memchr, memchr2};
use std::marker::Model;
use std::simd::prelude::*;

/// The number of bytes whose blanks are marked at once. Most lines have fewer bytes, and for short words `memchr` alone is slower.
const MARKED: usize = 64;

/// The remaining words of a line.
#[derive(Drop)]
pub struct Words<'a> {
    /// The remaining bytes of the line.
    bytes: &'a [u8],
    /// The marks of the blanks. If `is_marked` is true, the bit of each byte of `bytes` is set exactly if the byte is a blank. Bit 0
    /// belongs to the first byte. The bits beyond the last byte have no meaning.
    blanks: u64,
    /// True if `blanks` has the marks. False if the line was long or began near the end of its text.
    is_marked: bool,
}

impl<'a> Model for Words<'a> {
    ghost use Rattle.std.specs.Prelude.{◌≡◌, List, ℕ, true};
    ghost use Rattle.hart_text.specs.Lines.{HasBlanks, words_of};

    ghost Value = { List (List ℕ) };

    ghost view = { λ words. words_of words.bytes.now };

    ghost invariant = { λ words. words.is_marked ≡ true → HasBlanks words.blanks words.bytes.now };
}

/// Returns the first line of a text and, if a line feed ends this line, the text after the line feed.
#[inline(always)]
pub fn first_line(text: &[u8]) -> (Words<'_>, Option<&[u8]>)
    ensures cut { lines_in_words text.now ≡ result.0 ∷ unwrap_or (option_map (λ rest. lines_in_words rest.now) result.1) [] }
    ensures rest { IfSome result.1 (λ rest. rest.now ≡ after_line_feed text.now) }
    ensures shorter { IfSome result.1 (λ rest. length rest.now < length text.now) }
{
    if let Some((words, rest)) = marked_line(text) {
        return (words, Some(rest));
    }
    match memchr(b'\n', text) {
        Some(len) => (
            unmarked(without_return(&text[..len])),
            Some(&text[len + 1..]),
        ),
        None => (unmarked(without_return(text)), None),
    }
}

/// Returns the first line of a text with its blanks marked, and the text after the line feed. Returns `None` if the text has fewer than 64
/// bytes, or if its first 64 bytes have no line feed.
#[inline(always)]
fn marked_line(text: &[u8]) -> Option<(Words<'_>, &[u8])>
    ensures cut { IfSome result (λ cut. lines_in_words text.now ≡ cut.0 ∷ lines_in_words cut.1.now) }
    ensures rest { IfSome result (λ cut. cut.1.now ≡ after_line_feed text.now) }
    ensures shorter { IfSome result (λ cut. length cut.1.now < length text.now) }
{
    if text.len() < MARKED {
        return None;
    }
    let bytes = u8x64::from_slice(text);
    let feeds = line_feeds(bytes);
    if feeds == 0 {
        return None;
    }
    let len = feeds.trailing_zeros() as usize;
    let words = Words {
        bytes: without_return(&text[..len]),
        blanks: blanks(bytes),
        is_marked: true,
    };
    Some((words, &text[len + 1..]))
}

/// Returns a mask with a bit for each byte. The bit is set exactly if the byte is a line feed.
#[inline(always)]
fn line_feeds(bytes: u8x64) -> u64
    ensures { AreMarks (λ byte. byte == 10) result bytes }
{
    bytes.simd_eq(u8x64::splat(b'\n')).to_bitmask()
}

/// Returns a mask with a bit for each byte. The bit is set exactly if the byte is a blank.
#[inline(always)]
fn blanks(bytes: u8x64) -> u64
    ensures { AreMarks is_blank result bytes }
{
    let are_blanks = bytes.simd_eq(u8x64::splat(b' ')) | bytes.simd_eq(u8x64::splat(b'\t'));
    are_blanks.to_bitmask()
}

/// Returns the words of a line, without marks for its blanks.
fn unmarked(bytes: &[u8]) -> Words<'_>
    ensures { result ≡ words_of bytes.now }
{
    Words {
        bytes,
        blanks: 0,
        is_marked: false,
    }
}

/// Returns `part` without its last byte if this byte is a carriage return, and otherwise all of `part`.
fn without_return(part: &[u8]) -> &[u8]
    ensures { result.now ≡ strip_carriage_return part.now }
{
    part.strip_suffix(b"\r").unwrap_or(part)
}

impl<'a> Words<'a> {
    /// Returns the first word and the words after it, or `None` if there is no word.
    #[inline(always)]
    pub fn next(self) -> Option<(&'a [u8], Words<'a>)>
        ensures { MatchOption result (self.entry ≡ []) (λ taken. self.entry ≡ (taken.0).now ∷ taken.1) }
    {
        if self.is_marked {
            next_marked(self.bytes, self.blanks)
        } else {
            next_unmarked(self.bytes)
        }
    }

    /// Returns the only word, or `None` if there is no word or several.
    pub fn only(self) -> Option<&'a [u8]>
        ensures { MatchOption result (length self.entry ≢ 1) (λ word. self.entry ≡ word.now ∷ []) }
    {
        let (word, rest) = self.next()?;
        rest.is_empty().then_some(word)
    }

    /// Returns true if there is no word.
    pub fn is_empty(self) -> bool
        ensures { IsTrue result ↔ (self.entry ≡ []) }
    {
        self.next().is_none()
    }
}

/// Returns the first word of a line and the words after it, or `None` if the line has no word. `blanks` marks the blanks of the line.
#[inline(always)]
fn next_marked(line: &[u8], blanks: u64) -> Option<(&[u8], Words<'_>)>
    requires { HasBlanks blanks line.now }
    ensures { MatchOption result (words_of line.now ≡ []) (λ taken. words_of line.now ≡ (taken.0).now ∷ taken.1) }
{
    let start = blanks.trailing_ones() as usize;
    if start >= line.len() {
        return None;
    }
    let bytes = &line[start..];
    let blanks = blanks >> start;
    let len = bytes.len().min(blanks.trailing_zeros() as usize);
    let (word, bytes) = bytes.split_at(len);
    let blanks = blanks >> len;
    let is_marked = true;
    Some((
        word,
        Words {
            bytes,
            blanks,
            is_marked,
        },
    ))
}

/// Returns the first word of a line and the words after it, or `None` if the line has no word.
#[tactic(auto, using(crate::proofs::lemmas::Lines::word_first))]
#[inline(never)]
fn next_unmarked(line: &[u8]) -> Option<(&[u8], Words<'_>)>
    ensures { MatchOption result (words_of line.now ≡ []) (λ taken. words_of line.now ≡ (taken.0).now ∷ taken.1) }
{
    let mut rest = line;
    while let [first, tail @ ..] = rest {
        if !is_blank(*first) {
            let (word, rest) = rest.split_at(len_before_blank(rest));
            return Some((word, unmarked(rest)));
        }
        rest = tail;
    }
    None
}

/// Returns the number of bytes before the first blank, or the length of the line if it has no blank.
#[tactic(auto, using(crate::proofs::lemmas::Lines::place_found))]
fn len_before_blank(line: &[u8]) -> usize
    ensures place { result ≡ position_or_len is_blank line.now }
    ensures within { result ≤ length line.now }
{
    memchr2(b' ', b'\t', line).unwrap_or(line.len())
}

/// Returns true if a byte is a space or a tab.
fn is_blank(byte: u8) -> bool
    ensures { result ≡ is_blank byte }
{
    byte == b' ' || byte == b'\t'
}
