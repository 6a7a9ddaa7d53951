//! The words of a line.
ghost use Rattle.std.specs.Prelude.{◌≡◌, ◌==◌, MatchResult, map, option_map};
ghost use Rattle.std.specs.List.{list_any};
ghost use Rattle.hart_station.specs.LineWords.{AddsPart, AreReadable, IsBadPart, IsCutAt, IsFirstUnreadable, separator_of, words_of};

use arrayvec::ArrayVec;

/// The greatest number of words in a line.
pub const MOST_WORDS: usize = 64;

/// The words of a line.
pub type LineWords<'a> = ArrayVec<&'a str, MOST_WORDS>;

/// Returns the words of a line.
///
/// # Errors
///
/// The number, counted from 1, of the first bad word: one that is not valid UTF-8, or the 65th.
pub fn read_words(line: &[u8]) -> Result<LineWords<'_>, u8>
    ensures { MatchResult result
        (λ words. (map (λ word. word.now) words.items ≡ words_of line.now) × AreReadable (words_of line.now))
        (λ number. IsFirstUnreadable (words_of line.now) number) }
{
    let separator = separator_of(line);
    let mut words = LineWords::new();
    let mut rest = Some(line);
    while let Some(text) = rest {
        let (part, after) = first_part(text, separator);
        push_part(&mut words, part)?;
        rest = after;
    }
    Ok(words)
}

/// Appends a part of a line to the words before it, unless the part is empty.
///
/// # Errors
///
/// The number that the word would have, if it is not valid UTF-8 or would be the 65th.
fn push_part<'a>(words: &mut LineWords<'a>, part: &'a [u8]) -> Result<(), u8>
    ensures { MatchResult result
        (λ _. AddsPart (map (λ word. word.now) words.old.items) part.now (map (λ word. word.now) words.new.items))
        (λ number. IsBadPart (map (λ word. word.now) words.old.items) part.now number) }
{
    if part.is_empty() {
        return Ok(());
    }
    let number = words.len() as u8 + 1;
    if words.is_full() {
        return Err(number);
    }
    let Ok(word) = std::str::from_utf8(part) else {
        return Err(number);
    };
    words.push(word);
    Ok(())
}

/// Returns the byte that separates the words of a line.
fn separator_of(line: &[u8]) -> u8
    ensures { result ≡ separator_of line.now }
{
    if has_tab(line) { b'\t' } else { b' ' }
}

/// Returns true if a line has a tab.
fn has_tab(line: &[u8]) -> bool
    ensures { result ≡ list_any (λ byte. byte == 9) line.now }
{
    for byte in line {
        if *byte == b'\t' {
            return true;
        }
    }
    false
}

/// Returns the part before the first separator, and the text after that separator. Without a separator, returns the whole text and `None`.
fn first_part(text: &[u8], separator: u8) -> (&[u8], Option<&[u8]>)
    ensures { IsCutAt separator text.now result.0.now (option_map (λ rest. rest.now) result.1) }
{
    let Some(len) = text.iter().position(|byte| *byte == separator) else {
        return (text, None);
    };
    let (part, rest) = text.split_at(len);
    (part, Some(&rest[1..]))
}
