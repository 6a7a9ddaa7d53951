//! The lines of texts and their words. In a text of at least 64 bytes, lines that end within the first 64 bytes are cut in a different way
//! from the others.
use hart_rows::{hold_ok, same_bytes, same_if_any, told};
use hart_text::{Words, first_line, leading_item};
use std::test::Fail;

/// A text, and its lines as lists of their words.
type Row<'a> = (&'a str, &'a [&'a [&'a str]]);

const TEXTS: &[Row] = &[
    ("", &[&[]]),
    ("\n", &[&[], &[]]),
    (" \t ", &[&[]]),
    ("one", &[&["one"]]),
    ("\tone  two \n three\t", &[&["one", "two"], &["three"]]),
    ("one\r\n\r\n\rtwo\r", &[&["one"], &[], &["\rtwo"]]),
    ("one\r\r\n", &[&["one\r"], &[]]),
    // A word of 63 bytes before the first line feed, and in the next row a word of 64 bytes.
    (
        "aaaaaaaaaabbbbbbbbbbccccccccccddddddddddeeeeeeeeeeffffffffffggg\nh i",
        &[
            &["aaaaaaaaaabbbbbbbbbbccccccccccddddddddddeeeeeeeeeeffffffffffggg"],
            &["h", "i"],
        ],
    ),
    (
        "aaaaaaaaaabbbbbbbbbbccccccccccddddddddddeeeeeeeeeeffffffffffgggg\nh i",
        &[
            &["aaaaaaaaaabbbbbbbbbbccccccccccddddddddddeeeeeeeeeeffffffffffgggg"],
            &["h", "i"],
        ],
    ),
    // The last of the first 64 bytes is a blank, a carriage return, or the only byte of a word.
    (
        "aaaaaaaaaabbbbbbbbbbccccccccccddddddddddeeeeeeeeeeffffffffffggg hh\n",
        &[
            &[
                "aaaaaaaaaabbbbbbbbbbccccccccccddddddddddeeeeeeeeeeffffffffffggg",
                "hh",
            ],
            &[],
        ],
    ),
    (
        "aaaaaaaaaabbbbbbbbbbccccccccccddddddddddeeeeeeeeeeffffffffffggg\r\nhh",
        &[
            &["aaaaaaaaaabbbbbbbbbbccccccccccddddddddddeeeeeeeeeeffffffffffggg"],
            &["hh"],
        ],
    ),
    (
        "a b\tc\r\n\n d \n                                                        e",
        &[&["a", "b", "c"], &[], &["d"], &["e"]],
    ),
];

/// Whether a line has these words.
fn has_words(line: Words, words: &[&str]) -> Result<bool, Fail> {
    let mut rest = line;
    for word in words {
        let (next, after) = rest.next().ok_or("fewer words")?;
        same_bytes(next, word.as_bytes())?;
        rest = after;
    }
    told(rest.is_empty(), &words.len())
}

/// Returns the word of a list, if the list has exactly one word.
fn only<'a>(words: &[&'a str]) -> Option<&'a [u8]> {
    match words {
        [word] => Some(word.as_bytes()),
        _ => None,
    }
}

/// Whether a text has these lines.
fn has_lines(text: &str, lines: &[&[&str]]) -> Result<bool, Fail> {
    let mut rest = Some(text.as_bytes());
    for words in lines {
        let text = rest.ok_or("fewer lines")?;
        let (line, after) = first_line(text);
        has_words(line, words)?;
        same_if_any(first_line(text).0.only(), only(words))?;
        rest = after;
    }
    told(rest.is_none(), &lines.len())
}

#[test]
fn items_have_fault_bits(rt: HostRuntime) -> Result<(), Fail> {
    let item = leading_item(b"82!40FF").ok_or("item")?;
    assert!(rt; (item.char.byte(), item.char.faults(), item.len) == (0x82, 0x40, 5));
    Ok(())
}

#[test]
fn texts_have_lines_of_words(rt: HostRuntime) -> Result<(), Fail> {
    for (row, (text, lines)) in TEXTS.iter().enumerate() {
        hold_ok(&rt, has_lines(text, lines), "row", row)?;
    }
    Ok(())
}
