//! Texts with long words, with many lines, with zero bytes, and of a single byte.
use super::*;
use hart_rows::text_of;

/// A text in which a part is repeated. The text is a script, given by a letter for each event, or has a first bad line, given by its
/// number.
struct Long<'a> {
    prefix: &'a str,
    part: &'a str,
    times: usize,
    suffix: &'a str,
    want: Result<&'a str, usize>,
}

const LONG: &[Long] = &[
    // Words of 100,000 bytes, in each place of a line.
    Long {
        prefix: "",
        part: "A",
        times: 100_000,
        suffix: " P @0 0",
        want: Err(1),
    },
    Long {
        prefix: "submit ",
        part: "P",
        times: 100_000,
        suffix: " @0 0",
        want: Err(1),
    },
    Long {
        prefix: "submit P @",
        part: "0",
        times: 99_999,
        suffix: " 0",
        want: Err(1),
    },
    Long {
        prefix: "submit P ",
        part: "0",
        times: 100_000,
        suffix: " 0",
        want: Err(1),
    },
    Long {
        prefix: "submit P @0 ",
        part: "0",
        times: 100_000,
        suffix: "",
        want: Err(1),
    },
    Long {
        prefix: "submit P @0 0 ",
        part: "00",
        times: 50_000,
        suffix: "",
        want: Err(1),
    },
    Long {
        prefix: "protect o",
        part: "n",
        times: 99_999,
        suffix: "",
        want: Err(1),
    },
    Long {
        prefix: "turn P ok ",
        part: "FF",
        times: 50_000,
        suffix: "",
        want: Ok("T"),
    },
    Long {
        prefix: "turn P ",
        part: "FF!40",
        times: 20_000,
        suffix: "! ok",
        want: Err(1),
    },
    Long {
        prefix: "noise ",
        part: "FF!40",
        times: 20_000,
        suffix: "",
        want: Ok("N"),
    },
    Long {
        prefix: "noise ",
        part: "0",
        times: 99_999,
        suffix: "",
        want: Err(1),
    },
    Long {
        prefix: "",
        part: "#",
        times: 100_000,
        suffix: "\nturn",
        want: Err(2),
    },
    // Blanks are no part of a word.
    Long {
        prefix: "protect",
        part: " \t",
        times: 50_000,
        suffix: "off",
        want: Ok("-"),
    },
    // An empty line is no event, but the line numbers count it.
    Long {
        prefix: "",
        part: "\n",
        times: 500_000,
        suffix: "",
        want: Ok(""),
    },
    Long {
        prefix: "",
        part: "\n",
        times: 500_000,
        suffix: "protect on",
        want: Ok("+"),
    },
    Long {
        prefix: "",
        part: "\n",
        times: 500_000,
        suffix: "protect",
        want: Err(500_001),
    },
];

/// Whether a long text is read as its script.
fn is_long_read(alloc: Global, long: &Long) -> Result<bool, Fail> {
    let text = text_of(alloc, long.prefix, long.part, long.times, long.suffix)?;
    is_read_as(alloc, text.as_bytes(), long.want)
}

#[test]
fn long_texts_are_read(rt: HostRuntime) -> Result<(), Fail> {
    for (row, long) in LONG.iter().enumerate() {
        hold_ok(&rt, is_long_read(rt.alloc(), long), "row", row)?;
    }
    Ok(())
}

/// Texts with a zero byte, which is part of a word like any other byte.
const WITH_ZEROS: &[(&str, Result<&str, usize>)] = &[
    ("\0\0", Err(1)),
    ("#\0\n", Ok("")),
    ("\0#", Err(1)),
    ("protect\0on", Err(1)),
    ("protect on\0", Err(1)),
    ("protect on\n\0", Err(2)),
    ("submit P\0 @0 0", Err(1)),
    ("submit P @0\0 0", Err(1)),
    ("submit P @0 0\0", Err(1)),
    ("submit P 37420A1B2C 19 01234\0", Err(1)),
    ("turn P ok o\0", Err(1)),
    ("noise F\0", Err(1)),
    ("noise FF\0", Err(1)),
];

#[test]
fn a_byte_zero_is_part_of_a_word(rt: HostRuntime) -> Result<(), Fail> {
    for (row, (text, want)) in WITH_ZEROS.iter().enumerate() {
        let is_read = is_read_as(rt.alloc(), text.as_bytes(), *want);
        hold_ok(&rt, is_read, "row", row)?;
    }
    Ok(())
}

/// The bytes that are a whole script by themselves: blanks, line ends and the comment sign.
const LONE: &[u8] = b" \t\n\r#";

#[test]
fn few_bytes_alone_are_scripts(rt: HostRuntime) -> Result<(), Fail> {
    for byte in 0..=u8::MAX {
        let want = if LONE.contains(&byte) { Ok("") } else { Err(1) };
        let is_read = is_read_as(rt.alloc(), &[byte], want);
        hold_ok(&rt, is_read, "byte", usize::from(byte))?;
    }
    Ok(())
}
