//! Shared parts of the tests of `serve` and of `master`. Both calls answer lines. Both are tested in the same way on long lines, on many
//! lines and on writes that fail.

use hart_calls::{ALL, Call, EMPTY, Given, NONE, WRITE, Wanted, does, does_by_name};
use hart_rows::hold_ok;
use std::alloc::Global;
use std::test::Fail;

/// A number of spaces, the input after them, and the answers of the call to the spaces and the input.
pub type LongRow<'a> = (usize, &'a str, &'a str);

/// The wanted result of a call that writes this text without a fault, after any number of reads and writes.
fn answered(text: &str) -> Wanted<'_> {
    Wanted {
        fault: NONE,
        text,
        reads: None,
        writes: None,
    }
}

/// Fails the test unless a call, made by its function, answers the spaces and the input of each row with the text of the row.
pub fn hold_long_rows(
    rt: &impl Eprint,
    alloc: Global,
    call: Call,
    rows: &[LongRow],
) -> Result<(), Fail> {
    for (number, (spaces, input, text)) in rows.iter().enumerate() {
        let given = Given {
            spaces: *spaces,
            input,
            ..EMPTY
        };
        let done = does_by_name(rt, alloc, call, &given, &answered(text));
        hold_ok(rt, done, "row", number)?;
    }
    Ok(())
}

/// Whether a call ends at the write that fails, and has written all bytes of the text before this write. Each write takes one byte.
fn ends_at(
    rt: &impl Eprint,
    alloc: Global,
    call: Call,
    (input, text): (&str, &str),
    fails_at: usize,
) -> Result<bool, Fail> {
    for most_read in [1, 3, ALL] {
        let given = Given {
            input,
            most_read,
            most_written: 1,
            fails_at: Some(fails_at),
            ..EMPTY
        };
        let wanted = Wanted {
            fault: WRITE,
            text: text.get(..fails_at).ok_or("a write")?,
            reads: None,
            writes: Some(fails_at.saturating_add(1)),
        };
        if !does(rt, alloc, call, &given, &wanted)? {
            return Ok(false);
        }
    }
    Ok(true)
}

/// Lets each write of the text fail in turn. Fails the test unless the call ends at the failed write.
pub fn hold_failed_writes(
    rt: &impl Eprint,
    alloc: Global,
    call: Call,
    row: (&str, &str),
) -> Result<(), Fail> {
    for fails_at in 0..row.1.len() {
        hold_ok(
            rt,
            ends_at(rt, alloc, call, row, fails_at),
            "write",
            fails_at,
        )?;
    }
    Ok(())
}

/// Fails the test unless a call answers an input with this text. A read can return the whole input at once.
pub fn hold_answers(
    rt: &impl Eprint,
    alloc: Global,
    call: Call,
    input: &str,
    text: &str,
) -> Result<(), Fail> {
    let given = Given { input, ..EMPTY };
    does(rt, alloc, call, &given, &answered(text))?
        .then_some(())
        .ok_or("other lines")?;
    Ok(())
}
