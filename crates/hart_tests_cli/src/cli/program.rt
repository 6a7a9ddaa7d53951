//! Tests of words that make no call, and of a failing writer for errors.

use hart_calls::{EMPTY, Given, Outcome, Trickle, by_words, strings_of};
use hart_cli::{FAULT, NO_CALL};
use hart_rows::hold_ok;
use std::alloc::{AllocError, Global};
use std::test::Fail;

/// Words that make no call, and the beginning of clap's text for them.
const NO_CALLS: &[(&[&str], &str)] = &[
    (&[], "Find, explain, write and answer HART messages"),
    (&["frob"], "error: unrecognized subcommand 'frob'\n"),
    (&[""], "error: "),
    (&["--help"], "Find, explain, write and answer HART messages"),
    (
        &["help", "dump"],
        "List the messages in what was heard on a line.\n",
    ),
    (&["--version"], "hart "),
    (
        &["answer", "--help"],
        "Answer one message as the simulated device does.\n",
    ),
    (&["answer", "extra"], "error: "),
    (&["answer", "--image"], "error: "),
    (&["answer", "--image", "01", "--image", "01"], "error: "),
    (&["dump", "--image", "01"], "error: "),
    (&["encode", "P", "@0"], "error: "),
    (&["encode", "P", "@0", "0", "00", "extra"], "error: "),
    (&["encode", "P", "@0", "0", "--preambles", "4"], "error: "),
    (&["encode", "P", "@0", "0", "--preambles", "21"], "error: "),
];

/// Runs `program` on these words, with the input `!`. Each write to `errors` takes one byte. The write with the number `fails_at` fails.
fn run_on(alloc: Global, words: &[&str], fails_at: Option<usize>) -> Result<Outcome, AllocError> {
    let strings = strings_of(alloc, words)?;
    let given = Given {
        input: "!",
        ..EMPTY
    };
    Ok(by_words(
        alloc,
        strings.as_slice(),
        &given,
        Trickle::new(alloc, fails_at, 1),
    ))
}

/// Whether `program` makes no call for these words. It must read nothing, write no output, and write to `errors` a text that begins with
/// `start`.
fn make_no_call(
    rt: &impl Eprint,
    alloc: Global,
    words: &[&str],
    start: &str,
) -> Result<bool, Fail> {
    let run = run_on(alloc, words, None)?;
    let is_told = !start.is_empty() && run.said.taken().starts_with(start.as_bytes());
    let is_untouched = run.reads == 0 && run.output.writes() == 0;
    let holds = run.number == NO_CALL && is_told && is_untouched;
    if !holds {
        run.tell(rt);
    }
    Ok(holds)
}

#[test]
fn words_that_make_no_call_touch_no_stream(rt: HostRuntime) -> Result<(), Fail> {
    for (row, (words, start)) in NO_CALLS.iter().enumerate() {
        hold_ok(&rt, make_no_call(&rt, rt.alloc(), words, start), "row", row)?;
    }
    Ok(())
}

/// Words that `program` refuses if the input is `!`, each with the exit status.
const REFUSALS: &[(&str, u8)] = &[
    ("answer", FAULT),
    ("dump", FAULT),
    ("explain", FAULT),
    ("sim", FAULT),
    ("frob", NO_CALL),
];

/// Whether the exit status stays the same if the write to `errors` with this number fails. The text before that write must be written.
fn leaves_status(
    rt: &impl Eprint,
    alloc: Global,
    (word, status): (&str, u8),
    text: &[u8],
    write: usize,
) -> Result<bool, Fail> {
    let run = run_on(alloc, &[word], Some(write))?;
    let is_begun = Some(run.said.taken()) == text.get(..write);
    let holds = run.number == status && is_begun && run.said.writes() == write.saturating_add(1);
    if !holds {
        run.tell(rt);
    }
    Ok(holds)
}

/// Lets each write of a refusal's text fail in turn. Fails the test unless the exit status stays the same.
fn fail_errors(rt: &impl Eprint, alloc: Global, refusal: (&str, u8)) -> Result<(), Fail> {
    let whole = run_on(alloc, &[refusal.0], None)?;
    let text = whole.said.taken();
    hold_ok(rt, Ok(!text.is_empty()), refusal.0, text.len())?;
    for write in 0..text.len() {
        let is_left = leaves_status(rt, alloc, refusal, text, write);
        hold_ok(rt, is_left, refusal.0, write)?;
    }
    Ok(())
}

#[test]
fn a_failed_write_of_errors_leaves_the_status(rt: HostRuntime) -> Result<(), Fail> {
    for refusal in REFUSALS {
        fail_errors(&rt, rt.alloc(), *refusal)?;
    }
    Ok(())
}
