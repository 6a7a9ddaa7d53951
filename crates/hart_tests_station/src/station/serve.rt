//! Tests of `serve`: a device over many deliveries.

use super::sessions::{LongRow, hold_answers, hold_failed_writes, hold_long_rows};
use hart_calls::{After, Call, EMPTY, Fault, Given, NEW, NONE, READ, Row, Wanted, does, hold_rows};
use hart_cli::INPUT_LIMIT;
use hart_rows::hold_ok;
use std::test::Fail;

/// A device that is written to, read, restarted, protected and written to again, with its image before and after.
const LIFE: Row = (
    "image\n\
    FF FF 82 B7 42 0A 1B 2C 13 03 01 23 45 3D\n\
    FF FF 82 B7 42 0A 1B 2C 10 00 5A\n\
    restart\n\
    FF FF 82 B7 42 0A 1B 2C 10 00 5A\n\
    FF FF 82 B7 42 0A 1B 2C 10 00 5A\n\
    protect on\n\
    FF FF 82 B7 42 0A 1B 2C 13 03 00 00 01 5B\n\
    counter\n\
    protect off\n\
    FF FF 82 B7 42 0A 1B 2C 13 03 00 00 01 5B\n\
    counter\n\
    image\n",
    "image 02000182082082082082082082082082082082082082082082082082082082082082082082082082082082\
    08200000000000002020202020202020202020202020202020202020202020202020202020202020000000\n\
    FF FF FF FF FF 86 B7 42 0A 1B 2C 13 05 00 40 01 23 45 7F\n\
    FF FF FF FF FF 86 B7 42 0A 1B 2C 10 05 00 40 01 23 45 7C\n\
    ok\n\
    FF FF FF FF FF 86 B7 42 0A 1B 2C 10 05 00 60 01 23 45 5C\n\
    FF FF FF FF FF 86 B7 42 0A 1B 2C 10 05 00 40 01 23 45 7C\n\
    ok\n\
    FF FF FF FF FF 86 B7 42 0A 1B 2C 13 02 07 40 18\n\
    counter 1\n\
    ok\n\
    FF FF FF FF FF 86 B7 42 0A 1B 2C 13 05 00 40 00 00 01 19\n\
    counter 2\n\
    image 02000182082082082082082082082082082082082082082082082082082082082082082082082082082082\
    08200000000000012020202020202020202020202020202020202020202020202020202020202020000203\n",
    NONE,
);

/// Lines of each kind, good and bad.
const LINES: &[Row] = &[
    LIFE,
    ("", "", NONE),
    ("\n", "-\n", NONE),
    ("\n\n\r\n \t\n", "-\n-\n-\n-\n", NONE),
    // The last line needs no line feed. An empty text after the last line feed is no line.
    ("counter", "counter 0\n", NONE),
    ("counter\n", "counter 0\n", NONE),
    ("counter\n\r", "counter 0\n", NONE),
    // One carriage return at the end of a line is dropped.
    ("counter\r\nrestart\r", "counter 0\nok\n", NONE),
    ("counter\r\r\n", "bad line: bad hex at 0\n", NONE),
    // A word is recognized only if it is spelled exactly.
    (
        "Counter\n counter\ncounter \nprotect  on\nprotect\nrestart now\n",
        "bad line: bad hex at 0\nbad line: bad hex at 1\nbad line: bad hex at 0\n\
        bad line: bad hex at 0\nbad line: bad hex at 0\nbad line: bad hex at 0\n",
        NONE,
    ),
    // The place of bad hex is counted from the beginning of its line.
    (
        "FF FF 02 8\nFF\tFF 0G\nFF!4\n82!8\ncounter\n",
        "bad line: bad hex at 9\nbad line: bad hex at 6\nbad line: bad hex at 0\nbad line: bad hex at 0\ncounter 0\n",
        NONE,
    ),
    // A message must be in one line.
    ("FF FF 02 80\n00 00 82\n", "-\n-\n", NONE),
    // The device hears a character with fault bits, and replies with its communication faults.
    (
        "FF FF 82 B7 42 0A 1B 2C 13 03 01 23!40 45 3D\n",
        "FF FF FF FF FF 86 B7 42 0A 1B 2C 13 02 C0 00 9F\n",
        NONE,
    ),
];

#[test]
fn lines_are_served_in_turn(rt: HostRuntime) -> Result<(), Fail> {
    hold_rows(&rt, rt.alloc(), Call::Serve(None), After::End, "row", LINES)?;
    Ok(())
}

/// Inputs after which a read fails. The device answers only their whole lines.
const BEFORE_FAILURE: &[Row] = &[
    ("", "", READ),
    ("counter", "", READ),
    ("counter\nrestart", "counter 0\n", READ),
    (
        "counter\nbad\n",
        "counter 0\nbad line: bad hex at 2\n",
        READ,
    ),
];

#[test]
fn whole_lines_are_served_before_a_failure(rt: HostRuntime) -> Result<(), Fail> {
    hold_rows(
        &rt,
        rt.alloc(),
        Call::Serve(None),
        After::Failure,
        "row",
        BEFORE_FAILURE,
    )?;
    Ok(())
}

/// An image, and the answers of a device that starts from this image, or the fault of the image.
const IMAGES: &[(&str, &str, Fault)] = &[
    (NEW, "counter 0\n", NONE),
    ("", "", (6, "bad image: length")),
    ("0", "", (4, "bad hex at 1")),
];

#[test]
fn images_are_gone_on_from(rt: HostRuntime) -> Result<(), Fail> {
    for (number, (image, text, fault)) in IMAGES.iter().enumerate() {
        let given = Given {
            input: "counter\n",
            ..EMPTY
        };
        let reads = (fault.0 != 0).then_some(0);
        let wanted = Wanted {
            fault: *fault,
            text,
            reads,
            writes: None,
        };
        let done = does(&rt, rt.alloc(), Call::Serve(Some(image)), &given, &wanted);
        hold_ok(&rt, done, "row", number)?;
    }
    Ok(())
}

/// Lines about as long as the limit, and longer lines.
const LONG: &[LongRow] = &[
    (INPUT_LIMIT, "\ncounter\n", "-\ncounter 0\n"),
    (INPUT_LIMIT, "\r\ncounter\n", "-\ncounter 0\n"),
    (
        INPUT_LIMIT - 2,
        "0G\ncounter\n",
        "bad line: bad hex at 1048574\ncounter 0\n",
    ),
    (
        INPUT_LIMIT + 1,
        "\ncounter\n",
        "bad line: too long\ncounter 0\n",
    ),
    (
        INPUT_LIMIT + 1,
        "\r\ncounter\n",
        "bad line: too long\ncounter 0\n",
    ),
    (INPUT_LIMIT + 1, "", "bad line: too long\n"),
    (INPUT_LIMIT, "\r\r\n", "bad line: too long\n"),
    (INPUT_LIMIT, "restart\n", "bad line: too long\n"),
    (
        3 * INPUT_LIMIT,
        "\ncounter\n",
        "bad line: too long\ncounter 0\n",
    ),
];

#[test]
fn lines_have_a_longest_one(rt: HostRuntime) -> Result<(), Fail> {
    hold_long_rows(&rt, rt.alloc(), Call::Serve(None), LONG)?;
    Ok(())
}

/// An input, and the answers of `serve` to its lines.
const FEW: (&str, &str) = ("counter\nrestart\n\n", "counter 0\nok\n-\n");

#[test]
fn failed_writes_end_serving(rt: HostRuntime) -> Result<(), Fail> {
    hold_failed_writes(&rt, rt.alloc(), Call::Serve(None), FEW)?;
    Ok(())
}

/// Reads many lines at once. Their answers are longer than the text that the call buffers.
#[test]
fn many_lines_are_read_at_once(rt: HostRuntime) -> Result<(), Fail> {
    let mut input = String::new(rt.alloc());
    let mut text = String::new(rt.alloc());
    for _ in 0..1_000 {
        input.push_str("image\nrestart\n")?;
        text.push_str("image ")?;
        text.push_str(NEW)?;
        text.push_str("\nok\n")?;
    }
    hold_answers(
        &rt,
        rt.alloc(),
        Call::Serve(None),
        input.as_str(),
        text.as_str(),
    )?;
    Ok(())
}
