//! Calls on what was heard: `dump`, `explain` and `answer`.

use hart_calls::{After, Call, EMPTY, Given, NONE, READ, Row, Wanted, does, does_as, hold_rows};
use hart_cli::{Plain, Style, explain};
use hart_rows::worked::{HEARD, OWN, OwnRow, REPLY, REQUEST};
use hart_rows::{hold_ok, same, text_of};
use std::alloc::Global;
use std::test::Fail;

/// A request for the identity, and the line that `dump` writes for it.
pub const IDENTIFY: &str = "FF FF 02 80 00 00 82";

pub const IDENTIFY_LINE: &str = "2 7 STX P 0 @0 - 0 -\n";

/// The message of `IDENTIFY` and a separator. The separator makes the last item whole.
pub const IDENTIFY_WHOLE: &str = "FF FF 02 80 00 00 82 ";

/// What `explain` writes for the message of `IDENTIFY`.
pub const IDENTIFY_SAID: &str =
    "2-7: request of the primary master to the device at polling address 0, \
    Command 0, read unique identifier\n";

/// Two messages, one of each master, and the lines that `dump` writes for them.
pub const TWO_MESSAGES: &str = "FF FF 02 80 00 00 82 FF FF 02 00 00 00 02";

pub const TWO_LINES: &str = "2 7 STX P 0 @0 - 0 -\n9 14 STX S 0 @0 - 0 -\n";

/// The beginning of a message with the byte count 255, and a whole message in its payload. The constant below is the line of the whole
/// message.
const FALSE_START: &str = "FF FF 82 B7 42 0A 1B 2C 13 FF FF FF FF FF FF 02 80 00 00 82";

const INNER_LINE: &str = "15 20 STX P 0 @0 - 0 -\n";

const DUMPED: &[Row] = &[
    ("", "", NONE),
    (TWO_MESSAGES, TWO_LINES, NONE),
    (
        "FF FF 02 80 7D 00 FF FF 02 00 00 00 02",
        "2 7 STX P 0 @0 - 125 -\n",
        NONE,
    ),
    ("FF FF!40 02 80 00 00 82", "", NONE),
    (FALSE_START, INNER_LINE, NONE),
    ("FF FF 0G", "", (4, "bad hex at 6")),
    (
        "FF FF 02 80 00 00 82 8",
        IDENTIFY_LINE,
        (4, "bad hex at 21"),
    ),
    ("02!08", "", (4, "bad hex at 0")),
    // Neither a silence nor a date is an item.
    ("FF / FF", "", (4, "bad hex at 3")),
    ("FF @a FF", "", (4, "bad hex at 3")),
];

/// Inputs after which a read fails. An item is whole only if a byte follows its digits, so a failed read makes no item whole. Bad hex
/// before the failed read is reported first.
const BROKEN_OFF: &[Row] = &[
    ("", "", READ),
    (IDENTIFY, "", READ),
    (IDENTIFY_WHOLE, IDENTIFY_LINE, READ),
    (
        "FF FF 02 80 00 00 82 G",
        IDENTIFY_LINE,
        (4, "bad hex at 21"),
    ),
    ("FF FF 02 80 00 00 82 8", IDENTIFY_LINE, READ),
];

/// An input in which a part is repeated, and what `dump` writes for it.
struct Long<'a> {
    prefix: &'a str,
    part: &'a str,
    times: usize,
    suffix: &'a str,
    text: &'a str,
}

/// Whether `dump` writes the wanted text for a long input, with each size of a read.
fn is_dumped(rt: &impl Eprint, alloc: Global, long: &Long) -> Result<bool, Fail> {
    let input = text_of(alloc, long.prefix, long.part, long.times, long.suffix)?;
    does_as(
        rt,
        alloc,
        Call::Dump,
        (input.as_str(), long.text, NONE),
        After::End,
    )
}

const LONG: &[Long] = &[
    Long {
        prefix: FALSE_START,
        part: " 00",
        times: 246,
        suffix: "",
        text: INNER_LINE,
    },
    Long {
        prefix: FALSE_START,
        part: " 00",
        times: 245,
        suffix: "",
        text: INNER_LINE,
    },
];

/// Like `is_dumped`, with reads that return as much as they can.
fn is_dumped_at_once(rt: &impl Eprint, alloc: Global, long: &Long) -> Result<bool, Fail> {
    let input = text_of(alloc, long.prefix, long.part, long.times, long.suffix)?;
    let given = Given {
        input: input.as_str(),
        ..EMPTY
    };
    let wanted = Wanted {
        fault: NONE,
        text: long.text,
        reads: None,
        writes: None,
    };
    does(rt, alloc, Call::Dump, &given, &wanted)
}

const PREAMBLES: &[Long] = &[
    Long {
        prefix: "",
        part: "FF",
        times: 100_000,
        suffix: "",
        text: "",
    },
    Long {
        prefix: "",
        part: "FF",
        times: 100_000,
        suffix: "02 80 00 00 82",
        text: "100000 100005 STX P 0 @0 - 0 -\n",
    },
];

/// Whether `dump` writes the line of the longest message, which has 20 preamble bytes.
fn is_longest_dumped(rt: &impl Eprint, alloc: Global) -> Result<bool, Fail> {
    let start = text_of(alloc, "", "FF", 20, "E28000000000000000 00FF")?;
    let input = text_of(alloc, start.as_str(), "00", 255, "9D")?;
    let text = text_of(alloc, "20 287 STX P 0 all 000000 0 ", "00", 255, "\n")?;
    does_as(
        rt,
        alloc,
        Call::Dump,
        (input.as_str(), text.as_str(), NONE),
        After::End,
    )
}

#[test]
fn frames_in_noise_have_a_line_each(rt: HostRuntime) -> Result<(), Fail> {
    let alloc = rt.alloc();
    hold_rows(&rt, alloc, Call::Dump, After::End, "row", DUMPED)?;
    hold_rows(
        &rt,
        alloc,
        Call::Dump,
        After::Failure,
        "row broken off",
        BROKEN_OFF,
    )?;
    for (number, long) in LONG.iter().enumerate() {
        hold_ok(&rt, is_dumped(&rt, alloc, long), "long row", number)?;
    }
    for (number, long) in PREAMBLES.iter().enumerate() {
        hold_ok(
            &rt,
            is_dumped_at_once(&rt, alloc, long),
            "row of preamble bytes",
            number,
        )?;
    }
    hold_ok(&rt, is_longest_dumped(&rt, alloc), "payload of zeros", 255)?;
    Ok(())
}

const EXPLAINED: &[Row] = &[
    ("", "", NONE),
    (IDENTIFY, IDENTIFY_SAID, NONE),
    (
        "FF FF 02 80 00 00 83",
        "2: no message: the check byte is 0x83 at 6, and 0x82 would fit\n    seems: request of the primary \
        master to the device at polling address 0, Command 0, read unique identifier\n",
        NONE,
    ),
    (
        "FF FF 02 80 00 00 82 FF FF 06 80 0G",
        "2-7: request of the primary master to the device at polling address 0, \
        Command 0, read unique identifier\n9: no message: it ends before its byte count\n",
        (4, "bad hex at 33"),
    ),
    (
        "FF 02 80 00 00 82",
        "1: no message: only one intact preamble byte stands directly before it\n    seems: request of the primary master \
        to the device at polling address 0, Command 0, read unique identifier\n",
        NONE,
    ),
    // One preamble byte, what would be a whole body, and a message inside it.
    (
        "FF 82 B7 42 0A 1B 2C 13 09 FF FF 02 80 00 00 82 00 00 50",
        "11-16: request of the primary master to the device at polling address 0, \
        Command 0, read unique identifier\n",
        NONE,
    ),
    // A silence of the line.
    (
        "FF FF 82 B7 / FF FF 02 80 00 00 82",
        "2: no message: it ends before its byte count\n6-11: request of the primary master \
        to the device at polling address 0, Command 0, read unique identifier\n",
        NONE,
    ),
    (
        "FF FF 02 80 00 00/82",
        "2: no message: it lacks 1 character, its check byte\n    seems: request of the primary master \
        to the device at polling address 0, Command 0, read unique identifier\n",
        NONE,
    ),
    // A request that is sent again.
    (
        "FF FF 02 80 7D 00 FF FF FF 02 80 7D 00 FF",
        "2-7: request of the primary master to the device at polling address 0, Command 125\n\
        9-14: request of the primary master to the device at polling address 0, Command 125, sending 2\n",
        NONE,
    ),
    // A date.
    (
        "@12:00:01 FF FF 82 B7 / FF FF 02@late 80 00 00 82",
        "12:00:01 2: no message: it ends before its byte count\n12:00:01 6-11: request of the primary master \
        to the device at polling address 0, Command 0, read unique identifier\n",
        NONE,
    ),
    ("FF @ FF", "", (4, "bad hex at 3")),
    (
        "FF FF 02 80!40 00 FF FF 02 80 00 00 82",
        "2: no message: the character at 3 has the fault bits 0x40\n7-12: request of the primary master \
        to the device at polling address 0, Command 0, read unique identifier\n",
        NONE,
    ),
];

#[test]
fn what_was_heard_is_said_in_words(rt: HostRuntime) -> Result<(), Fail> {
    hold_rows(&rt, rt.alloc(), Call::Explain, After::End, "row", EXPLAINED)?;
    Ok(())
}

/// Texts that have no preamble byte when they are read as raw bytes. A raw input cannot have bad hex.
const SILENT: &[Row] = &[("", "", NONE), (IDENTIFY, "", NONE), ("0G!@/", "", NONE)];

/// Texts after which a read fails.
const RAW_BROKEN_OFF: &[Row] = &[(IDENTIFY, "", READ)];

/// Whether `explain` explains a message that is given as raw bytes.
fn is_said_of_raw_bytes(alloc: Global) -> Result<bool, Fail> {
    let mut reader = Plain::new(b"\xFF\xFF\x02\x80\x00\x00\x82".as_slice());
    let mut writer = Plain::new(Vec::new(alloc));
    explain(alloc, Style::Words, true, &mut reader, &mut writer)?;
    let said = writer.into_inner();
    same(&str::from_utf8(said.as_slice())?, &IDENTIFY_SAID)
}

#[test]
fn raw_bytes_are_said_in_words(rt: HostRuntime) -> Result<(), Fail> {
    let alloc = rt.alloc();
    hold_ok(&rt, is_said_of_raw_bytes(alloc), "raw message", 0)?;
    hold_rows(&rt, alloc, Call::ExplainRaw, After::End, "row", SILENT)?;
    hold_rows(
        &rt,
        alloc,
        Call::ExplainRaw,
        After::Failure,
        "row broken off",
        RAW_BROKEN_OFF,
    )?;
    Ok(())
}

/// Inputs that `answer` refuses, because they are no list of items.
const NOT_ANSWERED: &[Row] = &[
    ("FF FF 0G", "", (4, "bad hex at 6")),
    ("02!08", "", (4, "bad hex at 0")),
    ("/ FF FF", "", (4, "bad hex at 0")),
    ("@a FF FF", "", (4, "bad hex at 0")),
];

/// Whether `answer` writes `reply` and a line feed for the delivery `heard`. If `reply` is empty, `answer` must write nothing.
fn is_answered(rt: &impl Eprint, alloc: Global, heard: &str, reply: &str) -> Result<bool, Fail> {
    let end = if reply.is_empty() { "" } else { "\n" };
    let line = format!(in alloc; "{reply}{end}")?;
    does_as(
        rt,
        alloc,
        Call::Answer(None),
        (heard, line.as_str(), NONE),
        After::End,
    )
}

/// Like `is_answered`, for a request to the device's own address.
fn is_answered_on_its_own(
    rt: &impl Eprint,
    alloc: Global,
    (asked, replied, _): &OwnRow,
) -> Result<bool, Fail> {
    let request = format!(in alloc; "{REQUEST}{asked}")?;
    let reply = format!(in alloc; "{REPLY}{replied}")?;
    is_answered(rt, alloc, request.as_str(), reply.as_str())
}

#[test]
fn deliveries_are_answered(rt: HostRuntime) -> Result<(), Fail> {
    let alloc = rt.alloc();
    for (number, (heard, reply)) in HEARD.iter().enumerate() {
        hold_ok(
            &rt,
            is_answered(&rt, alloc, heard, reply),
            "heard row",
            number,
        )?;
    }
    for (number, row) in OWN.iter().enumerate() {
        hold_ok(&rt, is_answered_on_its_own(&rt, alloc, row), "row", number)?;
    }
    hold_rows(
        &rt,
        alloc,
        Call::Answer(None),
        After::End,
        "bad row",
        NOT_ANSWERED,
    )?;
    Ok(())
}
