//! Tests of `master`: a master over many lines.

use super::sessions::{LongRow, hold_answers, hold_failed_writes, hold_long_rows};
use hart_calls::{
    After, Asker, Call, EMPTY, Fault, Given, NONE, READ, Row, USUAL, Wanted, does, hold_rows,
};
use hart_cli::INPUT_LIMIT;
use hart_rows::hold_ok;
use std::alloc::AllocError;
use std::test::Fail;

/// A master with one retry and 5 preamble bytes.
const SHORT: Asker = Asker {
    retries: 1,
    preambles: 5,
    ..USUAL
};

/// A request that is sent twice. The first reply is damaged, and the master accepts the second reply. The master then has nothing in hand.
const LIFE: Row = (
    "send\n\
    submit 37420A1B2C 19 012345\n\
    tick 255\n\
    heard FF FF 86 B7 42 0A 1B 2C 13 05 00 40 01 23 45 7F\n\
    send\n\
    send\n\
    submit 37420A1B2C 16\n\
    heard FF FF 86 B7 42 0A 1B 2C 13 05 00 40 01 23 45 7E\n\
    tick 32\n\
    tick 1\n\
    tick 255\n\
    send\n\
    heard FF FF 86 B7 42 0A 1B 2C 13 05 00 40 01 23 45 7F\n\
    heard FF FF 86 B7 42 0A 1B 2C 13 05 00 40 01 23 45 7F\n\
    tick 255\n\
    send\n\
    submit 37420A1B2C 16\n",
    "-\n\
    ok\n\
    -\n\
    -\n\
    send FF FF FF FF FF 82 B7 42 0A 1B 2C 13 03 01 23 45 3D\n\
    -\n\
    refused: a request is pending\n\
    -\n\
    -\n\
    retry\n\
    -\n\
    send FF FF FF FF FF 82 B7 42 0A 1B 2C 13 03 01 23 45 3D\n\
    answered 2 0040012345\n\
    -\n\
    -\n\
    -\n\
    ok\n",
    NONE,
);

/// Lines of each kind, good and bad.
const LINES: &[Row] = &[
    LIFE,
    ("", "", NONE),
    // The last line needs no line feed. An empty text after the last line feed is no line.
    ("send", "-\n", NONE),
    ("send\n\r", "-\n", NONE),
    ("send\r\ntick 1\r", "-\n-\n", NONE),
    // A request that is given up after its last sending, and is not sent again.
    (
        "submit @0 0\nsend\ntick 33\nsend\ntick 33\nsend\ntick 33\n",
        "ok\n\
        send FF FF FF FF FF 02 80 00 00 82\n\
        retry\n\
        send FF FF FF FF FF 02 80 00 00 82\n\
        noreply 2\n\
        -\n\
        -\n",
        NONE,
    ),
    // Frames that are no reply to the request: a reply to the other master, of another device or to another command; a request; two
    // messages.
    (
        "submit 37420A1B2C 19 012345\nsend\n\
        heard FF FF 06 37 42 0A 1B 2C 13 05 00 40 01 23 45 7F\n\
        heard FF FF 86 37 42 0A 1B 2C 13 05 00 40 01 23 45 FF\n\
        heard FF FF 86 B7 42 0A 1B 2D 13 05 00 40 01 23 45 7E\n\
        heard FF FF 86 B7 42 0A 1B 2C 10 05 00 40 01 23 45 7C\n\
        heard FF FF 82 B7 42 0A 1B 2C 13 03 01 23 45 3D\n\
        heard FF FF 86 B7 42 0A 1B 2C 13 02 C0 00 9F\n\
        heard FF FF 86 B7 42 0A 1B 2C 13 05 00 40 01 23 45 7F FF FF 02 80 00 00 82\n\
        heard\n\
        heard 00 FF FF FF 86 B7 42 0A 1B 2C 13 05 00 40 01 23 45 7F\n",
        "ok\n\
        send FF FF FF FF FF 82 B7 42 0A 1B 2C 13 03 01 23 45 3D\n\
        -\n-\n-\n-\n-\n-\n-\n-\n\
        answered 1 0040012345\n",
        NONE,
    ),
    // The master accepts any reply to an unknown command, unless the reply has communication faults.
    (
        "submit 37420A1B2C 200 AA\nsend\n\
        heard FF FF 86 B7 42 0A 1B 2C C8 02 80 00 04\n\
        heard FF FF 86 B7 42 0A 1B 2C C8 03 40 00 BB 7E\n",
        "ok\n\
        send FF FF FF FF FF 82 B7 42 0A 1B 2C C8 01 AA 29\n\
        -\n\
        answered 1 4000BB\n",
        NONE,
    ),
    // Requests by the names of fields. With tabs between words, a value can have spaces.
    (
        "ask 37420A1B2C 19 final_assembly_number=0x012345\nsend\n",
        "ok\nsend FF FF FF FF FF 82 B7 42 0A 1B 2C 13 03 01 23 45 3D\n",
        NONE,
    ),
    (
        "ask\t37420A1B2C\t18\tdescriptor=FEED PUMP\tdate=2026-11-27\ttag=FT-1204\nsend\n",
        "ok\nsend FF FF FF FF FF 82 B7 42 0A 1B 2C 12 15 \
        19 4B 71 CB 0D 20 18 51 44 81 05 4D 42 08 20 82 08 20 1B 0B 7E E2\n",
        NONE,
    ),
    // A bad line changes nothing.
    (
        "submit @0 0\n\
        \n\
        frob\n\
        Send\n\
        send now\n\
        tick\n\
        tick 256\n\
        tick -1\n\
        tick 1 2\n\
        submit\n\
        submit @64 0\n\
        submit @0\n\
        submit @0 256\n\
        submit @0 0 0\n\
        submit @0 0 00 00\n\
        ask @0 200\n\
        ask 37420A1B2C 19\n\
        ask 37420A1B2C 19 number=1\n\
        ask 37420A1B2C 19 final_assembly_number=1\n\
        heard 0G\n\
        heard FF 8\n\
        heardFF\n\
        send\n",
        "ok\n\
        bad line: bad word 1\n\
        bad line: bad word 1\n\
        bad line: bad word 1\n\
        bad line: bad word 2\n\
        bad line: bad word 2\n\
        bad line: bad word 2\n\
        bad line: bad word 2\n\
        bad line: bad word 3\n\
        bad line: bad word 2\n\
        bad line: bad word 2\n\
        bad line: bad word 3\n\
        bad line: bad word 3\n\
        bad line: bad word 4\n\
        bad line: bad word 5\n\
        bad line: bad word 3: unknown command\n\
        bad line: bad word 4: missing field final assembly number\n\
        bad line: bad word 4: unknown field\n\
        bad line: bad word 4: not 0x and 3 bytes in hex\n\
        bad line: bad hex at 6\n\
        bad line: bad hex at 9\n\
        bad line: bad word 1\n\
        send FF FF FF FF FF 02 80 00 00 82\n",
        NONE,
    ),
    // The master takes a known command only for an address to which the command may be sent. It takes an unknown command for any address.
    (
        "submit @0 1\nsubmit all 0\nsubmit all 200\n",
        "refused: wrong address\nrefused: wrong address\nok\n",
        NONE,
    ),
    // Spaces before and between words are ignored.
    ("  tick   1 \n submit  @0  0\n", "-\nok\n", NONE),
];

#[test]
fn lines_are_answered_in_turn(rt: HostRuntime) -> Result<(), Fail> {
    hold_rows(
        &rt,
        rt.alloc(),
        Call::Master(SHORT),
        After::End,
        "row",
        LINES,
    )?;
    Ok(())
}

/// Inputs after which a read fails. The master answers only their whole lines.
const BEFORE_FAILURE: &[Row] = &[
    ("", "", READ),
    ("send", "", READ),
    ("tick 1\nsend", "-\n", READ),
    ("tick 1\nbad\n", "-\nbad line: bad word 1\n", READ),
];

#[test]
fn whole_lines_are_answered_before_a_failure(rt: HostRuntime) -> Result<(), Fail> {
    hold_rows(
        &rt,
        rt.alloc(),
        Call::Master(USUAL),
        After::Failure,
        "row",
        BEFORE_FAILURE,
    )?;
    Ok(())
}

/// The options of a master, its lines, its answers, and the fault of the call. Nobody replies to the request.
const SETTINGS: &[(Asker, &str, &str, Fault)] = &[
    (
        Asker {
            preambles: 5,
            ..USUAL
        },
        "submit @0 0\nsend\ntick 32\ntick 1\n",
        "ok\nsend FF FF FF FF FF 02 80 00 00 82\n-\nretry\n",
        NONE,
    ),
    (
        Asker {
            who: "S",
            retries: 0,
            preambles: 6,
            ..USUAL
        },
        "submit @0 0\nsend\ntick 40\ntick 1\n",
        "ok\nsend FF FF FF FF FF FF 02 00 00 00 02\n-\nnoreply 1\n",
        NONE,
    ),
    (
        Asker {
            limit: Some(1),
            retries: 0,
            preambles: 5,
            ..USUAL
        },
        "submit @0 0\nsend\ntick 0\ntick 1\n",
        "ok\nsend FF FF FF FF FF 02 80 00 00 82\n-\nnoreply 1\n",
        NONE,
    ),
    (
        Asker { who: "p", ..USUAL },
        "submit @0 0\n",
        "",
        (8, "bad word 1"),
    ),
];

#[test]
fn settings_are_those_given(rt: HostRuntime) -> Result<(), Fail> {
    for (number, (asker, input, text, fault)) in SETTINGS.iter().enumerate() {
        let given = Given { input, ..EMPTY };
        let reads = (fault.0 != 0).then_some(0);
        let wanted = Wanted {
            fault: *fault,
            text,
            reads,
            writes: None,
        };
        let done = does(&rt, rt.alloc(), Call::Master(*asker), &given, &wanted);
        hold_ok(&rt, done, "row", number)?;
    }
    Ok(())
}

/// Lines about as long as the limit.
const LONG: &[LongRow] = &[
    (INPUT_LIMIT - 4, "send\nsend\n", "-\n-\n"),
    (INPUT_LIMIT - 3, "send\nsend\n", "bad line: too long\n-\n"),
    (INPUT_LIMIT, "\n", "bad line: bad word 1\n"),
    (INPUT_LIMIT + 1, "", "bad line: too long\n"),
];

#[test]
fn lines_of_a_master_have_a_longest_one(rt: HostRuntime) -> Result<(), Fail> {
    hold_long_rows(&rt, rt.alloc(), Call::Master(USUAL), LONG)?;
    Ok(())
}

/// An input, and the answers of `master` to its lines.
const FEW: (&str, &str) = ("submit @0 0\ntick 1\nheard", "ok\n-\n-\n");

#[test]
fn failed_writes_end_a_session(rt: HostRuntime) -> Result<(), Fail> {
    hold_failed_writes(&rt, rt.alloc(), Call::Master(USUAL), FEW)?;
    Ok(())
}

/// Parts of the lines and answers of a request with the most data. They are the words before the data, the answers before the data, and the
/// lines after the data.
const LONGEST: (&str, &str, &str) = (
    "submit 37420A1B2C 200 ",
    "ok\nsend FF FF FF FF FF FF FF FF FF FF FF FF FF FF FF FF FF FF FF FF 82 B7 42 0A 1B 2C C8 FF ",
    "\nsend\nheard FF FF 86 B7 42 0A 1B 2C C8 02 00 00 84\n",
);

/// Appends to `input` the lines of a request with 255 bytes of data, each `AA`, and to `text` the master's answers to these lines.
fn push_longest(input: &mut String, text: &mut String) -> Result<(), AllocError> {
    let (words, sent, later) = LONGEST;
    input.push_str(words)?;
    text.push_str(sent)?;
    for _ in 0..255 {
        input.push_str("AA")?;
        text.push_str("AA ")?;
    }
    input.push_str(later)?;
    text.push_str("D7\nanswered 1 0000\n")
}

/// Reads many lines at once. Their answers are longer than the text that the call buffers.
#[test]
fn many_lines_of_a_master_are_read_at_once(rt: HostRuntime) -> Result<(), Fail> {
    let mut input = String::new(rt.alloc());
    let mut text = String::new(rt.alloc());
    for _ in 0..100 {
        push_longest(&mut input, &mut text)?;
    }
    hold_answers(
        &rt,
        rt.alloc(),
        Call::Master(USUAL),
        input.as_str(),
        text.as_str(),
    )?;
    Ok(())
}
