//! Readers and writers that fail, and the order of reads and writes.

use super::heard::{
    IDENTIFY, IDENTIFY_LINE, IDENTIFY_SAID, IDENTIFY_WHOLE, TWO_LINES, TWO_MESSAGES,
};
use hart_calls::{
    ALL, After, Call, EMPTY, Fault, Given, NONE, READ, USUAL, WRITE, Wanted, Words, does,
};
use hart_rows::hold_ok;
use std::alloc::Global;
use std::test::Fail;

/// A call, its input, and what the call writes for this input, with the bench device.
pub type Written<'a> = (Call<'a>, &'a str, &'a str);

/// A row for each of five calls.
pub const WRITTEN: &[Written] = &[
    (Call::Dump, TWO_MESSAGES, TWO_LINES),
    (Call::Explain, IDENTIFY, IDENTIFY_SAID),
    (
        Call::Answer(None),
        IDENTIFY,
        "FF FF FF FF FF 06 80 00 18 00 00 FE 37 42 05 07 01 02 18 00 0A 1B 2C 05 04 00 00 00 00 37 00 37 01 31\n",
    ),
    (Call::Simulate(None), "turn P ok ok", AS_NEW),
    (
        Call::Encode(Words {
            who: "P",
            address: "@0",
            command: "0",
            data: "",
            preambles: 5,
        }),
        "",
        "FF FF FF FF FF 02 80 00 00 82\n",
    ),
];

/// The text of a script that changes nothing.
pub const AS_NEW: &str = "counter 0\nimage 020001\
    820820820820820820820820820820820820820820820820820820820820820820820820820820820820\
    0000000000002020202020202020202020202020202020202020202020202020202020202020000000\n";

/// The texts that are written before a failed read. Each text comes with the number of bytes that must be read before it is written.
type Lines<'a> = &'a [(usize, &'a str)];

/// Calls that read, their inputs, and what they write if a read fails.
const FAILED_READS: &[(Call, &str, Lines)] = &[
    (
        Call::Dump,
        "FF FF 02 80 00 00 82 FF FF 02 00 00 00 02 ",
        &[(0, ""), (21, IDENTIFY_LINE), (42, TWO_LINES)],
    ),
    (
        Call::Explain,
        IDENTIFY_WHOLE,
        &[
            (0, ""),
            (9, "2: no message: it ends before its byte count\n"),
            (
                15,
                "2: no message: it ends before its byte count\n    seems: request of the primary \
                master to the device at polling address 0, Command 0, read unique identifier\n",
            ),
            (
                18,
                "2: no message: it lacks 1 character, its check byte\n    seems: request of the primary \
                master to the device at polling address 0, Command 0, read unique identifier\n",
            ),
            (21, IDENTIFY_SAID),
        ],
    ),
    (Call::Answer(None), IDENTIFY_WHOLE, &[(0, "")]),
    (Call::Simulate(None), "turn P ok ok\n", &[(0, "")]),
];

/// Returns the text that must be written before a read fails after `bytes` bytes.
fn written_before<'a>(lines: Lines<'a>, bytes: usize) -> &'a str {
    let mut text = "";
    for (from, more) in lines {
        if *from <= bytes {
            text = more;
        }
    }
    text
}

/// Whether a call that reads one byte at a time reports the failed read after `input`. The call must have written `text` before.
fn names_read(
    rt: &impl Eprint,
    alloc: Global,
    call: Call,
    input: &str,
    text: &str,
) -> Result<bool, Fail> {
    let given = Given {
        input,
        after: After::Failure,
        most_read: 1,
        ..EMPTY
    };
    let reads = Some(input.len().saturating_add(1));
    does(
        rt,
        alloc,
        call,
        &given,
        &Wanted {
            fault: READ,
            text,
            reads,
            writes: None,
        },
    )
}

/// Lets each read of an input fail in turn. Fails the test unless the call reports the failed read.
fn fail_reads(
    rt: &impl Eprint,
    alloc: Global,
    call: Call,
    input: &str,
    lines: Lines,
) -> Result<(), Fail> {
    for bytes in 0..=input.len() {
        let text = written_before(lines, bytes);
        let given = input.get(..bytes).ok_or("a read")?;
        let is_named = names_read(rt, alloc, call, given, text);
        hold_ok(rt, is_named, call.subcommand(), bytes)?;
    }
    Ok(())
}

#[test]
fn each_failed_read_is_named(rt: HostRuntime) -> Result<(), Fail> {
    for (call, input, lines) in FAILED_READS {
        fail_reads(&rt, rt.alloc(), *call, input, lines)?;
    }
    Ok(())
}

/// Whether a call that writes one byte at a time reports the failure of the write with this number. The call must have written all bytes
/// before it.
fn names_write(
    rt: &impl Eprint,
    alloc: Global,
    (call, input, text): &Written,
    write: usize,
) -> Result<bool, Fail> {
    let given = Given {
        input,
        most_written: 1,
        fails_at: Some(write),
        ..EMPTY
    };
    let text = text.get(..write).ok_or("a write")?;
    let writes = Some(write.saturating_add(1));
    does(
        rt,
        alloc,
        *call,
        &given,
        &Wanted {
            fault: WRITE,
            text,
            reads: None,
            writes,
        },
    )
}

/// Lets each write of a text fail in turn. Fails the test unless the call reports the failed write.
fn fail_writes(rt: &impl Eprint, alloc: Global, row: &Written) -> Result<(), Fail> {
    let (call, _, text) = *row;
    for write in 0..text.len() {
        let is_named = names_write(rt, alloc, row, write);
        hold_ok(rt, is_named, call.subcommand(), write)?;
    }
    Ok(())
}

#[test]
fn each_failed_write_is_named(rt: HostRuntime) -> Result<(), Fail> {
    for row in WRITTEN {
        fail_writes(&rt, rt.alloc(), row)?;
    }
    Ok(())
}

/// A whole message inside what could be an earlier message, until the check byte of the earlier one turns out wrong.
const HELD_BACK: &str = "FF FF 02 80 00 08 FF FF 02 80 00 00 82 00 00 00 ";

/// A single preamble byte, after which a longer body may begin, and a whole message inside that body.
const OPEN_AFTER_ONE: &str = "FF 82 B7 42 0A 1B 2C 13 FF FF FF 02 80 00 00 82 ";

/// A call, and its streams. Then the fault of the call, how often the call reads and writes, and what it writes.
struct Order<'a> {
    call: Call<'a>,
    input: &'a str,
    after: After,
    most_read: usize,
    fails_at: Option<usize>,
    fault: Fault<'a>,
    reads: usize,
    writes: usize,
    text: &'a str,
}

/// An empty input that is read one byte at a time. Each row states only how it differs from this row.
const BY_BYTES: Order = Order {
    call: Call::Dump,
    input: "",
    after: After::End,
    most_read: 1,
    fails_at: None,
    fault: NONE,
    reads: 1,
    writes: 0,
    text: "",
};

/// The order of reads and writes. Each call writes a line as soon as the line is decided, and makes no read after a fault or after the end
/// of its input.
const ORDERS: &[Order] = &[
    Order {
        call: Call::Dump,
        input: IDENTIFY,
        reads: 21,
        writes: 1,
        text: IDENTIFY_LINE,
        ..BY_BYTES
    },
    Order {
        call: Call::Dump,
        input: IDENTIFY_WHOLE,
        fails_at: Some(0),
        fault: WRITE,
        reads: 21,
        writes: 1,
        ..BY_BYTES
    },
    Order {
        call: Call::Dump,
        input: HELD_BACK,
        fails_at: Some(0),
        fault: WRITE,
        reads: 45,
        writes: 1,
        ..BY_BYTES
    },
    Order {
        call: Call::Dump,
        input: HELD_BACK,
        reads: 49,
        writes: 1,
        text: "8 13 STX P 0 @0 - 0 -\n",
        ..BY_BYTES
    },
    Order {
        call: Call::Dump,
        input: "FF 82!80 FF",
        fault: (4, "bad hex at 3"),
        reads: 7,
        writes: 0,
        ..BY_BYTES
    },
    Order {
        call: Call::Dump,
        input: "FF 82!08 FF",
        fault: (4, "bad hex at 3"),
        reads: 8,
        writes: 0,
        ..BY_BYTES
    },
    Order {
        call: Call::Dump,
        input: TWO_MESSAGES,
        after: After::Failure,
        most_read: ALL,
        fault: READ,
        reads: 2,
        writes: 1,
        text: IDENTIFY_LINE,
        ..BY_BYTES
    },
    Order {
        call: Call::Explain,
        input: IDENTIFY,
        reads: 21,
        writes: 1,
        text: IDENTIFY_SAID,
        ..BY_BYTES
    },
    Order {
        call: Call::Explain,
        input: IDENTIFY_WHOLE,
        fails_at: Some(0),
        fault: WRITE,
        reads: 21,
        writes: 1,
        ..BY_BYTES
    },
    Order {
        call: Call::Explain,
        input: "FF FF 02 80 00 00 82 FF 02 80 00 00 82 ",
        fails_at: Some(1),
        fault: WRITE,
        reads: 39,
        writes: 2,
        text: IDENTIFY_SAID,
        ..BY_BYTES
    },
    Order {
        call: Call::Explain,
        input: "FF FF 02 80!40 ",
        fails_at: Some(0),
        fault: WRITE,
        reads: 15,
        writes: 1,
        ..BY_BYTES
    },
    Order {
        call: Call::Explain,
        input: OPEN_AFTER_ONE,
        fails_at: Some(0),
        fault: WRITE,
        reads: 48,
        writes: 1,
        ..BY_BYTES
    },
    Order {
        call: Call::Explain,
        input: "FF 82!08 FF",
        fault: (4, "bad hex at 3"),
        reads: 8,
        writes: 0,
        ..BY_BYTES
    },
    Order {
        call: Call::Explain,
        input: IDENTIFY_WHOLE,
        after: After::Failure,
        most_read: ALL,
        fault: READ,
        reads: 2,
        writes: 1,
        text: IDENTIFY_SAID,
        ..BY_BYTES
    },
    Order {
        call: Call::Serve(None),
        input: "counter\n\nrestart\n",
        fails_at: Some(1),
        fault: WRITE,
        reads: 9,
        writes: 2,
        text: "counter 0\n",
        ..BY_BYTES
    },
    Order {
        call: Call::Master(USUAL),
        input: "submit @0 0\ntick 1\nsend\n",
        fails_at: Some(1),
        fault: WRITE,
        reads: 19,
        writes: 2,
        text: "ok\n",
        ..BY_BYTES
    },
];

/// Whether a call reads and writes in this order.
fn is_in_order(rt: &impl Eprint, alloc: Global, order: &Order) -> Result<bool, Fail> {
    let given = Given {
        input: order.input,
        after: order.after,
        most_read: order.most_read,
        fails_at: order.fails_at,
        ..EMPTY
    };
    let wanted = Wanted {
        fault: order.fault,
        text: order.text,
        reads: Some(order.reads),
        writes: Some(order.writes),
    };
    does(rt, alloc, order.call, &given, &wanted)
}

#[test]
fn lines_are_written_before_more_is_read(rt: HostRuntime) -> Result<(), Fail> {
    for (row, order) in ORDERS.iter().enumerate() {
        hold_ok(&rt, is_in_order(&rt, rt.alloc(), order), "row", row)?;
    }
    Ok(())
}
