//! Tests of `encode`, which writes a message from words.

use hart_calls::{Call, EMPTY, Fault, Given, NONE, Wanted, Words, does};
use hart_rows::{hold_ok, text_of};
use std::alloc::Global;
use std::test::Fail;

/// The words of a request for the identity at polling address 0. Each row states only how it differs from these words.
const IDENTIFY: Words = Words {
    who: "P",
    address: "@0",
    command: "0",
    data: "",
    preambles: 5,
};

/// Words of a message to send, and the result: the message that `encode` writes, or its fault.
struct Row<'a> {
    words: Words<'a>,
    text: &'a str,
    fault: Fault<'a>,
}

const ROWS: &[Row] = &[
    Row {
        words: IDENTIFY,
        text: "FF FF FF FF FF 02 80 00 00 82\n",
        fault: NONE,
    },
    Row {
        words: Words {
            who: "S",
            address: "@07",
            command: "000",
            preambles: 7,
            ..IDENTIFY
        },
        text: "FF FF FF FF FF FF FF 02 07 00 00 05\n",
        fault: NONE,
    },
    Row {
        words: Words {
            who: "S",
            address: "37420a1b2c",
            command: "019",
            data: "0a0B0c",
            ..IDENTIFY
        },
        text: "FF FF FF FF FF 82 37 42 0A 1B 2C 13 03 0A 0B 0C D7\n",
        fault: NONE,
    },
    Row {
        words: Words {
            who: "S",
            address: "F7420A1B2C",
            command: "6",
            data: "0501",
            ..IDENTIFY
        },
        text: "FF FF FF FF FF 82 37 42 0A 1B 2C 06 02 05 01 CA\n",
        fault: NONE,
    },
    Row {
        words: Words {
            who: "S",
            address: "all",
            command: "11",
            data: "415350B71C31",
            preambles: 20,
            ..IDENTIFY
        },
        text: "FF FF FF FF FF FF FF FF FF FF FF FF FF FF FF FF FF FF FF FF 82 00 00 00 00 00 0B 06 41 53 50 B7 1C 31 57\n",
        fault: NONE,
    },
    Row {
        words: Words {
            who: "p",
            address: "@64",
            command: "256",
            data: "0",
            ..IDENTIFY
        },
        text: "",
        fault: (8, "bad word 1"),
    },
    Row {
        words: Words {
            who: "",
            ..IDENTIFY
        },
        text: "",
        fault: (8, "bad word 1"),
    },
    Row {
        words: Words {
            address: "@64",
            ..IDENTIFY
        },
        text: "",
        fault: (8, "bad word 2"),
    },
    Row {
        words: Words {
            address: "",
            command: "256",
            data: "0",
            ..IDENTIFY
        },
        text: "",
        fault: (8, "bad word 2"),
    },
    Row {
        words: Words {
            address: "37420A1B2",
            ..IDENTIFY
        },
        text: "",
        fault: (8, "bad word 2"),
    },
    Row {
        words: Words {
            command: "256",
            data: "0",
            ..IDENTIFY
        },
        text: "",
        fault: (8, "bad word 3"),
    },
    Row {
        words: Words {
            command: "",
            ..IDENTIFY
        },
        text: "",
        fault: (8, "bad word 3"),
    },
    Row {
        words: Words {
            data: "0",
            ..IDENTIFY
        },
        text: "",
        fault: (8, "bad word 4"),
    },
    Row {
        words: Words {
            data: "0G",
            ..IDENTIFY
        },
        text: "",
        fault: (8, "bad word 4"),
    },
];

/// Whether `encode` writes the words as the message `text`, or refuses them with `fault`. The call must not read anything.
fn is_written<'a>(
    rt: &impl Eprint,
    alloc: Global,
    words: Words,
    text: &'a str,
    fault: Fault<'a>,
) -> Result<bool, Fail> {
    let given = Given {
        input: "!",
        most_written: 1,
        ..EMPTY
    };
    let wanted = Wanted {
        fault,
        text,
        reads: Some(0),
        writes: Some(text.len()),
    };
    does(rt, alloc, Call::Encode(words), &given, &wanted)
}

/// Whether `encode` writes a message with `len` bytes of data, or refuses the data with `fault`.
fn has_data(
    rt: &impl Eprint,
    alloc: Global,
    len: usize,
    fault: Fault<'static>,
) -> Result<bool, Fail> {
    let data = text_of(alloc, "", "00", len, "")?;
    let message = if fault.0 == 0 {
        text_of(alloc, "FF FF FF FF FF 02 80 00 FF", " 00", len, " 7D\n")?
    } else {
        String::new(alloc)
    };
    let words = Words {
        data: data.as_str(),
        ..IDENTIFY
    };
    is_written(rt, alloc, words, message.as_str(), fault)
}

#[test]
fn words_are_written_as_a_message(rt: HostRuntime) -> Result<(), Fail> {
    for (number, row) in ROWS.iter().enumerate() {
        let written = is_written(&rt, rt.alloc(), row.words, row.text, row.fault);
        hold_ok(&rt, written, "row", number)?;
    }
    hold_ok(&rt, has_data(&rt, rt.alloc(), 255, NONE), "data", 255)?;
    let longer = has_data(&rt, rt.alloc(), 256, (8, "bad word 4"));
    hold_ok(&rt, longer, "data", 256)?;
    Ok(())
}
