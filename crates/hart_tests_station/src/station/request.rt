//! Tests of `request`, whose words name the fields of the data.

mod refused;

use hart_calls::{Call, EMPTY, Fault, Given, NONE, Named, Wanted, does};
use hart_rows::hold_ok;
use std::alloc::Global;
use std::test::Fail;

/// Words of a request, and the result: the message that `request` writes, or its fault.
#[derive(Clone, Copy)]
struct Row<'a> {
    who: &'a str,
    address: &'a str,
    command: &'a str,
    fields: &'a [&'a str],
    preambles: u8,
    text: &'a str,
    fault: Fault<'a>,
}

/// A request with Command 18 to the bench device, without fields. Each row states only how it differs from this request.
const TO_DEVICE: Row = Row {
    who: "P",
    address: "37420A1B2C",
    command: "18",
    fields: &[],
    preambles: 5,
    text: "",
    fault: NONE,
};

/// Requests with fields of texts and of dates.
const TEXTS: &[Row] = &[
    Row {
        fields: &["tag=FT-1204", "descriptor=FEED PUMP", "date=2026-11-27"],
        text: "FF FF FF FF FF 82 B7 42 0A 1B 2C 12 15 19 4B 71 CB 0D 20 18 51 44 81 05 4D 42 08 20 82 08 20 1B 0B 7E E2\n",
        ..TO_DEVICE
    },
    Row {
        who: "S",
        fields: &["date=not set", "tag=A=B", "descriptor="],
        text: "FF FF FF FF FF 82 37 42 0A 1B 2C 12 15 07 D0 A0 82 08 20 82 08 20 82 08 20 82 08 20 82 08 20 00 00 00 10\n",
        ..TO_DEVICE
    },
    Row {
        fields: &["descriptor=^_[]\\ !?", "date=2155-12-31", "tag=@ABCDEFG"],
        text: "FF FF FF FF FF 82 B7 42 0A 1B 2C 12 15 00 10 83 10 51 87 79 F6 DD 72 08 7F 82 08 20 82 08 20 1F 0C FF A3\n",
        ..TO_DEVICE
    },
    Row {
        command: "22",
        fields: &["long_tag=Feed pump, building 3"],
        text: "FF FF FF FF FF 82 B7 42 0A 1B 2C 16 20 46 65 65 64 20 70 75 6D 70 2C 20 62 75 69 6C 64 69 6E 67 20 \
         33 20 20 20 20 20 20 20 20 20 20 20 4F\n",
        ..TO_DEVICE
    },
    Row {
        address: "all",
        command: "21",
        fields: &["long_tag=Prüfstand ÿ"],
        text: "FF FF FF FF FF 82 80 00 00 00 00 15 20 50 72 FC 66 73 74 61 6E 64 20 FF 20 20 20 20 20 20 20 20 20 \
         20 20 20 20 20 20 20 20 20 20 20 20 1C\n",
        ..TO_DEVICE
    },
    Row {
        command: "22",
        fields: &["long_tag=0x4a4a4a4a4a4a4a4a4a4a4a4a4a4a4a4a4a4a4a4a4a4a4a4a4a4a4a4a4a4a4a4a"],
        text: "FF FF FF FF FF 82 B7 42 0A 1B 2C 16 20 4A 4A 4A 4A 4A 4A 4A 4A 4A 4A 4A 4A 4A 4A 4A 4A 4A 4A 4A 4A \
         4A 4A 4A 4A 4A 4A 4A 4A 4A 4A 4A 4A 7C\n",
        ..TO_DEVICE
    },
    Row {
        command: "22",
        fields: &["long_tag="],
        text: "FF FF FF FF FF 82 B7 42 0A 1B 2C 16 20 20 20 20 20 20 20 20 20 20 20 20 20 20 20 20 20 20 20 20 20 \
         20 20 20 20 20 20 20 20 20 20 20 20 7C\n",
        ..TO_DEVICE
    },
    Row {
        command: "17",
        fields: &["message=32 CHARACTERS ARE IN A MESSAGE."],
        text: "FF FF FF FF FF 82 B7 42 0A 1B 2C 11 18 CF 28 03 20 14 81 0D 41 52 4E 00 52 16 02 4E 80 18 0D 15 34 C1 1C 5B A0 D8\n",
        ..TO_DEVICE
    },
    Row {
        who: "S",
        address: "all",
        command: "11",
        fields: &["tag=FT-1204"],
        preambles: 20,
        text: "FF FF FF FF FF FF FF FF FF FF FF FF FF FF FF FF FF FF FF FF 82 00 00 00 00 00 0B 06 19 4B 71 CB 0D 20 4A\n",
        ..TO_DEVICE
    },
];

/// Requests with fields of numbers and of bytes, and requests without fields.
const NUMBERS: &[Row] = &[
    Row {
        address: "@0",
        command: "0",
        fields: &[],
        text: "FF FF FF FF FF 02 80 00 00 82\n",
        ..TO_DEVICE
    },
    Row {
        who: "S",
        address: "@0",
        command: "0",
        fields: &[],
        preambles: 7,
        text: "FF FF FF FF FF FF FF 02 00 00 00 02\n",
        ..TO_DEVICE
    },
    Row {
        command: "19",
        fields: &["final_assembly_number=0x012345"],
        text: "FF FF FF FF FF 82 B7 42 0A 1B 2C 13 03 01 23 45 3D\n",
        ..TO_DEVICE
    },
    Row {
        command: "6",
        fields: &["loop_current_mode=+1", "polling_address=007"],
        text: "FF FF FF FF FF 82 B7 42 0A 1B 2C 06 02 07 01 48\n",
        ..TO_DEVICE
    },
    Row {
        command: "9",
        fields: &["device_variable_codes=0x00F4"],
        text: "FF FF FF FF FF 82 B7 42 0A 1B 2C 09 02 00 F4 B5\n",
        ..TO_DEVICE
    },
    Row {
        command: "38",
        fields: &["configuration_change_counter=65535"],
        text: "FF FF FF FF FF 82 B7 42 0A 1B 2C 26 02 FF FF 6E\n",
        ..TO_DEVICE
    },
    Row {
        command: "38",
        fields: &["configuration_change_counter=258"],
        text: "FF FF FF FF FF 82 B7 42 0A 1B 2C 26 02 01 02 6D\n",
        ..TO_DEVICE
    },
];

/// Whether `request` writes the words of a row as a message, or refuses them with the row's fault. The call must not read anything.
fn is_written(rt: &impl Eprint, alloc: Global, row: Row) -> Result<bool, Fail> {
    let call = Call::Request(Named {
        who: row.who,
        address: row.address,
        command: row.command,
        fields: row.fields,
        preambles: row.preambles,
    });
    let given = Given {
        input: "!",
        most_written: 1,
        ..EMPTY
    };
    let wanted = Wanted {
        fault: row.fault,
        text: row.text,
        reads: Some(0),
        writes: Some(row.text.len()),
    };
    does(rt, alloc, call, &given, &wanted)
}

#[test]
fn texts_and_dates_are_written(rt: HostRuntime) -> Result<(), Fail> {
    for (number, row) in TEXTS.iter().enumerate() {
        hold_ok(&rt, is_written(&rt, rt.alloc(), *row), "row", number)?;
    }
    Ok(())
}

#[test]
fn numbers_and_bytes_are_written(rt: HostRuntime) -> Result<(), Fail> {
    for (number, row) in NUMBERS.iter().enumerate() {
        hold_ok(&rt, is_written(&rt, rt.alloc(), *row), "row", number)?;
    }
    Ok(())
}
