//! Words that a request refuses, because of a field's name or of its value.

use super::{Row, TO_DEVICE, is_written};
use hart_rows::hold_ok;
use std::test::Fail;

/// Words whose name is no field of the command or is given twice, and requests in which a field is missing.
const NAMES: &[Row] = &[
    Row {
        address: "@0",
        command: "4",
        fields: &["x"],
        fault: (8, "bad word 3: unknown command"),
        ..TO_DEVICE
    },
    Row {
        fields: &["tag"],
        fault: (8, "bad word 4: no NAME=VALUE"),
        ..TO_DEVICE
    },
    Row {
        fields: &["Tag=X"],
        fault: (8, "bad word 4: unknown field"),
        ..TO_DEVICE
    },
    Row {
        fields: &["=X"],
        fault: (8, "bad word 4: unknown field"),
        ..TO_DEVICE
    },
    Row {
        command: "0",
        fields: &["tag=X"],
        fault: (8, "bad word 4: unknown field"),
        ..TO_DEVICE
    },
    Row {
        command: "19",
        fields: &["final assembly number=0x012345"],
        fault: (8, "bad word 4: unknown field"),
        ..TO_DEVICE
    },
    Row {
        fields: &["tag=x", "tag=Y"],
        fault: (8, "bad word 5: given twice"),
        ..TO_DEVICE
    },
    Row {
        fields: &["date=x", "tag=x", "no"],
        fault: (8, "bad word 6: no NAME=VALUE"),
        ..TO_DEVICE
    },
    Row {
        fields: &["tag=X", "date=2026-11-27"],
        fault: (8, "bad word 6: missing field descriptor"),
        ..TO_DEVICE
    },
    Row {
        fields: &["date=x"],
        fault: (8, "bad word 5: missing field tag"),
        ..TO_DEVICE
    },
    Row {
        command: "19",
        fields: &[],
        fault: (8, "bad word 4: missing field final assembly number"),
        ..TO_DEVICE
    },
];

/// Texts that are too long, or have a character that their field cannot have.
const TEXTS: &[Row] = &[
    Row {
        fields: &["tag=FT-123456", "descriptor=Y", "date=2026-11-27"],
        fault: (8, "bad word 4: too long: at most 8 characters"),
        ..TO_DEVICE
    },
    Row {
        fields: &["date=x", "descriptor=12345678901234567", "tag=X"],
        fault: (8, "bad word 5: too long: at most 16 characters"),
        ..TO_DEVICE
    },
    Row {
        fields: &["tag=ft", "descriptor=Y", "date=2026-11-27"],
        fault: (8, "bad word 4: bad character at 0"),
        ..TO_DEVICE
    },
    Row {
        fields: &["tag=FTü", "descriptor=Y", "date=2026-11-27"],
        fault: (8, "bad word 4: bad character at 2"),
        ..TO_DEVICE
    },
    Row {
        fields: &["tag=12345678ü", "descriptor=Y", "date=2026-11-27"],
        fault: (8, "bad word 4: too long: at most 8 characters"),
        ..TO_DEVICE
    },
    Row {
        command: "22",
        fields: &["long_tag=xxxxxxxxxxxxxxxxxxxxxxxxxxxxxxxxx"],
        fault: (8, "bad word 4: too long: at most 32 characters"),
        ..TO_DEVICE
    },
    Row {
        command: "22",
        fields: &["long_tag=a\t"],
        fault: (8, "bad word 4: bad character at 1"),
        ..TO_DEVICE
    },
    Row {
        command: "22",
        fields: &["long_tag=€"],
        fault: (8, "bad word 4: bad character at 0"),
        ..TO_DEVICE
    },
    Row {
        command: "22",
        fields: &["long_tag=0x12"],
        fault: (8, "bad word 4: not 0x and 32 bytes in hex"),
        ..TO_DEVICE
    },
];

/// Numbers and bytes that do not fit their field, and a number that the command refuses.
const NUMBERS: &[Row] = &[
    Row {
        command: "6",
        fields: &["polling_address=256", "loop_current_mode=1"],
        fault: (8, "bad word 4: no number from 0 to 255"),
        ..TO_DEVICE
    },
    Row {
        command: "6",
        fields: &["polling_address=0x1", "loop_current_mode=1"],
        fault: (8, "bad word 4: no number from 0 to 255"),
        ..TO_DEVICE
    },
    Row {
        command: "6",
        fields: &["polling_address=", "loop_current_mode=1"],
        fault: (8, "bad word 4: no number from 0 to 255"),
        ..TO_DEVICE
    },
    Row {
        command: "6",
        fields: &["polling_address=64", "loop_current_mode=1"],
        fault: (8, "bad word 3: refused with code 2"),
        ..TO_DEVICE
    },
    Row {
        command: "38",
        fields: &["configuration_change_counter=65536"],
        fault: (8, "bad word 4: no number from 0 to 65535"),
        ..TO_DEVICE
    },
    Row {
        command: "9",
        fields: &["device_variable_codes=0x"],
        fault: (8, "bad word 4: not 0x and 1 to 8 bytes in hex"),
        ..TO_DEVICE
    },
    Row {
        command: "9",
        fields: &["device_variable_codes=0x000000000000000000"],
        fault: (8, "bad word 4: not 0x and 1 to 8 bytes in hex"),
        ..TO_DEVICE
    },
    Row {
        command: "9",
        fields: &["device_variable_codes=00"],
        fault: (8, "bad word 4: not 0x and 1 to 8 bytes in hex"),
        ..TO_DEVICE
    },
    Row {
        command: "19",
        fields: &["final_assembly_number=0x0123"],
        fault: (8, "bad word 4: not 0x and 3 bytes in hex"),
        ..TO_DEVICE
    },
    Row {
        command: "19",
        fields: &["final_assembly_number=0x01234"],
        fault: (8, "bad word 4: not 0x and 3 bytes in hex"),
        ..TO_DEVICE
    },
];

/// Dates that do not exist, or that a device cannot hold.
const DATES: &[Row] = &[
    Row {
        fields: &["tag=X", "descriptor=Y", "date=2026-02-30"],
        fault: (8, "bad word 6: no date"),
        ..TO_DEVICE
    },
    Row {
        fields: &["tag=X", "descriptor=Y", "date=1899-12-31"],
        fault: (8, "bad word 6: no date"),
        ..TO_DEVICE
    },
    Row {
        fields: &["tag=X", "descriptor=Y", "date=2156-01-01"],
        fault: (8, "bad word 6: no date"),
        ..TO_DEVICE
    },
    Row {
        fields: &["tag=X", "descriptor=Y", "date="],
        fault: (8, "bad word 6: no date"),
        ..TO_DEVICE
    },
    Row {
        fields: &["tag=X", "descriptor=Y", "date=Not set"],
        fault: (8, "bad word 6: no date"),
        ..TO_DEVICE
    },
    Row {
        fields: &["tag=X", "descriptor=Y", "date=2026-11-27T10:00"],
        fault: (8, "bad word 6: no date"),
        ..TO_DEVICE
    },
    Row {
        fields: &["tag=X", "descriptor=Y", "date=2026-11-27T10:00+01:00"],
        fault: (8, "bad word 6: no date"),
        ..TO_DEVICE
    },
    Row {
        fields: &["tag=X", "descriptor=Y", "date=2026-11-27[u-ca=iso8601]"],
        fault: (8, "bad word 6: no date"),
        ..TO_DEVICE
    },
    Row {
        fields: &["tag=X", "descriptor=Y", "date=20261127"],
        fault: (8, "bad word 6: no date"),
        ..TO_DEVICE
    },
    Row {
        fields: &["tag=X", "descriptor=Y", "date=+002026-11-27"],
        fault: (8, "bad word 6: no date"),
        ..TO_DEVICE
    },
];

#[test]
fn bad_names_are_refused(rt: HostRuntime) -> Result<(), Fail> {
    for (number, row) in NAMES.iter().enumerate() {
        hold_ok(&rt, is_written(&rt, rt.alloc(), *row), "row", number)?;
    }
    Ok(())
}

#[test]
fn bad_texts_are_refused(rt: HostRuntime) -> Result<(), Fail> {
    for (number, row) in TEXTS.iter().enumerate() {
        hold_ok(&rt, is_written(&rt, rt.alloc(), *row), "row", number)?;
    }
    Ok(())
}

#[test]
fn bad_numbers_are_refused(rt: HostRuntime) -> Result<(), Fail> {
    for (number, row) in NUMBERS.iter().enumerate() {
        hold_ok(&rt, is_written(&rt, rt.alloc(), *row), "row", number)?;
    }
    Ok(())
}

#[test]
fn bad_dates_are_refused(rt: HostRuntime) -> Result<(), Fail> {
    for (number, row) in DATES.iter().enumerate() {
        hold_ok(&rt, is_written(&rt, rt.alloc(), *row), "row", number)?;
    }
    Ok(())
}
