//! The names of fields, as worked messages show them.
use hart_commands::{FieldRow, reply_rows, request_rows};
use hart_rows::{hold, hold_ok, same, same_bytes};
use std::test::Fail;

/// Fields of data, each with its name and its bytes.
type Named = &'static [(&'static str, &'static [u8])];

/// A command, whether the data belong to a reply, the data, and their fields.
type Data = (u8, bool, &'static [u8], Named);

/// Data of worked messages, and data with one byte more than their fields have.
const FIELDS: &[Data] = &[
    (
        0,
        true,
        &[
            0xFE, 0x37, 0x42, 0x05, 0x07, 0x01, 0x02, 0x18, 0x00, 0x0A, 0x1B, 0x2C, 0x05, 0x04,
            0x00, 0x00, 0x00, 0x00, 0x37, 0x00, 0x37, 0x01,
        ],
        &[
            ("first byte", &[0xFE]),
            ("expanded device type", &[0x37, 0x42]),
            ("preamble bytes of a request", &[0x05]),
            ("protocol revision", &[0x07]),
            ("device revision", &[0x01]),
            ("software revision", &[0x02]),
            ("hardware revision and signalling code", &[0x18]),
            ("flags", &[0x00]),
            ("device id", &[0x0A, 0x1B, 0x2C]),
            ("preamble bytes of a response", &[0x05]),
            ("greatest number of device variables", &[0x04]),
            ("configuration change counter", &[0x00, 0x00]),
            ("extended device status", &[0x00]),
            ("manufacturer", &[0x00, 0x37]),
            ("private label distributor", &[0x00, 0x37]),
            ("device profile", &[0x01]),
        ],
    ),
    (
        3,
        true,
        &[0x41, 0x40, 0x00, 0x00, 0x20, 0x41, 0xC8, 0x00, 0x00],
        &[
            ("loop current", &[0x41, 0x40, 0x00, 0x00]),
            ("primary variable unit", &[0x20]),
            ("primary variable", &[0x41, 0xC8, 0x00, 0x00]),
        ],
    ),
    (
        9,
        true,
        &[
            0x00, 0xF5, 0x00, 0x27, 0x41, 0x40, 0x00, 0x00, 0xC0, 0x09, 0x00, 0xFA, 0x7F, 0xA0,
            0x00, 0x00, 0x30, 0x00, 0x00, 0x00, 0x00,
        ],
        &[
            ("extended device status", &[0x00]),
            (
                "device variables",
                &[
                    0xF5, 0x00, 0x27, 0x41, 0x40, 0x00, 0x00, 0xC0, 0x09, 0x00, 0xFA, 0x7F, 0xA0,
                    0x00, 0x00, 0x30,
                ],
            ),
            ("time stamp", &[0x00, 0x00, 0x00, 0x00]),
        ],
    ),
    (6, false, &[0x05], &[("polling address", &[0x05])]),
    (
        9,
        false,
        &[0xF5, 0x09],
        &[("device variable codes", &[0xF5, 0x09])],
    ),
    (
        19,
        false,
        &[0x01, 0x23, 0x45, 0x67],
        &[("final assembly number", &[0x01, 0x23, 0x45])],
    ),
    (38, false, &[], &[]),
    (4, false, &[0x01], &[]),
];

/// Whether rows split data into these fields.
fn fall_into(rows: &[FieldRow], data: &[u8], fields: Named) -> Result<bool, Fail> {
    let mut rest = data;
    let mut found = 0;
    for row in rows {
        let Some((bytes, after)) = row.split(rest) else {
            break;
        };
        let (name, wanted) = *fields.get(found).ok_or("more fields")?;
        same(&row.words, &name)?;
        hold(row.name.split('_').eq(name.split(' ')), "name", found)?;
        same_bytes(bytes, wanted)?;
        rest = after;
        found += 1;
    }
    same(&found, &fields.len())
}

/// Whether the data of a row have its fields.
fn have_fields(row: &Data) -> Result<bool, Fail> {
    let (command, replies, data, fields) = *row;
    if replies {
        fall_into(reply_rows(command), data, fields)
    } else {
        fall_into(request_rows(command), data, fields)
    }
}

#[test]
fn fields_have_their_names(rt: HostRuntime) -> Result<(), Fail> {
    for (number, row) in FIELDS.iter().enumerate() {
        hold_ok(&rt, have_fields(row), "row", number)?;
    }
    Ok(())
}
