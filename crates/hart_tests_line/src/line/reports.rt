//! Reports in full: what each register holds at the end, and each spoken frame.
use super::*;
use hart_commands::Register;
use hart_device::{FieldRegisters, RegisterStore};
use hart_rows::scripts::*;
use hart_rows::{bytes_of_text, same_bytes};

/// A spoken frame: who spoke it, its number of preamble bytes, and its body.
type Frame<'a> = (Party, u8, &'a str);

/// A script, and what it leads to on a new bench device.
struct Reported<'a> {
    script: &'a str,
    /// What the registers hold at the end, in the order of `Register::ALL`.
    registers: [&'a str; 8],
    spoken: &'a [Frame<'a>],
}

/// Each write command, with values that no other register has. The masters take turns.
const ALL_WRITTEN: &str = "submit P 37420A1B2C 6 0500\nturn P ok ok\n\
    submit S 37420A1B2C 17 0102030405060708090A0B0C0D0E0F101112131415161718\nturn S ok ok\n\
    submit P 37420A1B2C 18 415350B71C312122232425262728292A2B2C1D0264\nturn P ok ok\n\
    submit S 37420A1B2C 19 012345\nturn S ok ok\n\
    submit P 37420A1B2C 22 4142434445464748494A4B4C4D4E4F505152535455565758595A5B5C5D5E5F60\nturn P ok ok";

/// Spaces in packed text: a message, a tag and a descriptor.
const NO_MESSAGE: &str = "82 08 20 82 08 20 82 08 20 82 08 20 82 08 20 82 08 20 82 08 20 82 08 20";

const NO_TAG: &str = "82 08 20 82 08 20";

const NO_DESCRIPTOR: &str = "82 08 20 82 08 20 82 08 20 82 08 20";

/// A long tag of spaces.
const NO_LONG_TAG: &str =
    "20 20 20 20 20 20 20 20 20 20 20 20 20 20 20 20 20 20 20 20 20 20 20 20 20 20 20 20 20 20 20 20";

const REPORTS: &[Reported] = &[
    Reported {
        script: REPLY_LOST,
        registers: [
            "00",
            "01",
            NO_MESSAGE,
            NO_TAG,
            NO_DESCRIPTOR,
            "00 00 00",
            "01 23 45",
            NO_LONG_TAG,
        ],
        spoken: &[
            (Party::Primary, 20, "82 B7 42 0A 1B 2C 13 03 01 23 45 3D"),
            (
                Party::Device,
                5,
                "86 B7 42 0A 1B 2C 13 05 00 40 01 23 45 7F",
            ),
            (Party::Primary, 20, "82 B7 42 0A 1B 2C 13 03 01 23 45 3D"),
            (
                Party::Device,
                5,
                "86 B7 42 0A 1B 2C 13 05 00 40 01 23 45 7F",
            ),
        ],
    },
    // Mode 0 fixes the loop current, which the device status shows.
    Reported {
        script: ALL_WRITTEN,
        registers: [
            "05",
            "00",
            "01 02 03 04 05 06 07 08 09 0A 0B 0C 0D 0E 0F 10 11 12 13 14 15 16 17 18",
            "41 53 50 B7 1C 31",
            "21 22 23 24 25 26 27 28 29 2A 2B 2C",
            "1D 02 64",
            "01 23 45",
            "41 42 43 44 45 46 47 48 49 4A 4B 4C 4D 4E 4F 50 51 52 53 54 55 56 57 58 59 5A 5B 5C 5D 5E 5F 60",
        ],
        spoken: &[
            (Party::Primary, 20, "82 B7 42 0A 1B 2C 06 02 05 00 4B"),
            (Party::Device, 5, "86 B7 42 0A 1B 2C 06 04 00 48 05 00 01"),
            (
                Party::Secondary,
                20,
                "82 37 42 0A 1B 2C 11 18 01 02 03 04 05 06 07 08 09 0A 0B 0C 0D 0E 0F 10 11 12 13 14 15 16 17 18 DB",
            ),
            (
                Party::Device,
                5,
                "86 37 42 0A 1B 2C 11 1A 00 48 01 02 03 04 05 06 07 08 09 0A 0B 0C 0D 0E 0F 10 11 12 13 14 15 16 17 18 95",
            ),
            (
                Party::Primary,
                20,
                "82 B7 42 0A 1B 2C 12 15 41 53 50 B7 1C 31 21 22 23 24 25 26 27 28 29 2A 2B 2C 1D 02 64 E2",
            ),
            (
                Party::Device,
                5,
                "86 B7 42 0A 1B 2C 12 17 00 48 41 53 50 B7 1C 31 21 22 23 24 25 26 27 28 29 2A 2B 2C 1D 02 64 AC",
            ),
            (Party::Secondary, 20, "82 37 42 0A 1B 2C 13 03 01 23 45 BD"),
            (
                Party::Device,
                5,
                "86 37 42 0A 1B 2C 13 05 00 48 01 23 45 F7",
            ),
            (
                Party::Primary,
                20,
                "82 B7 42 0A 1B 2C 16 20 41 42 43 44 45 46 47 48 49 4A 4B 4C 4D 4E 4F \
                50 51 52 53 54 55 56 57 58 59 5A 5B 5C 5D 5E 5F 60 5C",
            ),
            (
                Party::Device,
                5,
                "86 B7 42 0A 1B 2C 16 22 00 48 41 42 43 44 45 46 47 48 49 4A 4B 4C 4D 4E 4F \
                50 51 52 53 54 55 56 57 58 59 5A 5B 5C 5D 5E 5F 60 12",
            ),
        ],
    },
    Reported {
        script: ADDRESS_MOVES,
        registers: [
            "05",
            "01",
            NO_MESSAGE,
            NO_TAG,
            NO_DESCRIPTOR,
            "00 00 00",
            "00 00 00",
            NO_LONG_TAG,
        ],
        spoken: &[
            (Party::Primary, 20, "02 80 00 00 82"),
            (
                Party::Device,
                5,
                "06 80 00 18 00 00 FE 37 42 05 07 01 02 18 00 0A 1B 2C 05 04 00 00 00 00 37 00 37 01 31",
            ),
            (Party::Secondary, 20, "82 37 42 0A 1B 2C 06 02 05 01 CA"),
            (Party::Device, 5, "86 37 42 0A 1B 2C 06 04 00 40 05 01 88"),
            (Party::Primary, 20, "02 80 00 00 82"),
        ],
    },
    Reported {
        script: COMMUNICATION_FAULTS,
        registers: [
            "00",
            "01",
            NO_MESSAGE,
            NO_TAG,
            NO_DESCRIPTOR,
            "00 00 00",
            "00 00 00",
            NO_LONG_TAG,
        ],
        spoken: &[
            (Party::Primary, 20, "82 B7 42 0A 1B 2C 13 03 01 23 45 3D"),
            (Party::Device, 5, "86 B7 42 0A 1B 2C 13 02 88 00 D7"),
            (Party::Primary, 20, "82 B7 42 0A 1B 2C 13 03 01 23 45 3D"),
            (Party::Device, 5, "86 B7 42 0A 1B 2C 13 02 88 00 D7"),
            (Party::Device, 5, "86 B7 42 0A 1B 2C 13 02 88 00 D7"),
            (Party::Device, 5, "86 37 42 0A 1B 2C 13 02 88 00 57"),
        ],
    },
    Reported {
        script: LONG_TAG_WRITTEN,
        registers: [
            "00",
            "01",
            NO_MESSAGE,
            NO_TAG,
            NO_DESCRIPTOR,
            "00 00 00",
            "00 00 00",
            "F0 F1 F2 F3 F4 F5 F6 F7 F8 F9 FA FB FC FD FE FF 00 01 02 03 04 05 06 07 08 09 0A 0B 0C 0D 0E 0F",
        ],
        spoken: &[
            (
                Party::Primary,
                20,
                "82 80 00 00 00 00 15 20 20 20 20 20 20 20 20 20 20 20 20 20 20 20 20 20 \
                20 20 20 20 20 20 20 20 20 20 20 20 20 20 20 20 37",
            ),
            (
                Party::Device,
                5,
                "86 80 00 00 00 00 15 18 00 00 FE 37 42 05 07 01 02 18 00 0A 1B 2C 05 04 00 00 00 00 37 00 37 01 A4",
            ),
            (
                Party::Secondary,
                20,
                "82 37 42 0A 1B 2C 16 20 F0 F1 F2 F3 F4 F5 F6 F7 F8 F9 FA FB FC FD FE FF \
                00 01 02 03 04 05 06 07 08 09 0A 0B 0C 0D 0E 0F FC",
            ),
            (
                Party::Device,
                5,
                "86 37 42 0A 1B 2C 16 22 00 40 F0 F1 F2 F3 F4 F5 F6 F7 F8 F9 FA FB FC FD FE FF \
                00 01 02 03 04 05 06 07 08 09 0A 0B 0C 0D 0E 0F BA",
            ),
            (Party::Primary, 20, "82 B7 42 0A 1B 2C 14 00 5E"),
            (
                Party::Device,
                5,
                "86 B7 42 0A 1B 2C 14 22 00 40 F0 F1 F2 F3 F4 F5 F6 F7 F8 F9 FA FB FC FD FE FF \
                00 01 02 03 04 05 06 07 08 09 0A 0B 0C 0D 0E 0F 38",
            ),
        ],
    },
];

/// Whether each register holds these bytes. The texts are in the order of `Register::ALL`.
fn are_held(alloc: Global, registers: &FieldRegisters, texts: &[&str; 8]) -> Result<bool, Fail> {
    for (register, text) in Register::ALL.iter().zip(texts) {
        let wanted = bytes_of_text(alloc, text)?;
        same_bytes(registers.get(*register), wanted.as_slice())?;
    }
    Ok(true)
}

/// Whether exactly these frames were spoken.
fn were_spoken(alloc: Global, spoken: &[Spoken], frames: &[Frame]) -> Result<bool, Fail> {
    for (said, (party, preambles, body)) in spoken.iter().zip(frames) {
        let wanted = bytes_of_text(alloc, body)?;
        same(&said.party, party)?;
        same(&said.preambles, preambles)?;
        same_bytes(said.bytes.as_slice(), wanted.as_slice())?;
    }
    same(&spoken.len(), &frames.len())
}

/// Whether a script leads to its report.
fn is_reported(alloc: Global, row: &Reported) -> Result<bool, Fail> {
    let events = read_script(alloc, row.script.as_bytes())?;
    let device = new_device::<FieldRegisters>();
    let report = carried_out(alloc, device, 3, events.as_slice())??;
    Ok(
        are_held(alloc, report.device.registers(), &row.registers)?
            && were_spoken(alloc, report.spoken.as_slice(), row.spoken)?,
    )
}

#[test]
fn reports_have_each_register_and_each_frame(rt: HostRuntime) -> Result<(), Fail> {
    for (number, row) in REPORTS.iter().enumerate() {
        hold_ok(&rt, is_reported(rt.alloc(), row), "row", number)?;
    }
    Ok(())
}
