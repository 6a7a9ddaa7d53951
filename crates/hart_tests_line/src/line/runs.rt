//! Scripts that are carried out on the bench device.
use super::*;
use hart_commands::{Register, Reply};
use hart_device::{Device, FieldRegisters, Image, ImageRegisters, RegisterStore, bench};
use hart_master::MasterFault;
use hart_rows::same_bytes;
use hart_rows::scripts::*;

/// What becomes of a submission.
enum Fate<'a> {
    /// A reply is accepted: its command, the number of sendings, and its payload.
    Answered(u8, u8, &'a [u8]),
    NoReply(u8),
    Unfinished(u8),
    Refused(MasterFault),
}

/// A script, and what it leads to.
struct Row<'a> {
    /// The counter and the flags at the end of the image from which the device starts. The registers of this image are the bench device's.
    ending: [u8; 3],
    /// The greatest number of retries of the primary master.
    retries: u8,
    script: &'a str,
    fates: &'a [Fate<'a>],
    /// The number of spoken frames.
    spoken: usize,
    counter: u16,
    /// What the registers hold at the end: the polling address, and the final assembly number. The loop current mode is enabled in every
    /// row.
    polling: u8,
    assembly: [u8; 3],
}

/// The empty script, which changes nothing.
const NOTHING: Row = Row {
    ending: [0x00, 0x00, 0x00],
    retries: 3,
    script: "",
    fates: &[],
    spoken: 0,
    counter: 0,
    polling: 0,
    assembly: [0x00, 0x00, 0x00],
};

/// The payload of the reply by which the bench device is found.
const IDENTITY: &[u8] = &[
    0x00, 0x00, 0xFE, 0x37, 0x42, 0x05, 0x07, 0x01, 0x02, 0x18, 0x00, 0x0A, 0x1B, 0x2C, 0x05, 0x04,
    0x00, 0x00, 0x00, 0x00, 0x37, 0x00, 0x37, 0x01,
];

/// The payload of a reply with the long tag that a script writes: the bytes F0 to FF and 00 to 0F.
const LONG_TAG: &[u8] = &[
    0x00, 0x40, 0xF0, 0xF1, 0xF2, 0xF3, 0xF4, 0xF5, 0xF6, 0xF7, 0xF8, 0xF9, 0xFA, 0xFB, 0xFC, 0xFD,
    0xFE, 0xFF, 0x00, 0x01, 0x02, 0x03, 0x04, 0x05, 0x06, 0x07, 0x08, 0x09, 0x0A, 0x0B, 0x0C, 0x0D,
    0x0E, 0x0F,
];

/// Scripts, and what they lead to.
const ROWS: &[Row] = &[
    NOTHING,
    Row {
        script: REPLY_LOST,
        fates: &[Fate::Answered(19, 2, &[0x00, 0x40, 0x01, 0x23, 0x45])],
        spoken: 4,
        counter: 2,
        assembly: [0x01, 0x23, 0x45],
        ..NOTHING
    },
    Row {
        script: TWO_MASTERS,
        fates: &[
            Fate::Answered(19, 2, &[0x00, 0x40, 0x01, 0x23, 0x45]),
            Fate::Answered(19, 1, &[0x00, 0x40, 0x0A, 0x0B, 0x0C]),
        ],
        spoken: 6,
        counter: 3,
        assembly: [0x01, 0x23, 0x45],
        ..NOTHING
    },
    Row {
        script: PROTECTED_MEANWHILE,
        fates: &[
            Fate::Answered(19, 2, &[0x07, 0x40]),
            Fate::Answered(19, 1, &[0x00, 0x40, 0x0A, 0x0B, 0x0C]),
        ],
        spoken: 6,
        counter: 2,
        assembly: [0x0A, 0x0B, 0x0C],
        ..NOTHING
    },
    Row {
        ending: [0x00, 0x01, 0x03],
        script: RESET_OVERTAKEN,
        fates: &[
            Fate::Answered(38, 2, &[0x09, 0x40]),
            Fate::Answered(19, 1, &[0x00, 0x40, 0x0A, 0x0B, 0x0C]),
        ],
        spoken: 6,
        counter: 2,
        assembly: [0x0A, 0x0B, 0x0C],
        ..NOTHING
    },
    Row {
        ending: [0xFF, 0xFF, 0x00],
        script: WRITTEN,
        fates: &[Fate::Answered(19, 1, &[0x00, 0x40, 0x01, 0x23, 0x45])],
        spoken: 2,
        assembly: [0x01, 0x23, 0x45],
        ..NOTHING
    },
    Row {
        script: ADDRESS_MOVES,
        fates: &[
            Fate::Unfinished(2),
            Fate::Answered(6, 1, &[0x00, 0x40, 0x05, 0x01]),
        ],
        spoken: 5,
        counter: 1,
        polling: 5,
        ..NOTHING
    },
    Row {
        script: REQUESTS_LOST,
        fates: &[Fate::NoReply(4)],
        spoken: 4,
        ..NOTHING
    },
    Row {
        retries: 0,
        script: REQUEST_LOST,
        fates: &[Fate::NoReply(1)],
        spoken: 1,
        ..NOTHING
    },
    Row {
        retries: 1,
        script: REPLIES_LOST,
        fates: &[Fate::NoReply(2)],
        spoken: 4,
        counter: 2,
        assembly: [0x01, 0x23, 0x45],
        ..NOTHING
    },
    Row {
        script: REFUSED,
        fates: &[
            Fate::Refused(MasterFault::WrongAddress),
            Fate::Unfinished(0),
            Fate::Refused(MasterFault::Pending),
        ],
        ..NOTHING
    },
    Row {
        script: LONG_TAG_WRITTEN,
        fates: &[
            Fate::Answered(21, 1, IDENTITY),
            Fate::Answered(22, 1, LONG_TAG),
            Fate::Answered(20, 1, LONG_TAG),
        ],
        spoken: 6,
        counter: 1,
        ..NOTHING
    },
];

/// Scripts of damaged messages and of noise.
const DAMAGED: &[Row] = &[
    Row {
        script: ADDRESS_FAULTY,
        fates: &[Fate::Unfinished(1)],
        spoken: 1,
        ..NOTHING
    },
    Row {
        script: ADDRESS_REPLACED,
        fates: &[Fate::Unfinished(1)],
        spoken: 1,
        ..NOTHING
    },
    Row {
        script: ONE_PREAMBLE_BYTE,
        fates: &[Fate::Unfinished(1)],
        spoken: 1,
        ..NOTHING
    },
    Row {
        script: BOTH_LEGS_DAMAGED,
        fates: &[Fate::Unfinished(2)],
        spoken: 4,
        counter: 1,
        assembly: [0x01, 0x23, 0x45],
        ..NOTHING
    },
    Row {
        script: CHECK_REPLACED,
        fates: &[Fate::Answered(19, 2, &[0x00, 0x40, 0x01, 0x23, 0x45])],
        spoken: 4,
        counter: 1,
        assembly: [0x01, 0x23, 0x45],
        ..NOTHING
    },
    Row {
        script: COMMUNICATION_FAULTS,
        fates: &[Fate::Unfinished(2), Fate::Unfinished(0)],
        spoken: 6,
        ..NOTHING
    },
    Row {
        script: NOTHING_ASKED,
        spoken: 2,
        ..NOTHING
    },
    Row {
        script: REPLY_HEARD,
        fates: &[Fate::Unfinished(3)],
        spoken: 6,
        ..NOTHING
    },
    Row {
        script: REPLY_HEARD_UNASKED,
        spoken: 3,
        ..NOTHING
    },
    Row {
        script: GARBLED_NOISE,
        spoken: 1,
        ..NOTHING
    },
    Row {
        script: PREAMBLE_FAULTY,
        fates: &[Fate::Answered(19, 1, &[0x00, 0x40, 0x01, 0x23, 0x45])],
        spoken: 2,
        counter: 1,
        assembly: [0x01, 0x23, 0x45],
        ..NOTHING
    },
];

/// Scripts with restarts of the device.
const RESTARTED: &[Row] = &[
    Row {
        script: RESTART_SHOWN,
        fates: &[
            Fate::Answered(19, 1, &[0x00, 0x60, 0x01, 0x23, 0x45]),
            Fate::Answered(7, 1, &[0x00, 0x40, 0x00, 0x01]),
            Fate::Answered(7, 1, &[0x00, 0x60, 0x00, 0x01]),
        ],
        spoken: 6,
        counter: 1,
        assembly: [0x01, 0x23, 0x45],
        ..NOTHING
    },
    Row {
        retries: 0,
        script: RESTART_REFUSED,
        fates: &[
            Fate::NoReply(1),
            Fate::Answered(19, 1, &[0x07, 0x20]),
            Fate::Answered(7, 1, &[0x00, 0x00, 0x00, 0x01]),
        ],
        spoken: 6,
        ..NOTHING
    },
    Row {
        script: RESTART_LOST,
        fates: &[
            Fate::Answered(7, 2, &[0x00, 0x00, 0x00, 0x01]),
            Fate::Unfinished(0),
        ],
        spoken: 4,
        ..NOTHING
    },
    Row {
        script: RESTART_MEANWHILE,
        fates: &[Fate::Answered(19, 2, &[0x00, 0x60, 0x01, 0x23, 0x45])],
        spoken: 4,
        counter: 2,
        assembly: [0x01, 0x23, 0x45],
        ..NOTHING
    },
];

/// Returns an image with another ending.
fn with_ending(image: &Image, ending: &[u8; 3]) -> Option<Image> {
    let registers = image.len().checked_sub(ending.len())?;
    let mut changed = Image::from_slice(image.as_slice().get(..registers)?)?;
    changed.extend_from_slice(ending);
    Some(changed)
}

/// Returns the device with this store that starts from the image of a row.
fn device_of<S: RegisterStore + Drop>(row: &Row) -> Result<Device<S>, Fail> {
    let image = with_ending(&new_device::<S>().image(), &row.ending).ok_or("too long")?;
    Ok(Device::from_image(bench::identity(), image.as_slice())?)
}

/// Returns what a row's script leads to, on a device with this store, made from the row's image.
fn report_of<S: RegisterStore + Drop>(alloc: Global, row: &Row) -> Result<Report<S>, Fail> {
    let events = read_script(alloc, row.script.as_bytes())?;
    let device = device_of::<S>(row)?;
    Ok(carried_out(alloc, device, row.retries, events.as_slice())??)
}

/// Returns the outcome of a reply to a command with this payload, after `sendings` sendings.
fn answered(command: u8, sendings: u8, payload: &[u8]) -> Option<Outcome> {
    let reply = Reply::read(command, payload)?;
    Some(Outcome::Answered { reply, sendings })
}

/// Returns the outcome of a submission with this fate, or `None` if the payload of the fate is not the payload of a reply.
fn outcome_of(fate: &Fate) -> Option<Outcome> {
    match *fate {
        Fate::Answered(command, sendings, payload) => answered(command, sendings, payload),
        Fate::NoReply(sendings) => Some(Outcome::NoReply { sendings }),
        Fate::Unfinished(sendings) => Some(Outcome::Unfinished { sendings }),
        Fate::Refused(fault) => Some(Outcome::Refused(fault)),
    }
}

/// Returns the outcomes of submissions with these fates.
fn outcomes_of(alloc: Global, fates: &[Fate]) -> Result<Vec<Outcome>, Fail> {
    let mut outcomes = Vec::new(alloc);
    for fate in fates {
        outcomes.push(outcome_of(fate).ok_or("a reply")?)?;
    }
    Ok(outcomes)
}

/// Whether a report has these outcomes, and the number of spoken frames and the counter of a row.
fn is_led_to<S: RegisterStore>(
    report: &Report<S>,
    outcomes: &[Outcome],
    row: &Row,
) -> Result<bool, Fail> {
    Ok(
        same(&report.outcomes.as_slice(), &outcomes)?
            && same(&report.spoken.as_slice().len(), &row.spoken)?
            && same(&report.device.counter(), &row.counter)?,
    )
}

/// Whether registers hold what a row says.
fn are_held(registers: &FieldRegisters, row: &Row) -> Result<bool, Fail> {
    Ok(
        same_bytes(registers.get(Register::Polling), &[row.polling])?
            && same_bytes(registers.get(Register::Mode), &[1])?
            && same_bytes(registers.get(Register::Assembly), &row.assembly)?,
    )
}

/// Whether a script had the same result on two devices with different kinds of stores.
fn are_alike(
    report: &Report<FieldRegisters>,
    other: &Report<ImageRegisters>,
) -> Result<bool, Fail> {
    Ok(
        same(&other.outcomes.as_slice(), &report.outcomes.as_slice())?
            && same(&other.spoken.as_slice(), &report.spoken.as_slice())?
            && same_bytes(
                other.device.image().as_slice(),
                report.device.image().as_slice(),
            )?,
    )
}

/// Whether a row's script leads to what the row says, with a store of each kind.
fn is_as_said(alloc: Global, row: &Row) -> Result<bool, Fail> {
    let outcomes = outcomes_of(alloc, row.fates)?;
    let report = report_of(alloc, row)?;
    let other = report_of(alloc, row)?;
    Ok(
        is_led_to(&report, outcomes.as_slice(), row)?
            && are_held(report.device.registers(), row)?
            && are_alike(&report, &other)?,
    )
}

/// Fails the test unless each row of a table leads to what the row says.
fn hold_rows(rt: &impl Eprint, alloc: Global, word: &str, rows: &[Row]) -> Result<(), Fail> {
    for (number, row) in rows.iter().enumerate() {
        hold_ok(rt, is_as_said(alloc, row), word, number)?;
    }
    Ok(())
}

#[test]
fn scripts_lead_to_reports(rt: HostRuntime) -> Result<(), Fail> {
    hold_rows(&rt, rt.alloc(), "row", ROWS)?;
    hold_rows(&rt, rt.alloc(), "damaged row", DAMAGED)?;
    hold_rows(&rt, rt.alloc(), "restarted row", RESTARTED)?;
    Ok(())
}
