mod reports;
mod room;
mod runs;
mod texts;

use hart_commands::Request;
use hart_device::{Device, FieldRegisters, ImageRegisters, RegisterStore, bench};
use hart_line::*;
use hart_master::{Master, MasterFault};
use hart_rows::{has_text, hold, hold_ok, hold_same, same};
use hart_values::{Address, MasterId};
use std::alloc::{AllocError, Global};
use std::test::Fail;

/// Each fault except `Memory`, with its number and its text.
const FAULTS: &[(LineFault, u8, &str)] = &[
    (
        LineFault::Undetected {
            event: 0,
            leg: Leg::Up,
        },
        1,
        "undetected damage at event 0, up",
    ),
    (
        LineFault::Undetected {
            event: 1,
            leg: Leg::Down,
        },
        1,
        "undetected damage at event 1, down",
    ),
    (
        LineFault::Undetected {
            event: 20,
            leg: Leg::Noise,
        },
        1,
        "undetected damage at event 20, noise",
    ),
    (LineFault::BadLine { number: 1 }, 3, "bad line 1"),
];

#[test]
fn faults_have_numbers_and_texts(rt: HostRuntime) -> Result<(), Fail> {
    for (row, (fault, number, text)) in FAULTS.iter().enumerate() {
        hold_same(&rt, &fault.number(), number, "the number of row", row)?;
        hold_ok(&rt, has_text(rt.alloc(), fault, text), "row", row)?;
    }
    // No allocation can have `usize::MAX` bytes.
    let none = reserved::<u8>(rt.alloc(), usize::MAX).err().ok_or("room")?;
    assert!(rt; none.items() == usize::MAX);
    let fault = LineFault::Memory(none);
    assert!(rt; fault.number() == 2 && has_text(rt.alloc(), &fault, "out of memory")?);
    Ok(())
}

/// Each leg, and its word in a script.
const LEGS: &[(Leg, &str)] = &[(Leg::Up, "up"), (Leg::Down, "down"), (Leg::Noise, "noise")];

#[test]
fn a_leg_is_displayed_by_its_word(rt: HostRuntime) -> Result<(), Fail> {
    for (row, (leg, word)) in LEGS.iter().enumerate() {
        hold_ok(&rt, has_text(rt.alloc(), leg, word), "row", row)?;
    }
    Ok(())
}

/// Whether an address of each kind is read.
fn addresses_are_read() -> Result<bool, Fail> {
    let polling = Address::polling(7)?;
    let unique = Address::unique(0x3F42, 0x0A1B2C)?;
    Ok(read_address(b"@07") == Some(polling) && read_address(b"FF420A1b2c") == Some(unique))
}

#[test]
fn each_word_is_read(rt: HostRuntime) -> Result<(), Fail> {
    assert!(rt; read_who(b"S") == Some(MasterId::Secondary));
    assert!(rt; addresses_are_read()?);
    assert!(rt; read_command(b"255") == Some(255));
    let data = read_data(b"01aB").ok_or("data")?;
    assert!(rt; data.as_slice() == [0x01, 0xAB].as_slice());
    Ok(())
}

/// Texts of scripts, each with a letter for each of its events, or with the number of its first bad line.
const SCRIPTS: &[(&str, Result<&str, usize>)] = &[
    ("", Ok("")),
    ("\r", Ok("")),
    ("\n \t\r\n#\n # submit X\r\r\n#turn\r\n", Ok("")),
    ("submit P @07 0", Ok("S")),
    ("submit P FF420A1B2C 0\r\n", Ok("S")),
    ("submit P @0 1\nturn P ok lost\n", Ok("ST")),
    ("submit P 37420A1B2C 20", Ok("S")),
    (
        "# a reply is lost\nsubmit\tP 37420A1B2C 19 012345\n\nturn P ok lost\r\nturn P ok ok\r",
        Ok("STT"),
    ),
    (
        "protect on\n protect\toff \nnoise FF!40ff\nturn S 82!40B7 FFFF",
        Ok("+-NT"),
    ),
    (" restart\t\r\n#\nrestart", Ok("RR")),
    ("submit P 37420A1B2C 6 4001", Err(1)),
    ("submit P 37420A1B2C 19 0123", Err(1)),
    ("submit P 37420A1B2C 22 0123", Err(1)),
    ("submit P 37420A1B2C 256", Err(1)),
    ("submit P 37420A1B2C 19 012345 00", Err(1)),
    ("submit P @64 0", Err(1)),
    ("submit X @0 0", Err(1)),
    ("submit P @0", Err(1)),
    ("turn P ok", Err(1)),
    ("turn P ok\r lost", Err(1)),
    ("turn P ok FF FF", Err(1)),
    ("turn P OK ok", Err(1)),
    ("noise FF!08", Err(1)),
    ("noise", Err(1)),
    ("noise FF\r\r\n", Err(1)),
    ("noise ok", Err(1)),
    ("protect", Err(1)),
    ("protect on # now", Err(1)),
    ("restart now", Err(1)),
    ("restarted", Err(1)),
    ("protect on\nturn X ok ok", Err(2)),
    ("# one\n\nturn P ok ok ok\nturn\n", Err(3)),
];

/// Returns a letter for each event.
fn letters(alloc: Global, events: &[LineEvent]) -> Result<Vec<u8>, AllocError> {
    let mut letters = Vec::new(alloc);
    for event in events {
        letters.push(match event {
            LineEvent::Submit { .. } => b'S',
            LineEvent::Turn { .. } => b'T',
            LineEvent::Protect(true) => b'+',
            LineEvent::Protect(false) => b'-',
            LineEvent::Noise(_) => b'N',
            LineEvent::Restart => b'R',
        })?;
    }
    Ok(letters)
}

/// Whether a text is read as a script with the events of these letters, or is refused at the first bad line with this number.
fn is_read_as(alloc: Global, text: &[u8], want: Result<&str, usize>) -> Result<bool, Fail> {
    match read_script(alloc, text) {
        Ok(events) => {
            let found = letters(alloc, events.as_slice())?;
            same(&Ok(str::from_utf8(found.as_slice())?), &want)
        }
        Err(fault) => {
            let wanted = want.err().map(|number| LineFault::BadLine { number });
            same(&Some(fault), &wanted)
        }
    }
}

/// Whether a line that submits this command without data is read if the command needs no data, and is refused as a bad line otherwise.
fn is_read_if_asked(alloc: Global, command: u8) -> Result<bool, Fail> {
    let text = format!(in alloc; "submit P 37420A1B2C {command}")?;
    let want = if Request::read(command, &[]).is_ok() {
        Ok("S")
    } else {
        Err(1)
    };
    is_read_as(alloc, text.as_bytes(), want)
}

#[test]
fn scripts_are_read_up_to_a_bad_line(rt: HostRuntime) -> Result<(), Fail> {
    for (row, (text, want)) in SCRIPTS.iter().enumerate() {
        let is_read = is_read_as(rt.alloc(), text.as_bytes(), *want);
        hold_ok(&rt, is_read, "row", row)?;
    }
    for command in 0..=u8::MAX {
        let is_read = is_read_if_asked(rt.alloc(), command);
        hold_ok(&rt, is_read, "Command", usize::from(command))?;
    }
    Ok(())
}

/// Carries events out on a device with the measured values of the bench device. The primary master retries at most `retries` times.
fn carried_out<S: RegisterStore + Drop>(
    alloc: Global,
    device: Device<S>,
    retries: u8,
    events: &[LineEvent],
) -> Result<Result<Report<S>, LineFault>, MasterFault> {
    let primary = Master::new(MasterId::Primary, retries, 33)?;
    let secondary = Master::new(MasterId::Secondary, 3, 41)?;
    let process = bench::process();
    Ok(run(alloc, device, primary, secondary, events, &process))
}

/// Returns a new bench device with a store of this kind.
fn new_device<S: RegisterStore + Drop>() -> Device<S> {
    Device::new(bench::identity(), &bench::register_values())
}

/// Returns the fault of a script on the bench device with a store of this kind.
fn fault_of<S: RegisterStore + Drop>(alloc: Global, script: &str) -> Result<LineFault, Fail> {
    let events = read_script(alloc, script.as_bytes())?;
    let report = carried_out(alloc, new_device::<S>(), 3, events.as_slice())?;
    Ok(report.err().ok_or("a report")?)
}

/// A frame in noise.
const FRAME_IN_NOISE: &str = "noise FFFF0280000083\nprotect on\nnoise FFFF0280000082";

/// The device replies to a garbled request, but the reply to the undamaged request is heard.
const WRITTEN_HEARD: &str = "submit P 37420A1B2C 19 012345\n\
    turn P FFFF82B7420A1B2C13030123453C FFFF86B7420A1B2C130500400123457F";

/// The device replies to a garbled request, but a communication-fault reply with a different fault is heard.
const OTHER_FAULT_HEARD: &str = "submit P 37420A1B2C 19 012345\n\
    turn P FFFF82B7420A1B2C13030123453C FFFF86B7420A1B2C1302C0009F";

/// Like the two scripts above, but in turns without a request in hand.
const WRITTEN_HEARD_UNASKED: &str =
    "turn P FFFF82B7420A1B2C13030123453C FFFF86B7420A1B2C130500400123457F";

const OTHER_FAULT_HEARD_UNASKED: &str =
    "turn P FFFF82B7420A1B2C13030123453C FFFF86B7420A1B2C1302C0009F";

/// A reply other than the device's is heard, with a correct check byte.
const ANOTHER_REPLY: &str = "submit P @0 0\nturn P ok FFFF06800002000084";

/// A request other than the master's is heard, with a correct check byte.
const ANOTHER_REQUEST: &str = "submit P 37420A1B2C 19 012345\n\
    turn P FFFF82B7420A1B2C13030123463E ok";

/// A script, the number of the event at which it stops, and the leg with the undetected damage.
type Stop<'a> = (&'a str, usize, Leg);

const UNDETECTED: &[Stop] = &[
    (ANOTHER_REPLY, 1, Leg::Down),
    (ANOTHER_REQUEST, 1, Leg::Up),
    (FRAME_IN_NOISE, 2, Leg::Noise),
    (WRITTEN_HEARD, 1, Leg::Down),
    (OTHER_FAULT_HEARD, 1, Leg::Down),
    (WRITTEN_HEARD_UNASKED, 0, Leg::Down),
    (OTHER_FAULT_HEARD_UNASKED, 0, Leg::Down),
];

/// Whether a script stops where its row says, on devices with each kind of store.
fn stops(alloc: Global, row: &Stop) -> Result<bool, Fail> {
    let (script, event, leg) = *row;
    let want = LineFault::Undetected { event, leg };
    let by_fields = fault_of::<FieldRegisters>(alloc, script)?;
    let by_image = fault_of::<ImageRegisters>(alloc, script)?;
    Ok(same(&by_fields, &want)? && same(&by_image, &want)?)
}

#[test]
fn undetected_damage_stops_scripts(rt: HostRuntime) -> Result<(), Fail> {
    for (number, row) in UNDETECTED.iter().enumerate() {
        hold_ok(&rt, stops(rt.alloc(), row), "row", number)?;
    }
    Ok(())
}
