//! Scripts of many kinds and lengths. All of these scripts are carried out if there is enough memory.
use super::*;
use hart_commands::Request;
use hart_device::FieldRegisters;
use hart_rows::text_of;
use std::process::Abort;

/// Zeros, enough for the data of any command.
const ZEROS: &[u8] = &[0; 80];

/// Commands with more data than they need.
const LONGER: &[&str] = &["6 0501", "9 0001020304F4F5F6", "38 0001"];

/// What is heard in the two legs of a turn: each of three cases for the leg up with each of three cases for the leg down.
const LEGS: &[&str] = &[
    "ok ok",
    "ok lost",
    "ok 00FF!40",
    "lost ok",
    "lost lost",
    "lost 00FF!40",
    "FF00!10 ok",
    "FF00!10 lost",
    "FF00!10 00FF!40",
];

/// The master of a turn, and what was submitted to the other master before this turn.
const MASTERS: &[(&str, &str)] = &[
    ("P", ""),
    ("S", ""),
    ("P", "submit S 37420A1B2C 0\n"),
    ("S", "submit P 37420A1B2C 0\n"),
];

/// A text that grows because one part is repeated.
struct Growing<'a> {
    prefix: &'a str,
    part: &'a str,
    suffix: &'a str,
    /// How often the part stands in the text.
    times: &'a [usize],
    /// How many outcomes and spoken frames each part leads to.
    outcomes: usize,
    spoken: usize,
}

/// Numbers near the sizes at which lists and counts may grow, and other numbers.
const TIMES: &[usize] = &[0, 1, 9, 10, 63, 64, 65, 255, 256, 257, 300, 2500];

const GROWING: &[Growing] = &[
    Growing {
        prefix: "",
        part: "submit P 37420A1B2C 0\nturn P ok ok\n",
        suffix: "",
        times: TIMES,
        outcomes: 1,
        spoken: 2,
    },
    Growing {
        prefix: "",
        part: "submit S 37420A1B2C 0\n",
        suffix: "",
        times: TIMES,
        outcomes: 1,
        spoken: 0,
    },
    Growing {
        prefix: "",
        part: "# no event\n",
        suffix: "protect on\n",
        times: &[255, 256, 257],
        outcomes: 0,
        spoken: 0,
    },
    Growing {
        prefix: "noise ",
        part: "00",
        suffix: "\n",
        times: &[1, 24, 25, 255, 256, 257, 1000, 1001, 4096],
        outcomes: 0,
        spoken: 0,
    },
    Growing {
        prefix: "",
        part: "noise FFFF82B7420A1B2C13030123453C\n",
        suffix: "",
        times: TIMES,
        outcomes: 0,
        spoken: 1,
    },
    Growing {
        prefix: "turn P lost ",
        part: "FF!40",
        suffix: "\n",
        times: &[1, 255, 256, 257, 4096],
        outcomes: 0,
        spoken: 0,
    },
];

/// Returns how many outcomes and how many spoken frames a script leads to.
fn lens_of(alloc: Global, script: &str) -> Result<(usize, usize), Fail> {
    let events = read_script(alloc, script.as_bytes())?;
    let device = new_device::<FieldRegisters>();
    let report = carried_out(alloc, device, 3, events.as_slice())??;
    Ok((
        report.outcomes.as_slice().len(),
        report.spoken.as_slice().len(),
    ))
}

/// Gives a master `times` turns after some submissions. Returns whether there are `submissions` outcomes, one for each submission.
fn have_outcomes(
    alloc: Global,
    submitted: &str,
    turn: &str,
    times: usize,
    submissions: usize,
) -> Result<bool, Fail> {
    let script = text_of(alloc, submitted, turn, times, "")?;
    let (outcomes, _spoken) = lens_of(alloc, script.as_str())?;
    Ok(outcomes == submissions)
}

/// Gives a master one to four turns after some submissions. Fails the test unless there is one outcome for each submission.
fn take_turns(
    rt: &impl Abort,
    alloc: Global,
    submitted: &str,
    turn: &str,
    submissions: usize,
) -> Result<(), Fail> {
    for times in 1..=4 {
        let have = have_outcomes(alloc, submitted, turn, times, submissions)?;
        assert!(rt; have, "{times} times {turn} after {submitted}");
    }
    Ok(())
}

/// Submits a command to a master, which has one to four turns to send it.
fn send_often(
    rt: &impl Abort,
    alloc: Global,
    command: &str,
    legs: &str,
    (who, before): (&str, &str),
) -> Result<(), Fail> {
    let submissions = if before.is_empty() { 1 } else { 2 };
    let submitted = format!(in alloc; "{before}submit {who} 37420A1B2C {command}\n")?;
    let turn = format!(in alloc; "turn {who} {legs}\n")?;
    take_turns(rt, alloc, submitted.as_str(), turn.as_str(), submissions)
}

/// Submits a command to each master, while the other master has a request in hand and while it has none.
fn send_by_each(rt: &impl Abort, alloc: Global, command: &str, legs: &str) -> Result<(), Fail> {
    for master in MASTERS {
        send_often(rt, alloc, command, legs, *master)?;
    }
    Ok(())
}

/// Whether a script with `times` copies of the growing part is carried out in full.
fn is_carried_out(alloc: Global, growing: &Growing, times: usize) -> Result<bool, Fail> {
    let text = text_of(alloc, growing.prefix, growing.part, times, growing.suffix)?;
    let (outcomes, spoken) = lens_of(alloc, text.as_str())?;
    Ok(
        same(&outcomes, &times.saturating_mul(growing.outcomes))?
            && same(&spoken, &times.saturating_mul(growing.spoken))?,
    )
}

/// Lets a text grow, and fails the test unless the text is carried out in full at each length.
fn grow(rt: &impl Eprint, alloc: Global, growing: &Growing) -> Result<(), Fail> {
    for times in growing.times {
        let holds = is_carried_out(alloc, growing, *times);
        hold_ok(rt, holds, growing.part, *times)?;
    }
    Ok(())
}

/// Submits a command to each master, once for each row of `LEGS`. The row says what is heard in the turns of the master.
fn send_on_each_leg(rt: &impl Abort, alloc: Global, command: &str) -> Result<(), Fail> {
    for legs in LEGS {
        send_by_each(rt, alloc, command, *legs)?;
    }
    Ok(())
}

/// Whether a command with `len` zeros as its data is a request.
fn ask(command: u8, len: usize) -> bool {
    match ZEROS.get(..len) {
        Some(data) => Request::read(command, data).is_ok(),
        None => false,
    }
}

/// Returns how many zeros a command needs to be a request, if the command is known. With one zero less it is no request.
fn needed(command: u8) -> Option<usize> {
    for len in 0..=ZEROS.len() {
        if ask(command, len) && (len == 0 || !ask(command, len - 1)) {
            return Some(len);
        }
    }
    None
}

/// Returns the words of a command with `len` zeros as its data.
fn words_of(alloc: Global, command: u8, len: usize) -> Result<String, AllocError> {
    let space = if len == 0 { "" } else { " " };
    let prefix = format!(in alloc; "{command}{space}")?;
    text_of(alloc, prefix.as_str(), "00", len, "")
}

#[test]
fn every_command_has_room(rt: HostRuntime) -> Result<(), Fail> {
    let mut known = 0usize;
    for command in 0..=255u8 {
        if let Some(len) = needed(command) {
            let words = words_of(rt.alloc(), command, len)?;
            send_on_each_leg(&rt, rt.alloc(), words.as_str())?;
            known = known.saturating_add(1);
        }
    }
    for command in LONGER {
        send_on_each_leg(&rt, rt.alloc(), *command)?;
    }
    assert!(rt; 20 < known, "{known} commands");
    Ok(())
}

/// Further numbers of items, which no script above needs. `reserved` must find memory for each number.
const ROOMS: &[usize] = &[1, 31, 7_777, 1_048_577];

#[test]
fn every_length_has_room(rt: HostRuntime) -> Result<(), Fail> {
    for growing in GROWING {
        grow(&rt, rt.alloc(), growing)?;
    }
    for room in ROOMS {
        let is_reserved = reserved::<u64>(rt.alloc(), *room).is_ok();
        hold(is_reserved, "room", *room)?;
    }
    Ok(())
}
