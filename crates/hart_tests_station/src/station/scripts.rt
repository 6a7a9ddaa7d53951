//! Scripts that `simulate` carries out.

use super::images::{CHANGED, COUNTED_TO_THE_END};
use hart_calls::{After, Call, NONE, Row, does_as, hold_rows};
use hart_rows::hold_ok;
use hart_rows::scripts::*;
use std::alloc::{AllocError, Global};
use std::test::Fail;

/// A script, and the image of its device. Without an image the device is new. Then the lines that `simulate` writes for the sent messages
/// and for the outcomes of the submissions, and the state of the device at the end.
struct Script<'a> {
    image: Option<&'a str>,
    script: &'a str,
    lines: &'a str,
    polling: &'a str,
    assembly: &'a str,
    counter: u16,
    flags: &'a str,
}

/// The empty script, which changes nothing.
const NOTHING: Script = Script {
    image: None,
    script: "",
    lines: "",
    polling: "00",
    assembly: "000000",
    counter: 0,
    flags: "00",
};

/// The state after a single write of 012345.
const WROTE: Script = Script {
    assembly: "012345",
    counter: 1,
    flags: "03",
    ..NOTHING
};

/// The message, tag and descriptor of a new device in packed text.
const SPACES: &str =
    "820820820820820820820820820820820820820820820820820820820820820820820820820820820820";

/// The long tag of a new device.
const LONG_TAG: &str = "2020202020202020202020202020202020202020202020202020202020202020";

/// Returns the text that `simulate` writes for a script.
fn written(alloc: Global, row: &Script) -> Result<String, AllocError> {
    let Script {
        lines,
        polling,
        assembly,
        counter,
        flags,
        ..
    } = row;
    format!(in alloc;
        "{lines}counter {counter}\nimage 02{polling}01{SPACES}000000{assembly}{LONG_TAG}{counter:04X}{flags}\n"
    )
}

const SCRIPTS: &[Script] = &[
    NOTHING,
    Script {
        script: "turn P ok ok",
        ..NOTHING
    },
    Script {
        script: REPLY_LOST,
        lines: "\
P 20 82B7420A1B2C13030123453D\n\
D 5 86B7420A1B2C130500400123457F\n\
P 20 82B7420A1B2C13030123453D\n\
D 5 86B7420A1B2C130500400123457F\n\
1 answered 2 00 40 012345\n",
        counter: 2,
        ..WROTE
    },
    Script {
        script: TWO_MASTERS,
        lines: "\
P 20 82B7420A1B2C13030123453D\n\
D 5 86B7420A1B2C130500400123457F\n\
S 20 8237420A1B2C13030A0B0CD7\n\
D 5 8637420A1B2C130500400A0B0C95\n\
P 20 82B7420A1B2C13030123453D\n\
D 5 86B7420A1B2C130500400123457F\n\
1 answered 2 00 40 012345\n\
2 answered 1 00 40 0A0B0C\n",
        counter: 3,
        ..WROTE
    },
    Script {
        script: PROTECTED_MEANWHILE,
        lines: "\
P 20 82B7420A1B2C13030123453D\n\
D 5 86B7420A1B2C130500400123457F\n\
S 20 8237420A1B2C13030A0B0CD7\n\
D 5 8637420A1B2C130500400A0B0C95\n\
P 20 82B7420A1B2C13030123453D\n\
D 5 86B7420A1B2C1302074018\n\
1 answered 2 07 40 -\n\
2 answered 1 00 40 0A0B0C\n",
        assembly: "0A0B0C",
        counter: 2,
        flags: "07",
        ..NOTHING
    },
    Script {
        image: Some(CHANGED),
        script: RESET_OVERTAKEN,
        lines: "\
P 20 82B7420A1B2C260200016F\n\
D 5 86B7420A1B2C2604000000016D\n\
S 20 8237420A1B2C13030A0B0CD7\n\
D 5 8637420A1B2C130500400A0B0C95\n\
P 20 82B7420A1B2C260200016F\n\
D 5 86B7420A1B2C2602094023\n\
1 answered 2 09 40 -\n\
2 answered 1 00 40 0A0B0C\n",
        assembly: "0A0B0C",
        counter: 2,
        flags: "03",
        ..NOTHING
    },
    Script {
        script: ADDRESS_MOVES,
        lines: "\
P 20 0280000082\n\
D 5 068000180000FE37420507010218000A1B2C0504000000003700370131\n\
S 20 8237420A1B2C06020501CA\n\
D 5 8637420A1B2C06040040050188\n\
P 20 0280000082\n\
1 unfinished 2\n\
2 answered 1 00 40 0501\n",
        polling: "05",
        counter: 1,
        flags: "03",
        ..NOTHING
    },
    Script {
        image: Some(COUNTED_TO_THE_END),
        script: WRITTEN,
        lines: "\
P 20 82B7420A1B2C13030123453D\n\
D 5 86B7420A1B2C130500400123457F\n\
1 answered 1 00 40 012345\n",
        counter: 0,
        ..WROTE
    },
    Script {
        script: REQUESTS_LOST,
        lines: "\
P 20 82B7420A1B2C13030123453D\n\
P 20 82B7420A1B2C13030123453D\n\
P 20 82B7420A1B2C13030123453D\n\
P 20 82B7420A1B2C13030123453D\n\
1 noreply 4\n",
        ..NOTHING
    },
    Script {
        script: REFUSED,
        lines: "1 refused 3\n2 unfinished 0\n3 refused 2\n",
        ..NOTHING
    },
    Script {
        script: "submit P @0 1",
        lines: "1 refused 3\n",
        ..NOTHING
    },
];

/// Scripts of damaged messages, of Command 38 with a counter value, and of a restart.
const DAMAGED: &[Script] = &[
    Script {
        script: "submit P 37420A1B2C 19 012345\nturn P FFFF82!40B7420A1B2C13030123453D ok\nturn P ok ok",
        lines: "\
P 20 82B7420A1B2C13030123453D\n\
P 20 82B7420A1B2C13030123453D\n\
D 5 86B7420A1B2C130500400123457F\n\
1 answered 2 00 40 012345\n",
        ..WROTE
    },
    Script {
        script: "submit P 37420A1B2C 19 012345\nturn P ok FFFF86B7420A1B2C130500400123457E\nturn P ok ok",
        lines: "\
P 20 82B7420A1B2C13030123453D\n\
D 5 86B7420A1B2C130500400123457F\n\
P 20 82B7420A1B2C13030123453D\n\
D 5 86B7420A1B2C130500400123457F\n\
1 answered 2 00 40 012345\n",
        counter: 2,
        ..WROTE
    },
    Script {
        script: "submit P 37420A1B2C 19 012345\nturn P ok ok\nsubmit P 37420A1B2C 38 0001\nturn P ok ok",
        lines: "\
P 20 82B7420A1B2C13030123453D\n\
D 5 86B7420A1B2C130500400123457F\n\
P 20 82B7420A1B2C260200016F\n\
D 5 86B7420A1B2C2604000000016D\n\
1 answered 1 00 40 012345\n\
2 answered 1 00 00 0001\n",
        flags: "02",
        ..WROTE
    },
    Script {
        script: CHECK_REPLACED,
        lines: "\
P 20 82B7420A1B2C13030123453D\n\
D 5 86B7420A1B2C13028800D7\n\
P 20 82B7420A1B2C13030123453D\n\
D 5 86B7420A1B2C130500400123457F\n\
1 answered 2 00 40 012345\n",
        ..WROTE
    },
    Script {
        script: GARBLED_NOISE,
        lines: "D 5 86B7420A1B2C13028800D7\n",
        ..NOTHING
    },
    Script {
        script: RESTART_SHOWN,
        lines: "\
P 20 82B7420A1B2C13030123453D\n\
D 5 86B7420A1B2C130500600123455F\n\
P 20 82B7420A1B2C07004D\n\
D 5 86B7420A1B2C0704004000010C\n\
S 20 8237420A1B2C0700CD\n\
D 5 8637420A1B2C070400600001AC\n\
1 answered 1 00 60 012345\n\
2 answered 1 00 40 0001\n\
3 answered 1 00 60 0001\n",
        ..WROTE
    },
];

/// Scripts that end with a fault. In one of these scripts, a frame stands inside a message.
const REFUSED_SCRIPTS: &[Row] = &[
    (
        "submit P @0 0\nturn P ok FFFF06800002000084",
        "",
        (5, "undetected damage at event 1, down"),
    ),
    (
        "submit P 37420A1B2C 19 012345\nturn P FFFF82B7420A1B2C13030123463E ok",
        "",
        (5, "undetected damage at event 1, up"),
    ),
    (
        "turn P FFFF0280000082 ok",
        "",
        (5, "undetected damage at event 0, up"),
    ),
    (
        "submit P 37420A1B2C 17 FFFF02800000820000000000000000000000000000000000\n\
        turn P FFFF82!40B7420A1B2C1118FFFF0280000082000000000000000000000000000000000043 ok",
        "",
        (5, "undetected damage at event 1, up"),
    ),
    (
        "noise FFFF0280000082",
        "",
        (5, "undetected damage at event 0, noise"),
    ),
    ("protect on\nturn X ok ok", "", (5, "bad line 2")),
];

/// Whether `simulate` writes the text of a row for its script.
fn is_carried_out(rt: &impl Eprint, alloc: Global, row: &Script) -> Result<bool, Fail> {
    let text = written(alloc, row)?;
    let call = Call::Simulate(row.image);
    does_as(
        rt,
        alloc,
        call,
        (row.script, text.as_str(), NONE),
        After::End,
    )
}

#[test]
fn scripts_are_carried_out(rt: HostRuntime) -> Result<(), Fail> {
    let alloc = rt.alloc();
    for (number, row) in SCRIPTS.iter().enumerate() {
        hold_ok(&rt, is_carried_out(&rt, alloc, row), "row", number)?;
    }
    for (number, row) in DAMAGED.iter().enumerate() {
        hold_ok(&rt, is_carried_out(&rt, alloc, row), "damaged row", number)?;
    }
    hold_rows(
        &rt,
        alloc,
        Call::Simulate(None),
        After::End,
        "refused row",
        REFUSED_SCRIPTS,
    )?;
    Ok(())
}
