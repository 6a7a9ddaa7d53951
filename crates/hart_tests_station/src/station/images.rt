//! Tests of calls with an image.

use hart_calls::{After, Call, EMPTY, Fault, Given, NONE, Row, Wanted, does, hold_rows};
use hart_rows::hold_ok;
use std::alloc::Global;
use std::test::Fail;

/// Images of version 1. Each device differs from a new device in one way. The first is write protected. The second has the tag PUMP-101.
/// The third has had a configuration change that both masters must still learn of. The last has the greatest counter.
const PROTECTED: &str = "010001\
    820820820820820820820820820820820820820820820820820820820820820820820820820820820820\
    000000000000000004";

const TAGGED: &str = "010001\
    820820820820820820820820820820820820820820820820415350B71C31820820820820820820820820\
    000000000000000000";

pub const CHANGED: &str = "010001\
    820820820820820820820820820820820820820820820820820820820820820820820820820820820820\
    000000000000000103";

pub const COUNTED_TO_THE_END: &str = "010001\
    820820820820820820820820820820820820820820820820820820820820820820820820820820820820\
    000000000000FFFF00";

/// An image of version 1 of a new device, with flags that do not exist.
const BAD_FLAGS: &str = "010001\
    820820820820820820820820820820820820820820820820820820820820820820820820820820820820\
    000000000000000008";

/// Requests to a device that is write protected.
const TO_PROTECTED: &[Row] = &[
    (
        "FF FF FF FF FF 82 B7 42 0A 1B 2C 13 03 01 23 45 3D",
        "FF FF FF FF FF 86 B7 42 0A 1B 2C 13 02 07 00 58\n",
        NONE,
    ),
    (
        "FF FF FF FF FF 82 B7 42 0A 1B 2C 12 15 41 53 50 B7 1C 31 82 08 20 82 08 20 82 08 20 82 08 20 1D 02 00 8A",
        "FF FF FF FF FF 86 B7 42 0A 1B 2C 12 02 07 00 59\n",
        NONE,
    ),
];

/// A request to the device with the tag PUMP-101.
const TO_TAGGED: &[Row] = &[(
    "FF FF 82 80 00 00 00 00 0B 06 41 53 50 B7 1C 31 D7",
    "FF FF FF FF FF 86 80 00 00 00 00 0B 18 00 00 FE 37 42 05 07 01 02 18 00 0A 1B 2C 05 04 00 00 00 00 37 00 37 01 BA\n",
    NONE,
)];

/// The empty script, and its text for a device that starts from an image of version 1. The text of the tag becomes the long tag.
const MIGRATED: &[Row] = &[(
    "",
    "counter 0\nimage 020001\
    820820820820820820820820820820820820820820820820415350B71C31820820820820820820820820\
    00000000000050554D502D313031202020202020202020202020202020202020202020202020000000\n",
    NONE,
)];

#[test]
fn devices_go_on_from_their_images(rt: HostRuntime) -> Result<(), Fail> {
    let alloc = rt.alloc();
    let protected = Call::Answer(Some(PROTECTED));
    hold_rows(
        &rt,
        alloc,
        protected,
        After::End,
        "protected row",
        TO_PROTECTED,
    )?;
    let tagged = Call::Answer(Some(TAGGED));
    hold_rows(&rt, alloc, tagged, After::End, "tagged row", TO_TAGGED)?;
    let migrated = Call::Simulate(Some(TAGGED));
    hold_rows(&rt, alloc, migrated, After::End, "migrated row", MIGRATED)?;
    Ok(())
}

/// Words that are no image, and their faults.
const BAD_IMAGES: &[(&str, Fault)] = &[
    ("", (6, "bad image: length")),
    ("01", (6, "bad image: length")),
    ("02", (6, "bad image: length")),
    ("03", (6, "bad image: version")),
    (BAD_FLAGS, (6, "bad image: field")),
    ("0", (4, "bad hex at 1")),
    ("0G", (4, "bad hex at 1")),
    ("\u{e9}", (4, "bad hex at 0")),
];

/// Whether a call with a bad image reports the fault of the image before the call reads anything. The input is bad too.
fn is_named(rt: &impl Eprint, alloc: Global, call: Call, fault: Fault) -> Result<bool, Fail> {
    let given = Given {
        input: "!",
        ..EMPTY
    };
    let wanted = Wanted {
        fault,
        text: "",
        reads: Some(0),
        writes: Some(0),
    };
    does(rt, alloc, call, &given, &wanted)
}

#[test]
fn a_bad_image_is_named_before_anything_is_read(rt: HostRuntime) -> Result<(), Fail> {
    for (row, (image, fault)) in BAD_IMAGES.iter().enumerate() {
        let answered = is_named(&rt, rt.alloc(), Call::Answer(Some(image)), *fault);
        hold_ok(&rt, answered, "row", row)?;
        let simulated = is_named(&rt, rt.alloc(), Call::Simulate(Some(image)), *fault);
        hold_ok(&rt, simulated, "script row", row)?;
    }
    Ok(())
}
