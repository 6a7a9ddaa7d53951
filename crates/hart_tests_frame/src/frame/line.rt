//! Tests of the frames that are found in what is heard on the line, and of the places where no frame stands.
use super::*;
use hart_rows::told;

/// Fault bits, and whether a character can have them.
const FAULT_BITS: &[(u8, bool)] = &[
    (0x00, true),
    (0x40, true),
    (0x20, true),
    (0x10, true),
    (0x02, true),
    (0x72, true),
    (0x08, false),
    (0x80, false),
    (0x01, false),
    (0x04, false),
    (0x73, false),
    (0xFF, false),
];

/// Returns the byte and the fault bits of a character, and whether it is faultless.
fn parts_of(character: Char) -> (u8, u8, bool) {
    (
        character.byte(),
        character.faults(),
        character.is_faultless(),
    )
}

#[test]
fn fault_bits_are_four(rt: HostRuntime) -> Result<(), Fail> {
    for (faults, known) in FAULT_BITS {
        let parts = Char::new(0xA5, *faults).map(parts_of);
        let want = (*known).then_some((0xA5, *faults, *faults == 0));
        hold_same(&rt, &parts, &want, "fault bits", usize::from(*faults))?;
    }
    Ok(())
}

/// Two messages, one after the other.
const TWO: &[u16] = &[
    0xFF, 0xFF, 0x02, 0x80, 0x00, 0x00, 0x82, 0xFF, 0xFF, 0x02, 0x00, 0x00, 0x00, 0x02,
];

/// Two messages: the check byte FF of the first message is also the first preamble byte of the second message.
const SHARED: &[u16] = &[
    0xFF, 0xFF, 0x02, 0x80, 0x7D, 0x00, 0xFF, 0xFF, 0x02, 0x00, 0x00, 0x00, 0x02,
];

/// One message.
const ONE: &[u16] = &[0xFF, 0xFF, 0x02, 0x80, 0x00, 0x00, 0x82];

/// The first bytes of a message with 255 bytes of payload; a whole message stands in this payload.
const INSIDE: &[u16] = &[
    0xFF, 0xFF, 0x82, 0xB7, 0x42, 0x0A, 0x1B, 0x2C, 0x13, 0xFF, 0xFF, 0xFF, 0xFF, 0xFF, 0xFF, 0x02,
    0x80, 0x00, 0x00, 0x82,
];

/// Characters, how many of them are heard, the place to search from, and where the first frame starts and stops.
///
/// The high byte of a number is the fault bits of its character. After the characters of a row come faultless characters 00.
type Heard<'a> = (&'a [u16], usize, usize, Option<(usize, usize)>);

const HEARD: &[Heard] = &[
    (&[], 0, 0, None),
    (&[0xFF], 1, 0, None),
    (&[0xFF, 0xFF], 2, 0, None),
    (TWO, 14, 0, Some((2, 7))),
    (TWO, 14, 1, Some((9, 14))),
    (TWO, 14, 7, Some((9, 14))),
    (TWO, 14, 8, None),
    (TWO, 14, 14, None),
    (TWO, 14, 15, None),
    (TWO, 14, usize::MAX - 1, None),
    (TWO, 14, usize::MAX, None),
    (SHARED, 13, 0, Some((2, 7))),
    (SHARED, 13, 6, Some((8, 13))),
    (SHARED, 13, 7, None),
    (ONE, 7, 1, None),
    (ONE, 6, 0, None),
    (INSIDE, 20, 0, Some((15, 20))),
    (INSIDE, 20, 13, Some((15, 20))),
    (INSIDE, 20, 14, None),
    (INSIDE, 265, 0, Some((15, 20))),
    (INSIDE, 266, 0, Some((15, 20))),
    (INSIDE, 300, 20, None),
    (&[0x40FF, 0xFF, 0x02, 0x80, 0x00, 0x00, 0x82], 7, 0, None),
    (&[0xFF, 0x40FF, 0x02, 0x80, 0x00, 0x00, 0x82], 7, 0, None),
    (&[0xFF, 0xFF, 0x2002, 0x80, 0x00, 0x00, 0x82], 7, 0, None),
    (&[0xFF, 0xFF, 0x02, 0x80, 0x00, 0x1000, 0x82], 7, 0, None),
    (&[0xFF, 0xFF, 0x02, 0x80, 0x00, 0x00, 0x0282], 7, 0, None),
    (
        &[0x7200, 0xFF, 0xFF, 0x02, 0x80, 0x00, 0x00, 0x82, 0x4000],
        9,
        0,
        Some((3, 8)),
    ),
];

/// Returns the characters of a row, and then faultless characters 00, 300 in all.
fn heard(row: &[u16]) -> Option<[Char; 300]> {
    let mut chars = [Char::new(0, 0)?; 300];
    write_chars(&mut chars, row)?;
    Some(chars)
}

/// Whether the first frame of a row is found at the place that the row says.
fn is_found((bytes, count, from, want): &Heard) -> Result<bool, Fail> {
    let chars = heard(bytes).ok_or("characters")?;
    let chars = chars.get(..*count).ok_or("at most 300 characters")?;
    let found = first_frame(chars, *from).map(|found| (found.start, found.stop));
    same(&found, want)
}

#[test]
fn the_first_frame_is_found(rt: HostRuntime) -> Result<(), Fail> {
    for (number, row) in HEARD.iter().enumerate() {
        hold_ok(&rt, is_found(row), "row", number)?;
    }
    Ok(())
}

/// Which frames a delivery has.
enum Frames {
    NoFrame,
    Several,
    /// Exactly one frame, with this start and this stop.
    Alone(usize, usize),
}

/// A delivery, and which frames it has.
type Delivery<'a> = (&'a [u16], Frames);

const DELIVERIES: &[Delivery] = &[
    (&[], Frames::NoFrame),
    (ONE, Frames::Alone(2, 7)),
    (TWO, Frames::Several),
    (SHARED, Frames::Alone(2, 7)),
    (INSIDE, Frames::Alone(15, 20)),
];

/// Whether a delivery has these frames.
fn are_frames_of(delivery: &[Char], want: &Frames) -> Result<bool, Fail> {
    let got = lone_frame(delivery);
    let holds = match (&got, want) {
        (LoneFrame::NoFrame, Frames::NoFrame) | (LoneFrame::Several, Frames::Several) => true,
        (LoneFrame::Alone(found), Frames::Alone(start, stop)) => {
            found.start == *start && found.stop == *stop
        }
        _ => false,
    };
    told(holds, &got)
}

/// Whether a delivery has the frames that its row says.
fn has_its_frames((bytes, want): &Delivery) -> Result<bool, Fail> {
    let chars = heard(bytes).ok_or("characters")?;
    let delivery = chars.get(..bytes.len()).ok_or("at most 300 characters")?;
    are_frames_of(delivery, want)
}

#[test]
fn a_lone_frame_is_given(rt: HostRuntime) -> Result<(), Fail> {
    for (row, delivery) in DELIVERIES.iter().enumerate() {
        hold_ok(&rt, has_its_frames(delivery), "row", row)?;
    }
    Ok(())
}

/// The first characters of the longest message. All other characters of the message are 00, even the check byte.
const LONGEST: &[u16] = &[
    0xFF, 0xFF, 0xE2, 0x80, 0x00, 0x00, 0x00, 0x00, 0x9D, 0x00, 0x00, 0x00, 0xFF,
];

/// Characters, how many are heard, a place, and why no frame stands there.
type Missed<'a> = (&'a [u16], usize, usize, Option<Miss>);

const MISSES: &[Missed] = &[
    (&[], 0, 0, None),
    (ONE, 7, 0, None),
    (ONE, 7, 1, None),
    (ONE, 7, 2, None),
    (ONE, 7, 3, None),
    (ONE, 7, 7, None),
    (ONE, 7, 8, None),
    (ONE, 7, usize::MAX, None),
    (ONE, 6, 2, Some(Miss::Missing { count: 1 })),
    (ONE, 5, 2, Some(Miss::EndsBeforeByteCount)),
    (ONE, 3, 2, Some(Miss::EndsBeforeByteCount)),
    (ONE, 2, 2, None),
    (
        &[0xFF, 0xFF, 0x01, 0x80, 0x00, 0x00, 0x81],
        7,
        2,
        Some(Miss::Burst),
    ),
    (&[0xFF, 0xFF, 0xE1], 3, 2, Some(Miss::Burst)),
    (
        &[0xFF, 0xFF, 0x0A, 0x80],
        4,
        2,
        Some(Miss::BadDelimiter { byte: 0x0A }),
    ),
    (
        &[0xFF, 0xFF, 0x09, 0x80],
        4,
        2,
        Some(Miss::BadDelimiter { byte: 0x09 }),
    ),
    (
        &[0xFF, 0xFF, 0x11, 0x80],
        4,
        2,
        Some(Miss::BadDelimiter { byte: 0x11 }),
    ),
    (
        &[0xFF, 0xFF, 0x00, 0x80],
        4,
        2,
        Some(Miss::BadDelimiter { byte: 0x00 }),
    ),
    (
        &[0xFF, 0xFF, 0x0A, 0x4080],
        4,
        2,
        Some(Miss::BadDelimiter { byte: 0x0A }),
    ),
    (
        &[0xFF, 0xFF, 0x62, 0x80, 1, 2, 3, 0x00],
        8,
        2,
        Some(Miss::EndsBeforeByteCount),
    ),
    (
        &[0xFF, 0xFF, 0x06, 0x80, 0x00, 0x01, 0x00, 0x87],
        8,
        2,
        Some(Miss::ShortReply { byte_count: 1 }),
    ),
    (
        &[0xFF, 0xFF, 0x26, 0x80, 0x55, 0x00, 0x00],
        7,
        2,
        Some(Miss::ShortReply { byte_count: 0 }),
    ),
    (
        &[0xFF, 0xFF, 0x06, 0x80, 0x00, 0x01, 0x4000],
        7,
        2,
        Some(Miss::ShortReply { byte_count: 1 }),
    ),
    (
        &[0xFF, 0xFF, 0x06, 0x80, 0x00, 0x02, 0x00],
        7,
        2,
        Some(Miss::Missing { count: 2 }),
    ),
    (
        &[0xFF, 0xFF, 0x02, 0x80, 0x00, 0x00, 0x83],
        7,
        2,
        Some(Miss::BadCheck {
            place: 6,
            byte: 0x83,
            fits: 0x82,
        }),
    ),
    (
        &[
            0x00, 0xFF, 0xFF, 0x82, 0xB7, 0x42, 0x0A, 0x1B, 0x2C, 0x13, 0x03, 0x01, 0x23, 0x45,
            0x3C, 0x3D,
        ],
        16,
        3,
        Some(Miss::BadCheck {
            place: 14,
            byte: 0x3C,
            fits: 0x3D,
        }),
    ),
    (
        &[0xFF, 0x02, 0x80, 0x00, 0x00, 0x82],
        6,
        1,
        Some(Miss::OnePreamble),
    ),
    (
        &[0x55, 0xFF, 0x02, 0x80, 0x00, 0x00, 0x82],
        7,
        2,
        Some(Miss::OnePreamble),
    ),
    (
        &[0x40FF, 0xFF, 0x02, 0x80, 0x00, 0x00, 0x82],
        7,
        2,
        Some(Miss::OnePreamble),
    ),
    (&[0xFF, 0x02, 0x80, 0x00, 0x00, 0x83], 6, 1, None),
    (&[0x40FF, 0x02, 0x80, 0x00, 0x00, 0x82], 6, 1, None),
    (&[0x02, 0x80, 0x00, 0x00, 0x82], 5, 0, None),
    (
        &[0xFF, 0xFF, 0xFF, 0x02, 0x80, 0x00, 0x00, 0x83],
        8,
        2,
        None,
    ),
    (
        &[0xFF, 0xFF, 0x40FF],
        3,
        2,
        Some(Miss::Faulty {
            place: 2,
            faults: 0x40,
        }),
    ),
    (
        &[0xFF, 0xFF, 0x2002, 0x80, 0x00, 0x00, 0x82],
        7,
        2,
        Some(Miss::Faulty {
            place: 2,
            faults: 0x20,
        }),
    ),
    (
        &[0xFF, 0xFF, 0x02, 0x80, 0x00, 0x1000, 0x82],
        7,
        2,
        Some(Miss::Faulty {
            place: 5,
            faults: 0x10,
        }),
    ),
    (
        &[0xFF, 0xFF, 0x02, 0x80, 0x00, 0x00, 0x0282],
        7,
        2,
        Some(Miss::Faulty {
            place: 6,
            faults: 0x02,
        }),
    ),
    (
        &[0xFF, 0xFF, 0x02, 0x80, 0x00, 0x00, 0x82, 0x4000],
        8,
        2,
        None,
    ),
    (LONGEST, 12, 2, Some(Miss::EndsBeforeByteCount)),
    (LONGEST, 13, 2, Some(Miss::Missing { count: 256 })),
    (LONGEST, 268, 2, Some(Miss::Missing { count: 1 })),
    (LONGEST, 269, 2, None),
    (
        &[
            0xFF, 0xFF, 0xE2, 0x80, 0x00, 0x00, 0x00, 0x00, 0x00, 0x00, 0x00, 0x00, 0xFF,
        ],
        300,
        2,
        Some(Miss::BadCheck {
            place: 268,
            byte: 0x00,
            fits: 0x9D,
        }),
    ),
];

/// Whether `why_none` returns the reason that a row has for its place.
fn has_its_reason((bytes, count, start, want): &Missed) -> Result<bool, Fail> {
    let chars = heard(bytes).ok_or("characters")?;
    let chars = chars.get(..*count).ok_or("at most 300 characters")?;
    same(&why_none(chars, *start), want)
}

#[test]
fn no_frame_has_its_reason(rt: HostRuntime) -> Result<(), Fail> {
    for (row, missed) in MISSES.iter().enumerate() {
        hold_ok(&rt, has_its_reason(missed), "row", row)?;
    }
    Ok(())
}
