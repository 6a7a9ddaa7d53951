mod header;
mod line;
mod sighting;
pub mod stream;

use crate::chars::write_chars;
use hart_frame::*;
use hart_rows::{exclusive_or, has_text, hold_ok, hold_same, same, same_bytes};
use hart_values::{Address, MasterId};
use std::test::Fail;

/// A frame of the primary master with Command 0: the length of its body, its kind, its address bytes, its expansion bytes and its payload.
type Read<'a> = (usize, FrameKind, &'a [u8], &'a [u8], &'a [u8]);

/// Bytes that begin with a body, with one more byte after it, and the frame in them.
const BODIES: &[(&[u8], Read)] = &[
    (
        &[0x02, 0x80, 0x00, 0x00, 0x82, 0x55],
        (5, FrameKind::Stx, &[0x80], &[], &[]),
    ),
    (
        &[0x06, 0x80, 0x00, 0x02, 0x00, 0x00, 0x84, 0x55],
        (7, FrameKind::Ack, &[0x80], &[], &[0, 0]),
    ),
    (
        &[0x82, 0xB7, 0x42, 0x0A, 0x1B, 0x2C, 0x00, 0x00, 0x4A, 0x55],
        (9, FrameKind::Stx, UNIQUE, &[], &[]),
    ),
    (
        &[0x22, 0x80, 0x55, 0x00, 0x00, 0xF7, 0x55],
        (6, FrameKind::Stx, &[0x80], &[0x55], &[]),
    ),
    (
        &[0x42, 0x80, 0x55, 0xAA, 0x00, 0x00, 0x3D, 0x55],
        (7, FrameKind::Stx, &[0x80], &[0x55, 0xAA], &[]),
    ),
    (
        &[0x62, 0x80, 1, 2, 3, 0x00, 0x01, 0x07, 0xE4, 0x55],
        (9, FrameKind::Stx, &[0x80], &[1, 2, 3], &[7]),
    ),
    (
        &[
            0xA6, 0xB7, 0x42, 0x0A, 0x1B, 0x2C, 0x55, 0x00, 0x02, 0x00, 0x00, 0x39, 0x55,
        ],
        (12, FrameKind::Ack, UNIQUE, &[0x55], &[0, 0]),
    ),
];

/// The address bytes of a device, from the primary master.
const UNIQUE: &[u8] = &[0xB7, 0x42, 0x0A, 0x1B, 0x2C];

/// Whether a frame has these parts, and its body this length.
fn is_read_as(frame: &Frame, read: &Read) -> Result<bool, Fail> {
    let (len, kind, address, expansion, payload) = read;
    let address_bytes = frame.address().bytes(frame.master(), frame.burst());
    Ok(
        same(&frame.body().as_slice().len(), len)?
            && same(&frame.kind(), kind)?
            && same(&frame.master(), &MasterId::Primary)?
            && same(&frame.burst(), &false)?
            && same_bytes(address_bytes.as_slice(), address)?
            && same_bytes(frame.expansion(), expansion)?
            && same(&frame.command(), &0)?
            && same_bytes(frame.payload(), payload)?,
    )
}

/// Whether bytes begin with the body of a frame that has these parts.
fn begin_with(bytes: &[u8], read: &Read) -> Result<bool, Fail> {
    let (frame, len) = decode(bytes)?;
    let body = bytes.get(..len).ok_or("too long")?;
    Ok(
        same(&len, &read.0)?
            && is_read_as(&frame, read)?
            && same_bytes(frame.body().as_slice(), body)?,
    )
}

#[test]
fn bodies_are_read(rt: HostRuntime) -> Result<(), Fail> {
    for (row, (bytes, read)) in BODIES.iter().enumerate() {
        hold_ok(&rt, begin_with(bytes, read), "row", row)?;
    }
    Ok(())
}

const REFUSED: &[(&[u8], FrameFault)] = &[
    (&[], FrameFault::Truncated),
    (&[0x02], FrameFault::Truncated),
    (&[0x02, 0x80, 0x00], FrameFault::Truncated),
    (&[0x02, 0x80, 0x00, 0x00], FrameFault::Truncated),
    (&[0x06, 0x80, 0x00, 0x02, 0x00, 0x00], FrameFault::Truncated),
    (
        &[0x82, 0xB7, 0x42, 0x0A, 0x1B, 0x2C, 0x00],
        FrameFault::Truncated,
    ),
    (&[0x62, 0x80, 0x01, 0x02, 0x03, 0x00], FrameFault::Truncated),
    (&[0x00, 0x80, 0x00, 0x00, 0x80], FrameFault::BadDelimiter),
    (&[0x01, 0x80, 0x00, 0x00, 0x81], FrameFault::BadDelimiter),
    (&[0x07, 0x80, 0x00, 0x00, 0x87], FrameFault::BadDelimiter),
    (&[0x0A, 0x80, 0x00, 0x00, 0x8A], FrameFault::BadDelimiter),
    (&[0x12, 0x80, 0x00, 0x00, 0x92], FrameFault::BadDelimiter),
    (&[0x1E], FrameFault::BadDelimiter),
    (&[0xFF, 0x02, 0x80], FrameFault::BadDelimiter),
    (
        &[0x06, 0x80, 0x00, 0x01, 0x00, 0x87],
        FrameFault::ShortReply,
    ),
    (&[0x06, 0x80, 0x00, 0x01], FrameFault::ShortReply),
    (&[0x26, 0x80, 0x55, 0x00, 0x00], FrameFault::ShortReply),
    (&[0x02, 0x80, 0x00, 0x00, 0x83], FrameFault::BadCheck),
    (&[0x22, 0x80, 0x55, 0x00, 0x00, 0xA2], FrameFault::BadCheck),
];

#[test]
fn bodies_are_refused(rt: HostRuntime) -> Result<(), Fail> {
    for (row, (bytes, want)) in REFUSED.iter().enumerate() {
        hold_same(&rt, &decode(bytes).err(), &Some(*want), "row", row)?;
    }
    Ok(())
}

/// The message of a request with five preamble bytes: Command 19 with the final assembly number 01 23 45.
const REQUEST: &[u8] = &[
    0xFF, 0xFF, 0xFF, 0xFF, 0xFF, 0x82, 0xB7, 0x42, 0x0A, 0x1B, 0x2C, 0x13, 0x03, 0x01, 0x23, 0x45,
    0x3D,
];

/// The message of the reply to that request.
const REPLY: &[u8] = &[
    0xFF, 0xFF, 0xFF, 0xFF, 0xFF, 0x86, 0xB7, 0x42, 0x0A, 0x1B, 0x2C, 0x13, 0x05, 0x00, 0x40, 0x01,
    0x23, 0x45, 0x7F,
];

/// Whether `encode` writes this message over `output`, and leaves `output` unchanged if there are too few or too many preamble bytes.
fn is_written_as(frame: &Frame, want: &[u8], output: &mut Message) -> Result<bool, Fail> {
    encode(frame, 5, output)?;
    let is_written = output.as_slice() == want;
    let too_few = encode(frame, 4, output) == Err(FrameFault::BadPreamble);
    let too_many = encode(frame, 21, output) == Err(FrameFault::BadPreamble);
    Ok(is_written && too_few && too_many && output.as_slice() == want)
}

#[test]
fn requests_and_replies_are_written(rt: HostRuntime) -> Result<(), Fail> {
    let address = Address::unique(0x3742, 0x0A1B2C)?;
    let assembly = Payload::from_slice(&[0x01, 0x23, 0x45]).ok_or("three bytes")?;
    let request = Frame::request(MasterId::Primary, address, 19, assembly);
    let mut output = Message::from_slice(&[1, 2, 3]).ok_or("three bytes")?;
    assert!(rt; is_written_as(&request, REQUEST, &mut output)?);
    let payload = Payload::from_slice(&[0x00, 0x40, 0x01, 0x23, 0x45]).ok_or("five bytes")?;
    assert!(rt; is_written_as(&request.reply(payload), REPLY, &mut output)?);
    Ok(())
}

#[test]
fn a_reply_has_two_bytes_of_payload(rt: HostRuntime) -> Result<(), Fail> {
    let one_byte = Payload::from_slice(&[0]).ok_or("one byte")?;
    let too_short = Frame::new(
        FrameKind::Ack,
        MasterId::Primary,
        false,
        Address::polling(0)?,
        Expansion::new(),
        0,
        one_byte,
    );
    assert!(rt; too_short.err() == Some(FrameFault::TooShortReply));
    Ok(())
}

/// The bytes of the longest body before its payload of 255 zeros. The body has expansion bytes and the broadcast address.
const LONGEST_HEADER: &[u8] = &[
    0xE2, 0x80, 0x00, 0x00, 0x00, 0x00, 0x00, 0x00, 0x00, 0x00, 0xFF,
];

/// Returns the longest message: 20 preamble bytes, then the longest body, which ends with its check byte.
fn longest_message() -> [u8; 287] {
    let mut message = [0; 287];
    message[..20].fill(0xFF);
    message[20..31].copy_from_slice(LONGEST_HEADER);
    message[286] = 0x9D;
    message
}

#[test]
fn the_longest_message_has_287_bytes(rt: HostRuntime) -> Result<(), Fail> {
    let longest = Frame::new(
        FrameKind::Stx,
        MasterId::Primary,
        false,
        Address::unique(0, 0)?,
        Expansion::from_slice(&[0, 0, 0]).ok_or("three bytes")?,
        0,
        Payload::from_slice(&[0; 255]).ok_or("255 bytes")?,
    )?;
    let mut output = Message::new();
    encode(&longest, 20, &mut output)?;
    let want = longest_message();
    assert!(rt; output.as_slice() == want.as_slice());
    let (read, len) = decode(&want[20..])?;
    assert!(rt; read == longest && len == 267);
    Ok(())
}

/// The lengths that are tried. Most lengths are multiples of 16, or one more or less.
const CHECKED_LENGTHS: &[usize] = &[
    0,
    1,
    15,
    16,
    17,
    31,
    32,
    33,
    47,
    48,
    49,
    63,
    64,
    65,
    255,
    267,
    MOST_CHECKED,
];

const MOST_CHECKED: usize = 1000;

/// Returns bytes with many different values.
fn checked_bytes() -> [u8; MOST_CHECKED] {
    let mut bytes = [0; MOST_CHECKED];
    for (place, byte) in bytes.iter_mut().enumerate() {
        *byte = (place * 37 % 251) as u8;
    }
    bytes
}

/// Whether the check byte of the first `len` bytes is their exclusive or.
fn is_checked(bytes: &[u8], len: usize) -> Result<bool, Fail> {
    let part = bytes.get(..len).ok_or("too long")?;
    same(&check_byte(part), &exclusive_or(part))
}

#[test]
fn a_check_byte_is_the_exclusive_or(rt: HostRuntime) -> Result<(), Fail> {
    assert!(rt; check_byte(&[0x02, 0x80, 0x00, 0x00]) == 0x82);
    let bytes = checked_bytes();
    for len in CHECKED_LENGTHS {
        hold_ok(&rt, is_checked(&bytes, *len), "length", *len)?;
    }
    Ok(())
}

/// Each fault, its number and its text.
const FAULTS: &[(FrameFault, u8, &str)] = &[
    (FrameFault::TooShortReply, 1, "reply too short"),
    (FrameFault::BadPreamble, 2, "bad number of preamble bytes"),
    (FrameFault::BadDelimiter, 3, "bad delimiter"),
    (FrameFault::Truncated, 4, "truncated"),
    (FrameFault::BadCheck, 5, "bad check byte"),
    (FrameFault::ShortReply, 6, "reply with a short byte count"),
];

#[test]
fn faults_have_numbers_and_texts(rt: HostRuntime) -> Result<(), Fail> {
    for (row, (fault, number, text)) in FAULTS.iter().enumerate() {
        hold_same(&rt, &fault.number(), number, "the number of row", row)?;
        hold_ok(&rt, has_text(rt.alloc(), fault, text), "row", row)?;
    }
    Ok(())
}

/// Characters, and the first place at which a body may start. The high byte of a character is its fault bits.
type Start<'a> = (&'a [u16], Option<usize>);

const STARTS: &[Start] = &[
    (&[], None),
    (&[0xFF, 0xFF], None),
    (&[0xFF, 0xFF, 0xFF], None),
    (&[0xFF, 0x82, 0x00], None),
    (&[0x40FF, 0xFF, 0x82], None),
    (&[0xFF, 0xFF, 0x40FF, 0x82], Some(2)),
    (&[0xFF, 0xFF, 0xFF, 0x00, 0xFF, 0xFF, 0x82], Some(3)),
];

/// Returns the first place at which a body may start. The outer option is `None` if `heard` is no list of characters, or has more than
/// seven characters.
fn start_in(heard: &[u16]) -> Option<Option<usize>> {
    let mut chars = [Char::new(0, 0)?; 7];
    write_chars(&mut chars, heard)?;
    Some(first_start(chars.get(..heard.len())?))
}

#[test]
fn the_first_start_is_found(rt: HostRuntime) -> Result<(), Fail> {
    for (row, (heard, place)) in STARTS.iter().enumerate() {
        hold_same(&rt, &start_in(heard), &Some(*place), "row", row)?;
    }
    Ok(())
}
