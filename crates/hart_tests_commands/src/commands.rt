use hart_commands::*;
use hart_rows::{hold_ok, hold_same, same, same_bytes, same_if_any, told};
use hart_values::{Payload, ResponseCode, ValueFault};
use std::test::Fail;

mod fields;

/// The data of Command 18: the tag PUMP-101, sixteen spaces and 29 February of the year 2000.
const TAG: [u8; 21] = [
    0x41, 0x53, 0x50, 0xB7, 0x1C, 0x31, 0x82, 0x08, 0x20, 0x82, 0x08, 0x20, 0x82, 0x08, 0x20, 0x82,
    0x08, 0x20, 0x1D, 0x02, 0x64,
];

/// `TAG` with the year 1900, which was no leap year.
const BAD_DATE: [u8; 21] = [
    0x41, 0x53, 0x50, 0xB7, 0x1C, 0x31, 0x82, 0x08, 0x20, 0x82, 0x08, 0x20, 0x82, 0x08, 0x20, 0x82,
    0x08, 0x20, 0x1D, 0x02, 0x00,
];

/// Each known command, how many bytes of data its request needs, and how many bytes the payload of its reply needs.
const COMMANDS: &[(u8, usize, usize)] = &[
    (0, 0, 2 + 22),
    (1, 0, 2 + 5),
    (2, 0, 2 + 8),
    (3, 0, 2 + 9),
    (6, 1, 2 + 2),
    (7, 0, 2 + 2),
    (8, 0, 2 + 4),
    (9, 1, 2 + 13),
    (11, 6, 2 + 22),
    (12, 0, 2 + 24),
    (13, 0, 2 + 21),
    (14, 0, 2 + 16),
    (15, 0, 2 + 18),
    (16, 0, 2 + 3),
    (17, 24, 2 + 24),
    (18, 21, 2 + 21),
    (19, 3, 2 + 3),
    (20, 0, 2 + 32),
    (21, 32, 2 + 22),
    (22, 32, 2 + 32),
    (38, 2, 2 + 2),
    (48, 0, 2 + 1),
];

/// Two status bytes, and data with which a reply to any command may begin.
const PAYLOAD: [u8; 34] = [
    0x00, 0x00, 0xFE, 0, 0, 0, 0, 0, 0, 0, 0, 0, 0, 0, 0, 0, 0, 0, 0, 0, 0, 0, 0, 0, 0, 0, 0, 0, 0,
    0, 0, 0, 0, 0,
];

/// Zeros, enough for the request that needs the most data.
const ZEROS: [u8; 32] = [0; 32];

/// Whether a command with data has the wanted result. Either it is read as a request, and writing this request gives the wanted data, or
/// the data are refused with the wanted code.
fn request_is(command: u8, bytes: &[u8], want: Result<&[u8], u8>) -> Result<bool, Fail> {
    let request = match Request::read(command, bytes) {
        Ok(request) => request,
        Err(code) => return same(&Some(code.value()), &want.err()),
    };
    let Ok(want) = want else {
        return told(false, &request);
    };
    let mut data = Payload::new();
    request.write(&mut data);
    Ok(
        same(&request.command(), &command)?
            && same_bytes(data.as_slice(), want)?
            && same(&request.data_len(), &want.len())?
            && same(&request.copy(), &request)?,
    )
}

/// Whether a payload is read as wanted. If `want` is a number, the payload must hold a reply, and writing this reply must give the first
/// `want` bytes of the payload. If `want` is `None`, the payload must hold no reply.
fn reply_is(command: u8, payload: &[u8], want: Option<usize>) -> Result<bool, Fail> {
    let Some(reply) = Reply::read(command, payload) else {
        return same(&None, &want);
    };
    let mut written = Payload::new();
    reply.write(&mut written);
    let len = 2 + reply.data_len();
    Ok(
        same(&reply.command, &command)?
            && same_if_any(Some(written.as_slice()), payload.get(..len))?
            && same(&Some(len), &want)?,
    )
}

/// Whether a command needs `needed` bytes of data.
fn needs(command: u8, needed: usize) -> Result<bool, Fail> {
    let bytes = ZEROS.get(..needed).unwrap_or(&[]);
    let written = if command == 6 { &[0, 1] } else { bytes };
    let fewer = ZEROS.get(1..needed).unwrap_or(&[]);
    Ok(
        same(&needed_data(command), &needed)?
            && same(&bytes.len(), &needed)?
            && request_is(command, bytes, Ok(written))?
            && (needed == 0 || request_is(command, fewer, Err(5))?),
    )
}

/// Whether a payload of `len` bytes is a reply to a command, and a payload of one byte less is not.
fn is_replied_with(command: u8, len: usize) -> Result<bool, Fail> {
    let payload = PAYLOAD.get(..len).unwrap_or(&[]);
    let (_, shorter) = payload.split_last().ok_or("too long")?;
    Ok(reply_is(command, payload, Some(len))? && reply_is(command, shorter, None)?)
}

#[test]
fn each_command_needs_its_bytes(rt: HostRuntime) -> Result<(), Fail> {
    for (command, needed, len) in COMMANDS {
        let number = usize::from(*command);
        hold_ok(&rt, needs(*command, *needed), "Command", number)?;
        hold_ok(&rt, is_replied_with(*command, *len), "Command", number)?;
    }
    Ok(())
}

/// Whether a command is not known.
fn is_unknown(command: u8) -> bool {
    let code = Request::read(command, &[]).err().map(ResponseCode::value);
    needed_data(command) == 0 && code == Some(64) && Reply::read(command, &[0x40, 0x00]).is_none()
}

#[test]
fn every_other_command_is_unknown(rt: HostRuntime) -> Result<(), Fail> {
    for command in 0..=255u8 {
        let known = matches!(command, 0..=3 | 6..=9 | 11..=22 | 38 | 48);
        let number = usize::from(command);
        hold_same(&rt, &is_unknown(command), &!known, "Command", number)?;
    }
    Ok(())
}

#[test]
fn five_commands_write(rt: HostRuntime) -> Result<(), Fail> {
    for command in 0..=255u8 {
        let writes = matches!(command, 6 | 17 | 18 | 19 | 22);
        let number = usize::from(command);
        hold_same(&rt, &is_write(command), &writes, "Command", number)?;
    }
    Ok(())
}

/// Nine codes of device variables, one more than a list may have.
const CODES: [u8; 9] = [0, 1, 2, 3, 4, 5, 0xF4, 0xF5, 0xFF];

/// Whether the first `len` of `CODES` are a list of codes if `is_list` is true, and are refused as a wrong length otherwise.
fn are_listed(len: usize, is_list: bool) -> Result<bool, Fail> {
    let codes = CODES.get(..len).ok_or("too many codes")?;
    match CodeList::new(codes) {
        Ok(list) => Ok(same(&is_list, &true)? && same_bytes(list.as_slice(), codes)?),
        Err(fault) => Ok(same(&is_list, &false)? && same(&fault, &ValueFault::WrongLength)?),
    }
}

/// How many codes there are, and whether a list can have that number.
const LISTED: &[(usize, bool)] = &[(0, false), (1, true), (7, true), (8, true), (9, false)];

#[test]
fn a_list_has_one_to_eight_codes(rt: HostRuntime) -> Result<(), Fail> {
    for (len, is_list) in LISTED {
        hold_ok(&rt, are_listed(*len, *is_list), "number of codes", *len)?;
    }
    Ok(())
}

/// Commands with data. Each row also has the data with which the request is written, or the code with which the data are refused.
const REQUESTS: &[(u8, &[u8], Result<&[u8], u8>)] = &[
    (0, &[], Ok(&[])),
    (6, &[0x05], Ok(&[0x05, 0x00])),
    (6, &[0x00], Ok(&[0x00, 0x01])),
    (6, &[0x05, 0x01, 0x77], Ok(&[0x05, 0x01])),
    (6, &[0x3F, 0x00], Ok(&[0x3F, 0x00])),
    (6, &[0x40, 0x01], Err(2)),
    (6, &[0x40, 0x02], Err(2)),
    (6, &[0x3F, 0x02], Err(12)),
    (
        9,
        &[1, 2, 3, 4, 5, 6, 7, 8, 9],
        Ok(&[1, 2, 3, 4, 5, 6, 7, 8]),
    ),
    (9, &[0xF5], Ok(&[0xF5])),
    (18, &TAG, Ok(&TAG)),
    (18, &BAD_DATE, Err(9)),
    (19, &[0x01, 0x23, 0x45, 0x67], Ok(&[0x01, 0x23, 0x45])),
    (20, &[0x20; 33], Ok(&[])),
    (21, &[0x20; 33], Ok(&[0x20; 32])),
    (22, &[0xFF; 33], Ok(&[0xFF; 32])),
    (38, &[], Ok(&[])),
    (38, &[0x00], Err(5)),
    (38, &[0x00, 0x01], Ok(&[0x00, 0x01])),
    (38, &[0x00, 0x01, 0x99], Ok(&[0x00, 0x01])),
    (48, &[0x01], Ok(&[])),
];

#[test]
fn requests_are_read_and_written(rt: HostRuntime) -> Result<(), Fail> {
    for (row, (command, bytes, want)) in REQUESTS.iter().enumerate() {
        hold_ok(&rt, request_is(*command, bytes, *want), "row", row)?;
    }
    Ok(())
}

/// Two status bytes, the identity of a device in 22 bytes, and three more bytes.
const IDENTITY: [u8; 27] = [
    0x00, 0x00, 0xFE, 0x37, 0x42, 0x05, 0x07, 0x01, 0x02, 0x18, 0x00, 0x0A, 0x1B, 0x2C, 0x05, 0x04,
    0x00, 0x00, 0x00, 0x00, 0x37, 0x00, 0x37, 0x01, 0x55, 0x55, 0x55,
];

/// Two status bytes, and the identity in `IDENTITY` with another first byte.
const NO_IDENTITY: [u8; 24] = [
    0x00, 0x00, 0xFD, 0x37, 0x42, 0x05, 0x07, 0x01, 0x02, 0x18, 0x00, 0x0A, 0x1B, 0x2C, 0x05, 0x04,
    0x00, 0x00, 0x00, 0x00, 0x37, 0x00, 0x37, 0x01,
];

/// Commands and payloads. If a payload holds a reply, the third member of its row is the length of this reply when it is written again. The
/// written bytes are the first bytes of the payload.
const REPLIES: &[(u8, &[u8], Option<usize>)] = &[
    (0, &IDENTITY, Some(2 + 22)),
    (0, &NO_IDENTITY, None),
    (3, &[0, 0, 1, 2, 3, 4, 5, 6, 7, 8], None),
    (3, &[0; 2 + 13], Some(2 + 9)),
    (3, &[0; 2 + 14], Some(2 + 14)),
    (3, &[0; 2 + 19], Some(2 + 19)),
    (3, &[0; 2 + 24], Some(2 + 24)),
    (3, &[0; 2 + 29], Some(2 + 24)),
    (9, &[0, 0, 1, 2, 3, 4, 5, 6, 7, 8, 9, 10, 11, 12], None),
    (9, &[0; 2 + 21], Some(2 + 21)),
    (9, &[0; 2 + 69], Some(2 + 69)),
    (19, &[0x88, 0x00], None),
    (19, &[0x00], None),
    (19, &[0x07, 0x40], Some(2)),
    (20, &[0; 2 + 33], Some(2 + 32)),
    (21, &NO_IDENTITY, None),
    (22, &[0; 2 + 33], Some(2 + 32)),
    (48, &[0; 2 + 25], Some(2 + 25)),
    (48, &[0; 2 + 26], Some(2 + 25)),
];

#[test]
fn replies_are_read_and_written(rt: HostRuntime) -> Result<(), Fail> {
    for (row, (command, payload, want)) in REPLIES.iter().enumerate() {
        hold_ok(&rt, reply_is(*command, payload, *want), "row", row)?;
    }
    Ok(())
}

/// Whether a payload holds a reply to `command`, with this response code, device status and content.
fn says(
    command: u8,
    payload: &[u8],
    code: u8,
    status: u8,
    content: &ReplyContent,
) -> Result<bool, Fail> {
    let reply = Reply::read(command, payload).ok_or("no reply")?;
    Ok(
        same(&reply.code.value(), &code)?
            && same(&reply.status.0, &status)?
            && same(&reply.content, content)?,
    )
}

#[test]
fn replies_say_their_content(rt: HostRuntime) -> Result<(), Fail> {
    let identity = ReplyContent::Identity(IdentityContent {
        expanded_device_type: [0x37, 0x42],
        request_preambles: 5,
        protocol_revision: 7,
        device_revision: 1,
        software_revision: 2,
        hardware_and_signalling: 0x18,
        flags: 0,
        device_id: [0x0A, 0x1B, 0x2C],
        response_preambles: 5,
        device_variables: 4,
        configuration_change_counter: [0, 0],
        extended_device_status: 0,
        manufacturer: [0x00, 0x37],
        private_label_distributor: [0x00, 0x37],
        device_profile: 1,
    });
    let said = says(0, &IDENTITY, 0, 0, &identity)?
        && says(11, &IDENTITY, 0, 0, &identity)?
        && says(21, &IDENTITY, 0, 0, &identity)?;
    assert!(rt; said);
    assert!(rt; says(19, &[0x07, 0x40], 7, 0x40, &ReplyContent::Refused)?);
    Ok(())
}

/// Each register, and the bytes that a write of `TAG` puts into the register, or `None` if the write does not set the register.
const NAMED: &[(Register, Option<&[u8]>)] = &[
    (Register::Polling, None),
    (Register::Mode, None),
    (Register::Message, None),
    (Register::Tag, Some(&[0x41, 0x53, 0x50, 0xB7, 0x1C, 0x31])),
    (
        Register::Descriptor,
        Some(&[
            0x82, 0x08, 0x20, 0x82, 0x08, 0x20, 0x82, 0x08, 0x20, 0x82, 0x08, 0x20,
        ]),
    ),
    (Register::Date, Some(&[0x1D, 0x02, 0x64])),
    (Register::Assembly, None),
    (Register::LongTag, None),
];

/// Whether a write command with these data puts the wanted bytes into a register, or does not set the register if `want` is `None`.
fn writes(
    command: u8,
    bytes: &[u8],
    register: Register,
    want: Option<&[u8]>,
) -> Result<bool, Fail> {
    let request = Request::read(command, bytes).ok().ok_or("no request")?;
    let overwrite = writes_of(&request).ok_or("no write")?;
    same_if_any(overwrite.get(register), want)
}

#[test]
fn a_write_names_its_registers(rt: HostRuntime) -> Result<(), Fail> {
    for (row, (register, want)) in NAMED.iter().enumerate() {
        hold_ok(&rt, writes(18, &TAG, *register, *want), "row", row)?;
    }
    Ok(())
}

/// Whether a long tag is written and read unchanged: Command 22 must write exactly this long tag, and a reply to Command 20 must be read
/// as exactly this long tag.
fn is_long_tag(long_tag: [u8; 32]) -> Result<bool, Fail> {
    let mut payload = Payload::new();
    payload.extend_from_slice(&[0; 2]);
    payload.extend_from_slice(&long_tag);
    let content = ReplyContent::LongTag(long_tag);
    Ok(
        request_is(22, &long_tag, Ok(&long_tag))?
            && writes(22, &long_tag, Register::LongTag, Some(&long_tag))?
            && says(20, payload.as_slice(), 0, 0, &content)?,
    )
}

#[test]
fn a_long_tag_has_any_bytes(rt: HostRuntime) -> Result<(), Fail> {
    for byte in 0..=255u8 {
        hold_ok(&rt, is_long_tag([byte; 32]), "byte", usize::from(byte))?;
    }
    Ok(())
}
