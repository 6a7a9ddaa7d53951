use crate::chars::chars_of_items;
use hart_commands::Request;
use hart_device::*;
use hart_frame::{Char, Frame, Message, Payload, encode};
use hart_rows::worked::{HEARD, OWN, OwnRow, REPLY, REQUEST};
use hart_rows::{bytes_of_text, has_text, hold_ok, hold_same, same, same_bytes, same_if_any};
use hart_values::{Address, MasterId, ResponseCode};
use images::image_fault;
use std::alloc::Global;
use std::test::Fail;

mod addresses;
mod deliveries;
mod images;
mod restarts;
mod writes;

/// The payload of the reply to Command 0 while the configuration change counter is 0.
const IDENTITY: &[u8] = &[
    0x00, 0x00, 0xFE, 0x37, 0x42, 0x05, 0x07, 0x01, 0x02, 0x18, 0x00, 0x0A, 0x1B, 0x2C, 0x05, 0x04,
    0x00, 0x00, 0x00, 0x00, 0x37, 0x00, 0x37, 0x01,
];

/// A tag, a descriptor, and a date that does not exist.
const BAD_DATE: &[u8] = &[
    0x41, 0x53, 0x50, 0xB7, 0x1C, 0x31, 0x82, 0x08, 0x20, 0x82, 0x08, 0x20, 0x82, 0x08, 0x20, 0x82,
    0x08, 0x20, 0x1D, 0x02, 0x00,
];

/// A command, its data, and the payload of the reply.
type Row<'a> = (u8, &'a [u8], &'a [u8]);

/// What a new bench device replies, beyond the replies that the tests of `hart answer` show.
const BENCH: &[Row] = &[
    (6, &[], &[0x05, 0x00]),
    (7, &[], &[0x00, 0x00, 0x00, 0x01]),
    (19, &[0x01, 0x23, 0x45], &[0x00, 0x40, 0x01, 0x23, 0x45]),
    (22, &[], &[0x05, 0x00]),
    (22, &[0xFF; 31], &[0x05, 0x00]),
    (38, &[0x00, 0x01], &[0x09, 0x00]),
];

/// What a write-protected new bench device replies.
const PROTECTED: &[Row] = &[
    (17, &[], &[0x05, 0x00]),
    (18, BAD_DATE, &[0x07, 0x00]),
    (19, &[0x01, 0x23, 0x45], &[0x07, 0x00]),
    (22, &[0xFF; 32], &[0x07, 0x00]),
    (22, &[0xFF; 31], &[0x05, 0x00]),
    (38, &[], &[0x00, 0x00, 0x00, 0x00]),
    (
        15,
        &[],
        &[
            0x00, 0x00, 0x00, 0x00, 0x20, 0x42, 0xC8, 0x00, 0x00, 0x00, 0x00, 0x00, 0x00, 0x3F,
            0x80, 0x00, 0x00, 0x01, 0xFA, 0x00,
        ],
    ),
];

/// Returns a new bench device.
fn bench_device() -> Device<FieldRegisters> {
    Device::new(bench::identity(), &bench::register_values())
}

/// Returns the primary master's request with this command, to the bench device at its own address.
fn request(command: u8, data: &[u8]) -> Result<Frame, Fail> {
    let payload = Payload::from_slice(data).ok_or("too long")?;
    let own = Address::Unique(bench::identity().unique_address());
    Ok(Frame::request(MasterId::Primary, own, command, payload))
}

/// Returns the reply of a device to this request, with the measured values of the bench device.
fn asked(device: &mut Device<FieldRegisters>, command: u8, data: &[u8]) -> Result<Frame, Fail> {
    asked_at(device, command, data, &bench::process())
}

/// Returns the reply of a device to this request, with these measured values.
fn asked_at(
    device: &mut Device<FieldRegisters>,
    command: u8,
    data: &[u8],
    process: &Process,
) -> Result<Frame, Fail> {
    let request = request(command, data)?;
    Ok(device.receive(&request, process).ok_or("silence")?)
}

/// Whether a device replies to a request as its row says.
fn replies(device: &mut Device<FieldRegisters>, row: &Row) -> Result<bool, Fail> {
    let (command, data, payload) = row;
    let reply = asked(device, *command, data)?;
    same_bytes(reply.payload(), payload)
}

/// Whether a write-protected bench device replies to a request as its row says, leaves its counter unchanged, and stays protected.
fn replies_protected(row: &Row) -> Result<bool, Fail> {
    let mut device = bench_device();
    device.protect(true);
    let replied = replies(&mut device, row)?;
    Ok(replied && same(&device.counter(), &0)? && device.is_protected())
}

#[test]
fn requests_are_answered(rt: HostRuntime) -> Result<(), Fail> {
    for (number, row) in BENCH.iter().enumerate() {
        hold_ok(&rt, replies(&mut bench_device(), row), "row", number)?;
    }
    for (number, row) in PROTECTED.iter().enumerate() {
        hold_ok(&rt, replies_protected(row), "protected row", number)?;
    }
    Ok(())
}

/// Whether a command is unknown: no request has this command.
fn is_unknown(command: u8) -> bool {
    Request::read(command, &[]).err() == Some(ResponseCode::COMMAND_NOT_IMPLEMENTED)
}

/// Whether a bench device refuses a command as not implemented exactly if the command is unknown. For even commands the device is write
/// protected.
fn is_met_by_number(command: u8) -> Result<bool, Fail> {
    let mut device = bench_device();
    device.protect(command % 2 == 0);
    let reply = asked(&mut device, command, &[])?;
    let refused = reply.payload() == [0x40, 0x00].as_slice();
    same(&refused, &is_unknown(command))
}

#[test]
fn unknown_commands_are_refused(rt: HostRuntime) -> Result<(), Fail> {
    for command in 0..=255u8 {
        let is_met = is_met_by_number(command);
        hold_ok(&rt, is_met, "command", usize::from(command))?;
    }
    Ok(())
}

/// Whether the reply to Command 48 has this device status and this check byte. The byte at `place` of the additional status is 1, and the
/// others are 0.
fn status_is(place: usize, status: u8, check: u8) -> Result<bool, Fail> {
    let mut process = bench::process();
    *process.additional_status.get_mut(place).ok_or("a place")? = 1;
    let reply = asked_at(&mut bench_device(), 48, &[], &process)?;
    let shown = reply.payload().get(1).copied();
    let last = reply.body().as_slice().last().copied();
    same(&(shown, last), &(Some(status), Some(check)))
}

/// Places of bytes in the additional status. If the byte at the place is 1, the reply has this device status and this check byte.
const STATUSES: &[(usize, u8, u8)] = &[
    (0, 0x10, 0x74),
    (5, 0x10, 0x74),
    (6, 0x00, 0x64),
    (7, 0x10, 0x74),
    (24, 0x10, 0x74),
];

#[test]
fn additional_status_is_shown(rt: HostRuntime) -> Result<(), Fail> {
    for (place, status, check) in STATUSES {
        let is_shown = status_is(*place, *status, *check);
        hold_ok(&rt, is_shown, "byte", *place)?;
    }
    Ok(())
}

/// The parts of an identity, at the ends of their ranges.
const PARTS: IdentityParts = IdentityParts {
    expanded_device_type: 0x4000,
    device_id: 0x00FF_FFFF,
    request_preambles: 5,
    response_preambles: 20,
    device_revision: 255,
    software_revision: 255,
    hardware_revision: 31,
    signalling_code: 7,
    flags: 255,
    device_variables: 255,
    manufacturer: 0xFFFF,
    private_label_distributor: 0xFFFF,
    device_profile: 255,
};

/// Parts of an identity or bytes of an image that are refused.
enum Refused<'a> {
    /// Parts that make no identity.
    Parts(IdentityParts),
    /// Bytes that are no image.
    Bytes(&'a [u8]),
}

/// Parts or bytes that are refused, and the number and the text of the fault.
type RefusedRow<'a> = (Refused<'a>, u8, &'a str);

/// Parts that differ from `PARTS` and make no identity, and bytes that are no image, with a row for each reason to refuse them.
const REFUSED: &[RefusedRow] = &[
    (
        Refused::Parts(IdentityParts {
            device_id: 0,
            ..PARTS
        }),
        1,
        "broadcast address",
    ),
    (
        Refused::Parts(IdentityParts {
            device_id: 0,
            signalling_code: 8,
            ..PARTS
        }),
        2,
        "out of range",
    ),
    (
        Refused::Parts(IdentityParts {
            device_id: 0x0100_0000,
            ..PARTS
        }),
        2,
        "out of range",
    ),
    (
        Refused::Parts(IdentityParts {
            hardware_revision: 32,
            ..PARTS
        }),
        2,
        "out of range",
    ),
    (
        Refused::Parts(IdentityParts {
            request_preambles: 4,
            ..PARTS
        }),
        2,
        "out of range",
    ),
    (
        Refused::Parts(IdentityParts {
            response_preambles: 21,
            ..PARTS
        }),
        2,
        "out of range",
    ),
    (Refused::Bytes(&[0x03]), 3, "bad image: version"),
    (Refused::Bytes(&[]), 4, "bad image: length"),
    (Refused::Bytes(&[0x02; 86]), 5, "bad image: field"),
];

/// Returns the fault with which the parts or the bytes are refused.
fn fault_of(refused: &Refused) -> Option<DeviceFault> {
    match refused {
        Refused::Parts(parts) => Identity::new(*parts).err(),
        Refused::Bytes(bytes) => image_fault(bytes),
    }
}

/// Whether the fault of a row has its number and its text.
fn has_its_fault(alloc: Global, row: &RefusedRow) -> Result<bool, Fail> {
    let (refused, number, text) = row;
    let fault = fault_of(refused).ok_or("no fault")?;
    Ok(same(&fault.number(), number)? && has_text(alloc, &fault, text)?)
}

#[test]
fn what_is_refused_has_a_fault(rt: HostRuntime) -> Result<(), Fail> {
    assert!(rt; Identity::new(PARTS).is_ok());
    for (number, row) in REFUSED.iter().enumerate() {
        hold_ok(&rt, has_its_fault(rt.alloc(), row), "row", number)?;
    }
    Ok(())
}

/// Whether a new bench device that hears `heard` replies with this message, and has this counter afterwards.
fn replies_so(alloc: Global, heard: &str, reply: &str, counter: u16) -> Result<bool, Fail> {
    let delivery = chars_of_items(alloc, heard)?;
    let want = bytes_of_text(alloc, reply)?;
    let mut device = bench_device();
    let mut message = Message::new();
    if let Some(answer) = device.hear(delivery.as_slice(), &bench::process()) {
        encode(&answer, device.response_preambles(), &mut message)?;
    }
    Ok(same_bytes(message.as_slice(), want.as_slice())? && same(&device.counter(), &counter)?)
}

/// Like `replies_so`, for a request to the device's own address.
fn replies_on_its_own(alloc: Global, row: &OwnRow) -> Result<bool, Fail> {
    let (asked, replied, counter) = row;
    let request = format!(in alloc; "{REQUEST}{asked}")?;
    let reply = format!(in alloc; "{REPLY}{replied}")?;
    replies_so(alloc, request.as_str(), reply.as_str(), *counter)
}

#[test]
fn worked_messages_are_replied_to(rt: HostRuntime) -> Result<(), Fail> {
    for (number, row) in OWN.iter().enumerate() {
        hold_ok(&rt, replies_on_its_own(rt.alloc(), row), "row", number)?;
    }
    for (number, (heard, reply)) in HEARD.iter().enumerate() {
        let replied = replies_so(rt.alloc(), heard, reply, 0);
        hold_ok(&rt, replied, "heard row", number)?;
    }
    Ok(())
}
