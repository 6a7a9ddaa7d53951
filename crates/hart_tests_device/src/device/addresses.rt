//! Which devices answer a request, by its address.
use super::*;
use hart_values::{LoopMode, PackedText, PollingAddress, ValueFault};

/// Whom a request is for.
#[derive(Clone, Copy)]
pub(super) enum Asked {
    /// The bench device, at its own address.
    Own,
    /// The device at this polling address.
    Polling(u8),
    /// Another device, at its own address.
    Another,
    /// Every device.
    All,
}

/// Returns the address of a request.
fn address_of(asked: Asked) -> Result<Address, ValueFault> {
    match asked {
        Asked::Own => Ok(Address::Unique(bench::identity().unique_address())),
        Asked::Polling(number) => Address::polling(number),
        Asked::Another => Address::unique(0x3742, 0x0A1B2D),
        Asked::All => Address::unique(0, 0),
    }
}

/// Returns a master's request with this command to the given kind of address.
pub(super) fn request_to(
    asked: Asked,
    master: MasterId,
    command: u8,
    data: &[u8],
) -> Result<Frame, Fail> {
    let address = address_of(asked)?;
    let payload = Payload::from_slice(data).ok_or("too long")?;
    Ok(Frame::request(master, address, command, payload))
}

/// What the registers of the bench device hold.
#[derive(Clone, Copy)]
enum Values {
    /// Their initial values.
    New,
    /// Polling address 5 and the tag PUMP-101.
    Pump,
    /// Polling address 5 and loop current mode 0.
    Fixed,
}

/// Returns the bench device with these values.
fn device_of(values: Values) -> Result<Device<FieldRegisters>, Fail> {
    let new = bench::register_values();
    let held = match values {
        Values::New => new,
        Values::Pump => RegisterValues {
            polling: PollingAddress::new(5)?,
            tag: PackedText::from_bytes(PUMP),
            ..new
        },
        Values::Fixed => RegisterValues {
            polling: PollingAddress::new(5)?,
            mode: LoopMode::Disabled,
            ..new
        },
    };
    Ok(Device::new(bench::identity(), &held))
}

/// What a device holds; whom a request is for, its command and its data; and the payload of the reply, if there is one.
type Row<'a> = (Values, Asked, u8, &'a [u8], Option<&'a [u8]>);

/// The tag PUMP-101.
const PUMP: [u8; 6] = [0x41, 0x53, 0x50, 0xB7, 0x1C, 0x31];

/// Nine bytes of packed spaces. The first six are the tag of the bench device.
const SPACES: &[u8] = &[0x82, 0x08, 0x20, 0x82, 0x08, 0x20, 0x82, 0x08, 0x20];

/// The tag of the bench device without its last byte.
const SHORT: &[u8] = &[0x82, 0x08, 0x20, 0x82, 0x08];

/// The long tag of the bench device with another last byte.
const LAST_IS_ANOTHER: &[u8] = &[
    0x20, 0x20, 0x20, 0x20, 0x20, 0x20, 0x20, 0x20, 0x20, 0x20, 0x20, 0x20, 0x20, 0x20, 0x20, 0x20,
    0x20, 0x20, 0x20, 0x20, 0x20, 0x20, 0x20, 0x20, 0x20, 0x20, 0x20, 0x20, 0x20, 0x20, 0x20, 0x00,
];

/// Requests to each kind of address: with the device's tags, with other tags, and with too few or too many bytes of a tag.
const ROWS: &[Row] = &[
    (Values::Fixed, Asked::Own, 7, &[], Some(&[0, 8, 5, 0])),
    (Values::New, Asked::Another, 7, &[], None),
    (Values::New, Asked::Polling(0), 0, &[], Some(IDENTITY)),
    (Values::New, Asked::Polling(0), 1, &[], None),
    (Values::Pump, Asked::Polling(0), 0, &[], None),
    (Values::Pump, Asked::Polling(5), 0, &[], Some(IDENTITY)),
    (Values::New, Asked::All, 0, &[], None),
    (Values::New, Asked::All, 22, &[0x20; 32], None),
    // Command 11.
    (Values::Pump, Asked::All, 11, &PUMP, Some(IDENTITY)),
    (Values::Pump, Asked::Own, 11, &PUMP, Some(IDENTITY)),
    (Values::Pump, Asked::All, 11, SPACES, None),
    (Values::Pump, Asked::Own, 11, SPACES, None),
    (Values::New, Asked::All, 11, SPACES, Some(IDENTITY)),
    (Values::New, Asked::All, 11, SHORT, None),
    (Values::New, Asked::Own, 11, SHORT, Some(&[5, 0])),
    (Values::New, Asked::All, 11, &PUMP, None),
    // Command 21.
    (Values::New, Asked::All, 21, &[0x20; 32], Some(IDENTITY)),
    (Values::New, Asked::Own, 21, &[0x20; 32], Some(IDENTITY)),
    (Values::New, Asked::All, 21, &[0x20; 33], Some(IDENTITY)),
    (Values::New, Asked::Own, 21, &[0x20; 33], Some(IDENTITY)),
    (Values::New, Asked::All, 21, &[0x20; 31], None),
    (Values::New, Asked::Own, 21, &[0x20; 31], Some(&[5, 0])),
    (Values::New, Asked::All, 21, &[], None),
    (Values::New, Asked::Own, 21, &[], Some(&[5, 0])),
    (Values::New, Asked::All, 21, &[0xFF; 32], None),
    (Values::New, Asked::Own, 21, &[0xFF; 32], None),
    (Values::New, Asked::All, 21, LAST_IS_ANOTHER, None),
    (Values::New, Asked::Own, 21, LAST_IS_ANOTHER, None),
];

/// Whether a device replies as its row says, with write protection and without.
fn answers_in_both(row: &Row) -> Result<bool, Fail> {
    Ok(answers(row, false)? && answers(row, true)?)
}

/// Whether a device replies as its row says, with the address of the request, and leaves its counter unchanged. The argument `protected`
/// says whether the device is write protected.
fn answers(row: &Row, protected: bool) -> Result<bool, Fail> {
    let (values, asked, command, data, payload) = *row;
    let frame = request_to(asked, MasterId::Secondary, command, data)?;
    let mut device = device_of(values)?;
    device.protect(protected);
    let replied = match device.receive(&frame, &bench::process()) {
        Some(reply) => {
            same_if_any(Some(reply.payload()), payload)?
                && same(&reply.address(), &frame.address())?
        }
        None => same_if_any(None, payload)?,
    };
    Ok(replied && same(&device.counter(), &0)?)
}

#[test]
fn who_is_asked_answers(rt: HostRuntime) -> Result<(), Fail> {
    for (number, row) in ROWS.iter().enumerate() {
        hold_ok(&rt, answers_in_both(row), "row", number)?;
    }
    Ok(())
}
