use hart_rows::{has_text, hold_ok, hold_same, same};
use hart_values::*;
use std::test::Fail;

/// The address bytes of a device, from the primary master.
const UNIQUE: &[u8] = &[0xB7, 0x42, 0x0A, 0x1B, 0x2C];

/// Whether an address has these bytes, from this master and with this burst bit.
fn has_bytes(address: &Address, master: MasterId, burst: bool, want: &[u8]) -> bool {
    address.bytes(master, burst).as_slice() == want
}

#[test]
fn addresses_have_their_bytes(rt: HostRuntime) -> Result<(), Fail> {
    let unique = Address::unique(0x3742, 0x0A1B2C)?;
    assert!(rt; has_bytes(&unique, MasterId::Primary, false, UNIQUE));
    let polling = Address::polling(5)?;
    assert!(rt; has_bytes(&polling, MasterId::Secondary, true, &[0x45]));
    Ok(())
}

/// An address byte, and the master, the burst bit and the polling address that it holds.
const POLLING: &[(u8, MasterId, bool, u8)] = &[
    (0x45, MasterId::Secondary, true, 5),
    (0xC5, MasterId::Primary, true, 5),
    (0xBF, MasterId::Primary, false, 63),
    (0x00, MasterId::Secondary, false, 0),
];

/// Whether an address byte holds what its row says.
fn holds_polling(row: &(u8, MasterId, bool, u8)) -> Result<bool, Fail> {
    let (byte, master, burst, number) = *row;
    let polling = Address::polling(number)?;
    same(&Address::read(&[byte]), &Some((master, burst, polling)))
}

#[test]
fn addresses_are_read(rt: HostRuntime) -> Result<(), Fail> {
    for (number, row) in POLLING.iter().enumerate() {
        hold_ok(&rt, holds_polling(row), "row", number)?;
    }
    let device = Address::unique(0x3742, 0x0A1B2C)?;
    assert!(rt; Address::read(UNIQUE) == Some((MasterId::Primary, false, device)));
    assert!(rt; Address::read(&[0x45, 0x00]).is_none());
    Ok(())
}

#[test]
fn only_both_numbers_zero_are_broadcast(rt: HostRuntime) -> Result<(), Fail> {
    // A unique address leaves out the upper two bits of the device type.
    assert!(rt; Address::unique(0x4000, 0)?.is_broadcast());
    assert!(rt; !Address::unique(0x0001, 0)?.is_broadcast());
    assert!(rt; !Address::polling(0)?.is_broadcast());
    Ok(())
}

#[test]
fn numbers_out_of_range_are_refused(rt: HostRuntime) -> Result<(), Fail> {
    let faults = [
        Address::polling(64).err(),
        Address::unique(0, 0x0100_0000).err(),
        ResponseCode::new(128).err(),
        CommFaults::new(128).err(),
    ];
    for (row, fault) in faults.iter().enumerate() {
        let number = fault.map(ValueFault::number);
        hold_same(&rt, &number, &Some(4), "row", row)?;
    }
    Ok(())
}

/// Whether a list has these bytes.
fn keeps(list: &ByteList<3>, want: &[u8]) -> bool {
    list.as_slice() == want
}

#[test]
fn a_list_keeps_its_bytes(rt: HostRuntime) -> Result<(), Fail> {
    let mut list = ByteList::<3>::from_slice(&[1, 2]).ok_or("two of three bytes")?;
    assert!(rt; list.len() == 2);
    list.push(3);
    assert!(rt; keeps(&list, &[1, 2, 3]));
    list.clear();
    assert!(rt; list.is_empty());
    list.extend_from_slice(&[7]);
    assert!(rt; keeps(&list, &[7]));
    Ok(())
}

#[test]
fn each_master_has_its_own(rt: HostRuntime) {
    let mut each = EachMaster {
        primary: 1,
        secondary: 2,
    };
    each.set(MasterId::Secondary, 3);
    assert!(rt; *each.get(MasterId::Primary) == 1 && *each.get(MasterId::Secondary) == 3);
}

#[test]
fn texts_are_packed(rt: HostRuntime) -> Result<(), Fail> {
    let tag = PackedText::<6>::from_text("PUMP-101".as_bytes())?;
    assert!(rt; tag.as_bytes() == [0x41, 0x53, 0x50, 0xB7, 0x1C, 0x31].as_slice());
    let spaces = PackedText::<6>::from_text(&[b' '; 8])?;
    assert!(rt; spaces.as_bytes() == [0x82, 0x08, 0x20, 0x82, 0x08, 0x20].as_slice());
    let mut text = [0; 32];
    PackedText::<24>::from_bytes([0xFF; 24]).write_text(&mut text)?;
    assert!(rt; text == [b'?'; 32]);
    Ok(())
}

#[test]
fn packed_text_is_written_into_its_length_alone(rt: HostRuntime) -> Result<(), Fail> {
    let tag = PackedText::<6>::from_bytes([0x41, 0x53, 0x50, 0xB7, 0x1C, 0x31]);
    let mut text = [0; 8];
    tag.write_text(&mut text)?;
    assert!(rt; text == *b"PUMP-101");
    let mut shorter = [0x55; 7];
    assert!(rt;
        tag.write_text(&mut shorter) == Err(ValueFault::WrongLength) && shorter == [0x55; 7]
    );
    let mut longer = [0x55; 9];
    assert!(rt; tag.write_text(&mut longer) == Err(ValueFault::WrongLength) && longer == [0x55; 9]);
    Ok(())
}

const BAD_TEXTS: &[(&str, ValueFault)] = &[
    ("PUMp-101", ValueFault::BadCharacter { place: 3 }),
    ("pump-101", ValueFault::BadCharacter { place: 0 }),
    ("PUMP", ValueFault::WrongLength),
    ("pump", ValueFault::WrongLength),
];

#[test]
fn bad_texts_are_refused(rt: HostRuntime) -> Result<(), Fail> {
    for (row, (text, want)) in BAD_TEXTS.iter().enumerate() {
        let packed = PackedText::<6>::from_text(text.as_bytes());
        hold_same(&rt, &packed.err(), &Some(*want), "row", row)?;
    }
    Ok(())
}

/// Three bytes, and whether they are a date.
const DATES: &[([u8; 3], bool)] = &[
    ([0x1D, 0x02, 0x64], true),
    ([0x1D, 0x02, 0x00], false),
    ([0x1D, 0x02, 0xC8], false),
    ([0x00, 0x00, 0x00], true),
    ([0x1F, 0x0C, 0xFF], true),
    ([0x00, 0x01, 0x64], false),
    ([0x01, 0x00, 0x64], false),
    ([0x01, 0x0D, 0x64], false),
    ([0x1F, 0x04, 0x64], false),
    ([0x01, 0x81, 0x64], false),
];

#[test]
fn dates_are_those_of_the_calendar(rt: HostRuntime) -> Result<(), Fail> {
    for (row, (bytes, good)) in DATES.iter().enumerate() {
        let fault = (!*good).then_some(ValueFault::BadDate);
        hold_same(&rt, &HartDate::from_bytes(*bytes).err(), &fault, "row", row)?;
    }
    Ok(())
}

#[test]
fn three_zeros_alone_are_not_set(rt: HostRuntime) -> Result<(), Fail> {
    let first = HartDate::from_bytes([1, 1, 0])?;
    assert!(rt; first.is_set() && first.as_bytes() == [1, 1, 0].as_slice());
    assert!(rt; !HartDate::from_bytes([0, 0, 0])?.is_set());
    Ok(())
}

#[test]
fn status_bytes_hold_a_code_or_faults(rt: HostRuntime) -> Result<(), Fail> {
    let changed = DeviceStatus(DeviceStatus::CONFIGURATION_CHANGED);
    let success = Status::Code(ResponseCode::SUCCESS, changed);
    assert!(rt; Status::read([0x00, 0x40]) == success && success.bytes() == [0x00, 0x40]);
    let code = Status::Code(ResponseCode::new(16)?, changed);
    assert!(rt; Status::read([0x10, 0x40]) == code && code.bytes() == [0x10, 0x40]);
    let faulty = Status::Faulty(CommFaults::new(CommFaults::LONGITUDINAL_PARITY)?);
    assert!(rt; Status::read([0x88, 0x00]) == faulty && Status::read([0x88, 0x05]) == faulty);
    assert!(rt; faulty.bytes() == [0x88, 0x00]);
    Ok(())
}

#[test]
fn status_bits_and_response_codes_have_names(rt: HostRuntime) {
    let faults = [
        CommFaults::VERTICAL_PARITY,
        CommFaults::OVERRUN,
        CommFaults::FRAMING,
        CommFaults::LONGITUDINAL_PARITY,
        CommFaults::BUFFER_OVERFLOW,
    ];
    assert!(rt; faults == [0x40, 0x20, 0x10, 0x08, 0x02]);
    let states = [
        DeviceStatus::DEVICE_MALFUNCTION,
        DeviceStatus::CONFIGURATION_CHANGED,
        DeviceStatus::COLD_START,
        DeviceStatus::MORE_STATUS_AVAILABLE,
        DeviceStatus::LOOP_CURRENT_FIXED,
        DeviceStatus::LOOP_CURRENT_SATURATED,
        DeviceStatus::NON_PRIMARY_VARIABLE_OUT_OF_LIMITS,
        DeviceStatus::PRIMARY_VARIABLE_OUT_OF_LIMITS,
    ];
    assert!(rt; states == [0x80, 0x40, 0x20, 0x10, 0x08, 0x04, 0x02, 0x01]);
    let codes = [
        ResponseCode::SUCCESS,
        ResponseCode::INVALID_SELECTION,
        ResponseCode::TOO_FEW_DATA_BYTES,
        ResponseCode::IN_WRITE_PROTECT_MODE,
        ResponseCode::COUNTER_MISMATCH,
        ResponseCode::INVALID_DATE,
        ResponseCode::INVALID_MODE,
        ResponseCode::COMMAND_NOT_IMPLEMENTED,
    ]
    .map(ResponseCode::value);
    assert!(rt; codes == [0, 2, 5, 7, 9, 9, 12, 64]);
}

/// Each fault, its number and its text.
const FAULTS: &[(ValueFault, u8, &str)] = &[
    (ValueFault::WrongLength, 1, "wrong length"),
    (
        ValueFault::BadCharacter { place: 3 },
        2,
        "bad character at 3",
    ),
    (ValueFault::BadDate, 3, "bad date"),
    (ValueFault::OutOfRange, 4, "out of range"),
];

#[test]
fn faults_have_numbers_and_texts(rt: HostRuntime) -> Result<(), Fail> {
    for (row, (fault, number, text)) in FAULTS.iter().enumerate() {
        hold_same(&rt, &fault.number(), number, "the number of row", row)?;
        hold_ok(&rt, has_text(rt.alloc(), fault, text), "row", row)?;
    }
    Ok(())
}

#[test]
fn response_codes_have_a_text(rt: HostRuntime) -> Result<(), Fail> {
    let text = has_text(rt.alloc(), &ResponseCode::INVALID_MODE, "response code 12");
    hold_ok(&rt, text, "code", 12)?;
    Ok(())
}
