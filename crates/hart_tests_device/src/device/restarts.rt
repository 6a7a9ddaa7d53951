//! Which replies show a restart to a master, and which do not.
use super::addresses::{Asked, request_to};
use super::deliveries::garbled_write;
use super::*;
use hart_values::EachMaster;
use std::process::Abort;

/// Whether a device is write protected. Then whom the requests are for, their first and last command, and their data. Then the status bytes
/// of the first reply to each command after a restart.
type Row<'a> = (bool, Asked, [u8; 2], &'a [u8], [u8; 2]);

/// The tag of the bench device.
const TAG: &[u8] = &[0x82, 0x08, 0x20, 0x82, 0x08, 0x20];

/// The tag of another device.
const OTHER_TAG: &[u8] = &[0x41, 0x53, 0x50, 0xB7, 0x1C, 0x31];

/// Requests to which a device is silent.
const SILENT: &[(Asked, u8, &[u8])] = &[
    (Asked::Another, 7, &[]),
    (Asked::Own, 11, OTHER_TAG),
    (Asked::All, 11, OTHER_TAG),
    (Asked::All, 11, &[0x82]),
    (Asked::Own, 21, &[0xFF; 32]),
    (Asked::All, 21, &[0xFF; 32]),
    (Asked::All, 21, &[0x20; 31]),
];

/// Requests whose first reply shows a cold start, whatever its response code. The commands of the last five rows are unknown.
const FIRST_REPLIES: &[Row] = &[
    (false, Asked::Own, [7, 7], &[], [0x00, 0x20]),
    (false, Asked::Polling(0), [0, 0], &[], [0x00, 0x20]),
    (false, Asked::Own, [6, 6], &[0x40, 0x01], [0x02, 0x20]),
    (false, Asked::Own, [19, 19], &[0x01, 0x23], [0x05, 0x20]),
    (
        false,
        Asked::Own,
        [19, 19],
        &[0x01, 0x23, 0x45],
        [0x00, 0x60],
    ),
    (
        true,
        Asked::Own,
        [19, 19],
        &[0x01, 0x23, 0x45],
        [0x07, 0x20],
    ),
    (false, Asked::Own, [38, 38], &[0x00, 0x01], [0x09, 0x20]),
    (false, Asked::Own, [38, 38], &[], [0x00, 0x20]),
    (false, Asked::All, [11, 11], TAG, [0x00, 0x20]),
    (false, Asked::All, [21, 21], &[0x20; 32], [0x00, 0x20]),
    (false, Asked::Own, [22, 22], &[0xFF; 32], [0x00, 0x60]),
    (true, Asked::Own, [22, 22], &[0xFF; 32], [0x07, 0x20]),
    (false, Asked::Own, [4, 5], &[], [0x40, 0x20]),
    (false, Asked::Own, [10, 10], &[], [0x40, 0x20]),
    (false, Asked::Own, [23, 37], &[], [0x40, 0x20]),
    (false, Asked::Own, [39, 47], &[], [0x40, 0x20]),
    (false, Asked::Own, [49, 255], &[], [0x40, 0x20]),
];

/// Returns the first two bytes of a payload.
fn first_two(payload: &[u8]) -> Option<[u8; 2]> {
    match payload {
        [code, status, ..] => Some([*code, *status]),
        _ => None,
    }
}

/// Returns the status bytes of the device's reply to a master's request, if the device replies.
fn status_bytes(
    device: &mut Device<FieldRegisters>,
    master: MasterId,
    asked: Asked,
    command: u8,
    data: &[u8],
) -> Result<Option<[u8; 2]>, Fail> {
    let request = request_to(asked, master, command, data)?;
    Ok(match device.receive(&request, &bench::process()) {
        Some(reply) => first_two(reply.payload()),
        None => None,
    })
}

/// Returns a bench device that was restarted twice, and has since heard requests that it ignores, and a garbled request.
fn restarted_device(
    rt: &(impl Abort + Eprint),
    protected: bool,
) -> Result<Device<FieldRegisters>, Fail> {
    let mut device = bench_device();
    device.protect(protected);
    let image = device.image();
    device.restart();
    device.restart();
    assert!(rt; device.image() == image);
    for (row, (asked, command, data)) in SILENT.iter().enumerate() {
        let silence = status_bytes(&mut device, MasterId::Primary, *asked, *command, data)?;
        hold_same(rt, &silence, &None, "silent row", row)?;
    }
    assert!(rt; replies_with_faults(&mut device)?);
    Ok(device)
}

/// Whether a device replies to a garbled request with the communication faults of this request.
fn replies_with_faults(device: &mut Device<FieldRegisters>) -> Result<bool, Fail> {
    let garbled = garbled_write().ok_or("characters")?;
    let reply = device.hear(&garbled, &bench::process()).ok_or("silence")?;
    Ok(reply.payload() == [0x88, 0x00].as_slice())
}

/// Whether the first of two replies to the primary master shows a cold start, and the second does not. Afterwards a reply to the secondary
/// master must show the cold start.
fn is_shown_once(
    device: &mut Device<FieldRegisters>,
    row: &Row,
    command: u8,
) -> Result<bool, Fail> {
    let (_, asked, _, data, shown) = row;
    let [code, status] = *shown;
    let first = status_bytes(device, MasterId::Primary, *asked, command, data)?;
    let second = status_bytes(device, MasterId::Primary, *asked, command, data)?;
    let other = status_bytes(device, MasterId::Secondary, Asked::Own, 7, &[])?;
    Ok(
        same(&first, &Some([code, status]))?
            && same(&second, &Some([code, status & 0x40]))?
            && same(&other, &Some([0x00, status]))?,
    )
}

/// Returns a device that starts from the image and the cold start bits of another device.
fn kept(device: &Device<FieldRegisters>) -> Result<Device<FieldRegisters>, Fail> {
    let mut other = Device::from_image(bench::identity(), device.image().as_slice())?;
    other.restore_cold_start(EachMaster {
        primary: device.cold_start(MasterId::Primary),
        secondary: device.cold_start(MasterId::Secondary),
    });
    Ok(other)
}

/// Whether a device shows a cold start once after a restart, for each command of a row, and stays protected or unprotected. A device made
/// from its image and its cold start bits must do the same.
fn is_shown_after_restart(rt: &(impl Abort + Eprint), row: &Row) -> Result<bool, Fail> {
    let (protected, _, [first, last], ..) = *row;
    let mut shown = true;
    for command in first..=last {
        let mut device = restarted_device(rt, protected)?;
        let mut other = kept(&device)?;
        shown &= is_shown_once(&mut device, row, command)? && device.is_protected() == protected;
        shown &= is_shown_once(&mut other, row, command)? && other.is_protected() == protected;
    }
    Ok(shown)
}

#[test]
fn a_cold_start_is_shown_once_to_each_master(rt: HostRuntime) -> Result<(), Fail> {
    for (number, row) in FIRST_REPLIES.iter().enumerate() {
        hold_ok(&rt, is_shown_after_restart(&rt, row), "row", number)?;
    }
    Ok(())
}
