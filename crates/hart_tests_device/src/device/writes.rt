//! The replies of a device to successive writes, and its counter after each write.
use super::addresses::{Asked, request_to};
use super::*;
use hart_commands::Register;

/// A command and its data, and the payload of the reply. Then the counter and each master's configuration-changed bit after the reply.
struct Step<'a> {
    command: u8,
    data: &'a [u8],
    payload: &'a [u8],
    counter: u16,
    changed: [bool; 2],
}

/// A final assembly number.
const NUMBER: &[u8] = &[0x01, 0x23, 0x45];

/// The payload of a reply after a write, with a long tag other than the bench device's.
const LONG_TAG: &[u8] = &[
    0x00, 0x40, 0xFF, 0xFF, 0xFF, 0xFF, 0xFF, 0xFF, 0xFF, 0xFF, 0xFF, 0xFF, 0xFF, 0xFF, 0xFF, 0xFF,
    0xFF, 0xFF, 0xFF, 0xFF, 0xFF, 0xFF, 0xFF, 0xFF, 0xFF, 0xFF, 0xFF, 0xFF, 0xFF, 0xFF, 0xFF, 0xFF,
    0xFF, 0xFF,
];

/// What the primary master asks of the device, step by step, after the counter has passed 65535 and is 0 again.
const STEPS: &[Step] = &[
    Step {
        command: 19,
        data: NUMBER,
        payload: &[0x00, 0x40, 0x01, 0x23, 0x45],
        counter: 1,
        changed: [true, true],
    },
    Step {
        command: 38,
        data: &[0x00, 0x01],
        payload: &[0x00, 0x00, 0x00, 0x01],
        counter: 1,
        changed: [false, true],
    },
    Step {
        command: 16,
        data: &[],
        payload: &[0x00, 0x00, 0x01, 0x23, 0x45],
        counter: 1,
        changed: [false, true],
    },
    Step {
        command: 22,
        data: &[0xFF; 33],
        payload: LONG_TAG,
        counter: 2,
        changed: [true, true],
    },
    Step {
        command: 22,
        data: &[0xFF; 32],
        payload: LONG_TAG,
        counter: 3,
        changed: [true, true],
    },
    Step {
        command: 20,
        data: &[],
        payload: LONG_TAG,
        counter: 3,
        changed: [true, true],
    },
    Step {
        command: 20,
        data: &[0x20; 32],
        payload: LONG_TAG,
        counter: 3,
        changed: [true, true],
    },
];

/// Returns a bench device after 65,536 writes, so that its counter is 0 again.
fn device_gone_round() -> Result<Device<FieldRegisters>, Fail> {
    let mut device = bench_device();
    let write = request(19, NUMBER)?;
    for _ in 0..65_536u32 {
        let _reply = device.receive(&write, &bench::process()).ok_or("silence")?;
    }
    Ok(device)
}

/// Whether a device replies as a step says, and then has the step's counter and configuration-changed bits.
fn takes(device: &mut Device<FieldRegisters>, step: &Step) -> Result<bool, Fail> {
    let reply = asked(device, step.command, step.data)?;
    let [primary, secondary] = step.changed;
    Ok(
        same_bytes(reply.payload(), step.payload)?
            && same(&device.counter(), &step.counter)?
            && same(&device.changed(MasterId::Primary), &primary)?
            && same(&device.changed(MasterId::Secondary), &secondary)?,
    )
}

/// Whether a device is silent to a broadcast command with the long tag that it had before its writes.
fn is_silent_to_former(device: &mut Device<FieldRegisters>, command: u8) -> Result<bool, Fail> {
    let former = request_to(Asked::All, MasterId::Primary, command, &[0x20; 32])?;
    Ok(device.receive(&former, &bench::process()).is_none())
}

#[test]
fn writes_are_counted(rt: HostRuntime) -> Result<(), Fail> {
    let mut device = device_gone_round()?;
    assert!(rt; device.counter() == 0);
    for (place, step) in STEPS.iter().enumerate() {
        hold_ok(&rt, takes(&mut device, step), "step", place)?;
    }
    assert!(rt; is_silent_to_former(&mut device, 21)? && is_silent_to_former(&mut device, 22)?);
    assert!(rt; device.registers().get(Register::LongTag) == [0xFF; 32].as_slice());
    Ok(())
}
