//! A device that the caller keeps as its image and its cold start bits, so that the caller can store and copy the device. Each call reads
//! the image again, in about 2 microseconds.
ghost use Rattle.std.specs.Prelude.{◌≡◌, true, IfErr, IfOk, OnErr, length, option_map};
ghost use Rattle.hart_frame.specs.wire.Message.{IsPreambleCount};
ghost use Rattle.hart_device.specs.Device.{DeviceState, IsDevice, restarted};
ghost use Rattle.hart_device.specs.declared.identity_parts.IdentityParts.{IdentityParts};
ghost use Rattle.hart_c.specs.Faults.{IsFirstOf};
ghost use Rattle.hart_c.specs.Device.{HearOutcome, Hears, IsKept, IsSaid, hear_checks, state_checks};
ghost use Rattle.hart_c.specs.Messages.{HasNoRoom, IsWritten};
ghost use Rattle.hart_c.specs.Device.{NewDeviceOutcome, device_of};
ghost use Rattle.hart_c.specs.Numbers.{parts_of};

use crate::fault::{Fault, HartOutcome};
use crate::find::HartChar;
use crate::heard::{MOST_CHARACTERS, hear_into};
use crate::identity::{HartIdentity, parts_of};
use crate::output::{outcome_of, put};
use crate::process::{HartProcess, process_of};
use crate::registers::{HartRegisters, values_of};
use hart_device::{Device, DeviceFault, Identity, ImageRegisters, bench};
use hart_frame::{Char, Frame, Message, encode};
use hart_values::{EachMaster, MasterId};

/// What the caller keeps of a device: all that the device holds except its identity.
#[repr(C)]
#[derive(Clone, Copy)]
pub struct HartDevice {
    /// The image of the device, of version 2 (86 bytes) or of version 1 (54 bytes). Only the first `image_len` bytes are used.
    pub image: [u8; 86],
    /// How many bytes the image has.
    pub image_len: u8,
    /// The primary master's cold start bit.
    pub primary_cold_start: bool,
    /// The secondary master's cold start bit.
    pub secondary_cold_start: bool,
}

/// Makes a new device with these register values, counter 0 and all bits clear. Writes to `device` what the caller keeps of the new device,
/// and returns the length of the device's image.
///
/// # Errors
///
/// [`HART_BAD_FIELD`](crate::fault::HART_BAD_FIELD) if the polling address is above 63, the loop current mode is above 1 or the
/// date is not valid. `device` is then unchanged.
#[unsafe(no_mangle)]
pub extern "C" fn hart_new_device(registers: &HartRegisters, device: &mut HartDevice) -> HartOutcome
    ensures { NewDeviceOutcome «registers».now device.old device.new result }
{
    let Some(values) = values_of(registers) else {
        return outcome_of(Err(Fault::Device(DeviceFault::BadField)));
    };
    // What the caller keeps does not include the identity, so any identity will do here.
    let new = Device::<ImageRegisters>::new(bench::identity(), &values);
    keep(&new, device);
    outcome_of(Ok(usize::from(device.image_len)))
}

/// Records that the device was without power: sets both masters' cold start bits. The image stays the same.
#[unsafe(no_mangle)]
pub extern "C" fn hart_restart(device: &mut HartDevice)
    ensures set { device.new ≡ record device.old { primary_cold_start = true; secondary_cold_start = true } }
    ensures restarted { (parts : IdentityParts) (state : DeviceState) → IsKept parts device.old state
        → IsKept parts device.new (restarted state) }
{
    device.primary_cold_start = true;
    device.secondary_cold_start = true;
}

/// Lets a device with this process hear a delivery: all that the device hears at once. Carries out what the delivery asks, and updates
/// `device`. Writes the reply as a message to the front of `reply`, and returns its length, or 0 if the device is silent.
///
/// # Errors
///
/// The first of these that holds: a fault of the identity, a fault of the kept device, a process without dynamic variables or with
/// more than four, a fault of the characters, or no room for the reply. `device` and `reply` are then unchanged.
#[unsafe(no_mangle)]
pub extern "C" fn hart_hear(
    identity: &HartIdentity,
    process: &HartProcess,
    heard: &[HartChar],
    device: &mut HartDevice,
    reply: &mut [u8],
) -> HartOutcome
    ensures { HearOutcome identity.now process.now heard.now device.old device.new reply.old reply.new result }
{
    let said = hear(identity, process, heard, device, reply);
    outcome_of(said)
}

/// Lets a device hear a delivery, and returns the length of its reply, or the first fault.
pub(crate) fn hear(
    identity: &HartIdentity,
    process: &HartProcess,
    heard: &[HartChar],
    device: &mut HartDevice,
    reply: &mut [u8],
) -> Result<usize, Fault>
    ensures heard { IfOk result (Hears identity.now process.now heard.now device.old device.new reply.old reply.new) }
    ensures refused { IfErr result (IsFirstOf (hear_checks identity.now process.now heard.now device.old (length reply.old))) }
    ensures kept { OnErr result (device.new ≡ device.old) }
    ensures unchanged { OnErr result (reply.new ≡ reply.old) }
{
    let mut state = kept_state(identity, device)?;
    let process = process_of(process).ok_or(Fault::BadVariables)?;
    let mut chars = [Char::new(0, 0).unwrap(); MOST_CHARACTERS];
    let delivery = hear_into(heard, &mut chars)?;
    let said = state.hear(&chars[..delivery], &process);
    say_and_keep(said, &state, reply, device)
}

/// Writes the reply of a device in this state as [`say`] does, and then writes to `device` what the caller keeps of the device. With a
/// fault, `reply` and `device` are unchanged.
pub(crate) fn say_and_keep(
    said: Option<Frame>,
    state: &Device<ImageRegisters>,
    reply: &mut [u8],
    device: &mut HartDevice,
) -> Result<usize, Fault>
    ensures said { IfOk result (IsWritten (IsSaid said state.now.identity.response_preambles) reply.old reply.new) }
    ensures kept { IfOk result (λ len. device.new ≡ device_of state.now) }
    ensures refused { IfErr result (λ fault. (fault ≡ Fault.NoRoom)
        × HasNoRoom (IsSaid said state.now.identity.response_preambles) (length reply.old)) }
    ensures unchanged { OnErr result (reply.new ≡ reply.old) }
    ensures same { OnErr result (device.new ≡ device.old) }
    ensures device { IsDevice state.now }
{
    let len = say(said.as_ref(), state.response_preambles(), reply)?;
    keep(state, device);
    Ok(len)
}

/// Returns the device that the caller keeps, or the first fault of its checks.
pub(crate) fn kept_state(
    identity: &HartIdentity,
    device: &HartDevice,
) -> Result<Device<ImageRegisters>, Fault>
    ensures kept { IfOk result (IsKept (parts_of identity.now) device.now) }
    ensures refused { IfErr result (IsFirstOf (state_checks identity.now device.now)) }
{
    let identity = Identity::new(parts_of(identity)).map_err(Fault::Device)?;
    let image = device.image.get(..usize::from(device.image_len));
    let image = image.ok_or(Fault::Device(DeviceFault::BadLength))?;
    let mut state = Device::from_image(identity, image).map_err(Fault::Device)?;
    state.restore_cold_start(EachMaster {
        primary: device.primary_cold_start,
        secondary: device.secondary_cold_start,
    });
    Ok(state)
}

/// Writes to `device` what the caller keeps of a device in this state.
fn keep(state: &Device<ImageRegisters>, device: &mut HartDevice)
    ensures { device.new ≡ device_of state.now }
{
    let image = state.image();
    device.image.copy_from_slice(image.as_slice());
    device.image_len = image.len() as u8;
    device.primary_cold_start = state.cold_start(MasterId::Primary);
    device.secondary_cold_start = state.cold_start(MasterId::Secondary);
}

/// Writes the frame that a device or a master sends, as a message, to the front of `output`. Returns the length of the message, 0 if no
/// frame is sent, or a fault if `output` is too short.
pub(crate) fn say(said: Option<&Frame>, preambles: u8, output: &mut [u8]) -> Result<usize, Fault>
    requires { IsPreambleCount preambles }
    ensures said { IfOk result (IsWritten (IsSaid (option_map (λ frame. frame.now) said.entry) preambles) output.old output.new) }
    ensures refused { IfErr result (λ fault. (fault ≡ Fault.NoRoom)
        × HasNoRoom (IsSaid (option_map (λ frame. frame.now) said.entry) preambles) (length output.old)) }
    ensures unchanged { OnErr result (output.new ≡ output.old) }
{
    let Some(frame) = said else {
        return Ok(0);
    };
    let mut message = Message::new();
    encode(frame, preambles, &mut message).unwrap();
    put(message.as_slice(), output)
}
