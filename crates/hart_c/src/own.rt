//! A device with commands of its maker's own.
ghost use Rattle.std.specs.Prelude.{◌≡◌, IfErr, IfOk, IfSome, None, OnErr, length};
ghost use Rattle.hart_c.specs.Faults.{IsFirstOf};
ghost use Rattle.hart_c.specs.Numbers.{found_in};
ghost use Rattle.hart_c.specs.Own.{AnswerOutcome, AnswersOwn, AsksOwn, HearOwnOutcome, answer_checks, asks_listed};
ghost use Rattle.hart_c.specs.declared.frame.HartFrame.{HartFrame};

use crate::device::{HartDevice, hart_hear, kept_state, say_and_keep};
use crate::encode::frame_of;
use crate::fault::{Fault, HART_OK, HartOutcome};
use crate::find::HartChar;
use crate::frame::{HartFrame, show_frame};
use crate::heard::{MOST_CHARACTERS, hear_into};
use crate::identity::HartIdentity;
use crate::output::outcome_of;
use crate::process::{HartProcess, process_of};
use hart_device::{Device, ImageRegisters};
use hart_frame::{Char, Found, Frame, LoneFrame, lone_frame};
use hart_values::ResponseCode;

/// The maximum number of data bytes of a reply, besides its two status bytes.
const MOST_DATA: usize = 253;

/// The result of [`hart_hear_own`].
#[repr(C)]
#[derive(Clone, Copy)]
pub struct HartHearing {
    /// The length of the reply. It is 0 if the device is silent, if the request asks for a command of the maker's own, or if there is a
    /// fault.
    pub len: usize,
    /// Whether the delivery asks for a command of the maker's own.
    pub is_own: bool,
    /// The number of the fault, or 0 if there is no fault.
    pub fault: u8,
}

/// Does as [`hart_hear`](crate::hart_hear) does, except for a request to the device's unique address whose command is in `own` and is not
/// known to this library. Such a request is written to `asked`, and neither the device nor `reply` changes. The caller carries the request
/// out, and then calls [`hart_answer`].
///
/// # Errors
///
/// The faults of [`hart_hear`](crate::hart_hear). `device`, `asked` and `reply` are then unchanged.
#[unsafe(no_mangle)]
pub extern "C" fn hart_hear_own(
    identity: &HartIdentity,
    process: &HartProcess,
    own: &[u8],
    heard: &[HartChar],
    device: &mut HartDevice,
    asked: &mut HartFrame,
    reply: &mut [u8],
) -> HartHearing
    ensures { HearOwnOutcome identity.now process.now «own».now heard.now device.old device.new asked.old asked.new reply.old reply.new
        result }
{
    if let Some(found) = own_request(identity, process, own, heard, device) {
        show_frame(&found.frame, found.start as u64, found.stop as u64, asked);
        return HartHearing {
            len: 0,
            is_own: true,
            fault: HART_OK,
        };
    }
    let said = hart_hear(identity, process, heard, device, reply);
    HartHearing {
        len: said.len,
        is_own: false,
        fault: said.fault,
    }
}

/// Returns the frame of a delivery that asks for a command in the list `own`. Returns `None` if the delivery has no such frame, or if a
/// check of the device, the process or the delivery fails. This is a separate call, so that the delivery takes no stack while the device
/// hears it.
#[inline(never)]
fn own_request(
    identity: &HartIdentity,
    process: &HartProcess,
    own: &[u8],
    heard: &[HartChar],
    device: &HartDevice,
) -> Option<Found>
    ensures asks { (asked : HartFrame) → IfSome result (λ found. found_in asked ≡ found
        → AsksOwn identity.now process.now «own».now heard.now device.now asked) }
    ensures none { (result ≡ None) → (asked : HartFrame) → AsksOwn identity.now process.now «own».now heard.now device.now asked → ⊥ }
{
    let state = kept_state(identity, device).ok()?;
    process_of(process)?;
    let mut chars = [Char::new(0, 0).unwrap(); MOST_CHARACTERS];
    let delivery = hear_into(heard, &mut chars).ok()?;
    let LoneFrame::Alone(found) = lone_frame(&chars[..delivery]) else {
        return None;
    };
    if asks_listed(&state, own, &found.frame) {
        Some(found)
    } else {
        None
    }
}

/// Returns true if a frame asks for a command of the maker's own that is in the list `own`.
fn asks_listed(state: &Device<ImageRegisters>, own: &[u8], frame: &Frame) -> bool
    ensures { result ≡ asks_listed state.now «own».now frame.now }
{
    state.asks_own(frame) && own.contains(&frame.command())
}

/// Writes the reply to a request that the caller has carried out. The reply has this response code, the device status and these data. If
/// `is_write` is true, the command counts as a configuration write. Updates `device`, and returns the length of the message.
///
/// # Errors
///
/// The first of these that holds: a fault of the identity, a fault of the kept device, a process without dynamic variables or with more
/// than four, a fault of the frame, a frame that asks for no command of the maker's own of this device, a code above 127, more than 253
/// data bytes, or no room for the reply. `device` and `reply` are then unchanged.
#[unsafe(no_mangle)]
pub extern "C" fn hart_answer(
    identity: &HartIdentity,
    process: &HartProcess,
    asked: &HartFrame,
    code: u8,
    is_write: bool,
    data: &[u8],
    device: &mut HartDevice,
    reply: &mut [u8],
) -> HartOutcome
    ensures { AnswerOutcome identity.now process.now asked.now code is_write «data».now device.old device.new reply.old reply.new result }
{
    outcome_of(answer(
        identity, process, asked, code, is_write, data, device, reply,
    ))
}

/// Writes the reply to a request that the caller has carried out, and returns the length of the message, or the first fault.
fn answer(
    identity: &HartIdentity,
    process: &HartProcess,
    asked: &HartFrame,
    code: u8,
    is_write: bool,
    data: &[u8],
    device: &mut HartDevice,
    reply: &mut [u8],
) -> Result<usize, Fault>
    ensures answered { IfOk result (AnswersOwn identity.now process.now asked.now code is_write «data».now device.old device.new
        reply.old reply.new) }
    ensures refused { IfErr result (IsFirstOf (answer_checks identity.now process.now asked.now code is_write «data».now device.old
        (length reply.old))) }
    ensures kept { OnErr result (device.new ≡ device.old) }
    ensures unchanged { OnErr result (reply.new ≡ reply.old) }
{
    let mut state = kept_state(identity, device)?;
    let process = process_of(process).ok_or(Fault::BadVariables)?;
    let frame = frame_of(asked)?;
    if !state.asks_own(&frame) {
        return Err(Fault::NoRequest);
    }
    let Ok(code) = ResponseCode::new(code) else {
        return Err(Fault::BadCode);
    };
    if data.len() > MOST_DATA {
        return Err(Fault::TooLong);
    }
    let said = state.answer_own(&frame, &process, code, is_write, data);
    say_and_keep(Some(said), &state, reply, device)
}
