//! What a master accepts as a reply.
ghost use Rattle.std.specs.Prelude.{◌≡◌, ◌<◌, ◌^◌, [], ◌∷◌, true, false, Err, IfErr, IfOk, Ok, OnErr, Result, map, option_and_then};
ghost use Rattle.hart_values.specs.declared.{address.Address.Address, master_id.MasterId.MasterId};
ghost use Rattle.hart_frame.specs.heard.Frames.{AreFrames};
ghost use Rattle.hart_commands.specs.ReplyData.{reply_reading};
ghost use Rattle.hart_commands.specs.declared.reply.Reply.{Reply};
ghost use Rattle.hart_commands.specs.declared.request.Request.{Request};
ghost use Rattle.hart_c.specs.Acceptance.{IsAsked, acceptance_of, asked_in, request_checks};
ghost use Rattle.hart_c.specs.Faults.{AllPass, IsFirstOf};
ghost use Rattle.hart_c.specs.Find.{HaveFaultBits, char_of};
ghost use Rattle.hart_c.specs.Master.{AcceptOutcome, Accepts, IsUnaccepted, accept_checks, given_of};
ghost use Rattle.hart_c.specs.Messages.{IsFrame};
ghost use Rattle.hart_c.specs.Numbers.{IsTidy, found_in, frame_in};
ghost use Rattle.hart_c.specs.declared.reason.Unaccepted.{Unaccepted};
ghost use Rattle.hart_master.specs.Pairing.{may_ask};
ghost use Rattle.hart_master.specs.Unique.{unique_in};

use crate::encode::frame_of;
use crate::fault::{Fault, HART_OK};
use crate::find::{HartChar, hart_find};
use crate::frame::{HartFrame, NO_FRAME};
use crate::heard::check_heard;
use crate::reason::{HART_NO_REASON, Unaccepted};
use crate::reply::judged;
use hart_commands::{Reply, Request};
use hart_frame::Frame;
use hart_master::{is_request, may_ask, unique_of};
use hart_values::{Address, MasterId};

/// The result of judging a delivery or a frame as the reply to a request.
#[repr(C)]
#[derive(Clone, Copy)]
pub struct HartAcceptance {
    /// Whether a reply to the request was accepted.
    pub is_accepted: bool,
    /// The response code of the accepted reply, where 0 is success. It is also 0 if no reply was accepted.
    pub code: u8,
    /// The device status of the accepted reply; 0 if no reply was accepted.
    pub status: u8,
    /// The number of the fault, or 0 if there is no fault.
    pub fault: u8,
    /// The number of the reason why no reply was accepted; 0 if a reply was accepted, or if there is a fault.
    pub reason: u8,
}

/// The unique address in a reply.
#[repr(C)]
#[derive(Clone, Copy)]
pub struct HartUnique {
    /// Whether the reply has a unique address.
    pub is_given: bool,
    /// The expanded device type, at most 16,383; 0 if there is no unique address.
    pub expanded_type: u16,
    /// The device id, at most 16,777,215; 0 if there is no unique address.
    pub device_id: u32,
}

/// The `HartUnique` of a reply that has no unique address.
const NO_ADDRESS: HartUnique = HartUnique {
    is_given: false,
    expanded_type: 0,
    device_id: 0,
};

/// Returns whether a master accepts a delivery as the reply to the request that the master sent. A delivery is all that was heard at once.
/// If the delivery is accepted, the frame of the reply and its place are written to `reply`.
///
/// # Errors
///
/// The first of these that holds: a fault of the frame (as [`hart_encode`](crate::hart_encode) returns it), a frame that is no request of a
/// master, a request that may not be sent to its address, or a fault of the characters. `reply` is then unchanged.
#[unsafe(no_mangle)]
pub extern "C" fn hart_accept(
    request: &HartFrame,
    heard: &[HartChar],
    reply: &mut HartFrame,
) -> HartAcceptance
    ensures { AcceptOutcome request.now heard.now reply.old reply.new result }
{
    told_of(accept(request, heard, reply))
}

/// Returns whether a reply was accepted, or the fault, as a `HartAcceptance`.
pub(crate) fn told_of(told: Result<HartAcceptance, Fault>) -> HartAcceptance
    ensures told { IfOk told (λ told. result ≡ told) }
    ensures fault { IfErr told (λ fault. result ≡ acceptance_of (Err fault)) }
{
    match told {
        Ok(told) => told,
        Err(fault) => not_accepted(fault.number(), HART_NO_REASON),
    }
}

/// Returns an accepted reply, or the reason why none was accepted, as a `HartAcceptance`.
pub(crate) fn acceptance_of(accepted: Result<Reply, Unaccepted>) -> HartAcceptance
    ensures { result ≡ acceptance_of (Ok accepted) }
{
    match accepted {
        Ok(said) => HartAcceptance {
            is_accepted: true,
            code: said.code.value(),
            status: said.status.0,
            fault: HART_OK,
            reason: HART_NO_REASON,
        },
        Err(reason) => not_accepted(HART_OK, reason.number()),
    }
}

/// Returns the result of a call that accepted no reply, with this fault and this reason. `fault` is 0 if the call had no fault.
fn not_accepted(fault: u8, reason: u8) -> HartAcceptance
    ensures { result ≡ record { is_accepted = false; code = 0; status = 0; fault = fault; reason = reason } }
{
    HartAcceptance {
        is_accepted: false,
        code: 0,
        status: 0,
        fault,
        reason,
    }
}

/// Judges a delivery as the reply to a request, and writes the frame of an accepted reply to `reply`. Returns the result, or the first
/// fault.
fn accept(
    request: &HartFrame,
    heard: &[HartChar],
    reply: &mut HartFrame,
) -> Result<HartAcceptance, Fault>
    ensures accepted { IfOk result (λ told. (said : Result Reply Unaccepted)
        × Accepts request.now heard.now reply.old reply.new said × (told ≡ acceptance_of (Ok said))) }
    ensures refused { IfErr result (IsFirstOf (accept_checks request.now heard.now)) }
    ensures unchanged { OnErr result (reply.new ≡ reply.old) }
{
    let request = asked_by(request)?;
    check_heard(heard)?;
    let mut found = NO_FRAME;
    if let Err(reason) = find_alone(heard, &mut found) {
        return Ok(acceptance_of(Err(reason)));
    }
    let frame = frame_of(&found)?;
    let told = judged(request, &frame);
    if !told.is_accepted {
        return Ok(told);
    }
    *reply = found;
    Ok(told)
}

/// Writes the only frame of a delivery to `frame`, or returns why there is no such frame. This is a separate call, so that the frames of
/// the search take no stack while the found frame is judged.
#[inline(never)]
fn find_alone(heard: &[HartChar], frame: &mut HartFrame) -> Result<(), Unaccepted>
    requires { HaveFaultBits heard.now }
    ensures alone { IfOk result (λ done. AreFrames (map char_of heard.now) 0 (found_in frame.new ∷ [])) }
    ensures tidy { IfOk result (λ done. IsTidy frame.new × IsFrame frame.new) }
    ensures none { (id : MasterId) (address : Address) (request : Request)
        → IfErr result (IsUnaccepted id address request (map char_of heard.now)) }
{
    let mut frames = [NO_FRAME; 2];
    let count = hart_find(heard, true, &mut frames).count;
    if count == 0 {
        return Err(Unaccepted::NoFrame);
    }
    if count > 1 {
        return Err(Unaccepted::SeveralFrames);
    }
    *frame = frames[0];
    Ok(())
}

/// The parts of a request by which its reply is recognized. This struct is small, so that it costs little stack.
#[derive(Clone, Copy)]
pub(crate) struct Asked {
    /// The master that sent the request.
    pub master: MasterId,
    /// The address of the request.
    pub address: Address,
    /// The command of the request.
    pub command: u8,
}

/// Returns the master, the address and the command of a request, or the first fault of the request.
pub(crate) fn asked_by(request: &HartFrame) -> Result<Asked, Fault>
    ensures same { IfOk result (λ asked. asked ≡ asked_in (frame_in request.now)) }
    ensures passed { IfOk result (λ asked. AllPass (request_checks request.now)) }
    ensures refused { IfErr result (IsFirstOf (request_checks request.now)) }
{
    let frame = frame_of(request)?;
    let asked = request_in(&frame)?;
    if !may_ask(frame.address(), &asked) {
        return Err(Fault::WrongAddress);
    }
    Ok(Asked {
        master: frame.master(),
        address: frame.address(),
        command: frame.command(),
    })
}

/// Returns the request that a master sends with this frame, or the fault `NoRequest` if the frame is no request of a master.
fn request_in(frame: &Frame) -> Result<Request, Fault>
    ensures asked { IfOk result (IsAsked frame.now) }
    ensures refused { IfErr result (λ fault. (fault ≡ Fault.NoRequest) × ((request : Request) → IsAsked frame.now request → ⊥)) }
{
    if !is_request(frame) {
        return Err(Fault::NoRequest);
    }
    match Request::read(frame.command(), frame.payload()) {
        Ok(request) => Ok(request),
        Err(_) => Err(Fault::NoRequest),
    }
}

/// Returns the unique address in the payload of a reply to this command. A reply has a unique address if its code is 0 and it has an
/// identity whose address is not the broadcast address. Replies to Commands 0, 11 and 21 have an identity.
#[unsafe(no_mangle)]
pub extern "C" fn hart_unique_of(command: u8, payload: &[u8]) -> HartUnique
    ensures given { result ≡ given_of (option_and_then unique_in (reply_reading command payload.now)) }
    ensures expanded_type { result.expanded_type < 2 ^ 14 }
    ensures device_id { result.device_id < 2 ^ 24 }
{
    let Some(reply) = Reply::read(command, payload) else {
        return given_of(None);
    };
    given_of(unique_of(&reply))
}

/// Returns a unique address as a `HartUnique`, or `NO_ADDRESS` if there is no unique address.
fn given_of(address: Option<Address>) -> HartUnique
    ensures given { result ≡ given_of address }
    ensures expanded_type { result.expanded_type < 2 ^ 14 }
    ensures device_id { result.device_id < 2 ^ 24 }
{
    let Some(address) = address else {
        return NO_ADDRESS;
    };
    match address {
        Address::Polling(_) => NO_ADDRESS,
        Address::Unique(unique) => HartUnique {
            is_given: true,
            expanded_type: unique.expanded_type(),
            device_id: unique.device_id(),
        },
    }
}
