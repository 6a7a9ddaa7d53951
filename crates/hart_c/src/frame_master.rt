//! A master that the caller keeps as the frame in hand and five numbers.
ghost use Rattle.std.specs.Prelude.{◌≡◌, IfErr, IfOk, IfSome, IsSome, OnErr, length};
ghost use Rattle.hart_master.specs.FrameMaster.{FrameMasterState, event_again, event_ticked, hand_again, hand_received};
ghost use Rattle.hart_master.specs.FrameMaster.{IsReceived, hand_submitted, hand_ticked, sendings_of};
ghost use Rattle.hart_master.specs.declared.frame_hand.FrameHand.{FrameHand};
ghost use Rattle.hart_master.specs.declared.frame_hand.FrameTransaction.{FrameTransaction};
ghost use Rattle.hart_c.specs.Faults.{AllPass, IsFirstOf};
ghost use Rattle.hart_c.specs.FrameMaster.{AgainOutcome, Becomes, IsInHand, IsMaster, IsTransaction, NewMasterOutcome, ReceiveOutcome};
ghost use Rattle.hart_c.specs.FrameMaster.{SendOutcome, Sends, SubmitOutcome, TickOutcome, event_of, master_checks, receive_checks};
ghost use Rattle.hart_c.specs.FrameMaster.{send_checks, state_number, submit_checks, submit_fault, waited_in};
ghost use Rattle.hart_c.specs.Numbers.{frame_in};

use crate::device::say;
use crate::encode::frame_of;
use crate::fault::{Fault, HART_OK, HartOutcome, number_of_result};
use crate::frame::{HartFrame, NO_FRAME};
use crate::output::outcome_of;
use crate::reply::request_frame;
use hart_frame::{FrameFault, is_preamble_count};
use hart_master::{FrameEvent, FrameHand, FrameMaster, FrameTransaction, MasterFault};

/// No request is in hand.
pub const HART_IDLE: u8 = 0;

/// The request in hand is due to be sent.
pub const HART_DUE: u8 = 1;

/// The request in hand was sent, and its reply is awaited.
pub const HART_AWAITING: u8 = 2;

/// The request in hand was answered. The master takes a new request, or repeats the answered request.
pub const HART_ANSWERED: u8 = 3;

/// Nothing happened.
pub const HART_EVENT_NONE: u8 = 0;

/// The frame is the reply to the request in hand.
pub const HART_EVENT_ANSWERED: u8 = 1;

/// The request is due to be sent again.
pub const HART_EVENT_RETRY: u8 = 2;

/// The request was given up.
pub const HART_EVENT_GIVEN_UP: u8 = 3;

/// What the caller keeps of a master.
#[repr(C)]
#[derive(Clone, Copy)]
pub struct HartMaster {
    /// The request in hand. If `state` is [`HART_IDLE`], this field has no meaning.
    pub request: HartFrame,
    /// How often a request is sent again, at most 15.
    pub retries: u8,
    /// How many character times the master awaits a reply, at least 1.
    pub reply_limit: u8,
    /// Whether a request is in hand, and whether it is due, awaits its reply or was answered: [`HART_IDLE`] to [`HART_ANSWERED`].
    pub state: u8,
    /// How often the request in hand was sent.
    pub sendings: u8,
    /// How many character times passed since the request was sent; 255 means 255 or more. This number has a meaning only if `state` is
    /// [`HART_AWAITING`].
    pub waited: u8,
}

/// What happened to the request in hand during a call.
#[repr(C)]
#[derive(Clone, Copy)]
pub struct HartEvent {
    /// What happened, [`HART_EVENT_NONE`] to [`HART_EVENT_GIVEN_UP`].
    pub event: u8,
    /// If the request was answered or given up in this call, how often it was sent; otherwise 0.
    pub sendings: u8,
    /// The number of the fault, or 0 if there is no fault.
    pub fault: u8,
}

/// Writes to `master` a master with no request in hand. This master sends a request again at most `retries` times, and awaits each reply
/// for `reply_limit` character times. Returns 0 or the number of the fault.
///
/// # Errors
///
/// [`HART_BAD_MASTER`](crate::fault::HART_BAD_MASTER) if `retries` is above 15 or `reply_limit` is 0. `master` is then unchanged.
#[unsafe(no_mangle)]
pub extern "C" fn hart_new_master(retries: u8, reply_limit: u8, master: &mut HartMaster) -> u8
    ensures { NewMasterOutcome retries reply_limit master.old master.new result }
{
    let Ok(made) = FrameMaster::new(retries, reply_limit, FrameHand::Empty) else {
        return number_of_result(Err(Fault::BadMaster));
    };
    master.request = NO_FRAME;
    master.retries = retries;
    master.reply_limit = reply_limit;
    keep(&made, master);
    number_of_result(Ok(()))
}

/// Takes in hand a request of any command, to send it later. Returns 0 or the number of the fault.
///
/// # Errors
///
/// The first of these that holds: a bad kept master, a fault of the request's frame (as [`hart_encode`](crate::hart_encode) returns
/// it), a frame that is no request of a master, a request that is in hand already, or a known command that may not be sent to this
/// address. `master` is then unchanged.
#[unsafe(no_mangle)]
pub extern "C" fn hart_submit(request: &HartFrame, master: &mut HartMaster) -> u8
    ensures { SubmitOutcome request.now master.old master.new result }
{
    number_of_result(submit(request, master))
}

/// Takes in hand a request of any command, or returns the first fault.
fn submit(request: &HartFrame, master: &mut HartMaster) -> Result<(), Fault>
    ensures taken { IfOk result (λ done. AllPass (submit_checks request.now master.old) × (state : FrameMasterState)
        × Becomes master.old master.new request.now state (hand_submitted state.hand (frame_in request.now))) }
    ensures refused { IfErr result (IsFirstOf (submit_checks request.now master.old)) }
    ensures unchanged { OnErr result (master.new ≡ master.old) }
{
    let mut state = kept_master(master)?;
    let frame = request_frame(request)?;
    if let Err(rejected) = state.submit(frame) {
        return Err(fault_of(rejected.fault));
    }
    master.request = *request;
    keep(&state, master);
    Ok(())
}

/// Returns the fault in C of a request that a master did not take.
fn fault_of(fault: MasterFault) -> Fault
    ensures { result ≡ submit_fault fault }
{
    match fault {
        MasterFault::OutOfRange => Fault::NoRequest,
        MasterFault::Pending => Fault::Pending,
        MasterFault::WrongAddress => Fault::WrongAddress,
    }
}

/// Writes the request that is due as a message to the front of `output`, with this number of preamble bytes. The master then awaits the
/// reply. Returns the length of the message, or 0 if no request is due. An output of 287 bytes has room for any message.
///
/// # Errors
///
/// The first of these that holds: a bad kept master, a number of preamble bytes outside 5 to 20, or no room. `master` and `output` are
/// then unchanged, so the request is still due.
#[unsafe(no_mangle)]
pub extern "C" fn hart_send(
    preambles: u8,
    master: &mut HartMaster,
    output: &mut [u8],
) -> HartOutcome
    ensures { SendOutcome preambles master.old master.new output.old output.new result }
{
    outcome_of(send(preambles, master, output))
}

/// Writes the request that is due as a message. Returns the length of the message, or the first fault.
fn send(preambles: u8, master: &mut HartMaster, output: &mut [u8]) -> Result<usize, Fault>
    ensures sent { IfOk result (Sends preambles master.old master.new output.old output.new) }
    ensures refused { IfErr result (IsFirstOf (send_checks preambles master.old (length output.old))) }
    ensures kept { OnErr result (master.new ≡ master.old) }
    ensures unchanged { OnErr result (output.new ≡ output.old) }
{
    let mut state = kept_master(master)?;
    if !is_preamble_count(preambles) {
        return Err(Fault::Frame(FrameFault::BadPreamble));
    }
    let len = say(state.due(), preambles, output)?;
    state.sent();
    keep(&state, master);
    Ok(len)
}

/// Lets a master receive a frame that was found. If the frame is the awaited reply, the state is then [`HART_ANSWERED`].
///
/// # Errors
///
/// The first of these that holds: a bad kept master, or a fault of the frame. `master` is then unchanged.
#[unsafe(no_mangle)]
pub extern "C" fn hart_receive(frame: &HartFrame, master: &mut HartMaster) -> HartEvent
    ensures { ReceiveOutcome frame.now master.old master.new result }
{
    event_of(receive(frame, master))
}

/// Lets a master receive a frame. Returns what became of the request in hand, or the first fault.
fn receive(frame: &HartFrame, master: &mut HartMaster) -> Result<FrameEvent, Fault>
    ensures received { IfOk result (λ event. AllPass (receive_checks frame.now master.old) × (state : FrameMasterState)
        × Becomes master.old master.new master.old.request state (hand_received state.hand event)
        × IsReceived state.hand (frame_in frame.now) event) }
    ensures refused { IfErr result (IsFirstOf (receive_checks frame.now master.old)) }
    ensures unchanged { OnErr result (master.new ≡ master.old) }
{
    let mut state = kept_master(master)?;
    let frame = frame_of(frame)?;
    let event = state.receive(&frame);
    keep(&state, master);
    Ok(event)
}

/// Lets this number of character times pass, where 255 means 255 or more. If a reply is awaited and the time for the reply is over, the
/// request is due again, or the master gives the request up.
///
/// # Errors
///
/// [`HART_BAD_MASTER`](crate::fault::HART_BAD_MASTER) if the kept master is bad. `master` is then unchanged.
#[unsafe(no_mangle)]
pub extern "C" fn hart_tick(character_times: u8, master: &mut HartMaster) -> HartEvent
    ensures { TickOutcome character_times master.old master.new result }
{
    event_of(tick(character_times, master))
}

/// Lets this number of character times pass. Returns what became of the request in hand, or the fault of the kept master.
fn tick(character_times: u8, master: &mut HartMaster) -> Result<FrameEvent, Fault>
    ensures ticked { IfOk result (λ event. (state : FrameMasterState)
        × Becomes master.old master.new master.old.request state
        (hand_ticked state.retries state.reply_limit state.hand character_times)
        × (event ≡ event_ticked state.retries state.reply_limit state.hand character_times)) }
    ensures refused { IfErr result (IsFirstOf (master_checks master.old)) }
    ensures unchanged { OnErr result (master.new ≡ master.old) }
{
    let mut state = kept_master(master)?;
    let event = state.tick(character_times);
    keep(&state, master);
    Ok(event)
}

/// If a reply is awaited, ends the wait at once. If a request was answered, repeats this request. In both cases the request is due again,
/// or the master gives it up.
///
/// # Errors
///
/// [`HART_BAD_MASTER`](crate::fault::HART_BAD_MASTER) if the kept master is bad. `master` is then unchanged.
#[unsafe(no_mangle)]
pub extern "C" fn hart_again(master: &mut HartMaster) -> HartEvent
    ensures { AgainOutcome master.old master.new result }
{
    event_of(again(master))
}

/// Ends the wait for a reply, or repeats an answered request. Returns what became of the request in hand, or the fault of the kept master.
fn again(master: &mut HartMaster) -> Result<FrameEvent, Fault>
    ensures again { IfOk result (λ event. (state : FrameMasterState)
        × Becomes master.old master.new master.old.request state (hand_again state.retries state.hand)
        × (event ≡ event_again state.retries state.hand)) }
    ensures refused { IfErr result (IsFirstOf (master_checks master.old)) }
    ensures unchanged { OnErr result (master.new ≡ master.old) }
{
    let mut state = kept_master(master)?;
    let event = state.again();
    keep(&state, master);
    Ok(event)
}

/// Returns an event, or the fault, as a `HartEvent`.
fn event_of(event: Result<FrameEvent, Fault>) -> HartEvent
    ensures { result ≡ event_of event }
{
    let (event, sendings, fault) = match event {
        Ok(FrameEvent::Nothing) => (HART_EVENT_NONE, 0, HART_OK),
        Ok(FrameEvent::Answered(sendings)) => (HART_EVENT_ANSWERED, sendings, HART_OK),
        Ok(FrameEvent::Retry) => (HART_EVENT_RETRY, 0, HART_OK),
        Ok(FrameEvent::NoReply(sendings)) => (HART_EVENT_GIVEN_UP, sendings, HART_OK),
        Err(fault) => (HART_EVENT_NONE, 0, fault.number()),
    };
    HartEvent {
        event,
        sendings,
        fault,
    }
}

/// Returns the master that the caller keeps, or a fault if no master has these fields.
fn kept_master(master: &HartMaster) -> Result<FrameMaster, Fault>
    ensures kept { IfOk result (IsMaster master.now) }
    ensures refused { IfErr result (IsFirstOf (master_checks master.now)) }
{
    let hand = hand_in(master).ok_or(Fault::BadMaster)?;
    match FrameMaster::new(master.retries, master.reply_limit, hand) {
        Ok(kept) => Ok(kept),
        Err(_) => Err(Fault::BadMaster),
    }
}

/// Returns what a kept master has in hand, or `None` if its fields describe no such thing.
fn hand_in(master: &HartMaster) -> Option<FrameHand>
    ensures hand { IfSome result (IsInHand master.now) }
    ensures none { (hand : FrameHand) → IsInHand master.now hand → IsSome result }
{
    match master.state {
        HART_IDLE => Some(FrameHand::Empty),
        HART_DUE => Some(FrameHand::Due(transaction_in(master)?)),
        HART_AWAITING => Some(FrameHand::Awaiting(transaction_in(master)?, master.waited)),
        HART_ANSWERED => Some(FrameHand::Answered(transaction_in(master)?)),
        _ => None,
    }
}

/// Returns the request that a kept master has in hand, and how often it was sent, or `None` if the field `request` makes no frame.
fn transaction_in(master: &HartMaster) -> Option<FrameTransaction>
    ensures transaction { IfSome result (IsTransaction master.now) }
    ensures none { (transaction : FrameTransaction) → IsTransaction master.now transaction → IsSome result }
{
    let request = frame_of(&master.request).ok()?;
    Some(FrameTransaction {
        request,
        sendings: master.sendings,
    })
}

/// Copies to `master` the state, the number of sendings and the time waited of the master `state`. The request and the limits of `master`
/// stay the same.
fn keep(state: &FrameMaster, master: &mut HartMaster)
    ensures { master.new ≡ record master.old {
      state = state_number state.now.hand;
      sendings = sendings_of state.now.hand;
      waited = waited_in state.now.hand;
    } }
{
    let (number, sendings, waited) = match state.hand() {
        FrameHand::Empty => (HART_IDLE, 0, 0),
        FrameHand::Due(transaction) => (HART_DUE, transaction.sendings, 0),
        FrameHand::Awaiting(transaction, waited) => (HART_AWAITING, transaction.sendings, *waited),
        FrameHand::Answered(transaction) => (HART_ANSWERED, transaction.sendings, 0),
    };
    master.state = number;
    master.sendings = sendings;
    master.waited = waited;
}
