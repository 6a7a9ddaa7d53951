//! Whether a frame that was found is the reply to a request.
ghost use Rattle.std.specs.Prelude.{◌≡◌, ◌↔◌, IfErr, IfOk, IsTrue, Ok, Result};
ghost use Rattle.hart_commands.specs.RequestData.{command_of};
ghost use Rattle.hart_commands.specs.declared.reply.Reply.{Reply};
ghost use Rattle.hart_commands.specs.declared.request.Request.{Request};
ghost use Rattle.hart_c.specs.Acceptance.{AcceptFrameOutcome, AcceptsFrame, IsJudged, MatchOutcome, accept_frame_checks, acceptance_of};
ghost use Rattle.hart_c.specs.Acceptance.{match_checks, match_of, request_frame_checks};
ghost use Rattle.hart_c.specs.declared.reason.Unaccepted.{Unaccepted};
ghost use Rattle.hart_c.specs.Faults.{AllPass, IsFirstOf};
ghost use Rattle.hart_c.specs.Numbers.{frame_in};
ghost use Rattle.hart_master.specs.Acceptance.{MatchesFrame};

use crate::encode::frame_of;
use crate::fault::{Fault, HART_OK};
use crate::frame::HartFrame;
use crate::master::{Asked, HartAcceptance, acceptance_of, asked_by, told_of};
use crate::reason::Unaccepted;
use hart_commands::Reply;
use hart_frame::Frame;
use hart_master::{is_request, matches, matches_frame};

/// Whether a frame is a reply to a request.
#[repr(C)]
#[derive(Clone, Copy)]
pub struct HartMatch {
    /// Whether the frame is a reply to the request.
    pub is_reply: bool,
    /// The number of the fault, or 0 if there is no fault.
    pub fault: u8,
}

/// Returns whether a frame is a reply to a request of any command: an ACK without expansion bytes that has the request's master, address
/// and command. Its payload is not read.
///
/// # Errors
///
/// The first of these that holds: a fault of the request's frame (as [`hart_encode`](crate::hart_encode) returns it), a frame that is no
/// request of a master, or a fault of the other frame.
#[unsafe(no_mangle)]
pub extern "C" fn hart_matches(request: &HartFrame, frame: &HartFrame) -> HartMatch
    ensures { MatchOutcome request.now frame.now result }
{
    match_of(is_match(request, frame))
}

/// Returns whether a master accepts a frame as the reply to the request that the master sent.
///
/// # Errors
///
/// The first of these that holds: a fault of the request as in [`hart_accept`](crate::hart_accept), or a fault of the frame.
#[unsafe(no_mangle)]
pub extern "C" fn hart_accept_frame(request: &HartFrame, frame: &HartFrame) -> HartAcceptance
    ensures { AcceptFrameOutcome request.now frame.now result }
{
    told_of(accept_frame(request, frame))
}

/// Returns whether a frame is the reply to a request, or the first fault of the checks.
fn is_match(request: &HartFrame, frame: &HartFrame) -> Result<bool, Fault>
    ensures passed { IfOk result (λ is. AllPass (match_checks request.now frame.now)) }
    ensures matches { IfOk result (λ is. IsTrue is ↔ MatchesFrame (frame_in request.now) (frame_in frame.now)) }
    ensures refused { IfErr result (IsFirstOf (match_checks request.now frame.now)) }
{
    let request = request_frame(request)?;
    let frame = frame_of(frame)?;
    Ok(matches_frame(&request, &frame))
}

/// Returns the frame that this `HartFrame` describes, if it is a request of a master, of any command. Otherwise returns the first fault of
/// the checks.
pub(crate) fn request_frame(request: &HartFrame) -> Result<Frame, Fault>
    ensures same { IfOk result (λ frame. frame ≡ frame_in request.now) }
    ensures passed { IfOk result (λ frame. AllPass (request_frame_checks request.now)) }
    ensures refused { IfErr result (IsFirstOf (request_frame_checks request.now)) }
{
    let frame = frame_of(request)?;
    if !is_request(&frame) {
        return Err(Fault::NoRequest);
    }
    Ok(frame)
}

/// Returns whether a frame is the reply to a request, or the fault, as a `HartMatch`.
fn match_of(is_reply: Result<bool, Fault>) -> HartMatch
    ensures { result ≡ match_of is_reply }
{
    match is_reply {
        Ok(is_reply) => HartMatch {
            is_reply,
            fault: HART_OK,
        },
        Err(fault) => HartMatch {
            is_reply: false,
            fault: fault.number(),
        },
    }
}

/// Judges a frame as the reply to a master's request. Returns the code and the status of the reply, or the reason why the frame is not
/// accepted, or the first fault.
fn accept_frame(request: &HartFrame, frame: &HartFrame) -> Result<HartAcceptance, Fault>
    ensures accepted { IfOk result (λ told. (said : Result Reply Unaccepted) × AcceptsFrame request.now frame.now said
        × (told ≡ acceptance_of (Ok said))) }
    ensures refused { IfErr result (IsFirstOf (accept_frame_checks request.now frame.now)) }
{
    let request = asked_by(request)?;
    let frame = frame_of(frame)?;
    Ok(judged(request, &frame))
}

/// Judges a frame as the reply to a master's request, and returns the result as a `HartAcceptance`. This is a separate call, so that the
/// parts of the reply take no stack while a delivery is searched.
#[inline(never)]
pub(crate) fn judged(asked: Asked, frame: &Frame) -> HartAcceptance
    ensures { (request : Request) → command_of request ≡ asked.command → (said : Result Reply Unaccepted)
        × IsJudged asked.master asked.address request frame.now said × (result ≡ acceptance_of (Ok said)) }
{
    acceptance_of(judge(asked, frame))
}

/// Returns the reply that a frame brings to a master's request, or the reason why the frame is not accepted.
fn judge(asked: Asked, frame: &Frame) -> Result<Reply, Unaccepted>
    ensures { (request : Request) → command_of request ≡ asked.command
        → IsJudged asked.master asked.address request frame.now result }
{
    if !matches(asked.master, asked.address, asked.command, frame) {
        return Err(Unaccepted::OtherFrame);
    }
    if frame.payload()[0] >= 128 {
        return Err(Unaccepted::CommunicationFaults);
    }
    Reply::read(frame.command(), frame.payload()).ok_or(Unaccepted::UnfitData)
}
