//! What arrives in a leg of the line, and what the device answers.
ghost use Rattle.std.specs.Prelude.{◌≡◌, ◌↔◌, IfErr, IfOk, IsTrue, Option, Some};
ghost use Rattle.std.specs.Option.{option_copied};
ghost use Rattle.hart_line.specs.world.Damage.{Arrives, ArrivesAmong, IsUndetected, IsUndetectedAmong, Reaches, ReachesAmong};
ghost use Rattle.hart_line.specs.world.Spoken.{SpokenFrame, frame_if};
ghost use Rattle.hart_line.specs.line.Leg.{AnswersTo, IsSent};

use crate::Heard;
use hart_device::{Device, Process, RegisterStore};
use hart_frame::{Char, Frame, LoneFrame, lone_frame};

/// What was heard has undetected damage.
#[derive(Clone, Copy)]
pub struct Undetected;

/// Returns the frame that was sent if it arrives in the leg, or `None` if no frame arrives. Returns [`Undetected`] as the error if another
/// frame or several frames are heard.
///
/// A clean leg is not searched for frames, because a message contains no frame but its own.
#[tactic(auto, using(crate::proofs::lemmas::line::Leg::message_arrives, crate::proofs::lemmas::line::Leg::nothing_arrives))]
pub fn arrived_in<'a>(
    heard: &Heard,
    sent: Option<&'a Frame>,
) -> Result<Option<&'a Frame>, Undetected>
    ensures arrives { IfOk result (λ arrived. (said : Option SpokenFrame) → IsSent (option_copied sent.entry) said
        → Arrives heard.now said (option_copied arrived)) }
    ensures undetected { IfErr result (λ damage. (said : Option SpokenFrame) → IsSent (option_copied sent.entry) said
        → IsUndetected heard.now said) }
{
    match heard {
        Heard::Clean => Ok(sent),
        Heard::Lost => Ok(None),
        Heard::Chars(chars) => arrived_among(chars.as_slice(), sent),
    }
}

/// Returns the frame that was sent if it arrives among the characters, or `None` if they have no frame. Returns [`Undetected`] as the error
/// if they have another frame or several frames.
pub fn arrived_among<'a>(
    chars: &[Char],
    sent: Option<&'a Frame>,
) -> Result<Option<&'a Frame>, Undetected>
    ensures arrives { IfOk result (λ arrived. ArrivesAmong chars.now (option_copied sent.entry) (option_copied arrived)) }
    ensures undetected { IfErr result (λ damage. IsUndetectedAmong chars.now (option_copied sent.entry)) }
{
    match lone_frame(chars) {
        LoneFrame::NoFrame => Ok(None),
        LoneFrame::Alone(found) if is_frame(sent, &found.frame) => Ok(sent),
        LoneFrame::Alone(_) | LoneFrame::Several => Err(Undetected),
    }
}

/// Lets the device hear the leg `up`, in which `sent` was sent. If the device answers, writes the answer to `reply` and returns true.
/// Returns [`Undetected`] as the error if the damage of the leg is undetected.
#[tactic(auto, using(crate::proofs::lemmas::line::Leg::nothing_reaches))]
pub fn answer_in<S: RegisterStore>(
    device: &mut Device<S>,
    up: &Heard,
    sent: Option<&Frame>,
    process: &Process,
    reply: &mut Frame,
) -> Result<bool, Undetected>
    ensures answers { IfOk result (λ is_answered. (said : Option SpokenFrame) → IsSent (option_copied sent.entry) said → AnswersTo
        (Reaches device.old.identity up.now said) device.old process.now (frame_if is_answered reply.new) device.new) }
    ensures undetected { IfErr result (λ damage. (said : Option SpokenFrame) → IsSent (option_copied sent.entry) said
        → IsUndetected up.now said) }
{
    match up {
        Heard::Clean => match sent {
            Some(frame) => Ok(device.receive_into(frame, process, reply)),
            None => Ok(false),
        },
        Heard::Lost => Ok(false),
        Heard::Chars(chars) => answer_among(device, chars.as_slice(), sent, process, reply),
    }
}

/// Lets the device hear these characters, when `sent` was sent. If the device answers, writes the answer to `reply` and returns true.
/// Returns [`Undetected`] as the error if the damage of the characters is undetected.
#[tactic(auto, using(crate::proofs::lemmas::line::Leg::answered_among))]
pub fn answer_among<S: RegisterStore>(
    device: &mut Device<S>,
    chars: &[Char],
    sent: Option<&Frame>,
    process: &Process,
    reply: &mut Frame,
) -> Result<bool, Undetected>
    ensures answers { IfOk result (λ is_answered. AnswersTo (ReachesAmong device.old.identity chars.now (option_copied sent.entry))
        device.old process.now (frame_if is_answered reply.new) device.new) }
    ensures undetected { IfErr result (λ damage. IsUndetectedAmong chars.now (option_copied sent.entry)) }
{
    if let Some(frame) = arrived_among(chars, sent)? {
        return Ok(device.receive_into(frame, process, reply));
    }
    let Some(answer) = device.reply_to_garbled(chars) else {
        return Ok(false);
    };
    *reply = answer;
    Ok(true)
}

/// Returns true if this frame was sent.
fn is_frame(sent: Option<&Frame>, frame: &Frame) -> bool
    ensures { IsTrue result ↔ (option_copied sent.entry ≡ Some frame.now) }
{
    match sent {
        Some(sent) => sent == frame,
        None => false,
    }
}
