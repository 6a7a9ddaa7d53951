//! What a master over frames does, call by call.
use super::*;

/// A call of a master with one request in hand.
enum Call<'a> {
    /// `sent`.
    Sent,
    /// `tick` with this number of character times.
    Tick(u8),
    /// `again`.
    Again,
    /// `receive` with the frame of this body.
    Receive(&'a [u8]),
}

/// A call, the event that it returns, and what is in hand afterwards. `sent` returns no event.
type Step<'a> = (Call<'a>, FrameEvent, Held);

/// Each step of a master with one retry and the reply limit 33, to which `ASKS_128` was submitted.
const RETRIED: &[Step] = &[
    (
        Call::Receive(ANSWERS_128),
        FrameEvent::Nothing,
        Held::Due(0),
    ),
    (Call::Tick(255), FrameEvent::Nothing, Held::Due(0)),
    (Call::Again, FrameEvent::Nothing, Held::Due(0)),
    (Call::Sent, FrameEvent::Nothing, Held::Awaiting(1, 0)),
    (Call::Sent, FrameEvent::Nothing, Held::Awaiting(1, 0)),
    (Call::Tick(30), FrameEvent::Nothing, Held::Awaiting(1, 30)),
    (
        Call::Receive(FAULTY_128),
        FrameEvent::Nothing,
        Held::Awaiting(1, 30),
    ),
    (Call::Tick(2), FrameEvent::Nothing, Held::Awaiting(1, 32)),
    (Call::Tick(1), FrameEvent::Retry, Held::Due(1)),
    (Call::Tick(255), FrameEvent::Nothing, Held::Due(1)),
    (Call::Sent, FrameEvent::Nothing, Held::Awaiting(2, 0)),
    (
        Call::Receive(TO_SECONDARY),
        FrameEvent::Nothing,
        Held::Awaiting(2, 0),
    ),
    (
        Call::Receive(ANSWERS_128),
        FrameEvent::Answered(2),
        Held::Answered(2),
    ),
    (
        Call::Receive(ANSWERS_128),
        FrameEvent::Nothing,
        Held::Answered(2),
    ),
    (Call::Tick(255), FrameEvent::Nothing, Held::Answered(2)),
    (Call::Sent, FrameEvent::Nothing, Held::Answered(2)),
    (Call::Again, FrameEvent::NoReply(2), Held::Empty),
    (Call::Again, FrameEvent::Nothing, Held::Empty),
    (Call::Sent, FrameEvent::Nothing, Held::Empty),
    (Call::Tick(255), FrameEvent::Nothing, Held::Empty),
    (Call::Receive(ANSWERS_128), FrameEvent::Nothing, Held::Empty),
];

/// Like `RETRIED`, but the caller ends the first wait, and no reply comes.
const GIVEN_UP: &[Step] = &[
    (Call::Sent, FrameEvent::Nothing, Held::Awaiting(1, 0)),
    (Call::Again, FrameEvent::Retry, Held::Due(1)),
    (Call::Sent, FrameEvent::Nothing, Held::Awaiting(2, 0)),
    (Call::Tick(200), FrameEvent::NoReply(2), Held::Empty),
];

/// Like `RETRIED`, but the device is busy at first.
const BUSY_AT_FIRST: &[Step] = &[
    (Call::Sent, FrameEvent::Nothing, Held::Awaiting(1, 0)),
    (
        Call::Receive(BUSY_128),
        FrameEvent::Answered(1),
        Held::Answered(1),
    ),
    (Call::Again, FrameEvent::Retry, Held::Due(1)),
    (Call::Sent, FrameEvent::Nothing, Held::Awaiting(2, 0)),
    (
        Call::Receive(ANSWERS_128),
        FrameEvent::Answered(2),
        Held::Answered(2),
    ),
];

/// Makes a call, and returns its event.
fn event_of(master: &mut FrameMaster, call: &Call) -> Result<FrameEvent, Fail> {
    Ok(match call {
        Call::Sent => {
            master.sent();
            FrameEvent::Nothing
        }
        Call::Tick(times) => master.tick(*times),
        Call::Again => master.again(),
        Call::Receive(body) => {
            let (frame, _) = decode(body)?;
            master.receive(&frame)
        }
    })
}

/// Whether a call returns the event of its step, and leaves in hand what the step says.
fn takes(master: &mut FrameMaster, step: &Step) -> Result<bool, Fail> {
    let (request, _) = decode(ASKS_128)?;
    let (call, want, held) = step;
    Ok(same(&event_of(master, call)?, want)? && shows(master, *held, &request)?)
}

/// Fails unless a master with one retry and the reply limit 33 takes each of these steps.
fn hold_steps(rt: &impl Eprint, steps: &[Step]) -> Result<(), Fail> {
    let mut master = FrameMaster::new(1, 33, FrameHand::Empty)?;
    hold_ok(rt, submits(&mut master, ASKS_128, None), "submission", 0)?;
    for (number, step) in steps.iter().enumerate() {
        hold_ok(rt, takes(&mut master, step), "row", number)?;
    }
    Ok(())
}

#[test]
fn a_request_frame_is_sent_again_and_answered(rt: HostRuntime) -> Result<(), Fail> {
    hold_steps(&rt, RETRIED)
}

#[test]
fn a_request_frame_is_given_up(rt: HostRuntime) -> Result<(), Fail> {
    hold_steps(&rt, GIVEN_UP)
}

#[test]
fn an_answered_request_frame_is_repeated(rt: HostRuntime) -> Result<(), Fail> {
    hold_steps(&rt, BUSY_AT_FIRST)
}
