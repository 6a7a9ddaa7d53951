use hart_frame::{Frame, decode};
use hart_master::*;
use hart_rows::{hold_ok, hold_same, same};
use std::test::Fail;

mod steps;

/// Bodies of requests of the primary master: Command 128 to the device, Commands 33, 0 and 19 to polling address 0, and Command 19 to the
/// device. Commands 128 and 33 are unknown.
const ASKS_128: &[u8] = &[0x82, 0xB7, 0x42, 0x0A, 0x1B, 0x2C, 0x80, 0x00, 0xCA];

const POLLS_33: &[u8] = &[0x02, 0x80, 0x21, 0x01, 0x00, 0xA2];

const POLLS_0: &[u8] = &[0x02, 0x80, 0x00, 0x00, 0x82];

const POLLS_19: &[u8] = &[0x02, 0x80, 0x13, 0x03, 0x01, 0x23, 0x45, 0xF5];

const WRITES_19: &[u8] = &[
    0x82, 0xB7, 0x42, 0x0A, 0x1B, 0x2C, 0x13, 0x03, 0x01, 0x23, 0x45, 0x3D,
];

/// Requests by broadcast, of Commands 128, 0 and 11.
const ALL_128: &[u8] = &[0x82, 0x80, 0x00, 0x00, 0x00, 0x00, 0x80, 0x00, 0x82];

const ALL_0: &[u8] = &[0x82, 0x80, 0x00, 0x00, 0x00, 0x00, 0x00, 0x00, 0x02];

const ALL_11: &[u8] = &[
    0x82, 0x80, 0x00, 0x00, 0x00, 0x00, 0x0B, 0x06, 0x41, 0x53, 0x50, 0xB7, 0x1C, 0x31, 0xD7,
];

/// Frames like `ASKS_128` that no master sends: one with the burst bit, and one with an expansion byte.
const BURST_ASKS: &[u8] = &[0x82, 0xF7, 0x42, 0x0A, 0x1B, 0x2C, 0x80, 0x00, 0x8A];

const EXPANDED_ASKS: &[u8] = &[0xA2, 0xB7, 0x42, 0x0A, 0x1B, 0x2C, 0x55, 0x80, 0x00, 0xBF];

/// The device's reply to `ASKS_128`. Then frames that differ from this reply in one way. They have another master, command or device id,
/// the burst bit, an expansion byte, communication faults, or response code 32 without data.
const ANSWERS_128: &[u8] = &[
    0x86, 0xB7, 0x42, 0x0A, 0x1B, 0x2C, 0x80, 0x03, 0x00, 0x40, 0x55, 0xD8,
];

const TO_SECONDARY: &[u8] = &[
    0x86, 0x37, 0x42, 0x0A, 0x1B, 0x2C, 0x80, 0x03, 0x00, 0x40, 0x55, 0x58,
];

const ANSWERS_129: &[u8] = &[
    0x86, 0xB7, 0x42, 0x0A, 0x1B, 0x2C, 0x81, 0x03, 0x00, 0x40, 0x55, 0xD9,
];

const FROM_OTHER: &[u8] = &[
    0x86, 0xB7, 0x42, 0x0A, 0x1B, 0x2D, 0x80, 0x03, 0x00, 0x40, 0x55, 0xD9,
];

const BURST_ANSWERS: &[u8] = &[
    0x86, 0xF7, 0x42, 0x0A, 0x1B, 0x2C, 0x80, 0x03, 0x00, 0x40, 0x55, 0x98,
];

const EXPANDED_ANSWERS: &[u8] = &[
    0xA6, 0xB7, 0x42, 0x0A, 0x1B, 0x2C, 0x55, 0x80, 0x03, 0x00, 0x40, 0x55, 0xAD,
];

const FAULTY_128: &[u8] = &[
    0x86, 0xB7, 0x42, 0x0A, 0x1B, 0x2C, 0x80, 0x02, 0x88, 0x00, 0x44,
];

const BUSY_128: &[u8] = &[
    0x86, 0xB7, 0x42, 0x0A, 0x1B, 0x2C, 0x80, 0x02, 0x20, 0x00, 0xEC,
];

/// Replies to `POLLS_33`, from polling address 0 and from polling address 1.
const ANSWERS_33: &[u8] = &[0x06, 0x80, 0x21, 0x03, 0x00, 0x40, 0x00, 0xE4];

const POLLED_1: &[u8] = &[0x06, 0x81, 0x21, 0x03, 0x00, 0x40, 0x00, 0xE5];

/// Replies to `WRITES_19`: with the assembly number, with a byte too few, and with communication faults.
const WRITTEN_19: &[u8] = &[
    0x86, 0xB7, 0x42, 0x0A, 0x1B, 0x2C, 0x13, 0x05, 0x00, 0x40, 0x01, 0x23, 0x45, 0x7F,
];

const SHORT_19: &[u8] = &[
    0x86, 0xB7, 0x42, 0x0A, 0x1B, 0x2C, 0x13, 0x04, 0x00, 0x40, 0x01, 0x23, 0x3B,
];

const FAULTY_19: &[u8] = &[
    0x86, 0xB7, 0x42, 0x0A, 0x1B, 0x2C, 0x13, 0x02, 0x88, 0x00, 0xD7,
];

/// What a master has in hand, without regard to the frame.
#[derive(Clone, Copy, Debug, PartialEq, Eq)]
enum Held {
    Empty,
    /// A request that is due, and was sent this number of times.
    Due(u8),
    /// A request that was sent this number of times and awaits its reply, and how many character times have passed since.
    Awaiting(u8, u8),
    /// A request that was sent this number of times and was answered.
    Answered(u8),
}

/// Returns the request of this body, sent this number of times.
fn transaction_of(body: &[u8], sendings: u8) -> Result<FrameTransaction, Fail> {
    let (request, _) = decode(body)?;
    Ok(FrameTransaction { request, sendings })
}

/// Returns what is in hand, with the frame of this body.
fn hand_of(held: Held, body: &[u8]) -> Result<FrameHand, Fail> {
    Ok(match held {
        Held::Empty => FrameHand::Empty,
        Held::Due(sendings) => FrameHand::Due(transaction_of(body, sendings)?),
        Held::Awaiting(sendings, time) => {
            FrameHand::Awaiting(transaction_of(body, sendings)?, time)
        }
        Held::Answered(sendings) => FrameHand::Answered(transaction_of(body, sendings)?),
    })
}

/// Returns the frame in hand, if there is one.
fn frame_in(hand: &FrameHand) -> Option<&Frame> {
    match hand {
        FrameHand::Empty => None,
        FrameHand::Due(it) | FrameHand::Awaiting(it, _) | FrameHand::Answered(it) => {
            Some(&it.request)
        }
    }
}

/// Returns what is in hand, without regard to the frame.
fn held_in(hand: &FrameHand) -> Held {
    match hand {
        FrameHand::Empty => Held::Empty,
        FrameHand::Due(it) => Held::Due(it.sendings),
        FrameHand::Awaiting(it, time) => Held::Awaiting(it.sendings, *time),
        FrameHand::Answered(it) => Held::Answered(it.sendings),
    }
}

/// Whether the functions of a master show that `held` is in hand, with this request.
fn shows(master: &FrameMaster, held: Held, request: &Frame) -> Result<bool, Fail> {
    let has_frame = held != Held::Empty;
    let is_due = matches!(held, Held::Due(_));
    let is_idle = matches!(held, Held::Empty | Held::Answered(_));
    Ok(
        same(&held_in(master.hand()), &held)?
            && same(&frame_in(master.hand()), &has_frame.then_some(request))?
            && same(&master.due(), &is_due.then_some(request))?
            && same(&master.is_idle(), &is_idle)?,
    )
}

/// A number of retries, a reply limit, and the fault with which a master refuses these numbers, if any.
const LIMITS: &[(u8, u8, Option<MasterFault>)] = &[
    (0, 1, None),
    (15, 255, None),
    (16, 33, Some(MasterFault::OutOfRange)),
    (3, 0, Some(MasterFault::OutOfRange)),
];

#[test]
fn frame_masters_have_limits(rt: HostRuntime) -> Result<(), Fail> {
    for (row, (retries, reply_limit, want)) in LIMITS.iter().enumerate() {
        let made = FrameMaster::new(*retries, *reply_limit, FrameHand::Empty);
        hold_same(&rt, &made.err(), want, "row", row)?;
    }
    Ok(())
}

/// A number of retries, what is in hand, and whether a master with these retries may have that in hand.
const HANDS: &[(u8, Held, bool)] = &[
    (3, Held::Empty, true),
    (0, Held::Due(0), true),
    (0, Held::Due(1), false),
    (15, Held::Due(15), true),
    (3, Held::Awaiting(0, 0), false),
    (0, Held::Awaiting(1, 0), true),
    (0, Held::Awaiting(2, 0), false),
    (15, Held::Awaiting(16, 255), true),
    (3, Held::Answered(0), false),
    (3, Held::Answered(4), true),
    (3, Held::Answered(5), false),
];

/// Whether a master with the retries and the hand of a row is made or refused, as the row says.
fn is_made_or_refused(row: &(u8, Held, bool)) -> Result<bool, Fail> {
    let (retries, held, is_made) = *row;
    let (request, _) = decode(ASKS_128)?;
    match FrameMaster::new(retries, 33, hand_of(held, ASKS_128)?) {
        Ok(master) => Ok(is_made && shows(&master, held, &request)?),
        Err(fault) => Ok(!is_made && same(&fault, &MasterFault::OutOfRange)?),
    }
}

#[test]
fn frame_masters_begin_with_what_is_in_hand(rt: HostRuntime) -> Result<(), Fail> {
    for (number, row) in HANDS.iter().enumerate() {
        hold_ok(&rt, is_made_or_refused(row), "row", number)?;
    }
    Ok(())
}

/// Bodies, and whether each is the request of a master.
const REQUESTS: &[(&[u8], bool)] = &[
    (ASKS_128, true),
    (POLLS_0, true),
    (BURST_ASKS, false),
    (EXPANDED_ASKS, false),
    (ANSWERS_128, false),
];

/// Whether a body counts as a request, and a master takes it in hand, exactly if the row says so.
fn is_told_and_taken(row: &(&[u8], bool)) -> Result<bool, Fail> {
    let (body, want) = *row;
    let (frame, _) = decode(body)?;
    let made = FrameMaster::new(1, 33, hand_of(Held::Due(0), body)?);
    Ok(same(&is_request(&frame), &want)? && same(&made.is_ok(), &want)?)
}

#[test]
fn requests_of_a_master_are_told_from_other_frames(rt: HostRuntime) -> Result<(), Fail> {
    for (number, row) in REQUESTS.iter().enumerate() {
        hold_ok(&rt, is_told_and_taken(row), "row", number)?;
    }
    Ok(())
}

/// Bodies of requests, each with the fault with which an idle master refuses the request, if any.
const SUBMISSIONS: &[(&[u8], Option<MasterFault>)] = &[
    (ASKS_128, None),
    (POLLS_33, None),
    (ALL_128, None),
    (WRITES_19, None),
    (POLLS_0, None),
    (POLLS_19, Some(MasterFault::WrongAddress)),
    (ALL_11, None),
    (ALL_0, Some(MasterFault::WrongAddress)),
];

/// Whether a master takes this request, or returns it with the fault `want`.
fn submits(master: &mut FrameMaster, body: &[u8], want: Option<MasterFault>) -> Result<bool, Fail> {
    let (request, _) = decode(body)?;
    let (again, _) = decode(body)?;
    if !is_request(&request) {
        return Err(Fail::new(format_args!("no request")));
    }
    match master.submit(request) {
        Ok(()) => same(&None, &want),
        Err(rejected) => {
            Ok(same(&Some(rejected.fault), &want)? && same(&rejected.request, &again)?)
        }
    }
}

/// Whether a master with `held` in hand takes or refuses a request as its row says. A refusal changes nothing. Once a request is taken,
/// another request is refused.
fn is_taken_or_refused(held: Held, row: &(&[u8], Option<MasterFault>)) -> Result<bool, Fail> {
    let (body, want) = *row;
    let mut master = FrameMaster::new(3, 41, hand_of(held, ASKS_128)?)?;
    let is_submitted = submits(&mut master, body, want)?;
    if want.is_some() {
        let (request, _) = decode(ASKS_128)?;
        return Ok(is_submitted && shows(&master, held, &request)?);
    }
    let (request, _) = decode(body)?;
    Ok(
        is_submitted
            && shows(&master, Held::Due(0), &request)?
            && submits(&mut master, WRITES_19, Some(MasterFault::Pending))?
            && shows(&master, Held::Due(0), &request)?,
    )
}

#[test]
fn one_request_frame_is_taken(rt: HostRuntime) -> Result<(), Fail> {
    for (number, row) in SUBMISSIONS.iter().enumerate() {
        hold_ok(&rt, is_taken_or_refused(Held::Empty, row), "row", number)?;
        hold_ok(
            &rt,
            is_taken_or_refused(Held::Answered(2), row),
            "answered, row",
            number,
        )?;
    }
    Ok(())
}

/// What a master that is not idle can have in hand.
const BUSY: &[Held] = &[Held::Due(0), Held::Due(3), Held::Awaiting(1, 32)];

#[test]
fn a_busy_master_refuses_each_request(rt: HostRuntime) -> Result<(), Fail> {
    for held in BUSY {
        for (number, (body, _)) in SUBMISSIONS.iter().enumerate() {
            let row = (*body, Some(MasterFault::Pending));
            hold_ok(&rt, is_taken_or_refused(*held, &row), "row", number)?;
        }
    }
    Ok(())
}

/// What a frame is to a request.
#[derive(Clone, Copy, PartialEq, Eq)]
enum Is {
    /// No answer to the request.
    Other,
    /// An answer that is not accepted.
    Answer,
    /// An answer that is accepted.
    Reply,
}

/// Bodies of a request and of a frame, and what the frame is to the request.
const HEARD: &[(&[u8], &[u8], Is)] = &[
    (ASKS_128, ANSWERS_128, Is::Reply),
    (ASKS_128, BURST_ANSWERS, Is::Reply),
    (ASKS_128, BUSY_128, Is::Reply),
    (ASKS_128, FAULTY_128, Is::Answer),
    (ASKS_128, TO_SECONDARY, Is::Other),
    (ASKS_128, ANSWERS_129, Is::Other),
    (ASKS_128, FROM_OTHER, Is::Other),
    (ASKS_128, EXPANDED_ANSWERS, Is::Other),
    (ASKS_128, ASKS_128, Is::Other),
    (ASKS_128, WRITTEN_19, Is::Other),
    (POLLS_33, ANSWERS_33, Is::Reply),
    (POLLS_33, POLLED_1, Is::Other),
    (WRITES_19, WRITTEN_19, Is::Reply),
    (WRITES_19, SHORT_19, Is::Answer),
    (WRITES_19, FAULTY_19, Is::Answer),
    (WRITES_19, ANSWERS_128, Is::Other),
];

/// Whether a frame answers the request, and whether a master that awaits the reply accepts it, as the row says.
fn is_heard(row: &(&[u8], &[u8], Is)) -> Result<bool, Fail> {
    let (asks, body, want) = *row;
    let (request, _) = decode(asks)?;
    let (frame, _) = decode(body)?;
    let mut master = FrameMaster::new(3, 41, hand_of(Held::Awaiting(4, 40), asks)?)?;
    let (event, held) = if want == Is::Reply {
        (FrameEvent::Answered(4), Held::Answered(4))
    } else {
        (FrameEvent::Nothing, Held::Awaiting(4, 40))
    };
    let answers = matches(
        request.master(),
        request.address(),
        request.command(),
        &frame,
    );
    Ok(
        same(&matches_frame(&request, &frame), &(want != Is::Other))?
            && same(&answers, &(want != Is::Other))?
            && same(&master.receive(&frame), &event)?
            && shows(&master, held, &request)?,
    )
}

#[test]
fn replies_to_request_frames_are_accepted(rt: HostRuntime) -> Result<(), Fail> {
    for (number, row) in HEARD.iter().enumerate() {
        hold_ok(&rt, is_heard(row), "row", number)?;
    }
    Ok(())
}
