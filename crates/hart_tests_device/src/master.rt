use crate::chars::write_faultless;
use hart_commands::{Reply, ReplyContent, Request};
use hart_frame::{Char, Frame, decode};
use hart_master::*;
use hart_rows::{has_text, hold_ok, hold_same, same};
use hart_values::{Address, MasterId};
use std::test::Fail;

/// Each fault, its number and its text.
const FAULTS: &[(MasterFault, u8, &str)] = &[
    (MasterFault::OutOfRange, 1, "out of range"),
    (MasterFault::Pending, 2, "a request is pending"),
    (MasterFault::WrongAddress, 3, "wrong address"),
];

#[test]
fn faults_have_numbers_and_texts(rt: HostRuntime) -> Result<(), Fail> {
    for (row, (fault, number, text)) in FAULTS.iter().enumerate() {
        hold_same(&rt, &fault.number(), number, "the number of row", row)?;
        hold_ok(&rt, has_text(rt.alloc(), fault, text), "row", row)?;
    }
    Ok(())
}

#[test]
fn rejected_requests_have_the_text_of_the_fault(rt: HostRuntime) -> Result<(), Fail> {
    for (row, (fault, _, text)) in FAULTS.iter().enumerate() {
        let rejected = Rejected {
            fault: *fault,
            request: Request::Identify,
        };
        hold_ok(&rt, has_text(rt.alloc(), &rejected, text), "row", row)?;
    }
    Ok(())
}

/// A number of retries, a reply limit, and the fault with which a master refuses these numbers, if any.
const LIMITS: &[(u8, u8, Option<MasterFault>)] = &[
    (0, 1, None),
    (15, 255, None),
    (16, 33, Some(MasterFault::OutOfRange)),
    (3, 0, Some(MasterFault::OutOfRange)),
];

#[test]
fn masters_have_limits(rt: HostRuntime) -> Result<(), Fail> {
    for (row, (retries, reply_limit, want)) in LIMITS.iter().enumerate() {
        let made = Master::new(MasterId::Primary, *retries, *reply_limit);
        hold_same(&rt, &made.err(), want, "row", row)?;
    }
    Ok(())
}

/// The address bytes of a polling address. Below are the address bytes of a device, and of broadcast.
const POLLING: &[u8] = &[0x80];

const DEVICE: &[u8] = &[0xB7, 0x42, 0x0A, 0x1B, 0x2C];

const ALL: &[u8] = &[0x80, 0x00, 0x00, 0x00, 0x00];

/// Address bytes, a command and its data, and the fault with which an idle master refuses the submission, if any.
type Submission<'a> = (&'a [u8], u8, &'a [u8], Option<MasterFault>);

const SUBMISSIONS: &[Submission] = &[
    (POLLING, 0, &[], None),
    (POLLING, 1, &[], Some(MasterFault::WrongAddress)),
    (DEVICE, 0, &[], None),
    (DEVICE, 1, &[], None),
    (ALL, 0, &[], Some(MasterFault::WrongAddress)),
    (ALL, 11, &[0x41, 0x53, 0x50, 0xB7, 0x1C, 0x31], None),
    (ALL, 20, &[], Some(MasterFault::WrongAddress)),
    (ALL, 21, &[0x20; 32], None),
    (ALL, 22, &[0x20; 32], Some(MasterFault::WrongAddress)),
    (POLLING, 21, &[0x20; 32], Some(MasterFault::WrongAddress)),
    (DEVICE, 21, &[0x20; 32], None),
];

/// Returns the address of these bytes.
fn address_of(bytes: &[u8]) -> Result<Address, Fail> {
    let (_, _, address) = Address::read(bytes).ok_or("one byte or five")?;
    Ok(address)
}

/// Returns the request of a command with these data.
fn request_of(command: u8, data: &[u8]) -> Result<Request, Fail> {
    Ok(Request::read(command, data).ok().ok_or("bad data")?)
}

/// Whether a master refuses a second request, and returns it.
fn refuses_another(master: &mut Master) -> Result<bool, Fail> {
    let second = master.submit(address_of(POLLING)?, Request::ReadPrimary);
    let rejected = second.err().ok_or("a second request")?;
    Ok(
        same(&rejected.fault, &MasterFault::Pending)?
            && same(&rejected.request, &Request::ReadPrimary)?,
    )
}

/// Whether an idle master takes or refuses a submission as its row says. If the row has no fault, the master takes the submission, and
/// then refuses a second one. Otherwise it refuses the submission with the row's fault, and stays idle.
fn is_taken_or_refused(submission: &Submission) -> Result<bool, Fail> {
    let (address, command, data, want) = *submission;
    let mut master = Master::new(MasterId::Secondary, 3, 41)?;
    let fault = match master.submit(address_of(address)?, request_of(command, data)?) {
        Ok(()) => None,
        Err(rejected) => Some(rejected.fault),
    };
    let is_idle = master.is_idle();
    let refuses = is_idle || refuses_another(&mut master)?;
    Ok(same(&fault, &want)? && same(&is_idle, &want.is_some())? && refuses)
}

#[test]
fn one_request_is_taken(rt: HostRuntime) -> Result<(), Fail> {
    for (row, submission) in SUBMISSIONS.iter().enumerate() {
        hold_ok(&rt, is_taken_or_refused(submission), "row", row)?;
    }
    Ok(())
}

/// A call of a master, and its result.
enum Call {
    /// `send`: the frame of the request.
    Sends,
    /// `send`: no frame.
    StaysSilent,
    /// `tick` with this number of character times: nothing happens.
    Waits(u8),
    /// `tick`: the request is to be sent again.
    Retries(u8),
    /// `tick`: the request is given up after two sendings.
    GivesUp(u8),
}

/// The calls of a master with one retry and the reply limit 33, for Command 0 to polling address 0.
const CALLS: &[Call] = &[
    Call::Waits(255),
    Call::Sends,
    Call::StaysSilent,
    Call::Waits(32),
    Call::Retries(1),
    Call::Waits(255),
    Call::Sends,
    Call::GivesUp(200),
    Call::StaysSilent,
];

/// Whether a master sends this request.
fn sends(master: &mut Master, request: &Frame) -> Result<bool, Fail> {
    let sent = master.send().ok_or("silence")?;
    same(&sent, request)
}

/// Whether a call has its result. A frame that is sent must be this request.
fn gives(master: &mut Master, call: &Call, request: &Frame) -> Result<bool, Fail> {
    match call {
        Call::Sends => sends(master, request),
        Call::StaysSilent => same(&master.send(), &None),
        Call::Waits(times) => same(&master.tick(*times), &MasterEvent::Nothing),
        Call::Retries(times) => same(&master.tick(*times), &MasterEvent::Retry),
        Call::GivesUp(times) => same(&master.tick(*times), &MasterEvent::NoReply(2)),
    }
}

#[test]
fn a_request_is_sent_twice_and_given_up(rt: HostRuntime) -> Result<(), Fail> {
    let (request, _) = decode(&[0x02, 0x80, 0x00, 0x00, 0x82])?;
    let mut master = Master::new(MasterId::Primary, 1, 33)?;
    let submitted = master.submit(address_of(POLLING)?, Request::Identify);
    assert!(rt; submitted.is_ok());
    for (row, call) in CALLS.iter().enumerate() {
        hold_ok(&rt, gives(&mut master, call, &request), "row", row)?;
    }
    assert!(rt; master.is_idle() && master.sendings() == 0);
    Ok(())
}

/// The reply with the bench device's identity to the primary master. The reply to the secondary master is below.
const TO_PRIMARY: &[u8] = &[
    0xFF, 0xFF, 0xFF, 0xFF, 0xFF, 0x06, 0x80, 0x00, 0x18, 0x00, 0x00, 0xFE, 0x37, 0x42, 0x05, 0x07,
    0x01, 0x02, 0x18, 0x00, 0x0A, 0x1B, 0x2C, 0x05, 0x04, 0x00, 0x00, 0x00, 0x00, 0x37, 0x00, 0x37,
    0x01, 0x31,
];

const TO_SECONDARY: &[u8] = &[
    0xFF, 0xFF, 0xFF, 0xFF, 0xFF, 0x06, 0x00, 0x00, 0x18, 0x00, 0x00, 0xFE, 0x37, 0x42, 0x05, 0x07,
    0x01, 0x02, 0x18, 0x00, 0x0A, 0x1B, 0x2C, 0x05, 0x04, 0x00, 0x00, 0x00, 0x00, 0x37, 0x00, 0x37,
    0x01, 0xB1,
];

/// The payload of both replies.
const IDENTITY: &[u8] = &[
    0x00, 0x00, 0xFE, 0x37, 0x42, 0x05, 0x07, 0x01, 0x02, 0x18, 0x00, 0x0A, 0x1B, 0x2C, 0x05, 0x04,
    0x00, 0x00, 0x00, 0x00, 0x37, 0x00, 0x37, 0x01,
];

/// Replies of the bench device to Command 19. This reply has communication faults. Below are a reply with response code 32, and a reply
/// with the assembly number.
const FAULTY: &[u8] = &[
    0xFF, 0xFF, 0xFF, 0xFF, 0xFF, 0x86, 0xB7, 0x42, 0x0A, 0x1B, 0x2C, 0x13, 0x02, 0x88, 0x00, 0xD7,
];

const BUSY: &[u8] = &[
    0xFF, 0xFF, 0xFF, 0xFF, 0xFF, 0x86, 0xB7, 0x42, 0x0A, 0x1B, 0x2C, 0x13, 0x02, 0x20, 0x00, 0x7F,
];

const WRITTEN: &[u8] = &[
    0xFF, 0xFF, 0xFF, 0xFF, 0xFF, 0x86, 0xB7, 0x42, 0x0A, 0x1B, 0x2C, 0x13, 0x05, 0x00, 0x40, 0x01,
    0x23, 0x45, 0x7F,
];

/// A request by its address bytes, command and data. Then two parts that are heard, and the payload of the reply that is accepted, if any.
struct Hearing<'a> {
    address: &'a [u8],
    command: u8,
    data: &'a [u8],
    first: &'a [u8],
    second: &'a [u8],
    accepted: Option<&'a [u8]>,
}

/// A request to a polling address, after which nothing is heard. Each row gives only what differs from this row.
const TO_POLLING: Hearing = Hearing {
    address: POLLING,
    command: 0,
    data: &[],
    first: &[],
    second: &[],
    accepted: None,
};

const HEARD: &[Hearing] = &[
    Hearing {
        first: TO_SECONDARY,
        ..TO_POLLING
    },
    Hearing {
        first: TO_PRIMARY,
        second: TO_PRIMARY,
        ..TO_POLLING
    },
    Hearing {
        first: TO_PRIMARY,
        second: TO_SECONDARY,
        ..TO_POLLING
    },
    Hearing {
        first: WRITTEN,
        ..TO_POLLING
    },
    TO_POLLING,
    Hearing {
        first: &[0xFF, 0x06],
        second: TO_PRIMARY,
        accepted: Some(IDENTITY),
        ..TO_POLLING
    },
    Hearing {
        address: DEVICE,
        command: 19,
        data: &[1, 2, 3],
        first: FAULTY,
        ..TO_POLLING
    },
    Hearing {
        address: DEVICE,
        command: 19,
        data: &[1, 2, 3],
        first: BUSY,
        accepted: Some(&[0x20, 0x00]),
        ..TO_POLLING
    },
    Hearing {
        address: DEVICE,
        command: 19,
        data: &[1, 2, 3],
        first: WRITTEN,
        accepted: Some(&[0x00, 0x40, 0x01, 0x23, 0x45]),
        ..TO_POLLING
    },
    Hearing {
        address: DEVICE,
        command: 16,
        first: WRITTEN,
        ..TO_POLLING
    },
];

/// Returns the characters of both parts, one after the other, and then zeros, 80 characters in all.
fn heard(first: &[u8], second: &[u8]) -> Option<[Char; 80]> {
    let mut chars = [Char::new(0, 0)?; 80];
    write_faultless(&mut chars, first)?;
    write_faultless(chars.get_mut(first.len()..)?, second)?;
    Some(chars)
}

/// Returns the primary master, with a request in hand.
fn with_request(address: &[u8], request: Request) -> Result<Master, Fail> {
    let mut master = Master::new(MasterId::Primary, 1, 33)?;
    let submitted = master.submit(address_of(address)?, request);
    submitted.ok().ok_or("a request that is taken")?;
    Ok(master)
}

/// Returns the event for a reply with this payload, or for no reply.
fn event_of(command: u8, payload: Option<&[u8]>) -> Result<MasterEvent, Fail> {
    let Some(payload) = payload else {
        return Ok(MasterEvent::Nothing);
    };
    let reply = Reply::read(command, payload).ok_or("a reply")?;
    let is_refused = reply.content == ReplyContent::Refused;
    let is_code = reply.code.value() != 0;
    let answered = (is_refused == is_code).then_some(MasterEvent::Answered(reply, 1));
    Ok(answered.ok_or("either a code or content")?)
}

/// Whether a master accepts nothing before it has sent the request, and exactly the wanted reply afterwards.
fn accepts(row: &Hearing) -> Result<bool, Fail> {
    let chars = heard(row.first, row.second).ok_or("characters")?;
    let mut master = with_request(row.address, request_of(row.command, row.data)?)?;
    same(&master.hear(&chars), &MasterEvent::Nothing)?;
    let _request = master.send().ok_or("silence")?;
    Ok(
        same(&master.hear(&chars), &event_of(row.command, row.accepted)?)?
            && same(&master.is_idle(), &row.accepted.is_some())?,
    )
}

#[test]
fn replies_are_accepted(rt: HostRuntime) -> Result<(), Fail> {
    for (number, row) in HEARD.iter().enumerate() {
        hold_ok(&rt, accepts(row), "row", number)?;
    }
    Ok(())
}

#[test]
fn a_reply_to_the_other_master_is_not_accepted(rt: HostRuntime) -> Result<(), Fail> {
    let mut master = with_request(POLLING, Request::Identify)?;
    assert!(rt; master.send().is_some());
    let (to_other, _) = decode(&TO_SECONDARY[5..])?;
    let (to_it, _) = decode(&TO_PRIMARY[5..])?;
    assert!(rt; master.receive(&to_other) == MasterEvent::Nothing);
    assert!(rt; master.receive(&to_it) == event_of(0, Some(IDENTITY))?);
    assert!(rt; master.receive(&to_it) == MasterEvent::Nothing);
    Ok(())
}

/// The payload of an identity whose expanded device type has its upper two bits set. Below is the payload of an identity whose
/// address is broadcast.
const LONG_TYPE: &[u8] = &[
    0x00, 0x00, 0xFE, 0xFF, 0x42, 0x05, 0x07, 0x01, 0x02, 0x18, 0x00, 0x0A, 0x1B, 0x2C, 0x05, 0x04,
    0x00, 0x00, 0x00, 0x00, 0x37, 0x00, 0x37, 0x01,
];

const NOWHERE: &[u8] = &[
    0x00, 0x00, 0xFE, 0x40, 0x00, 0x05, 0x07, 0x01, 0x02, 0x18, 0x00, 0x00, 0x00, 0x00, 0x05, 0x04,
    0x00, 0x00, 0x00, 0x00, 0x37, 0x00, 0x37, 0x01,
];

/// A command, the payload of a reply, and the type and the id of the address in the reply, if it has one.
type Given<'a> = (u8, &'a [u8], Option<(u16, u32)>);

const IDENTITIES: &[Given] = &[
    (0, IDENTITY, Some((0x3742, 0x0A1B2C))),
    (11, IDENTITY, Some((0x3742, 0x0A1B2C))),
    (21, IDENTITY, Some((0x3742, 0x0A1B2C))),
    (0, LONG_TYPE, Some((0x3F42, 0x0A1B2C))),
    (0, NOWHERE, None),
    (0, &[0x20, 0x00], None),
    (19, &[0x00, 0x40, 0x01, 0x23, 0x45], None),
];

/// Whether a reply gives the address in its row.
fn gives_address(given: &Given) -> Result<bool, Fail> {
    let (command, payload, want) = *given;
    let reply = Reply::read(command, payload).ok_or("a reply")?;
    let want = match want {
        Some((expanded_type, id)) => Some(Address::unique(expanded_type, id)?),
        None => None,
    };
    same(&unique_of(&reply), &want)
}

#[test]
fn identities_give_addresses(rt: HostRuntime) -> Result<(), Fail> {
    for (row, given) in IDENTITIES.iter().enumerate() {
        hold_ok(&rt, gives_address(given), "row", row)?;
    }
    Ok(())
}
