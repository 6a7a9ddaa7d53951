//! What the data of a message mean.
ghost use Rattle.std.specs.Prelude.{◌≡◌, ◌≤◌, [], None, Some, drop, length, map, true};
ghost use Rattle.hart_commands.specs.Fields.{seen};
ghost use Rattle.hart_commands.specs.WellMade.{are_well_made};
ghost use Rattle.hart_explain.specs.Reading.{nothing_found, reading_of_reply, reading_of_request, refused, refused_request, replied};
ghost use Rattle.hart_explain.specs.Reading.{seen_reading, taken};
ghost use Rattle.hart_explain.specs.Json.{further_members, reading_members};
ghost use Rattle.hart_explain.specs.Words.{reading_lines};

use crate::fields::{Fields, after_fields};
use hart_commands::{
    FieldRow, Reply, Request, command_name, needed_data, reply_rows, request_rows,
};
use hart_values::ResponseCode;

/// What is wrong with the data of a message.
#[derive(Clone, Copy, Debug, PartialEq, Eq)]
pub enum Problem {
    /// The command is not known, so its data are not read.
    UnknownCommand,
    /// The command needs this number of data bytes, and there are fewer.
    TooFew { needed: usize },
    /// The command refuses the data with this response code.
    Refused { code: u8 },
    /// The command is known, but the data are no reply to it.
    NoReply,
    /// The data are not read, because the response code is not 0.
    NotRead { code: u8 },
}

/// What the data of a message mean.
#[derive(Drop)]
pub struct Reading<'a> {
    /// The fields that are found in the data.
    pub fields: Fields<'a>,
    /// The bytes that are ignored.
    pub ignored: &'a [u8],
    /// What is wrong with the data, or `None` if nothing is.
    pub problem: Option<Problem>,
}

/// Reads the data of a request. If there are at most 255 data bytes, the words of the reading have at most 6,300 bytes, and its members of
/// JSON at most 12,000.
#[tactic(auto, unfolding(crate::specs::Reading::reading_of_request))]
pub fn read_request(command: u8, bytes: &[u8]) -> Reading<'_>
    ensures reading { seen_reading result ≡ reading_of_request command bytes.now }
    ensures words { length bytes.now ≤ 255 → length (reading_lines command bytes.now (seen_reading result)) ≤ 6300 }
    ensures members { length bytes.now ≤ 255
        → length (further_members (reading_members command bytes.now (seen_reading result))) ≤ 12000 }
{
    match Request::read(command, bytes) {
        Ok(request) => taken(request_rows(command), request.data_len(), bytes),
        Err(code) => refused_request(command, code, bytes),
    }
}

/// Reads the data of a request that a device refuses with this code.
fn refused_request(command: u8, code: ResponseCode, bytes: &[u8]) -> Reading<'_>
    ensures { seen_reading result ≡ refused_request command code bytes.now }
{
    if code == ResponseCode::COMMAND_NOT_IMPLEMENTED {
        nothing_found(Some(Problem::UnknownCommand))
    } else if code == ResponseCode::TOO_FEW_DATA_BYTES {
        nothing_found(Some(Problem::TooFew {
            needed: needed_data(command),
        }))
    } else {
        refused(request_rows(command), code.value(), bytes)
    }
}

/// Reads the payload of a reply: two status bytes, and then the data. If the payload has at most 255 bytes, the words of the reading have
/// at most 6,300 bytes, and its members of JSON at most 12,000.
pub fn read_reply(command: u8, payload: &[u8]) -> Reading<'_>
    ensures reading { seen_reading result ≡ reading_of_reply command payload.now }
    ensures words { length payload.now ≤ 255 → length (reading_lines command (drop 2 payload.now) (seen_reading result)) ≤ 6300 }
    ensures members { length payload.now ≤ 255
        → length (further_members (reading_members command (drop 2 payload.now) (seen_reading result))) ≤ 12000 }
{
    read_payload(command, payload)
}

/// Reads the payload of a reply.
#[tactic(auto, unfolding(crate::specs::Reading::reading_of_reply))]
fn read_payload(command: u8, payload: &[u8]) -> Reading<'_>
    ensures { seen_reading result ≡ reading_of_reply command payload.now }
{
    let [first, _, bytes @ ..] = payload else {
        return nothing_found(None);
    };
    if 0x7F < *first {
        return Reading {
            fields: Fields::new(&[], &[]),
            ignored: bytes,
            problem: None,
        };
    }
    match Reply::read(command, payload) {
        Some(reply) => replied(command, &reply, bytes),
        None => no_reply(command),
    }
}

/// Reads data as a reply to their command.
fn replied<'a>(command: u8, reply: &Reply, bytes: &'a [u8]) -> Reading<'a>
    ensures { seen_reading result ≡ replied command bytes.now (Some reply.now) }
{
    if reply.code == ResponseCode::SUCCESS {
        taken(reply_rows(command), reply.data_len(), bytes)
    } else if bytes.is_empty() {
        nothing_found(None)
    } else {
        nothing_found(Some(Problem::NotRead {
            code: reply.code.value(),
        }))
    }
}

/// Returns the reading of data that are no reply to their command.
fn no_reply<'a>(command: u8) -> Reading<'a>
    ensures { seen_reading result ≡ replied command [] None }
{
    match command_name(command) {
        Some(_) => nothing_found(Some(Problem::NoReply)),
        None => nothing_found(Some(Problem::UnknownCommand)),
    }
}

/// Returns a reading without fields and without ignored bytes.
fn nothing_found<'a>(problem: Option<Problem>) -> Reading<'a>
    ensures { seen_reading result ≡ nothing_found problem }
{
    Reading {
        fields: Fields::new(&[], &[]),
        ignored: &[],
        problem,
    }
}

/// Finds the fields in the first `count` bytes, and ignores the bytes after them.
fn taken<'a>(rows: &'static [FieldRow], count: usize, bytes: &'a [u8]) -> Reading<'a>
    requires { are_well_made (map seen rows.now) ≡ true }
    ensures { seen_reading result ≡ taken (map seen rows.now) count bytes.now }
{
    let (taken, ignored) = bytes.split_at(count.min(bytes.len()));
    Reading {
        fields: Fields::new(rows, taken),
        ignored,
        problem: None,
    }
}

/// Finds the fields in data that are refused with this code, and ignores the bytes after them.
fn refused<'a>(rows: &'static [FieldRow], code: u8, bytes: &'a [u8]) -> Reading<'a>
    requires { are_well_made (map seen rows.now) ≡ true }
    ensures { seen_reading result ≡ refused (map seen rows.now) code bytes.now }
{
    Reading {
        fields: Fields::new(rows, bytes),
        ignored: after_fields(rows, bytes),
        problem: Some(Problem::Refused { code }),
    }
}
