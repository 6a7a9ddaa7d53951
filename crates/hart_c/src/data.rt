//! The meaning of the data of a message, and where each field stands.
ghost use Rattle.std.specs.Prelude.{◌≡◌, ◌+◌, ◌≤◌, Some, length, map, slice_set};
ghost use Rattle.hart_commands.specs.Commands.{reply_rows};
ghost use Rattle.hart_commands.specs.Fields.{fields_of, seen};
ghost use Rattle.hart_commands.specs.Parts.{content_bytes};
ghost use Rattle.hart_commands.specs.ReplyData.{reply_reading};
ghost use Rattle.hart_c.specs.Data.{IsShown, ReplyOutcome, RequestOutcome, kind_number, placed, written_over};

use crate::fault::{HART_NO_REPLY, HART_OK};
use hart_commands::{FieldKind, FieldRow, Reply, Request, reply_rows, request_rows};
use hart_values::{Payload, ResponseCode};

/// Plain bytes, at least one.
pub const HART_BYTES: u8 = 0;

/// A number or a code of one or two bytes, the most significant byte first.
pub const HART_NUMBER: u8 = 1;

/// Packed text in 6, 12 or 24 bytes, four characters in three bytes.
pub const HART_PACKED_TEXT: u8 = 2;

/// A date in three bytes: the day, the month, and the year minus 1900.
pub const HART_DATE: u8 = 3;

/// A floating point number of IEEE 754 in four bytes, the most significant byte first.
pub const HART_FLOAT: u8 = 4;

/// One to eight device variables of eight bytes each: code, classification, unit, value in four bytes, status.
pub const HART_VARIABLES: u8 = 5;

/// Text in ISO Latin-1 in 32 bytes, a character in each.
pub const HART_LATIN_TEXT: u8 = 6;

/// The code of a unit in one byte.
pub const HART_UNIT_CODE: u8 = 7;

/// Where a field stands in the bytes that were passed, and its kind.
#[repr(C)]
#[derive(Clone, Copy)]
pub struct HartField {
    /// The place of the field's first byte, from 0.
    pub start: u8,
    /// How many bytes the field has.
    pub len: u8,
    /// The kind of the field, one of [`HART_BYTES`] to [`HART_UNIT_CODE`].
    pub kind: u8,
}

/// The result of reading the data of a message.
#[repr(C)]
#[derive(Clone, Copy)]
pub struct HartReading {
    /// How many fields there are. Fields for which the array has no room are not written.
    pub count: usize,
    /// How many bytes were taken, status bytes included. Unless the data are refused, the bytes after the taken bytes are ignored.
    pub taken: usize,
    /// For a reply, its response code. For a request, the response code that refuses the request, or 0 if the request is not refused.
    pub code: u8,
    /// For a reply, its device status. For a request, 0.
    pub status: u8,
    /// The number of the fault, or 0 if there is no fault.
    pub fault: u8,
}

/// Reads the data of a request of this command, and writes to `fields` where the request's fields stand, as far as there is room
/// (HCF_SPEC-127).
///
/// A refused request has no fields. Its code is the first of these that applies: 64 for an unknown command, 5 for too few bytes, 2
/// for Command 6 with an address above 63, 12 for Command 6 with a mode above 1, 9 for Command 18 with a bad date.
#[unsafe(no_mangle)]
pub extern "C" fn hart_read_request(
    command: u8,
    data: &[u8],
    fields: &mut [HartField],
) -> HartReading
    ensures { RequestOutcome command «data».now fields.old fields.new result }
{
    match Request::read(command, data) {
        Ok(request) => {
            let taken = &data[..request.data_len().min(data.len())];
            HartReading {
                count: show_fields(request_rows(command), taken, 0, fields),
                taken: taken.len(),
                code: 0,
                status: 0,
                fault: HART_OK,
            }
        }
        Err(code) => HartReading {
            count: 0,
            taken: 0,
            code: code.value(),
            status: 0,
            fault: HART_OK,
        },
    }
}

/// Reads the payload of a reply to this command, which begins with the two status bytes. Writes to `fields` where the fields of the data
/// stand, as far as there is room (HCF_SPEC-127). With a code other than 0 there are no fields.
///
/// # Errors
///
/// [`HART_NO_REPLY`] if the payload is no reply to this command: if it has fewer than two bytes, if bit 7 of the first byte is set, if the
/// command is not known, or if the code is 0 and the data do not fit the command. All numbers of the result except the fault are then 0,
/// and `fields` is unchanged.
#[unsafe(no_mangle)]
pub extern "C" fn hart_read_reply(
    command: u8,
    payload: &[u8],
    fields: &mut [HartField],
) -> HartReading
    ensures { ReplyOutcome command payload.now fields.old fields.new result }
{
    match Reply::read(command, payload) {
        Some(reply) => show_reply(command, payload, &reply, fields),
        None => HartReading {
            count: 0,
            taken: 0,
            code: 0,
            status: 0,
            fault: HART_NO_REPLY,
        },
    }
}

/// Writes the places of a reply's fields in its payload into `fields`, as far as there is room.
fn show_reply(command: u8, payload: &[u8], reply: &Reply, fields: &mut [HartField]) -> HartReading
    requires { reply_reading command payload.now ≡ Some reply.now }
    ensures { let reply = reply.now in
        IsShown 2 (reply_rows command) (content_bytes reply.content) reply.code reply.status.0 fields.old fields.new result }
{
    let mut written = Payload::new();
    reply.write(&mut written);
    let mut count = 0;
    if reply.code == ResponseCode::SUCCESS {
        let taken = &payload[2..written.len()];
        count = show_fields(reply_rows(command), taken, 2, fields);
    }
    HartReading {
        count,
        taken: written.len(),
        code: reply.code.value(),
        status: reply.status.0,
        fault: HART_OK,
    }
}

/// Writes the place of each row's field in the data into `fields`, as far as there is room. The first field stands at `start`. Returns the
/// number of fields, written or not.
fn show_fields(rows: &[FieldRow], bytes: &[u8], start: u8, fields: &mut [HartField]) -> usize
    requires { start + length bytes.now ≤ 255 }
    ensures count { result ≡ length (fields_of (map seen rows.now) bytes.now) }
    ensures shown { fields.new ≡ written_over (placed start (fields_of (map seen rows.now) bytes.now)) fields.old }
{
    let mut rest = bytes;
    let mut place = start;
    let mut count = 0;
    for row in rows {
        let Some((field, after)) = row.split(rest) else {
            return count;
        };
        show_field(row.kind, place, field.len() as u8, count, fields);
        place += field.len() as u8;
        count += 1;
        rest = after;
    }
    count
}

/// Writes the place of a field into `fields`, at index `count`. If `fields` has no such index, writes nothing.
fn show_field(kind: FieldKind, start: u8, len: u8, count: usize, fields: &mut [HartField])
    ensures { fields.new ≡ slice_set fields.old count (record { start = start; len = len; kind = kind_number kind }) }
{
    if count < fields.len() {
        fields[count] = HartField {
            start,
            len,
            kind: kind_number(kind),
        };
    }
}

/// Returns the number that a kind of field has in C.
fn kind_number(kind: FieldKind) -> u8
    ensures { result ≡ kind_number kind }
{
    match kind {
        FieldKind::Bytes => HART_BYTES,
        FieldKind::Number => HART_NUMBER,
        FieldKind::UnitCode => HART_UNIT_CODE,
        FieldKind::PackedText => HART_PACKED_TEXT,
        FieldKind::LatinText => HART_LATIN_TEXT,
        FieldKind::Date => HART_DATE,
        FieldKind::Float => HART_FLOAT,
        FieldKind::Variables => HART_VARIABLES,
    }
}
