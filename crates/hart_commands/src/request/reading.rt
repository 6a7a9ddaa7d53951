//! Helper functions of `Request::read`, for data that take more than one line of code to read.
ghost use Rattle.std.specs.Prelude.{◌≡◌, ◌≤◌, ◌↔◌, if◌then◌else◌, length, take, IsOk, IfOk, IfErr, Ok, Err};
ghost use Rattle.hart_values.specs.hart_date.Calendar.{is_date};
ghost use Rattle.hart_commands.specs.RequestReading.{polling_reading, codes_reading, tag_reading, reset_reading};

use crate::tag_bytes::tag_parts;
use crate::{CodeList, Request};
use hart_values::{HartDate, LoopMode, PackedText, PollingAddress, ResponseCode};

/// Returns the first `N` bytes, or code 5 if there are fewer bytes.
pub fn needed<const N: usize>(all: &[u8]) -> Result<[u8; N], ResponseCode>
    ensures accepted { IsOk result ↔ (N ≤ length all.now) }
    ensures first { IfOk result (λ bytes. bytes ≡ take N all.now) }
    ensures refused { IfErr result (λ code. code ≡ 5) }
{
    match all.first_chunk::<N>() {
        Some(bytes) => Ok(*bytes),
        None => Err(ResponseCode::TOO_FEW_DATA_BYTES),
    }
}

/// Reads a request of Command 6: a polling address and a loop current mode. Older masters leave out the mode.
pub fn read_set_polling(bytes: &[u8]) -> Result<Request, ResponseCode>
    ensures { result ≡ polling_reading bytes.now }
{
    let Some(address) = bytes.first() else {
        return Err(ResponseCode::TOO_FEW_DATA_BYTES);
    };
    let Ok(address) = PollingAddress::new(*address) else {
        return Err(ResponseCode::INVALID_SELECTION);
    };
    let mode = match bytes.get(1) {
        Some(byte) => *byte,
        None if address.number() == 0 => 1,
        None => 0,
    };
    match LoopMode::from_byte(mode) {
        Some(mode) => Ok(Request::SetPolling { address, mode }),
        None => Err(ResponseCode::INVALID_MODE),
    }
}

/// Reads a request of Command 9: the codes of device variables.
pub fn read_codes(bytes: &[u8]) -> Result<Request, ResponseCode>
    ensures { result ≡ codes_reading bytes.now }
{
    match CodeList::new(&bytes[..bytes.len().min(8)]) {
        Ok(codes) => Ok(Request::ReadVariables(codes)),
        Err(_) => Err(ResponseCode::TOO_FEW_DATA_BYTES),
    }
}

/// Reads a request of Command 18: a tag, a descriptor and a date.
pub fn read_tag(bytes: &[u8]) -> Result<Request, ResponseCode>
    ensures { result ≡ tag_reading bytes.now }
{
    let parts = tag_parts(bytes).ok_or(ResponseCode::TOO_FEW_DATA_BYTES)?;
    let (tag, descriptor, date) = parts;
    let date = read_date(date)?;
    Ok(Request::WriteTag {
        tag: PackedText::from_bytes(tag),
        descriptor: PackedText::from_bytes(descriptor),
        date,
    })
}

/// Reads a date, or returns code 9 if the date is bad.
fn read_date(bytes: [u8; 3]) -> Result<HartDate, ResponseCode>
    ensures { result ≡ if is_date bytes then Ok bytes else Err 9 }
{
    match HartDate::from_bytes(bytes) {
        Ok(date) => Ok(date),
        Err(_) => Err(ResponseCode::INVALID_DATE),
    }
}

/// Reads a request of Command 38: no counter, or a counter of two bytes.
pub fn read_reset(bytes: &[u8]) -> Result<Request, ResponseCode>
    ensures { result ≡ reset_reading bytes.now }
{
    if bytes.is_empty() {
        return Ok(Request::ResetChanged(None));
    }
    Ok(Request::ResetChanged(Some(u16::from_be_bytes(needed(bytes)?))))
}
