//! Reading an input, portion by portion or whole.
ghost use Rattle.std.specs.Prelude.{◌≡◌, ◌<◌, ◌≤◌, [], IfErr, IfOk, length, take};
ghost use Rattle.hart_cli.specs.input.Input.{IsReadingFault, Reads, ReadsPortion, fault_of_end, input_room, most_at_once};
ghost use Rattle.hart_cli.specs.declared.input.InputEnd.TheVariants.{Ended};

use crate::fault::CliFault;
use crate::stream::Source;
use hart_line::Filling;
use hart_station::INPUT_LIMIT;
use std::alloc::Global;

pub mod ahead;
pub mod input_chars;

/// The room for an input: all bytes that the input may have, and one space that completes the last item.
const INPUT_ROOM: usize = INPUT_LIMIT + 1;

/// The greatest number of bytes that one read may return.
pub const PORTION_LEN: usize = 16_384;

/// How the reading of an input ended.
#[derive(Clone, Copy, PartialEq, Eq)]
pub enum InputEnd {
    /// A read returned 0 bytes, because no bytes were left.
    Ended,
    /// A read failed.
    ReadFailed,
    /// A further byte came after the last byte within the limit. The limit is [`INPUT_LIMIT`], except for `explain`, `serve` and `master`.
    TooLong,
}

impl InputEnd {
    /// Returns the fault of this end, or `None` if the end itself is no fault.
    pub fn fault(self) -> Option<CliFault>
        ensures { result ≡ fault_of_end self }
    {
        match self {
            InputEnd::Ended => None,
            InputEnd::ReadFailed => Some(CliFault::Read),
            InputEnd::TooLong => Some(CliFault::TooLong),
        }
    }
}

/// The result of one read: how many bytes at the beginning of the buffer are within the limit, and how the input ended, if it did.
#[derive(Clone, Copy)]
pub struct Portion {
    /// The number of bytes of this read that are within the limit.
    pub len: usize,
    /// Why no more bytes follow, or `None` if more may follow.
    pub end: Option<InputEnd>,
}

/// Reads a whole input.
///
/// # Errors
///
/// [`CliFault::Read`] if a read failed, [`CliFault::TooLong`] if the input is longer than its limit, and [`CliFault::Memory`] if
/// the room for an input was refused. At `Memory` nothing was read.
pub fn read_whole<R: Source>(alloc: Global, reader: &mut R) -> Result<Filling<u8>, CliFault>
    ensures reads { IfOk result (λ text. Reads
        (R.stream reader.old) (R.stream reader.new)
        text.items Ended) }
    ensures spare { IfOk result (λ text. length text.items < text.room) }
    ensures fault { IfErr result (IsReadingFault (R.stream reader.old) (R.stream reader.new)) }
{
    let mut text = Filling::with_room(alloc, INPUT_ROOM)?;
    match read_into(reader, &mut text) {
        InputEnd::Ended => Ok(text),
        InputEnd::ReadFailed => Err(CliFault::Read),
        InputEnd::TooLong => Err(CliFault::TooLong),
    }
}

/// Reads a whole input into `text`, which has room for it.
fn read_into<R: Source>(reader: &mut R, text: &mut Filling<u8>) -> InputEnd
    requires { text.old ≡ record { items = []; room = input_room } }
    ensures reads { Reads
        (R.stream reader.old) (R.stream reader.new)
        text.new.items result }
    ensures room { text.new.room ≡ input_room }
{
    let mut buffer = [0; PORTION_LEN];
    loop {
        let portion = read_portion(reader, &mut buffer, INPUT_LIMIT - text.len());
        text.extend(&buffer[..portion.len]);
        if let Some(end) = portion.end {
            return end;
        }
    }
}

/// Reads once. `room` is the number of bytes that are left within the input's limit. The read returns at most one byte more, and the result
/// says how many of the bytes are within the limit.
pub fn read_portion<R: Source>(reader: &mut R, buffer: &mut [u8], room: usize) -> Portion
    requires some { 0 < length buffer.old }
    requires fits { length buffer.old ≤ most_at_once }
    ensures within { result.len ≤ length buffer.new }
    ensures reads { ReadsPortion
        (R.stream reader.old) (R.stream reader.new)
        (take result.len buffer.new) room result.end }
    ensures kept { length buffer.new ≡ length buffer.old }
{
    let most = buffer.len().min(room.saturating_add(1));
    match reader.read(&mut buffer[..most]) {
        Err(_) => Portion {
            len: 0,
            end: Some(InputEnd::ReadFailed),
        },
        Ok(0) => Portion {
            len: 0,
            end: Some(InputEnd::Ended),
        },
        Ok(given) if given > room => Portion {
            len: room,
            end: Some(InputEnd::TooLong),
        },
        Ok(given) => Portion {
            len: given,
            end: None,
        },
    }
}
