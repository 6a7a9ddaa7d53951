//! The bytes of an input that are read but not yet decoded.
ghost use Rattle.std.specs.Prelude.{◌≡◌, ◌<◌, ◌≤◌, ◌+◌, ◌-◌, IsTrue, Some, length};
ghost use Rattle.hart_text.specs.Heard.{NothingBegins};
ghost use Rattle.hart_text.specs.Items.{MayBegin, NoPieceBegins, Opens};
ghost use Rattle.hart_cli.specs.declared.fault.CliFault.TheVariants.{BadHex};
ghost use Rattle.hart_cli.specs.declared.input.ahead.NextStep.TheVariants.{ReadOn, Stop};
ghost use Rattle.hart_cli.specs.input.Ahead.{IsNextStep, ReadsAhead, ended_length};
ghost use Rattle.hart_cli.specs.input.Input.{most_at_once};

use crate::fault::CliFault;
use crate::input::{InputEnd, PORTION_LEN, Portion, read_portion};
use crate::stream::Source;
use hart_text::{DATE_LEN, may_begin, may_open};
use hart_values::ByteList;

/// The beginning of an item that is not yet whole: at most five bytes.
pub type Open = ByteList<OPEN_LEN>;

const OPEN_LEN: usize = 5;

/// The bytes that are read but not yet decoded: the beginning of an item, and then the bytes of one read, or a space if the input
/// ended.
pub type Ahead = ByteList<AHEAD_LEN>;

const AHEAD_LEN: usize = OPEN_LEN + PORTION_LEN;

/// The beginning of an item or a date that is not yet whole. The longest is a `@` and the word of a date.
pub type HeardOpen = ByteList<HEARD_OPEN_LEN>;

const HEARD_OPEN_LEN: usize = 1 + DATE_LEN;

/// Like [`Ahead`], for an input that may have silences and dates.
pub type HeardAhead = ByteList<HEARD_AHEAD_LEN>;

const HEARD_AHEAD_LEN: usize = HEARD_OPEN_LEN + PORTION_LEN;

/// What the call does next, after it has decoded what was read.
#[derive(Clone, Copy)]
pub enum NextStep {
    /// Read more.
    ReadOn,
    /// Read no more, because the input ended or has this fault.
    Stop(Option<CliFault>),
}

/// Reads once, and adds the bytes within the input's limit to `ahead`. `room` is the number of bytes left within this limit. If no bytes
/// were left to read, adds a space instead. Returns the number of bytes read within the limit, and how the input ended, if this read
/// ended it.
pub fn read_ahead<R: Source, const N: usize>(
    reader: &mut R,
    buffer: &mut [u8],
    ahead: &mut ByteList<N>,
    room: usize,
) -> Portion
    requires free { length ahead.old + most_at_once ≤ N }
    requires some { 0 < length buffer.old }
    requires fits { length buffer.old ≤ most_at_once }
    ensures reads { ReadsAhead
        (R.stream reader.old) (R.stream reader.new)
        ahead.old ahead.new room result }
    ensures kept { length buffer.new ≡ length buffer.old }
{
    let portion = read_portion(reader, buffer, room);
    if portion.end == Some(InputEnd::Ended) {
        // The end of an input gives no bytes, and completes the last item, as a space does.
        ahead.push(b' ');
    } else {
        ahead.extend_from_slice(&buffer[..portion.len]);
    }
    portion
}

/// Returns the next step after `read` bytes of an input of items. `rest` is the part of these bytes that is not decoded. `end` says how the
/// input ended, if it did.
pub fn next_step(end: Option<InputEnd>, rest: &[u8], read: usize) -> NextStep
    requires stops { NoPieceBegins rest.now }
    requires within { length rest.now ≤ ended_length end read }
    ensures step { IsNextStep MayBegin end rest.now (ended_length end read - length rest.now) result }
    ensures short { result ≡ ReadOn → length rest.now ≤ 5 }
{
    step_from(end, rest, may_begin(rest), read)
}

/// Like [`next_step`], for an input that may have silences and dates.
pub fn next_heard_step(end: Option<InputEnd>, rest: &[u8], read: usize) -> NextStep
    requires stops { NothingBegins rest.now }
    requires within { length rest.now ≤ ended_length end read }
    ensures step { IsNextStep (Opens NothingBegins) end rest.now (ended_length end read - length rest.now) result }
    ensures short { result ≡ ReadOn → length rest.now ≤ 33 }
{
    step_from(end, rest, may_open(rest), read)
}

/// Returns the next step after `read` bytes of an input. `rest` is the part of these bytes that is not decoded. `is_open` says whether more
/// bytes can complete the beginning of `rest`.
fn step_from(end: Option<InputEnd>, rest: &[u8], is_open: bool, read: usize) -> NextStep
    requires { length rest.now ≤ ended_length end read }
    ensures { IsNextStep (λ _. IsTrue is_open) end rest.now (ended_length end read - length rest.now) result }
{
    match end {
        None if is_open => NextStep::ReadOn,
        None => bad_hex(read - rest.len()),
        Some(InputEnd::Ended) if rest.is_empty() => NextStep::Stop(None),
        // The last byte of the rest is the space that stands for the end of the input.
        Some(InputEnd::Ended) => bad_hex(read - (rest.len() - 1)),
        // A failed read adds no bytes. The rest was open before, so it is still open, and there is no bad hex.
        Some(InputEnd::ReadFailed) => NextStep::Stop(Some(CliFault::Read)),
        Some(InputEnd::TooLong) if is_open => NextStep::Stop(Some(CliFault::TooLong)),
        Some(InputEnd::TooLong) => bad_hex(read - rest.len()),
    }
}

/// Returns the step that stops at bad hex.
fn bad_hex(place: usize) -> NextStep
    ensures { result ≡ Stop (Some (BadHex place)) }
{
    NextStep::Stop(Some(CliFault::BadHex { place }))
}
