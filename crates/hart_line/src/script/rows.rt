//! Reads the lines of a script: the event of a line, or the reason why there is none.
ghost use Rattle.std.specs.Prelude.{◌≡◌, ◌≢◌, [], ◌∷◌, codes, length, IfErr, MatchOption, OnOk, option_and_then};
ghost use Rattle.std.specs.Result.{result_ok};
ghost use Rattle.hart_commands.specs.RequestData.{request_reading};
ghost use Rattle.hart_line.specs.script.Rows.{AddsLine, IsLegWord, IsLineFault, IsNeededByLeg, IsNeededByWords, ReadsWords, Says};
ghost use Rattle.hart_line.specs.script.Rows.{request_of};
ghost use Rattle.hart_line.specs.script.Words.{Finds, data_of};

use crate::script::items::read_items;
use crate::script::words::{decode_data_by, read_address_by, read_command, read_who};
use crate::{Filling, Heard, LineEvent, LineFault, NoRoom};
use hart_commands::Request;
use hart_text::{Digits, LONGEST_DATA_LEN, Words, decode_data};
use std::alloc::Global;

/// The greatest number of data bytes that are read with a short buffer. No request uses more data bytes, so longer data only have ignored
/// bytes at their end.
const SHORT_DATA_LEN: usize = 32;

/// Why no event was read from a line.
#[derive(Clone, Copy)]
pub enum RowFault {
    /// The words of the line stand for no event.
    Bad,
    /// Memory was refused, for this number of items.
    Memory(NoRoom),
}

/// Reads the line with this number, and appends its event to `events`. An empty line and a comment add nothing. Any other line that stands
/// for no event is bad. Memory may be refused for the event, or for the characters of a word of items: one for every two bytes of the word.
pub fn read_line(
    alloc: Global,
    digits: &Digits,
    number: usize,
    line: Words<'_>,
    events: &mut Filling<LineEvent>,
) -> Result<(), LineFault>
    ensures added { OnOk result (AddsLine line.entry events.old.items events.new.items) }
    ensures fault { IfErr result (IsLineFault number line.entry) }
{
    let Some((first, rest)) = line.next() else {
        return Ok(());
    };
    if let [b'#', ..] = first {
        return Ok(());
    }
    let event = match read_event(alloc, digits, first, rest) {
        Ok(event) => event,
        Err(RowFault::Bad) => return Err(LineFault::BadLine { number }),
        Err(RowFault::Memory(none)) => return Err(LineFault::Memory(none)),
    };
    events.make_room(1)?;
    events.push(event);
    Ok(())
}

/// Reads the event that a line stands for, from its first word and the words after it.
fn read_event(
    alloc: Global,
    digits: &Digits,
    first: &[u8],
    rest: Words<'_>,
) -> Result<LineEvent, RowFault>
    ensures { ReadsWords (IsNeededByWords (first.now ∷ rest.entry)) (Says (first.now ∷ rest.entry)) result }
{
    match first {
        b"submit" => read_submit(digits, rest).ok_or(RowFault::Bad),
        b"turn" => read_turn(alloc, digits, rest),
        b"protect" => read_protect(rest).ok_or(RowFault::Bad),
        b"noise" => read_noise(alloc, digits, rest),
        b"restart" => read_restart(rest).ok_or(RowFault::Bad),
        _ => Err(RowFault::Bad),
    }
}

/// Reads the words after `submit`: WHO, ADDRESS, COMMAND and perhaps DATA. Returns `None` for anything else.
fn read_submit(digits: &Digits, rest: Words<'_>) -> Option<LineEvent>
    ensures { Finds (Says (codes "submit" ∷ rest.entry)) result }
{
    let (who, rest) = rest.next()?;
    let (address, rest) = rest.next()?;
    let (command, rest) = rest.next()?;
    Some(LineEvent::Submit {
        who: read_who(who)?,
        address: read_address_by(digits, address)?,
        request: read_request(digits, command, rest)?,
    })
}

/// Reads COMMAND and the words after COMMAND as a request: no word means no data, and one word is DATA. Returns `None` if the words stand
/// for no request.
fn read_request(digits: &Digits, command: &[u8], rest: Words<'_>) -> Option<Request>
    ensures { result ≡ request_of command.now rest.entry }
{
    let number = read_command(command)?;
    let Some((word, rest)) = rest.next() else {
        return Request::read(number, &[]).ok();
    };
    if !rest.is_empty() {
        return None;
    }
    if word.len() > 2 * SHORT_DATA_LEN {
        return read_with_long_data(number, word);
    }
    let mut room = [0; SHORT_DATA_LEN];
    let bytes = decode_data_by(digits, word, &mut room)?;
    Request::read(number, bytes).ok()
}

/// Reads a command and DATA of any length as a request. Returns `None` if they stand for no request. A separate call, because clearing the
/// buffer for the longest data takes more instructions than reading most requests.
#[inline(never)]
fn read_with_long_data(number: u8, word: &[u8]) -> Option<Request>
    ensures { result ≡ option_and_then (λ bytes. result_ok (request_reading number bytes)) (data_of word.now) }
{
    let mut room = [0; LONGEST_DATA_LEN];
    let bytes = decode_data(word, &mut room)?;
    Request::read(number, bytes).ok()
}

/// Reads the three words after `turn`: WHO, UP and DOWN.
fn read_turn(alloc: Global, digits: &Digits, rest: Words<'_>) -> Result<LineEvent, RowFault>
    ensures { ReadsWords (IsNeededByWords (codes "turn" ∷ rest.entry)) (Says (codes "turn" ∷ rest.entry)) result }
{
    let Some((who, up, down)) = three_words(rest) else {
        return Err(RowFault::Bad);
    };
    Ok(LineEvent::Turn {
        who: read_who(who).ok_or(RowFault::Bad)?,
        up: read_leg(alloc, digits, up)?,
        down: read_leg(alloc, digits, down)?,
    })
}

/// Returns the three words of a line, or `None` if the line has fewer or more words.
fn three_words<'a>(line: Words<'a>) -> Option<(&'a [u8], &'a [u8], &'a [u8])>
    ensures { MatchOption result (length line.entry ≢ 3)
        (λ words. line.entry ≡ (words.0).now ∷ (words.1).now ∷ (words.2).now ∷ []) }
{
    let (first, rest) = line.next()?;
    let (second, rest) = rest.next()?;
    Some((first, second, rest.only()?))
}

/// Reads the word of a leg: `ok`, `lost`, or the items of the characters that are heard.
fn read_leg(alloc: Global, digits: &Digits, word: &[u8]) -> Result<Heard, RowFault>
    ensures { ReadsWords (IsNeededByLeg word.now) (IsLegWord word.now) result }
{
    match word {
        b"ok" => Ok(Heard::Clean),
        b"lost" => Ok(Heard::Lost),
        _ => Ok(Heard::Chars(read_items(alloc, digits, word)?)),
    }
}

/// Reads the word after `protect`, which is `on` or `off`. Returns `None` for anything else.
fn read_protect(rest: Words<'_>) -> Option<LineEvent>
    ensures { Finds (Says (codes "protect" ∷ rest.entry)) result }
{
    match rest.only()? {
        b"on" => Some(LineEvent::Protect(true)),
        b"off" => Some(LineEvent::Protect(false)),
        _ => None,
    }
}

/// Reads the one word after `noise`: the items of the characters that are heard.
fn read_noise(alloc: Global, digits: &Digits, rest: Words<'_>) -> Result<LineEvent, RowFault>
    ensures { ReadsWords (IsNeededByWords (codes "noise" ∷ rest.entry)) (Says (codes "noise" ∷ rest.entry)) result }
{
    let Some(items) = rest.only() else {
        return Err(RowFault::Bad);
    };
    Ok(LineEvent::Noise(read_items(alloc, digits, items)?))
}

/// Returns a restart, or `None` if a word follows `restart`.
fn read_restart(rest: Words<'_>) -> Option<LineEvent>
    ensures { Finds (Says (codes "restart" ∷ rest.entry)) result }
{
    rest.is_empty().then_some(LineEvent::Restart)
}
