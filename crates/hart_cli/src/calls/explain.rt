//! `hart explain`: what was heard, in words or as JSON.
ghost use Rattle.std.specs.Prelude.{◌≡◌, ◌+◌, ◌-◌, ◌<◌, ◌^◌, ℕ, Bool, List, Option, false, length, true};
ghost use Rattle.hart_listen.specs.Listener.{IsWaiting};
ghost use Rattle.hart_cli.specs.declared.fault.CliFault.{CliFault};
ghost use Rattle.hart_cli.specs.declared.calls.explain.printer.Style.{Style};
ghost use Rattle.hart_cli.specs.explain.Explanation.{ExplainOutcome, IsExplanation};
ghost use Rattle.hart_cli.specs.explain.Printer.{Ends};
ghost use Rattle.hart_cli.specs.input.Input.{Ending};

use crate::calls::explain::printer::{Page, Printer, Style};
use crate::fault::CliFault;
use crate::input::ahead::{HeardAhead, HeardOpen, NextStep, next_heard_step, read_ahead};
use crate::input::{PORTION_LEN, read_portion};
use crate::stream::{Sink, Source};
use hart_explain::Pairs;
use hart_listen::{ItemReader, Listener};
use hart_text::CHUNK_LEN;
use std::alloc::Global;

pub mod laws;
pub mod printer;

/// The greatest number of bytes that a raw input may have, so that each place fits in 64 bits.
const RAW_LIMIT: usize = usize::MAX - 1;

/// Reads what was heard on a HART line, and writes in a style what it means. With [`Style::Words`] it writes in words what each message
/// says. For a place where a message only seems to start, it writes why no message stands there and, if a header was heard, what the
/// message seems to be. With [`Style::Objects`] it writes for each of these one line with a JSON object. The object of a reply also says
/// which request the reply answers. The object of a request also says which sending of the request it is, counted from 1; the words say so
/// from the second sending on.
///
/// If `is_raw` is true, the bytes of the input are the characters heard. Otherwise the input has hex items and marks. A `/` says that the
/// line fell silent. What was heard before the silence is explained as if the input ended there, so no message crosses the silence. A `@`
/// and a word give the date of what follows. Each message, and each place where a message only seems to start, has the last date before it.
///
/// The call reads a portion at a time. If a write fails, all text is written that was decided before the last 16,384 bytes were read. The
/// contract says no more about when a part of the text is written. Tests show that, before each read, all text decided so far is written.
/// So a live HART line is explained while it is heard. From one read to the next, the call keeps at most 268 characters that may still
/// become a frame, and their dates. It allocates nothing.
///
/// # Errors
///
/// The first fault of the input, in the order of its bytes: [`CliFault::Read`], [`CliFault::TooLong`] after 2^64 - 1 bytes, or 2^64 - 2 of
/// a raw input, or [`CliFault::BadHex`]. The text about the characters before the fault is written first, and nothing is read after the
/// fault. If a write fails, the fault is [`CliFault::Write`], and only a prefix of the text about the characters read so far is written.
pub fn explain<R: Source, W: Sink>(
    _alloc: Global,
    style: Style,
    is_raw: bool,
    reader: &mut R,
    writer: &mut W,
) -> Result<(), CliFault>
    ensures { ExplainOutcome style is_raw
        (R.stream reader.old) (R.stream reader.new)
        (W.stream writer.old) (W.stream writer.new)
        result }
{
    if is_raw {
        explain_bytes(style, reader, writer)
    } else {
        explain_heard(style, reader, writer)
    }
}

/// Reads what was heard as hex items, and writes about it in words or as JSON objects. All decided text is written before the next read. If
/// a write fails, the call ends.
///
/// # Errors
///
/// The first fault of the input, or `Write` at the first write that fails.
fn explain_heard<R: Source, W: Sink>(
    style: Style,
    reader: &mut R,
    writer: &mut W,
) -> Result<(), CliFault>
    ensures { ExplainOutcome style false
        (R.stream reader.old) (R.stream reader.new)
        (W.stream writer.old) (W.stream writer.new)
        result }
{
    let mut items = ItemReader::new();
    let mut listener = Listener::new();
    let mut printer = Printer {
        style,
        pairs: Pairs::new(),
        page: Page::new(),
    };
    let mut buffer = [0; PORTION_LEN];
    let mut ahead = HeardAhead::new();
    let mut read = 0;
    loop {
        let portion = read_ahead(reader, &mut buffer, &mut ahead, usize::MAX - read);
        read += portion.len;
        let place = listener.hear_text(&mut printer, writer, &mut items, ahead.as_slice());
        printer.page.write(writer)?;
        let rest = &ahead.as_slice()[place..];
        match next_heard_step(portion.end, rest, read) {
            NextStep::Stop(fault) => return finish(&mut listener, &mut printer, writer, fault),
            NextStep::ReadOn => {
                let open = HeardOpen::from_slice(rest).unwrap();
                ahead.clear();
                ahead.extend_from_slice(open.as_slice());
            }
        }
    }
}

/// Reads what was heard as raw bytes, and writes about it in words or as JSON objects. All decided text is written before the next read. If
/// a write fails, the call ends.
///
/// # Errors
///
/// The first fault of the input, or `Write` at the first write that fails.
fn explain_bytes<R: Source, W: Sink>(
    style: Style,
    reader: &mut R,
    writer: &mut W,
) -> Result<(), CliFault>
    ensures { ExplainOutcome style true
        (R.stream reader.old) (R.stream reader.new)
        (W.stream writer.old) (W.stream writer.new)
        result }
{
    let mut listener = Listener::new();
    let mut printer = Printer {
        style,
        pairs: Pairs::new(),
        page: Page::new(),
    };
    let mut buffer = [0; CHUNK_LEN];
    let mut read = 0;
    loop {
        let portion = read_portion(reader, &mut buffer, RAW_LIMIT - read);
        read += portion.len;
        listener.hear_bytes(&mut printer, writer, &buffer[..portion.len]);
        printer.page.write(writer)?;
        if let Some(end) = portion.end {
            return finish(&mut listener, &mut printer, writer, end.fault());
        }
    }
}

/// Prints the rest of what was heard, after which nothing comes, and writes the text. Returns the fault of the input, if any.
///
/// # Errors
///
/// `Write` if a write failed, and otherwise the fault of the input.
fn finish<W: Sink>(
    listener: &mut Listener,
    printer: &mut Printer,
    writer: &mut W,
    fault: Option<CliFault>,
) -> Result<(), CliFault>
    requires waiting { IsWaiting listener.old }
    requires places { listener.old.first + length listener.old.held < 2 ^ 64 - 1 }
    ensures { Ends W.stream listener.old printer.old fault writer.old writer.new result }
{
    listener.hear_end(printer, writer);
    printer.page.write(writer)?;
    match fault {
        Some(fault) => Err(fault),
        None => Ok(()),
    }
}

/// The bytes read of an input, of hex items or raw, have at most one fault, and one text in each style. So unless a write fails, what
/// `explain` writes is determined by what it reads.
pub fn one_explanation()
    ensures { (style : Style) (is_raw : Bool) (input : List ℕ) (ending : Ending) (f g : Option CliFault) (xs ys : List ℕ)
        → IsExplanation style is_raw input ending f xs → IsExplanation style is_raw input ending g ys → (f ≡ g) × (xs ≡ ys) }
{}
