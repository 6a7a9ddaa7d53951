//! `hart dump`: the frames in what was heard, a line for each.
ghost use Rattle.std.specs.Prelude.{◌≡◌, [], ℕ, List, Option};
ghost use Rattle.hart_cli.specs.dump.Dump.{DumpOutcome, IsDump};
ghost use Rattle.hart_cli.specs.dump.FrameLines.{HearsInput};
ghost use Rattle.hart_cli.specs.input.Input.{Ending};
ghost use Rattle.hart_cli.specs.declared.fault.CliFault.{CliFault};

use crate::calls::dump::frame_lines::FrameLines;
use crate::fault::CliFault;
use crate::input::PORTION_LEN;
use crate::input::ahead::{Ahead, NextStep, Open, next_step, read_ahead};
use crate::output::write_all;
use crate::stream::{Failed, Sink, Source};
use hart_station::INPUT_LIMIT;
use hart_text::{Chunk, Digits};
use std::alloc::Global;

mod frame_lines;
mod text;

/// Reads the characters heard on a HART line as hex items, and writes a line of text for each frame.
///
/// The call reads a portion at a time. If a write fails, all lines are written that were decided before the last 16,384 bytes were read.
/// The contract says no more about when a line is written. Tests show that, before each read, the lines of all frames decided so far are
/// written. So a live HART line is dumped while it is heard, up to [`INPUT_LIMIT`] bytes. The call allocates nothing. It takes an allocator
/// only to be called like the other calls.
///
/// # Errors
///
/// The first fault of the input, in the order of its bytes: [`CliFault::Read`], [`CliFault::TooLong`] or [`CliFault::BadHex`]. The lines of
/// the frames before the fault are written first, and nothing is read after the fault. If a write fails, the fault is [`CliFault::Write`],
/// and only a prefix of the lines for the characters scanned so far is written.
pub fn dump<R: Source, W: Sink>(
    _alloc: Global,
    reader: &mut R,
    writer: &mut W,
) -> Result<(), CliFault>
    ensures { DumpOutcome
        (R.stream reader.old) (R.stream reader.new)
        (W.stream writer.old) (W.stream writer.new)
        result }
{
    let mut frames = FrameLines::new();
    let fault = scan_input(reader, writer, &mut frames)?;
    frames.finish(writer)?;
    match fault {
        Some(fault) => Err(fault),
        None => Ok(()),
    }
}

/// The bytes read from an input have at most one fault and one list of lines. So, unless a write fails, what `dump` reads determines what
/// it writes.
pub fn one_dump()
    ensures { (input : List ℕ) (ending : Ending) (f g : Option CliFault) (xs ys : List ℕ)
        → IsDump input ending f xs → IsDump input ending g ys → (f ≡ g) × (xs ≡ ys) }
{}

/// Reads an input up to its first fault, and scans its characters.
///
/// # Errors
///
/// `Failed` at the first write that fails.
fn scan_input<R: Source, W: Sink>(
    reader: &mut R,
    writer: &mut W,
    frames: &mut FrameLines,
) -> Result<Option<CliFault>, Failed>
    requires held { frames.old.held ≡ [] }
    requires first { frames.old.first ≡ 0 }
    requires lines { frames.old.lines ≡ [] }
    ensures { HearsInput
        (R.stream reader.old) (R.stream reader.new)
        (W.stream writer.old) (W.stream writer.new)
        frames.new result }
{
    let digits = Digits::new();
    let mut buffer = [0; PORTION_LEN];
    let mut ahead = Ahead::new();
    let mut chunk = Chunk::new();
    let mut read = 0;
    loop {
        let portion = read_ahead(reader, &mut buffer, &mut ahead, INPUT_LIMIT - read);
        read += portion.len;
        let rest = frames.hear_text(&digits, &mut chunk, ahead.as_slice());
        write_all(writer, frames.lines.as_slice())?;
        frames.lines.clear();
        match next_step(portion.end, rest, read) {
            NextStep::Stop(fault) => return Ok(fault),
            NextStep::ReadOn => {
                let open = Open::from_slice(rest).unwrap();
                ahead.clear();
                ahead.extend_from_slice(open.as_slice());
            }
        }
    }
}
