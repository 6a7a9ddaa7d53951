//! The program: the call that its command line asks for, and its exit status.

ghost use Rattle.std.specs.Prelude.{◌≡◌, ◌≢◌, IfErr, None, map, string_bytes};
ghost use Rattle.clap.specs.Words.{subcommand_rows_of};
ghost use Rattle.hart_cli.specs.program.CommandLine.{call_of};
ghost use Rattle.hart_cli.specs.program.Program.{CallOutcome, HasNumbersInRange, Made, Ran, status_of};
ghost use Rattle.hart_cli.specs.FaultText.{fault_line};
ghost use Rattle.hart_cli.specs.stream.Stream.{WritesUnlessFailed};

mod arguments;
pub mod command_line;
mod help;
pub mod laws;

use crate::calls::answer::answer;
use crate::calls::dump::dump;
use crate::calls::encode::encode_text;
use crate::calls::explain::explain;
use crate::calls::master::master_by_words;
use crate::calls::request::request;
use crate::calls::serve::serve;
use crate::calls::sim::simulate;
use crate::fault::CliFault;
use crate::output::write_all;
use crate::stream::{Sink, Source};
use clap::ArgMatches;
use command_line::{Call, call_of, matches_of};
use hart_station::encode::EncodeWords;
use std::alloc::Global;
use std::fmt;
use std::fmt::Write;

/// The status of a call that did its work.
pub const DONE: u8 = 0;

/// The status of a call that ended with a fault.
pub const FAULT: u8 = 1;

/// The status if no call is made: the words name no call, or ask for help or the version, or memory for reading them was refused.
pub const NO_CALL: u8 = 2;

/// Makes the call that the words after the program's name ask for, and returns the program's status.
///
/// `answer`, `dump`, `explain`, `serve`, `master` and `sim` read from `reader` and write to `writer`; `encode` and `request` read only
/// their words. At status 0 nothing goes to `errors`. At status 1 the line of the call's fault goes to `errors`, or a beginning of that
/// line if `errors` failed. Status 2 means that clap found no matches for the words, but no clause of the contract promises this meaning.
/// At status 2 the reader and the writer are not touched, and clap's own text goes to `errors`, even if the text is help. No clause says
/// what this text is. A failed write to `errors` ends the text there, and does not change the status.
pub fn program<R: Source, W: Sink, E: Sink>(
    alloc: Global,
    words: &[String],
    reader: &mut R,
    writer: &mut W,
    errors: &mut E,
) -> u8
    ensures ran { result ≢ 2 → Ran (map string_bytes words.now)
        (R.stream reader.old) (R.stream reader.new)
        (W.stream writer.old) (W.stream writer.new)
        (E.stream errors.old) (E.stream errors.new)
        result }
    ensures unread { result ≡ 2 → reader.new ≡ reader.old }
    ensures unwritten { result ≡ 2 → writer.new ≡ writer.old }
    ensures quiet { result ≡ 0 → errors.new ≡ errors.old }
{
    match matches_of(alloc, words) {
        Ok(matches) => make_matched_call(alloc, &matches, reader, writer, errors),
        Err(error) => {
            show(&error, errors);
            NO_CALL
        }
    }
}

/// Makes the call that the matches name, and returns the program's status. The status is [`NO_CALL`] only if the matches name no call.
fn make_matched_call<R: Source, W: Sink, E: Sink>(
    alloc: Global,
    matches: &ArgMatches<'_>,
    reader: &mut R,
    writer: &mut W,
    errors: &mut E,
) -> u8
    ensures ran { result ≢ 2 → Made (subcommand_rows_of matches.now)
        (R.stream reader.old) (R.stream reader.new)
        (W.stream writer.old) (W.stream writer.new)
        (E.stream errors.old) (E.stream errors.new)
        result }
    ensures named { result ≡ 2 → call_of (subcommand_rows_of matches.now) ≡ None }
    ensures unread { result ≡ 2 → reader.new ≡ reader.old }
    ensures unwritten { result ≡ 2 → writer.new ≡ writer.old }
    ensures quiet { result ≡ 0 → errors.new ≡ errors.old }
{
    match call_of(matches) {
        Some(call) => finish(make_call(alloc, call, reader, writer), errors),
        // clap's contract leaves this case open, but the case never happens.
        None => NO_CALL,
    }
}

/// Makes the call on the reader and the writer, and returns its result.
fn make_call<R: Source, W: Sink>(
    alloc: Global,
    call: Call<'_, '_>,
    reader: &mut R,
    writer: &mut W,
) -> Result<(), CliFault>
    requires { HasNumbersInRange call }
    ensures { CallOutcome call.entry
        (R.stream reader.old) (R.stream reader.new)
        (W.stream writer.old) (W.stream writer.new)
        result }
{
    match call {
        Call::Answer(image) => answer(alloc, image.word, reader, writer),
        Call::Dump => dump(alloc, reader, writer),
        Call::Explain { style, is_raw } => explain(alloc, style, is_raw, reader, writer),
        Call::Serve(image) => serve(alloc, image.word, reader, writer),
        Call::Master(words) => master_by_words(alloc, &words, reader, writer),
        Call::Sim(image) => simulate(alloc, image.word, reader, writer),
        Call::Request(words) => request(alloc, &words, writer),
        Call::Encode(words) => {
            let EncodeWords {
                who,
                address,
                command,
                payload,
                preambles,
            } = words;
            encode_text(alloc, who, address, command, payload, preambles, writer)
        }
    }
}

/// Writes the line of the call's fault to `errors`, if the call has a fault, and returns the status for the call's result.
fn finish<E: Sink>(outcome: Result<(), CliFault>, errors: &mut E) -> u8
    ensures status { result ≡ status_of outcome }
    ensures fault { IfErr outcome (λ fault. WritesUnlessFailed
        (E.stream errors.old) (E.stream errors.new)
        (fault_line fault)) }
    ensures quiet { result ≡ 0 → errors.new ≡ errors.old }
{
    match outcome {
        Ok(()) => DONE,
        Err(fault) => {
            // If the line cannot be written, only the status shows the fault.
            let _ = write_all(errors, fault.text_line().as_str().as_bytes());
            FAULT
        }
    }
}

/// Writes clap's text piece by piece, so that nothing is allocated. A failed write ends the text.
fn show<E: Sink>(error: &clap::Error, errors: &mut E) {
    let _ = write!(Text { sink: errors }, "{error}");
}

/// A sink as a writer of formatted text.
#[derive(Drop)]
struct Text<'a, E> {
    sink: &'a mut E,
}

impl<E: Sink> Write for Text<'_, E> {
    fn write_str(&mut self, text: &str) -> fmt::Result {
        write_all(self.sink, text.as_bytes()).map_err(|_| fmt::Error)
    }
}
