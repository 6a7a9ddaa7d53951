//! `hart master`: a master that answers each line that it reads.
ghost use Rattle.std.specs.Prelude.{◌≡◌, ℕ, List};
ghost use Rattle.hart_station.specs.MasterLines.{AreSettings, LineMaster, ServesMasterLine, new_master};
ghost use Rattle.hart_cli.specs.master.Master.{MasterCallOutcome, MasterOutcome, usual_limit};
ghost use Rattle.hart_cli.specs.master.MasterWords.{AreInRange};
ghost use Rattle.hart_station.specs.Promise.{KeepsPromises};
ghost use Rattle.hart_cli.specs.input.Input.{Ending};
ghost use Rattle.hart_cli.specs.session.Session.{IsServed};
ghost use Rattle.hart_station.specs.Station.{Serves};

use crate::calls::sim::{PRIMARY_REPLY_LIMIT, SECONDARY_REPLY_LIMIT};
use crate::fault::CliFault;
use crate::session::serve_lines;
use crate::stream::{Sink, Source};
use hart_line::read_who;
use hart_station::{MasterLines, MasterSettings};
use hart_values::MasterId;
use std::alloc::Global;
use std::marker::Model;

/// The word and the numbers that `hart master` was given.
#[derive(Drop)]
pub struct MasterWords<'a> {
    /// WHO, which of the two masters answers the lines.
    pub who: &'a str,
    /// How often a request is sent again, at most 15 times.
    pub retries: u8,
    /// How many character times a reply is awaited, at least 1; `None` for the limit of this master in `hart sim`.
    pub limit: Option<u8>,
    /// How many preamble bytes a message begins with, from 5 to 20.
    pub preambles: u8,
}

impl<'a> Model for MasterWords<'a> {
    ghost use Rattle.hart_cli.specs.master.MasterWords.{MasterWords};

    ghost Value = { MasterWords };

    ghost view = { λ words. record {
      who = words.who.now;
      retries = words.retries;
      limit = words.limit;
      preambles = words.preambles;
    } };
}

/// Reads lines until the input ends, and writes the answer of a master to each line.
///
/// A line either says what was heard, or asks something of the master:
///
/// - `heard ITEMS`: the items of a delivery. If its only frame is the reply to the request in hand, the answer is `answered`, the number of
///   sendings, and the payload of the reply in hex. Otherwise it is `-`.
/// - `submit ADDRESS COMMAND [DATA]` and `ask ADDRESS COMMAND [NAME=VALUE..]`: the master takes a request in hand, given as in
///   [`encode_text`](crate::encode_text) and [`request`](crate::request). The answer is `ok`, or `refused:` and the fault of the master.
/// - `send`: the answer is `send` and the message that is due, or `-` if none is due. From then on the master awaits the reply to this
///   message.
/// - `tick N`: N character times of silence pass, at most 255. The answer is `retry` if the request is due again, `noreply` and the number
///   of sendings if the request is given up, and otherwise `-`.
///
/// Words are separated by spaces. In a line with a tab, the words are separated by tabs instead, so that a value can have spaces. A line
/// has at most 64 words and 1,048,576 bytes. Any other line gives `bad line:` and the reason, and changes nothing.
///
/// As in [`serve`](crate::serve), the answers to all whole lines read so far are written before each read. All memory is allocated before
/// the first line is read.
///
/// # Errors
///
/// [`CliFault::Memory`] if memory for a line is refused; then nothing is read. [`CliFault::Read`] if a read fails, and
/// [`CliFault::TooLong`] if the input has more than 2^64 - 1 bytes; then the answers to all whole lines before the fault are written.
/// [`CliFault::Write`] if a write fails; then only a prefix of the answers to the lines read so far is written.
pub fn master<R: Source, W: Sink>(
    alloc: Global,
    settings: MasterSettings,
    reader: &mut R,
    writer: &mut W,
) -> Result<(), CliFault>
    requires { AreSettings settings }
    ensures outcome { MasterOutcome settings
        (R.stream reader.old) (R.stream reader.new)
        (W.stream writer.old) (W.stream writer.new)
        result }
    // Each session that begins with these settings keeps the promise of `KeepsPromises`.
    ensures promise { (lines : List (List ℕ)) (after : LineMaster) (text : List ℕ)
        → Serves ServesMasterLine (new_master settings) lines after text → KeepsPromises (new_master settings) lines text }
{
    let lines = MasterLines::new(alloc, settings)?;
    serve_lines(alloc, lines, reader, writer)
}

/// The text of a master's answers to the lines of an input is unique. So the settings and the input determine what `master` writes.
pub fn one_session()
    ensures { (asker : LineMaster) (input : List ℕ) (ending : Ending) (xs ys : List ℕ)
        → IsServed ServesMasterLine asker input ending xs → IsServed ServesMasterLine asker input ending ys → xs ≡ ys }
{}

/// Makes the call of [`master`] that the words of the command line ask for.
///
/// # Errors
///
/// [`CliFault::BadWord`] with the number 1 if WHO is neither `P` nor `S`; then nothing is read. Otherwise the errors of [`master`].
pub fn master_by_words<R: Source, W: Sink>(
    alloc: Global,
    words: &MasterWords<'_>,
    reader: &mut R,
    writer: &mut W,
) -> Result<(), CliFault>
    requires { AreInRange words.now }
    ensures { MasterCallOutcome words.now
        (R.stream reader.old) (R.stream reader.new)
        (W.stream writer.old) (W.stream writer.new)
        result }
{
    let Some(who) = read_who(words.who.as_bytes()) else {
        return Err(CliFault::BadWord { number: 1 });
    };
    let settings = MasterSettings {
        who,
        retries: words.retries,
        reply_limit: words.limit.unwrap_or(usual_limit(who)),
        preambles: words.preambles,
    };
    master(alloc, settings, reader, writer)
}

/// Returns how many character times a master of `hart sim` waits for a reply.
fn usual_limit(who: MasterId) -> u8
    ensures { result ≡ usual_limit who }
{
    match who {
        MasterId::Primary => PRIMARY_REPLY_LIMIT,
        MasterId::Secondary => SECONDARY_REPLY_LIMIT,
    }
}
