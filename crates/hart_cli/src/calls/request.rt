//! `hart request`: a message to send, made from named fields.
ghost use Rattle.hart_frame.specs.wire.Message.{IsPreambleCount};
ghost use Rattle.hart_cli.specs.Request.{RequestOutcome};

use crate::fault::CliFault;
use crate::output::write_all;
use crate::stream::Sink;
use hart_station::lines::message_line;
use hart_station::request::{RequestWords, read_request};
use std::alloc::Global;

/// Writes a command's request as one line of hex. `words` has the values of the request's fields and the number of its preamble
/// bytes.
///
/// Each field of the command is given once, in any order, as NAME=VALUE; NAME is the name that [`explain`](crate::explain) shows,
/// with `_` for each space. The request is an STX with burst bit 0 and no expansion bytes.
///
/// # Errors
///
/// [`CliFault::BadWord`] with the number of the first bad word: 1 is WHO, 2 ADDRESS, 3 COMMAND. The fault is [`CliFault::BadField`] if
/// these three are good, but a word of the fields is bad. If a word is bad, nothing is written. The fault is [`CliFault::Write`] if no word
/// is bad, but a write fails. At `Write` a prefix of the line is written, but not all of it. Nothing is allocated.
pub fn request<W: Sink>(
    _alloc: Global,
    words: &RequestWords<'_, '_>,
    writer: &mut W,
) -> Result<(), CliFault>
    requires { IsPreambleCount words.now.preambles }
    ensures { RequestOutcome words.now (W.stream writer.old) (W.stream writer.new) result }
{
    let request = read_request(words)?;
    write_all(writer, message_line(&request, words.preambles).as_slice())?;
    Ok(())
}
