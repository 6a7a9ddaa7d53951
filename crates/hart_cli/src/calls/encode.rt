//! `hart encode`: a message to send. Its data need not fit its command, so that bad requests can be made too.
ghost use Rattle.hart_frame.specs.wire.Message.{IsPreambleCount};
ghost use Rattle.hart_cli.specs.Encode.{EncodeOutcome};

use crate::fault::CliFault;
use crate::output::write_all;
use crate::stream::Sink;
use hart_station::encode::{EncodeWords, read_request};
use hart_station::lines::message_line;
use std::alloc::Global;

/// Writes one line of hex: the message of the request that the four words describe. `preambles` is the message's number of preamble bytes.
///
/// The request is an STX with burst bit 0 and no expansion bytes. An absent DATA is the empty word.
///
/// # Errors
///
/// [`CliFault::BadWord`] with the number of the first bad word: 1 is WHO, 2 ADDRESS, 3 COMMAND, 4 DATA. If a word is bad, nothing is
/// written. The fault is [`CliFault::Write`] if no word is bad, but a write fails. At `Write` a prefix of the line is written, but not all
/// of it. Nothing is allocated.
pub fn encode_text<W: Sink>(
    _alloc: Global,
    who: &str,
    address: &str,
    command: &str,
    payload: &str,
    preambles: u8,
    writer: &mut W,
) -> Result<(), CliFault>
    requires { IsPreambleCount preambles }
    ensures { EncodeOutcome
        (record {
          who = who.now;
          address = address.now;
          command = command.now;
          payload = payload.now;
          preambles = preambles;
        })
        (W.stream writer.old) (W.stream writer.new)
        result }
{
    let words = EncodeWords {
        who,
        address,
        command,
        payload,
        preambles,
    };
    let request = read_request(&words)?;
    write_all(writer, message_line(&request, preambles).as_slice())?;
    Ok(())
}
