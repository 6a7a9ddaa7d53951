//! The words of a message, and the request that they describe. Its data need not fit its command, so that bad requests can be made too.
ghost use Rattle.hart_station.specs.Encode.{WordsOutcome};

use crate::fault::TextFault;
use hart_frame::Frame;
use hart_line::{read_address, read_command, read_data, read_who};
use std::marker::Model;

/// What `hart encode` was given: the words of a message, as they were written, and its number of preamble bytes.
#[derive(Drop)]
pub struct EncodeWords<'a> {
    /// WHO, the master that asks.
    pub who: &'a str,
    /// ADDRESS, the device that is asked.
    pub address: &'a str,
    /// COMMAND, the number of the command.
    pub command: &'a str,
    /// DATA, or the empty word if DATA is absent.
    pub payload: &'a str,
    /// How many preamble bytes the message begins with, from 5 to 20.
    pub preambles: u8,
}

impl<'a> Model for EncodeWords<'a> {
    ghost use Rattle.hart_station.specs.Encode.{MessageWords};

    ghost Value = { MessageWords };

    ghost view = { λ words. record {
      who = words.who.now;
      address = words.address.now;
      command = words.command.now;
      payload = words.payload.now;
      preambles = words.preambles;
    } };
}

/// Returns the request that the words describe.
///
/// # Errors
///
/// [`TextFault::BadWord`] with the number of the first bad word.
pub fn read_request(words: &EncodeWords<'_>) -> Result<Frame, TextFault>
    ensures { WordsOutcome words.now result }
{
    let Some(master) = read_who(words.who.as_bytes()) else {
        return Err(TextFault::BadWord { number: 1 });
    };
    let Some(address) = read_address(words.address.as_bytes()) else {
        return Err(TextFault::BadWord { number: 2 });
    };
    let Some(command) = read_command(words.command.as_bytes()) else {
        return Err(TextFault::BadWord { number: 3 });
    };
    let Some(payload) = read_data(words.payload.as_bytes()) else {
        return Err(TextFault::BadWord { number: 4 });
    };
    Ok(Frame::request(master, address, command, payload))
}
