//! The words of a message with named fields, and the request that they describe.
ghost use Rattle.std.specs.Prelude.{◌≡◌, [], map};
ghost use Rattle.std.specs.Option.{option_map_or};
ghost use Rattle.hart_request.specs.Fields.{payload_of};
ghost use Rattle.hart_station.specs.Request.{ReadOutcome};

use crate::fault::TextFault;
use hart_frame::{Frame, Payload};
use hart_line::{read_address, read_command, read_who};
use hart_request::{BadField, payload_of};
use std::marker::Model;

/// What `hart request` was given.
#[derive(Drop)]
pub struct RequestWords<'w, 'a: 'w> {
    /// WHO, the master that asks.
    pub who: &'a str,
    /// ADDRESS, the device that is asked.
    pub address: &'a str,
    /// COMMAND, the number of the command.
    pub command: &'a str,
    /// NAME=VALUE, once for each field of the command; `None` if no such words are given.
    pub fields: Option<&'w [&'a str]>,
    /// How many preamble bytes the message begins with, from 5 to 20.
    pub preambles: u8,
}

impl<'w, 'a: 'w> Model for RequestWords<'w, 'a> {
    ghost use Rattle.std.specs.Prelude.{[], map};
    ghost use Rattle.std.specs.Option.{option_map_or};
    ghost use Rattle.hart_station.specs.Request.{RequestWords};

    ghost Value = { RequestWords };

    ghost view = { λ words. record {
      who = words.who.now;
      address = words.address.now;
      command = words.command.now;
      fields = option_map_or (λ fields. map (λ word. word.now) fields.now) words.fields [];
      preambles = words.preambles;
    } };
}

/// Returns the request that the words describe.
///
/// # Errors
///
/// [`TextFault::BadWord`] with the number of the first bad word, or [`TextFault::BadField`].
pub fn read_request(words: &RequestWords<'_, '_>) -> Result<Frame, TextFault>
    ensures { ReadOutcome words.now result }
{
    let Some(master) = read_who(words.who.as_bytes()) else {
        return Err(TextFault::BadWord { number: 1 });
    };
    let Some(address) = read_address(words.address.as_bytes()) else {
        return Err(TextFault::BadWord { number: 2 });
    };
    let Some(command) = read_command(words.command.as_bytes()) else {
        return Err(TextFault::BadWord { number: 3 });
    };
    let payload = payload_of_any(command, words.fields)?;
    Ok(Frame::request(master, address, command, payload))
}

/// Returns the data of this command's request, from the words for its fields. `None` stands for no words.
fn payload_of_any(command: u8, fields: Option<&[&str]>) -> Result<Payload, BadField>
    ensures { result ≡ payload_of command (option_map_or (λ words. map (λ word. word.now) words.now) fields.entry []) }
{
    match fields {
        Some(words) => payload_of(command, words),
        None => payload_of(command, &[]),
    }
}
