//! A device that answers lines.
ghost use Rattle.std.specs.Prelude.{◌≡◌, ◌≤◌, ◌+◌, ◌*◌, ◌++◌, ◌∷◌, [], ℕ, List, IfErr, IfOk, codes, length};
ghost use Rattle.hart_frame.specs.wire.Message.{IsPreambleCount};
ghost use Rattle.hart_line.specs.script.Words.{named_in};
ghost use Rattle.hart_station.specs.FaultText.{fault_text};
ghost use Rattle.hart_station.specs.DeviceLines.{Hears, HearsText, after_word, line_words, word_said};
ghost use Rattle.hart_station.specs.Station.{bad_line, chars_room};
ghost use Rattle.hart_station.specs.Lines.{IsMessageLine, line_of};
ghost use Rattle.hart_station.specs.declared.fault.TextFault.TheVariants.{BadHex};

use crate::fault::TextFault;
use crate::lines::{message_line, push_counter_line, push_image_line, push_text};
use crate::pieces::read_pieces;
use crate::station::{CHARS_ROOM, SaidLine, Station};
use hart_device::{Device, ImageRegisters, bench};
use hart_explain::Pairs;
use hart_frame::{Char, Frame};
use hart_line::{Filling, NoRoom};
use hart_text::Digits;
use std::alloc::Global;
use std::marker::Model;

/// A device that answers lines.
#[derive(Drop)]
pub struct DeviceLines {
    device: Device<ImageRegisters>,
    /// The characters of a line.
    chars: Filling<Char>,
    /// The table of the values of hex digits, for reading lines.
    digits: Digits,
    /// The table of hex digits, for writing answers.
    pairs: Pairs,
}

impl Model for DeviceLines {
    ghost use Rattle.std.specs.Prelude.{◌≡◌};
    ghost use Rattle.hart_device.specs.Device.{DeviceState};
    ghost use Rattle.hart_station.specs.Station.{chars_room};

    ghost Value = { DeviceState };

    ghost view = { λ lines. lines.device };

    ghost invariant = { λ lines. lines.chars.room ≡ chars_room };
}

impl DeviceLines {
    /// Allocates the room for the characters of a line.
    ///
    /// # Errors
    ///
    /// [`NoRoom`] if this room was refused.
    pub fn new(alloc: Global, device: Device<ImageRegisters>) -> Result<Self, NoRoom>
        ensures device { IfOk result (λ lines. lines ≡ device) }
        ensures refused { IfErr result (λ none. none.items ≡ chars_room) }
    {
        let chars = Filling::with_room(alloc, CHARS_ROOM)?;
        Ok(DeviceLines {
            device,
            chars,
            digits: Digits::new(),
            pairs: Pairs::new(),
        })
    }
}

impl Station for DeviceLines {
    ghost use Rattle.hart_station.specs.DeviceLines.{ServesLine, too_long};

    ghost serves = { ServesLine };

    fn answer(&mut self, text: &[u8]) -> SaidLine {
        let line = &text[..text.len().saturating_sub(1)];
        match word_of(line) {
            Some(word) => obey(&mut self.device, &self.pairs, word),
            None => hear_text(&mut self.device, &self.digits, &mut self.chars, text),
        }
    }

    ghost too_long = { λ station. too_long };
}

/// What a line asks of the device, if the line is no delivery.
#[derive(Clone, Copy)]
pub enum LineWord {
    /// The device loses its power and starts again.
    Restart,
    /// The device's write protection is switched on or off.
    Protect(bool),
    /// The image of the device is asked for.
    Image,
    /// The configuration change counter of the device is asked for.
    Counter,
}

/// Reads a line as a [`LineWord`]. Returns `None` if the line is no such word.
fn word_of(line: &[u8]) -> Option<LineWord>
    ensures { result ≡ named_in line_words line.now }
{
    if line == b"restart".as_slice() {
        Some(LineWord::Restart)
    } else if line == b"protect on".as_slice() {
        Some(LineWord::Protect(true))
    } else if line == b"protect off".as_slice() {
        Some(LineWord::Protect(false))
    } else if line == b"image".as_slice() {
        Some(LineWord::Image)
    } else if line == b"counter".as_slice() {
        Some(LineWord::Counter)
    } else {
        None
    }
}

/// Does what a word asks, and returns the answer to the word.
fn obey(device: &mut Device<ImageRegisters>, pairs: &Pairs, word: LineWord) -> SaidLine
    ensures device { device.new ≡ after_word word device.old }
    ensures said { result ≡ word_said word device.old }
{
    let mut said = SaidLine::new();
    match word {
        LineWord::Restart => {
            device.restart();
            push_text(&mut said, "ok\n");
        }
        LineWord::Protect(protected) => {
            device.protect(protected);
            push_text(&mut said, "ok\n");
        }
        LineWord::Image => push_image_line(&mut said, pairs, device),
        LineWord::Counter => push_counter_line(&mut said, device),
    }
    said
}

/// Lets a device hear the characters of a line, and returns the answer to the line. `text` is the line and one more space.
fn hear_text(
    device: &mut Device<ImageRegisters>,
    digits: &Digits,
    chars: &mut Filling<Char>,
    text: &[u8],
) -> SaidLine
    requires { length text.now ≤ 2 * chars.old.room + 2 }
    ensures hears { HearsText device.old text.now device.new result }
    ensures kept { chars.new.room ≡ chars.old.room }
{
    chars.clear();
    let place = read_pieces(digits, text, chars);
    if place < text.len() {
        return bad_hex(place);
    }
    hear(device, chars.as_slice())
}

/// Lets a device hear a delivery, and returns the line with its answer.
fn hear(device: &mut Device<ImageRegisters>, delivery: &[Char]) -> SaidLine
    ensures { Hears device.old delivery.now device.new result }
{
    let preambles = device.response_preambles();
    match device.hear(delivery, &bench::process()) {
        Some(reply) => reply_line(&reply, preambles),
        None => silence(),
    }
}

/// Returns a reply's message, with this number of preamble bytes, as a line of hex.
fn reply_line(reply: &Frame, preambles: u8) -> SaidLine
    requires { IsPreambleCount preambles }
    ensures { IsMessageLine reply.now preambles result }
{
    let mut said = SaidLine::new();
    said.extend_from_slice(message_line(reply, preambles).as_slice());
    said
}

/// Returns the line `-`, which says that the device is silent.
fn silence() -> SaidLine
    ensures { result ≡ line_of (codes "-" ∷ []) }
{
    let mut said = SaidLine::new();
    push_text(&mut said, "-\n");
    said
}

/// Returns the answer to a line with bad hex at `place`.
fn bad_hex(place: usize) -> SaidLine
    ensures { result ≡ bad_line (fault_text (BadHex place)) }
{
    let mut said = SaidLine::new();
    push_text(&mut said, "bad line: ");
    push_text(&mut said, TextFault::BadHex { place }.text_line().as_str());
    said
}
