//! Characters that were heard and may still begin a frame, and lines of the frames that were found.
ghost use Rattle.std.specs.Prelude.{◌≡◌, ◌≢◌, ◌+◌, ◌*◌, ◌<◌, ◌≤◌, ◌^◌, ◌∷◌, [], ℕ, List, drop, length, false, true};
ghost use Rattle.std.specs.Option.{option_to_list};
ghost use Rattle.hart_frame.specs.heard.Character.{Character, faultless};
ghost use Rattle.hart_text.specs.Items.{NoPieceBegins};
ghost use Rattle.hart_cli.specs.dump.FrameLines.{AddsDecided, AddsRest, HasRoomFor, Hears, HearsText, IsWaiting};
ghost use Rattle.hart_cli.specs.input.Decoding.{most_ahead};
ghost use Rattle.hart_cli.specs.stream.Stream.{Writes};

use crate::calls::dump::text::push_frame_line;
use crate::output::write_all;
use crate::stream::{Failed, Sink};
use hart_explain::Pairs;
use hart_frame::{Char, next_in_bytes};
use hart_listen::held;
use hart_listen::held::Held;
use hart_text::{Chunk, Digits, next_piece, read_chunk};
use hart_values::ByteList;

/// The greatest number of bytes of kept lines: 12 for each character of a frame. The characters are at most 268 held ones, and one for
/// every two of at most 16,389 bytes read ahead.
const TEXT_LINES_LEN: usize = 101_550;

/// Lines that are not yet written.
type TextLines = ByteList<TEXT_LINES_LEN>;

/// Faultless characters that were heard and may still begin a frame, and lines of the frames that were found.
#[derive(Drop)]
pub struct FrameLines {
    /// The characters that may still begin a frame.
    pub held: Held,
    /// The place of the first held character in all that was heard.
    pub first: u64,
    /// The lines that are not yet written.
    pub lines: TextLines,
    /// The table of hex digits for the lines.
    pub pairs: Pairs,
}

impl FrameLines {
    /// Returns the state in which nothing was heard and no line is kept.
    pub fn new() -> FrameLines
        ensures held { result.held ≡ [] }
        ensures first { result.first ≡ 0 }
        ensures lines { result.lines ≡ [] }
    {
        FrameLines {
            held: Held::new(),
            first: 0,
            lines: TextLines::new(),
            pairs: Pairs::new(),
        }
    }

    /// Hears the items at the start of a text, and keeps a line for each frame that they decide. Returns the rest of the text, which begins
    /// with neither an item nor a separator. `chunk` is a work buffer.
    pub fn hear_text<'a>(&mut self, digits: &Digits, chunk: &mut Chunk, text: &'a [u8]) -> &'a [u8]
        requires waiting { IsWaiting self.old.held }
        requires none_kept { self.old.lines ≡ [] }
        requires few { length text.now ≤ most_ahead }
        requires places { self.old.first + length self.old.held + length text.now < 2 ^ 64 }
        ensures within { length result.now ≤ length text.now }
        ensures stops { NoPieceBegins result.now }
        ensures hears { HearsText self.old self.new text.now result.now }
        ensures waiting { IsWaiting self.new.held }
    {
        let mut rest = text;
        loop {
            chunk.clear();
            let len = read_chunk(digits, rest, chunk);
            self.hear_bytes(chunk.as_slice());
            rest = &rest[len..];
            let Some(lead) = next_piece(digits, rest) else {
                return rest;
            };
            self.hear_char(lead.char);
            rest = &rest[lead.len..];
        }
    }

    /// Hears bytes without faults. If no bytes are held, the new bytes are searched without a copy.
    fn hear_bytes(&mut self, bytes: &[u8])
        requires waiting { IsWaiting self.old.held }
        requires few { length bytes.now ≤ 8192 }
        requires room { HasRoomFor (length bytes.now) self.old }
        requires places { self.old.first + length self.old.held + length bytes.now < 2 ^ 64 }
        ensures hears { Hears self.old self.new (faultless bytes.now) }
        ensures waiting { IsWaiting self.new.held }
    {
        if self.held.is_empty() {
            self.hear_in_place(bytes);
        } else {
            self.hear_after_held(bytes);
        }
    }

    /// Hears bytes without faults while no bytes are held, and then holds the bytes that are still undecided.
    fn hear_in_place(&mut self, bytes: &[u8])
        requires empty { self.old.held ≡ [] }
        requires room { HasRoomFor (length bytes.now) self.old }
        requires places { self.old.first + length bytes.now < 2 ^ 64 }
        ensures hears { Hears self.old self.new (faultless bytes.now) }
        ensures waiting { IsWaiting self.new.held }
    {
        let used = push_decided(&mut self.lines, &self.pairs, self.first, bytes, false);
        self.held.extend_from_slice(&bytes[used..]);
        self.first += used as u64;
    }

    /// Hears bytes without faults together with the held bytes.
    fn hear_after_held(&mut self, bytes: &[u8])
        requires waiting { IsWaiting self.old.held }
        requires few { length bytes.now ≤ 8192 }
        requires room { HasRoomFor (length bytes.now) self.old }
        requires places { self.old.first + length self.old.held + length bytes.now < 2 ^ 64 }
        ensures hears { Hears self.old self.new (faultless bytes.now) }
        ensures waiting { IsWaiting self.new.held }
    {
        self.held.extend_from_slice(bytes);
        let held = self.held.as_slice();
        let used = push_decided(&mut self.lines, &self.pairs, self.first, held, false);
        self.let_go(used);
    }

    /// Hears the character of an item or a separator. A separator has no character, and changes nothing.
    #[tactic(auto, using(crate::proofs::lemmas::dump::FrameLines::hears_nothing))]
    fn hear_char(&mut self, char: Option<Char>)
        requires waiting { IsWaiting self.old.held }
        requires room { HasRoomFor (length (option_to_list char)) self.old }
        requires places { self.old.first + length self.old.held + 1 < 2 ^ 64 }
        ensures hears { Hears self.old self.new (option_to_list char) }
        ensures waiting { IsWaiting self.new.held }
    {
        match char {
            None => {}
            Some(char) if char.is_faultless() => self.hear_bytes(&[char.byte()]),
            Some(_) => self.hear_fault(),
        }
    }

    /// Hears a character with faults. No frame can go on beyond this character, so no character is held afterwards.
    fn hear_fault(&mut self)
        requires room { HasRoomFor 0 self.old }
        requires places { self.old.first + length self.old.held + 1 < 2 ^ 64 }
        ensures hears { (character : Character) → character.faults ≢ 0 → Hears self.old self.new (character ∷ []) }
        ensures waiting { IsWaiting self.new.held }
    {
        let held = self.held.as_slice();
        let used = push_decided(&mut self.lines, &self.pairs, self.first, held, true);
        self.held.clear();
        self.first += used as u64 + 1;
    }

    /// Writes the line of each frame in the held characters. No character comes after them.
    ///
    /// # Errors
    ///
    /// `Failed` at the first write that fails.
    pub fn finish<W: Sink>(mut self, writer: &mut W) -> Result<(), Failed>
        requires waiting { IsWaiting self.held }
        requires none_kept { self.lines ≡ [] }
        requires places { self.first + length self.held < 2 ^ 64 }
        ensures { (lines : List ℕ) × AddsRest self.first self.held [] lines
            × Writes (W.stream writer.old) (W.stream writer.new) lines result }
    {
        let held = self.held.as_slice();
        push_decided(&mut self.lines, &self.pairs, self.first, held, true);
        write_all(writer, self.lines.as_slice())
    }

    /// Drops the first `used` characters.
    fn let_go(&mut self, used: usize)
        requires within { used ≤ length self.old.held }
        requires few { length (drop used self.old.held) ≤ 268 }
        requires places { self.old.first + used < 2 ^ 64 }
        ensures { self.new ≡ record self.old { held = drop used self.old.held; first = self.old.first + used } }
    {
        self.first += used as u64;
        held::let_go(&mut self.held, used);
    }
}

/// Adds a line for each decided frame in held bytes. If `ended` is true, nothing comes after the bytes. The first byte has the place
/// `first` in all that was heard. Returns how many of the first bytes can be dropped.
fn push_decided(lines: &mut TextLines, pairs: &Pairs, first: u64, held: &[u8], ended: bool) -> usize
    requires room { length lines.old + 12 * length held.now ≤ 101550 }
    requires places { first + length held.now < 2 ^ 64 }
    ensures { AddsDecided first held.now ended result lines.old lines.new }
{
    let mut used = 0;
    loop {
        let next = next_in_bytes(held, used, ended);
        used = next.used;
        let Some(found) = next.frame else {
            return used;
        };
        push_frame_line(lines, pairs, first, &found);
    }
}
