//! The text that `hart sim` writes.
ghost use Rattle.std.specs.Prelude.{◌≡◌, ◌≤◌, ◌<◌, ◌+◌, ◌*◌, ◌∷◌, [], ◌++◌, IfErr, IfOk, OnErr, OnOk, decimal, length};
ghost use Rattle.std.specs.List.{enumerate_from, flat_map, join_with_byte};
ghost use Rattle.hart_line.specs.declared.line.report.Outcome.TheVariants.{Answered};
ghost use Rattle.hart_cli.specs.sim.Text.{IsNeededByDevice, IsNeededByFrame, IsNeededByOutcomes, outcome_line};
ghost use Rattle.hart_station.specs.Lines.{counter_line, image_line};
ghost use Rattle.hart_cli.specs.sim.Text.{outcome_words, party_word, spoken_line};

use hart_commands::Reply;
use hart_device::{Device, RegisterStore};
use hart_explain::Pairs;
use hart_explain::hex_text::push_hex;
use hart_line::{Filling, Log, NoRoom, Outcome, Party, Spoken};
use hart_station::lines::{push_counter_line, push_hex_word, push_image_line, push_word};
use hart_values::{ByteList, Payload};
use itoa::Buffer;
use std::alloc::Global;

/// The greatest number of bytes in a line. The longest line is the line of a frame: two places of 20 digits, the three words of
/// kind, master and burst bit, 10 digits of an address, 6 of the expansion bytes, 3 of the command and 510 of the payload, eight
/// spaces and a line feed.
const TEXT_LINE_LEN: usize = 583;

/// The buffer for one line.
type TextLine = ByteList<TEXT_LINE_LEN>;

/// The number of status bytes at the front of a reply's payload.
const STATUS_LEN: usize = 2;

/// The greatest number of bytes in a body whose line fits in a [`ShortLine`].
const SHORT_BODY_LEN: usize = 28;

/// The line of a spoken frame with a short body: a letter, a space, at most three digits, a space, the digits of the body, and a line feed.
/// To make a new short line takes fewer instructions than to clear a long line.
type ShortLine = ByteList<64>;

/// The text of a script while it is carried out: the lines of spoken frames, and then the lines of submissions.
#[derive(Drop)]
pub struct SimText {
    text: Filling<u8>,
    pairs: Pairs,
    line: TextLine,
    /// A buffer for the payload of a reply.
    payload: Payload,
}

impl SimText {
    /// Returns an empty text.
    pub fn new(alloc: Global) -> Self
        ensures { result.text.items ≡ [] }
    {
        SimText {
            text: Filling::with_room(alloc, 0).unwrap(),
            pairs: Pairs::new(),
            line: TextLine::new(),
            payload: Payload::new(),
        }
    }

    /// Adds a line for each submission.
    ///
    /// # Errors
    ///
    /// [`NoRoom`] at the first line for which memory is refused.
    pub fn push_outcomes(&mut self, outcomes: &[Outcome]) -> Result<(), NoRoom>
        ensures text { OnOk result
            (self.new.text.items ≡ self.old.text.items ++ flat_map outcome_line (enumerate_from 1 outcomes.now)) }
        ensures refused { IfErr result (λ none. (0 < none.items) × IsNeededByOutcomes outcomes.now none.items) }
    {
        for (index, outcome) in outcomes.iter().enumerate() {
            let (line, payload) = (&mut self.line, &mut self.payload);
            make_outcome_line(line, payload, &self.pairs, index + 1, outcome);
            push_bytes(&mut self.text, self.line.as_slice())?;
        }
        Ok(())
    }

    /// Adds the lines of the counter and the image of the device, and returns the whole text.
    ///
    /// # Errors
    ///
    /// [`NoRoom`] if memory for these lines is refused.
    pub fn finish<S: RegisterStore>(self, device: &Device<S>) -> Result<Vec<u8>, NoRoom>
        ensures text { IfOk result (λ list. list.items ≡ self.text.items ++ counter_line device.now ++ image_line device.now) }
        ensures refused { IfErr result (λ none. (0 < none.items) × IsNeededByDevice device.now none.items) }
    {
        let SimText {
            mut text,
            pairs,
            line: _,
            payload: _,
        } = self;
        push_bytes(&mut text, device_lines(&pairs, device).as_slice())?;
        Ok(text.finish())
    }
}

impl SimText {
    /// Adds the line of a spoken frame with a body of any length.
    ///
    /// # Errors
    ///
    /// [`NoRoom`] if there is no room for the line.
    #[inline(never)]
    fn note_long(&mut self, spoken: &Spoken) -> Result<(), NoRoom>
        requires { length spoken.now.bytes ≤ 267 }
        ensures text { OnOk result (self.new.text.items ≡ self.old.text.items ++ spoken_line spoken.now) }
        ensures refused { IfErr result (λ none. (0 < none.items) × IsNeededByFrame spoken.now none.items) }
    {
        self.line.clear();
        push_spoken_line(&mut self.line, &self.pairs, spoken);
        push_bytes(&mut self.text, self.line.as_slice())
    }
}

impl Log for SimText {
    ghost use Rattle.std.proofs.Common.{append_assoc, append-nil, arith};
    ghost use Rattle.std.proofs.lemmas.Grind.{flat_map-append};
    ghost use Rattle.std.specs.Prelude.{◌≡◌, ◌++◌};
    ghost use Rattle.std.specs.List.{flat_map};
    ghost use Rattle.hart_cli.specs.sim.Text.{IsNeededByFrame, spoken_line};

    ghost notes = { λ old noted new. new.text.items ≡ old.text.items ++ flat_map spoken_line noted };

    ghost needs = { λ spoken items. IsNeededByFrame spoken items };

    fn note(&mut self, spoken: &Spoken) -> Result<(), NoRoom> {
        if spoken.bytes.len() > SHORT_BODY_LEN {
            return self.note_long(spoken);
        }
        let mut line = ShortLine::new();
        push_spoken_line(&mut line, &self.pairs, spoken);
        push_bytes(&mut self.text, line.as_slice())
    }

    ghost none = { λ text. Prim.grind (arith, append-nil) };

    ghost more = { λ a b c xs ys first next. Prim.rw (next, first, flat_map-append spoken_line xs ys) (Prim.simp append_assoc) };
}

/// Adds bytes to a text.
///
/// # Errors
///
/// [`NoRoom`] if memory for the bytes is refused. The text is then unchanged.
#[inline(always)]
fn push_bytes(text: &mut Filling<u8>, bytes: &[u8]) -> Result<(), NoRoom>
    ensures text { OnOk result (text.new.items ≡ text.old.items ++ bytes.now) }
    ensures kept { OnErr result (text.new ≡ text.old) }
    ensures refused { IfErr result (λ none. (0 < none.items) × (none.items ≡ length bytes.now)) }
{
    make_room(text, bytes.len())?;
    text.extend(bytes);
    Ok(())
}

/// Makes room for `len` more bytes, unless there is room already. Checking this here takes fewer instructions than in
/// [`Filling::make_room`].
///
/// # Errors
///
/// [`NoRoom`] if the allocator refused the memory. In this case the text does not change.
#[inline(always)]
fn make_room(text: &mut Filling<u8>, len: usize) -> Result<(), NoRoom>
    ensures items { text.new.items ≡ text.old.items }
    ensures room { OnOk result (length text.new.items + len ≤ text.new.room) }
    ensures kept { OnErr result (text.new ≡ text.old) }
    ensures refused { IfErr result (λ none. (0 < none.items) × (none.items ≡ len)) }
{
    if text.spare() > len {
        return Ok(());
    }
    text.make_room(len)
}

/// Writes a spoken frame into an empty line.
fn push_spoken_line<const N: usize>(line: &mut ByteList<N>, pairs: &Pairs, frame: &Spoken)
    requires empty { line.old ≡ [] }
    requires room { 7 + 2 * length frame.now.bytes ≤ N }
    ensures { line.new ≡ spoken_line frame.now }
{
    push_word(line, party_word(frame.party));
    push_number(line, frame.preambles);
    push_hex(line, pairs, frame.bytes.as_slice());
    line.push(b'\n');
}

/// Adds a number and the space after it. For one or two digits this takes fewer instructions than the library's call.
fn push_number<const N: usize>(line: &mut ByteList<N>, number: u8)
    requires { length line.old + 4 ≤ N }
    ensures word { line.new ≡ line.old ++ decimal number ++ 32 ∷ [] }
    ensures len { length line.new ≤ length line.old + 4 }
{
    if number >= 100 {
        line.push(b'0' + number / 100);
        line.push(b'0' + number / 10 % 10);
    } else if number >= 10 {
        line.push(b'0' + number / 10);
    }
    line.push(b'0' + number % 10);
    line.push(b' ');
}

/// Returns the word of a party.
fn party_word(party: Party) -> &'static str
    ensures word { result.now ≡ party_word party }
    ensures short { length result.now ≤ 1 }
{
    match party {
        Party::Primary => "P",
        Party::Secondary => "S",
        Party::Device => "D",
    }
}

/// Replaces the text of `line` by the line of the submission with this number.
fn make_outcome_line(
    line: &mut TextLine,
    payload: &mut Payload,
    pairs: &Pairs,
    number: usize,
    outcome: &Outcome,
)
    ensures { line.new ≡ outcome_line (number, outcome.now) }
{
    line.clear();
    push_word(line, Buffer::new().format(number));
    push_outcome(line, payload, pairs, outcome);
    line.push(b'\n');
}

/// Adds the words for the outcome of a submission to a line. The line may already have the submission's number, of at most 20 digits, and a
/// space.
fn push_outcome(line: &mut TextLine, payload: &mut Payload, pairs: &Pairs, outcome: &Outcome)
    requires { length line.old ≤ 21 }
    ensures words { line.new ≡ line.old ++ join_with_byte 32 (outcome_words outcome.now) }
    ensures room { length line.new < 583 }
{
    match outcome {
        Outcome::Answered { reply, sendings } => push_answered(
            line, payload, pairs, reply, *sendings,
        ),
        Outcome::NoReply { sendings } => push_count(line, "noreply", *sendings),
        Outcome::Unfinished { sendings } => push_count(line, "unfinished", *sendings),
        Outcome::Refused(fault) => push_count(line, "refused", fault.number()),
    }
}

/// Adds the words of an answered submission to a line. The line may already have the submission's number and a space.
fn push_answered(
    line: &mut TextLine,
    payload: &mut Payload,
    pairs: &Pairs,
    reply: &Reply,
    sendings: u8,
)
    requires { length line.old ≤ 21 }
    ensures words { line.new ≡ line.old ++ join_with_byte 32 (outcome_words (Answered reply.now sendings)) }
    ensures room { length line.new < 583 }
{
    push_word(line, "answered");
    push_number(line, sendings);
    push_hex(line, pairs, &[reply.code.value()]);
    line.push(b' ');
    push_hex(line, pairs, &[reply.status.0]);
    line.push(b' ');
    reply.write(payload);
    push_hex_word(line, pairs, &payload.as_slice()[STATUS_LEN..]);
}

/// Adds a word and a number.
fn push_count(line: &mut TextLine, word: &str, number: u8)
    requires { length line.old + length word.now ≤ 575 }
    ensures words { line.new ≡ line.old ++ join_with_byte 32 (word.now ∷ decimal number ∷ []) }
    ensures room { length line.new < 583 }
{
    push_word(line, word);
    line.extend_from_slice(Buffer::new().format(number).as_bytes());
}

/// Returns the lines of the counter and of the image.
fn device_lines<S: RegisterStore>(pairs: &Pairs, device: &Device<S>) -> TextLine
    ensures { result ≡ counter_line device.now ++ image_line device.now }
{
    let mut lines = TextLine::new();
    push_counter_line(&mut lines, device);
    push_image_line(&mut lines, pairs, device);
    lines
}
