//! A master that answers lines.
ghost use Rattle.std.specs.Prelude.{◌≡◌, ◌≤◌, ◌+◌, ◌*◌, ◌++◌, ◌∷◌, [], ℕ, List, IfErr, IfOk, IfSome, MatchOption, None, Some, codes};
ghost use Rattle.std.specs.Prelude.{length};
ghost use Rattle.std.specs.Prelude.{option_map};
ghost use Rattle.hart_frame.specs.wire.Message.{IsPreambleCount};
ghost use Rattle.hart_master.specs.FrameMaster.{IsRequestFrame, hand_received, hand_submitted, result_submitted};
ghost use Rattle.hart_master.specs.declared.frame_event.FrameEvent.{FrameEvent};
ghost use Rattle.hart_station.specs.FaultText.{fault_text};
ghost use Rattle.hart_station.specs.MasterLines.{Hears, HearsItems, IsAskedLine, IsDueLine, IsProper, answered_line, dash_line, hand_asked};
ghost use Rattle.hart_station.specs.MasterLines.{begins_blank, items_of, master_fault_text, submitted_line, ticked_line, with_hand};
ghost use Rattle.hart_station.specs.MasterLines.{AreSettings, new_master};
ghost use Rattle.hart_station.specs.Station.{bad_line, chars_room};

use crate::ask::{Ask, read_ask};
use crate::fault::TextFault;
use crate::lines::{message_line, push_hex_word, push_text, push_word};
use crate::pieces::read_pieces;
use crate::station::{CHARS_ROOM, SaidLine, Station};
use hart_explain::Pairs;
use hart_frame::{Char, Frame, LoneFrame, lone_frame};
use hart_line::{Filling, NoRoom};
use hart_master::{FrameEvent, FrameHand, FrameMaster, MasterFault};
use hart_text::Digits;
use hart_values::MasterId;
use itoa::Buffer;
use std::alloc::Global;
use std::marker::Model;

/// The word before the items of a delivery.
const HEARD: &[u8] = b"heard";

/// The settings of a session of `hart master`.
#[derive(Clone, Copy, Debug)]
pub struct MasterSettings {
    /// Which of the two masters answers the lines.
    pub who: MasterId,
    /// How often a request is sent again, at most 15 times.
    pub retries: u8,
    /// How many character times a reply is awaited, at least 1.
    pub reply_limit: u8,
    /// How many preamble bytes a message begins with, from 5 to 20.
    pub preambles: u8,
}

/// A master that answers lines.
#[derive(Drop)]
pub struct MasterLines {
    who: MasterId,
    preambles: u8,
    master: FrameMaster,
    /// The characters of a line.
    chars: Filling<Char>,
    /// The table of the values of hex digits, for reading lines.
    digits: Digits,
    /// The table of hex digits, for writing answers.
    pairs: Pairs,
}

impl Model for MasterLines {
    ghost use Rattle.std.specs.Prelude.{◌≡◌};
    ghost use Rattle.hart_frame.specs.wire.Message.{IsPreambleCount};
    ghost use Rattle.hart_station.specs.MasterLines.{LineMaster};
    ghost use Rattle.hart_station.specs.Station.{chars_room};

    ghost Value = { LineMaster };

    ghost view = { λ lines. record { who = lines.who; preambles = lines.preambles; master = lines.master } };

    ghost invariant = { λ lines. (lines.chars.room ≡ chars_room) × IsPreambleCount lines.preambles };
}

impl MasterLines {
    /// Makes a master with nothing in hand, and allocates the room for the characters of a line.
    ///
    /// # Errors
    ///
    /// [`NoRoom`] if this room was refused.
    pub fn new(alloc: Global, settings: MasterSettings) -> Result<Self, NoRoom>
        requires { AreSettings settings }
        ensures made { IfOk result (λ lines. lines ≡ new_master settings) }
        ensures refused { IfErr result (λ none. none.items ≡ chars_room) }
    {
        let chars = Filling::with_room(alloc, CHARS_ROOM)?;
        Ok(MasterLines {
            who: settings.who,
            preambles: settings.preambles,
            master: FrameMaster::new(
                settings.retries,
                settings.reply_limit,
                FrameHand::Empty,
            ).unwrap(),
            chars,
            digits: Digits::new(),
            pairs: Pairs::new(),
        })
    }

    /// Hears the items of a line, and returns the answer. `items` has one more space after the items.
    fn hear_items(&mut self, items: &[u8]) -> SaidLine
        requires short { length items.now ≤ 2 * chars_room + 2 }
        ensures { HearsItems self.old items.now self.new result }
    {
        self.chars.clear();
        let place = read_pieces(&self.digits, items, &mut self.chars);
        if place < items.len() {
            return bad_line(TextFault::BadHex {
                place: HEARD.len() + place,
            });
        }
        hear(&mut self.master, &self.pairs, self.chars.as_slice())
    }

    /// Does what a line asks, and returns the answer.
    fn obey(&mut self, ask: Ask) -> SaidLine
        requires proper { IsProper ask }
        ensures state { self.new ≡ with_hand self.old (hand_asked self.old.master ask) }
        ensures said { IsAskedLine self.old ask result }
    {
        match ask {
            Ask::Submit(request) => submit(&mut self.master, request),
            Ask::Send => {
                let said = due_line(self.master.due(), self.preambles);
                self.master.sent();
                said
            }
            Ask::Tick(count) => ticked_line(self.master.tick(count)),
        }
    }
}

impl Station for MasterLines {
    ghost use Rattle.hart_station.specs.MasterLines.{ServesMasterLine, too_long};

    ghost serves = { ServesMasterLine };

    fn answer(&mut self, text: &[u8]) -> SaidLine {
        if let Some(items) = items_of(text) {
            return self.hear_items(items);
        }
        match read_ask(self.who, &text[..text.len().saturating_sub(1)]) {
            Ok(ask) => self.obey(ask),
            Err(fault) => bad_line(fault),
        }
    }

    ghost too_long = { λ station. too_long };
}

/// Returns the items after `heard` in a line. Returns `None` if the line does not say what was heard. `text` is the line and one more
/// space, and the returned items end with this space.
fn items_of(text: &[u8]) -> Option<&[u8]>
    ensures within { IfSome result (λ items. length items.now ≤ length text.now) }
    ensures items { (line : List ℕ) → text.now ≡ line ++ 32 ∷ [] → MatchOption result
        (items_of line ≡ None)
        (λ items. (given : List ℕ) × (items_of line ≡ Some given) × (items.now ≡ given ++ 32 ∷ [])) }
{
    let items = text.strip_prefix(HEARD)?;
    if !begins_blank(items) {
        return None;
    }
    Some(items)
}

/// Returns true if a text is empty, or begins with a space or a tab.
fn begins_blank(text: &[u8]) -> bool
    ensures { result ≡ begins_blank text.now }
{
    match text {
        [] => true,
        [first, ..] => *first == b' ' || *first == b'\t',
    }
}

/// Lets a master hear a delivery, and returns the answer.
fn hear(master: &mut FrameMaster, pairs: &Pairs, delivery: &[Char]) -> SaidLine
    ensures { (event : FrameEvent) × Hears master.old.hand delivery.now event result
        × (master.new ≡ record master.old { hand = hand_received master.old.hand event }) }
{
    let LoneFrame::Alone(found) = lone_frame(delivery) else {
        return dash_line();
    };
    match master.receive(&found.frame) {
        FrameEvent::Answered(sendings) => answered_line(pairs, sendings, found.frame.payload()),
        _ => dash_line(),
    }
}

/// Lets a master take a request in hand, and returns the answer.
fn submit(master: &mut FrameMaster, request: Frame) -> SaidLine
    requires request { IsRequestFrame request }
    ensures state { master.new ≡ record master.old { hand = hand_submitted master.old.hand request } }
    ensures said { result ≡ submitted_line (result_submitted master.old.hand request) }
{
    let mut said = SaidLine::new();
    match master.submit(request) {
        Ok(()) => push_text(&mut said, "ok\n"),
        Err(rejected) => {
            push_text(&mut said, "refused: ");
            push_text(&mut said, fault_words(rejected.fault));
            push_text(&mut said, "\n");
        }
    }
    said
}

/// Returns the text of a fault of a master.
fn fault_words(fault: MasterFault) -> &'static str
    ensures text { result.now ≡ master_fault_text fault }
    ensures short { length result.now ≤ 20 }
{
    match fault {
        MasterFault::OutOfRange => "out of range",
        MasterFault::Pending => "a request is pending",
        MasterFault::WrongAddress => "wrong address",
    }
}

/// Returns the line `-`, which says that nothing happened.
fn dash_line() -> SaidLine
    ensures { result ≡ dash_line }
{
    let mut said = SaidLine::new();
    push_text(&mut said, "-\n");
    said
}

/// Returns the line for a reply to a request that was sent `sendings` times.
fn answered_line(pairs: &Pairs, sendings: u8, payload: &[u8]) -> SaidLine
    requires { length payload.now ≤ 255 }
    ensures { result ≡ answered_line sendings payload.now }
{
    let mut said = SaidLine::new();
    push_word(&mut said, "answered");
    push_word(&mut said, Buffer::new().format(sendings));
    push_hex_word(&mut said, pairs, payload);
    said.push(b'\n');
    said
}

/// Returns the line for the message that is due, or `-` if no message is due.
fn due_line(due: Option<&Frame>, preambles: u8) -> SaidLine
    requires { IsPreambleCount preambles }
    ensures { IsDueLine preambles (option_map (λ frame. frame.now) due.entry) result }
{
    let Some(request) = due else {
        return dash_line();
    };
    let mut said = SaidLine::new();
    push_word(&mut said, "send");
    said.extend_from_slice(message_line(request, preambles).as_slice());
    said
}

/// Returns the answer after time has passed.
fn ticked_line(event: FrameEvent) -> SaidLine
    ensures { result ≡ ticked_line event }
{
    let mut said = SaidLine::new();
    match event {
        FrameEvent::Answered(_) | FrameEvent::Nothing => push_text(&mut said, "-\n"),
        FrameEvent::Retry => push_text(&mut said, "retry\n"),
        FrameEvent::NoReply(sendings) => {
            push_word(&mut said, "noreply");
            push_text(&mut said, Buffer::new().format(sendings));
            push_text(&mut said, "\n");
        }
    }
    said
}

/// Returns the answer to a bad line.
fn bad_line(fault: TextFault) -> SaidLine
    ensures { result ≡ bad_line (fault_text fault) }
{
    let mut said = SaidLine::new();
    push_text(&mut said, "bad line: ");
    push_text(&mut said, fault.text_line().as_str());
    said
}
