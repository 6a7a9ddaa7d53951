//! What a line asks of a master.
ghost use Rattle.std.specs.Prelude.{◌≡◌, map};
ghost use Rattle.hart_line.specs.script.Words.{named_in};
ghost use Rattle.hart_station.specs.Ask.{AsksBy, ReadsAsk, ReadsWords, message_words, most_words, request_words, submitted};
ghost use Rattle.hart_station.specs.Ask.{ticked, verbs, who_word};
ghost use Rattle.hart_station.specs.LineWords.{word_at};

use crate::encode::{self, EncodeWords};
use crate::fault::TextFault;
use crate::line_words::read_words;
use crate::request::{self, RequestWords};
use hart_frame::Frame;
use hart_line::read_command;
use hart_values::MasterId;

/// What a line asks of a master, other than to hear a delivery.
#[derive(Debug, Drop)]
pub enum Ask {
    /// To take this request in hand.
    Submit(Frame),
    /// To send the message that is due.
    Send,
    /// To let this number of character times pass; 255 means 255 or more.
    Tick(u8),
}

/// The first word of a line that asks something.
#[derive(Clone, Copy)]
pub enum Verb {
    /// `submit`: a request with its data in hex.
    Submit,
    /// `ask`: a request with its data as named fields.
    Ask,
    /// `send`: the message that is due.
    Send,
    /// `tick`: time passes.
    Tick,
}

/// The number of preamble bytes in the words of a request. It has no effect, because no message is made from these words.
const PREAMBLES: u8 = 5;

/// Returns what a line asks.
///
/// # Errors
///
/// [`TextFault::BadWord`] or [`TextFault::BadField`] of the first bad word. The first word of the line has the number 1. A missing word is
/// read as an empty word.
pub fn read_ask(who: MasterId, line: &[u8]) -> Result<Ask, TextFault>
    ensures { ReadsAsk who line.now result }
{
    match read_words(line) {
        Ok(words) => read_asking_words(who, words.as_slice()),
        Err(number) => Err(TextFault::BadWord { number }),
    }
}

/// Returns what the words of a line ask, or the fault of the first bad word.
fn read_asking_words(who: MasterId, words: &[&str]) -> Result<Ask, TextFault>
    ensures { ReadsWords who (map (λ word. word.now) words.now) result }
{
    let Some(verb) = verb_of(word_at(words, 0)) else {
        return Err(TextFault::BadWord { number: 1 });
    };
    let most = most_words(verb);
    if words.len() > usize::from(most) {
        return Err(TextFault::BadWord { number: most + 1 });
    }
    ask_by(who, words, verb)
}

/// Returns what a line with this first word asks, or the fault of the first bad word.
fn ask_by(who: MasterId, words: &[&str], verb: Verb) -> Result<Ask, TextFault>
    ensures { AsksBy who (map (λ word. word.now) words.now) verb result }
{
    match verb {
        Verb::Submit => submitted(encode::read_request(&message_words(who, words))),
        Verb::Ask => submitted(request::read_request(&request_words(who, words))),
        Verb::Send => Ok(Ask::Send),
        Verb::Tick => ticked(read_command(word_at(words, 1).as_bytes())),
    }
}

/// Returns the [`Ask`] for a request that was read from the words of a line, or the fault of these words.
fn submitted(read: Result<Frame, TextFault>) -> Result<Ask, TextFault>
    ensures { result ≡ submitted read }
{
    match read {
        Ok(request) => Ok(Ask::Submit(request)),
        Err(fault) => Err(fault),
    }
}

/// Returns the [`Ask`] for a number of character times. `None` means that the second word of the line is bad.
fn ticked(count: Option<u8>) -> Result<Ask, TextFault>
    ensures { result ≡ ticked count }
{
    match count {
        Some(count) => Ok(Ask::Tick(count)),
        None => Err(TextFault::BadWord { number: 2 }),
    }
}

/// Returns the word at a place, counted from 0, or the empty word if there is no such word.
fn word_at<'a>(words: &[&'a str], place: usize) -> &'a str
    ensures { result.now ≡ word_at (map (λ word. word.now) words.now) place }
{
    match words.get(place) {
        Some(word) => word,
        None => "",
    }
}

/// Returns what the first word of a line asks, or `None` if this word is unknown.
fn verb_of(word: &str) -> Option<Verb>
    ensures { result ≡ named_in verbs word.now }
{
    match word {
        "submit" => Some(Verb::Submit),
        "ask" => Some(Verb::Ask),
        "send" => Some(Verb::Send),
        "tick" => Some(Verb::Tick),
        _ => None,
    }
}

/// Returns the greatest number of words in a line with this first word.
fn most_words(verb: Verb) -> u8
    ensures { result ≡ most_words verb }
{
    match verb {
        Verb::Submit => 4,
        Verb::Ask => 64,
        Verb::Send => 1,
        Verb::Tick => 2,
    }
}

/// Returns the words of `submit` as the words of `hart encode`.
fn message_words<'a>(who: MasterId, words: &[&'a str]) -> EncodeWords<'a>
    ensures { result ≡ message_words who (map (λ word. word.now) words.now) }
{
    EncodeWords {
        who: who_word(who),
        address: word_at(words, 1),
        command: word_at(words, 2),
        payload: word_at(words, 3),
        preambles: PREAMBLES,
    }
}

/// Returns the words of `ask` as the words of `hart request`.
fn request_words<'w, 'a: 'w>(who: MasterId, words: &'w [&'a str]) -> RequestWords<'w, 'a>
    ensures { result ≡ request_words who (map (λ word. word.now) words.now) }
{
    RequestWords {
        who: who_word(who),
        address: word_at(words, 1),
        command: word_at(words, 2),
        fields: words.get(3..),
        preambles: PREAMBLES,
    }
}

/// Returns the word of a master: `P` for the primary master, and `S` for the secondary master.
fn who_word(who: MasterId) -> &'static str
    ensures { result.now ≡ who_word who }
{
    match who {
        MasterId::Primary => "P",
        MasterId::Secondary => "S",
    }
}
