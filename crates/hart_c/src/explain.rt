//! What a message means, in words or as an object of JSON.
ghost use Rattle.std.specs.Prelude.{◌≡◌, ◌≢◌, ◌<◌, ◌≤◌, [], IfErr, IfOk, OnErr, length};
ghost use Rattle.hart_frame.specs.wire.FrameParts.{FrameParts};
ghost use Rattle.hart_frame.specs.wire.Message.{IsMessage};
ghost use Rattle.hart_frame.specs.wire.View.{parts_of};
ghost use Rattle.hart_c.specs.Explain.{ExplainOutcome, IsStyle, explain_checks, explained};
ghost use Rattle.hart_c.specs.Faults.{IsFirstOf};
ghost use Rattle.hart_c.specs.Messages.{IsFrame, IsWritten};
ghost use Rattle.hart_c.specs.Numbers.{found_in};

use crate::encode::frame_of;
use crate::fault::{Fault, HartOutcome};
use crate::frame::HartFrame;
use crate::output::{outcome_of, put};
use hart_explain::objects::push_line;
use hart_explain::words::push_sighting;
use hart_explain::{Before, Pairs, Text};
use hart_frame::{
    FoundView, Frame, FrameView, LEAST_PREAMBLES, Message, Sighting, encode, next_in_bytes,
};

/// The style that explains a message in words.
pub const HART_WORDS: u8 = 0;

/// The style that explains a message as an object of JSON.
pub const HART_JSON: u8 = 1;

/// A number of bytes that is enough for the explanation of any message.
pub const HART_EXPLAINED_LEN: u32 = 16384;

/// Writes what a message means to the front of `output`, in words or as a line of JSON, without a final zero byte. The text is what
/// `hart explain` writes of the message if it hears no other message, but without `preambles`: a frame does not say how many preamble bytes
/// were heard. Returns its length; [`HART_EXPLAINED_LEN`] bytes are enough for any text.
///
/// # Errors
///
/// The first of these that holds: a number of the address out of range, more than three expansion bytes, a reply without its status
/// bytes, another style than [`HART_WORDS`] or [`HART_JSON`], or no room. The output is then unchanged.
#[unsafe(no_mangle)]
pub extern "C" fn hart_explain(style: u8, frame: &HartFrame, output: &mut [u8]) -> HartOutcome
    ensures outcome { ExplainOutcome style frame.now output.old output.new result }
    ensures room { HART_EXPLAINED_LEN ≤ length output.old → result.fault ≢ 12 }
{
    outcome_of(write_explanation(style, frame, output))
}

/// Writes what a message means to the front of `output`, and returns the length of the text.
fn write_explanation(style: u8, frame: &HartFrame, output: &mut [u8]) -> Result<usize, Fault>
    ensures passed { IfOk result (λ len. IsFrame frame.now × IsStyle style) }
    ensures written { IfOk result (IsWritten (λ text. text ≡ explained style (found_in frame.now)) output.old output.new) }
    ensures refused { IfErr result (IsFirstOf (explain_checks style frame.now (length output.old))) }
    ensures room { 16384 ≤ length output.old → IfErr result (λ fault. fault ≢ Fault.NoRoom) }
    ensures unchanged { OnErr result (output.new ≡ output.old) }
{
    let shown = frame_of(frame)?;
    if style > HART_JSON {
        return Err(Fault::BadStyle);
    }
    write_text(style, &shown, frame.start, frame.stop, output)
}

/// Writes the text of a frame that stands at these places to the front of `output`, and returns its length.
fn write_text(
    style: u8,
    frame: &Frame,
    start: u64,
    stop: u64,
    output: &mut [u8],
) -> Result<usize, Fault>
    ensures written { IfOk result (IsWritten
        (λ text. text ≡ explained style (record { start = start; stop = stop; frame = frame.now })) output.old output.new) }
    ensures refused { IfErr result (λ fault. (fault ≡ Fault.NoRoom)
        × (length output.old < length (explained style (record { start = start; stop = stop; frame = frame.now })))) }
    ensures few { length (explained style (record { start = start; stop = stop; frame = frame.now })) ≤ 16384 }
    ensures unchanged { OnErr result (output.new ≡ output.old) }
{
    let mut message = Message::new();
    encode(frame, LEAST_PREAMBLES, &mut message).unwrap();
    let mut text = Text::new();
    push_explanation(&mut text, style, start, stop, view_of(message.as_slice()));
    put(text.as_slice(), output)
}

/// Returns a view of the frame of a message.
fn view_of(message: &[u8]) -> FrameView<'_>
    requires { (frame : FrameParts) × IsMessage frame 5 message.now }
    ensures { (frame : FrameParts) → IsMessage frame 5 message.now → parts_of result ≡ frame }
{
    next_in_bytes(message, 0, true).frame.unwrap().frame
}

/// Adds the text of a frame that stands at these places to an empty text.
fn push_explanation(text: &mut Text, style: u8, start: u64, stop: u64, frame: FrameView<'_>)
    requires { text.old ≡ [] }
    ensures text { text.new ≡ explained style (record { start = start; stop = stop; frame = parts_of frame.entry }) }
    ensures few { length text.new ≤ 16384 }
{
    let pairs = Pairs::new();
    let message = Sighting::Message(FoundView { start, stop, frame });
    let before = Before {
        answers: None,
        sending: 1,
        preambles: None,
    };
    if style == HART_WORDS {
        push_sighting(text, &pairs, &[], 0, before, &message);
    } else {
        push_line(text, &pairs, &[], 0, before, &message);
    }
}
