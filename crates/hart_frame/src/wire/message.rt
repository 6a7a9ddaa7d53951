ghost use Rattle.std.specs.Prelude.{◌≡◌, ◌+◌, ◌<◌, ◌≤◌, ◌↔◌, ◌++◌, List, ℕ, length, replicate, IsOk, IsTrue, IfErr, OnOk, OnErr};
ghost use Rattle.hart_frame.specs.wire.Body.{IsBody, IsCheckedPart};
ghost use Rattle.hart_frame.specs.wire.Message.{IsMessage, IsPreambleCount};

use crate::wire::delimiter::delimiter_byte;
use crate::wire::parity::body_check;
use crate::{Frame, FrameFault};
use hart_values::ByteList;

/// A message on the line: at most 20 preamble bytes and a body of at most 267 bytes.
pub type Message = ByteList<287>;

/// The least number of preamble bytes that a sender sends.
pub const LEAST_PREAMBLES: u8 = 5;

/// The greatest number of preamble bytes that a sender sends.
pub const MOST_PREAMBLES: u8 = 20;

pub(crate) const PREAMBLE: u8 = 0xFF;

/// Returns true if a sender may send this number of preamble bytes: [`LEAST_PREAMBLES`] to [`MOST_PREAMBLES`].
pub fn is_preamble_count(preambles: u8) -> bool
    ensures { IsTrue result ↔ IsPreambleCount preambles }
{
    (LEAST_PREAMBLES..=MOST_PREAMBLES).contains(&preambles)
}

/// Writes the frame as a message: `preambles` preamble bytes `FF`, and the frame's body. Replaces what `output` held.
///
/// ```rust
/// let identify = Frame::request(MasterId::Primary, Address::polling(0)?, 0, Payload::new());
/// let mut message = Message::new();
/// encode(&identify, 5, &mut message)?;
/// assert_eq!(rt;
///     &message.as_slice()[5..],
///     [0x02, 0x80, 0x00, 0x00, 0x82].as_slice()
/// );
/// ```
///
/// # Errors
///
/// [`FrameFault::BadPreamble`] if `preambles` is outside [`LEAST_PREAMBLES`] to [`MOST_PREAMBLES`]. `output` is then unchanged.
pub fn encode(frame: &Frame, preambles: u8, output: &mut Message) -> Result<(), FrameFault>
    ensures accepted { IsOk result ↔ IsPreambleCount preambles }
    ensures written { OnOk result (IsMessage frame.now preambles output.new) }
    ensures refused { IfErr result (λ fault. fault ≡ FrameFault.BadPreamble) }
    ensures unchanged { OnErr result (output.new ≡ output.old) }
{
    if !is_preamble_count(preambles) {
        return Err(FrameFault::BadPreamble);
    }
    output.clear();
    push_preamble(preambles, output);
    push_body(frame, output);
    Ok(())
}

/// Adds preamble bytes to an empty message.
fn push_preamble(preambles: u8, output: &mut Message)
    requires empty { length output.old ≡ 0 }
    requires room { preambles ≤ MOST_PREAMBLES }
    ensures { output.new ≡ replicate preambles 255 }
{
    for _ in 0..preambles {
        output.push(PREAMBLE);
    }
}

/// Appends the frame's body.
pub(crate) fn push_body<const N: usize>(frame: &Frame, output: &mut ByteList<N>)
    requires { length output.old + 267 ≤ N }
    ensures { (body : List ℕ) × IsBody frame.now body × (output.new ≡ output.old ++ body) }
{
    let start = output.len();
    push_checked_part(frame, output);
    let check = body_check(&output.as_slice()[start..]);
    output.push(check);
}

/// Appends the part of the frame's body before the check byte.
#[tactic(auto, using(std::proofs::lemmas::Grind::common_steps, crate::proofs::lemmas::wire::Body::appended))]
fn push_checked_part<const N: usize>(frame: &Frame, output: &mut ByteList<N>)
    requires { length output.old + 267 ≤ N }
    ensures parts { (checked : List ℕ) × IsCheckedPart frame.now checked × (output.new ≡ output.old ++ checked) }
    ensures room { length output.new < N }
{
    let address = frame.address().bytes(frame.master(), frame.burst());
    output.push(delimiter_byte(frame));
    output.extend_from_slice(address.as_slice());
    push_expansion(frame, output);
    output.push(frame.command());
    output.push(frame.payload().len() as u8);
    output.extend_from_slice(frame.payload());
}

/// Appends the frame's expansion bytes. Most frames have no expansion bytes, and then no copy is made.
#[inline(always)]
fn push_expansion<const N: usize>(frame: &Frame, output: &mut ByteList<N>)
    requires { length output.old + 3 ≤ N }
    ensures appended { output.new ≡ output.old ++ frame.now.expansion }
    ensures few { length frame.now.expansion ≤ 3 }
{
    let expansion = frame.expansion();
    if !expansion.is_empty() {
        output.extend_from_slice(expansion);
    }
}
