//! Writing a frame as a message.
ghost use Rattle.std.specs.Prelude.{◌≡◌, ◌↔◌, length, if◌then◌else◌, IfOk, IfErr, IfSome, IsSome, OnErr};
ghost use Rattle.hart_frame.specs.wire.Message.{IsMessage, IsPreambleCount};
ghost use Rattle.hart_c.specs.Messages.{EncodeOutcome, IsFrame, IsInRange, IsWritten, encode_checks, frame_checks};
ghost use Rattle.hart_c.specs.Faults.{IsFirstOf};
ghost use Rattle.hart_c.specs.Numbers.{address_of, frame_in};

use crate::fault::{Fault, HartOutcome};
use crate::frame::HartFrame;
use crate::output::{outcome_of, put};
use hart_frame::{Expansion, Frame, FrameKind, Message, Payload, encode};
use hart_values::{Address, MasterId};

/// Writes a frame as a message to the front of `output`: `preambles` preamble bytes, then the body of the frame. An output of 287 bytes has
/// room for any message. Ignores `start`, `stop` and the fields of the unused kind of address.
///
/// # Errors
///
/// The first of these that holds: a number of the address out of range, more than three expansion bytes, a reply without its status
/// bytes, a number of preamble bytes outside 5 to 20, or no room (HCF_SPEC-081). The output is then unchanged.
#[unsafe(no_mangle)]
pub extern "C" fn hart_encode(frame: &HartFrame, preambles: u8, output: &mut [u8]) -> HartOutcome
    ensures { EncodeOutcome frame.now preambles output.old output.new result }
{
    outcome_of(write_message(frame, preambles, output))
}

/// Writes a frame as a message to the front of `output`. Returns the length of the message, or the first fault.
fn write_message(frame: &HartFrame, preambles: u8, output: &mut [u8]) -> Result<usize, Fault>
    ensures frame { IfOk result (λ len. IsFrame frame.now × IsPreambleCount preambles) }
    ensures written { IfOk result (IsWritten (IsMessage (frame_in frame.now) preambles) output.old output.new) }
    ensures refused { IfErr result (IsFirstOf (encode_checks frame.now preambles (length output.old))) }
    ensures unchanged { OnErr result (output.new ≡ output.old) }
{
    let frame = match frame_of(frame) {
        Ok(frame) => frame,
        Err(fault) => return Err(fault),
    };
    let mut message = Message::new();
    if let Err(fault) = encode(&frame, preambles, &mut message) {
        return Err(Fault::Frame(fault));
    }
    put(message.as_slice(), output)
}

/// Returns the frame that this `HartFrame` describes, or the fault of the first check that it fails.
pub(crate) fn frame_of(frame: &HartFrame) -> Result<Frame, Fault>
    ensures same { IfOk result (λ made. made ≡ frame_in frame.now) }
    ensures frame { IfOk result (λ made. IsFrame frame.now) }
    ensures refused { IfErr result (IsFirstOf (frame_checks frame.now)) }
{
    let address = address_of(frame).ok_or(Fault::BadAddress)?;
    let expansion = frame.expansion.get(..usize::from(frame.expansion_len));
    let expansion = Expansion::from_slice(expansion.ok_or(Fault::LongExpansion)?);
    let payload = Payload::from_slice(&frame.payload[..usize::from(frame.payload_len)]);
    Frame::new(
        kind_of(frame.is_reply),
        master_of(frame.is_primary),
        frame.is_burst,
        address,
        expansion.unwrap(),
        frame.command,
        payload.unwrap(),
    )
    .map_err(Fault::Frame)
}

/// Returns the address that this `HartFrame` describes, or `None` if a number of the address is out of range.
fn address_of(frame: &HartFrame) -> Option<Address>
    ensures in_range { IsSome result ↔ IsInRange frame.now.is_unique frame.now }
    ensures same { IfSome result (λ address. address ≡ address_of frame.now.is_unique frame.now) }
{
    if !frame.is_unique {
        return Address::polling(frame.polling_address).ok();
    }
    if frame.expanded_type >= 1 << 14 {
        return None;
    }
    Address::unique(frame.expanded_type, frame.device_id).ok()
}

/// Returns ACK for a reply, and otherwise STX.
fn kind_of(is_reply: bool) -> FrameKind
    ensures { result ≡ (if is_reply then FrameKind.Ack else FrameKind.Stx) }
{
    if is_reply {
        FrameKind::Ack
    } else {
        FrameKind::Stx
    }
}

/// Returns the primary master if `is_primary` is true, and otherwise the secondary one.
fn master_of(is_primary: bool) -> MasterId
    ensures { result ≡ (if is_primary then MasterId.Primary else MasterId.Secondary) }
{
    if is_primary {
        MasterId::Primary
    } else {
        MasterId::Secondary
    }
}
