ghost use Rattle.std.specs.Prelude.{◌≡◌, ℕ, Ok, IfOk, IfErr};
ghost use Rattle.hart_frame.specs.wire.FrameParts.{FrameParts};
ghost use Rattle.hart_frame.specs.wire.Body.{BeginsWithBody};
ghost use Rattle.hart_frame.specs.wire.Refusal.{IsRefusedWith};

use crate::wire::prefix::{Prefix, prefix_of};
use crate::{Frame, FrameFault, FrameView};
use hart_values::ByteList;

/// A body of a frame: at most 267 bytes.
pub type Body = ByteList<267>;

/// Reads the frame whose body stands at the front of the bytes, and returns it with the body's length. Further bytes may follow.
///
/// ```rust
/// let (frame, len) = decode(&[0x02, 0x80, 0x00, 0x00, 0x82])?;
/// assert_eq!(rt; (frame.command(), len), (0, 5));
/// ```
///
/// # Errors
///
/// The first of these that holds:
///
/// - [`FrameFault::Truncated`] if there are no bytes;
/// - [`FrameFault::BadDelimiter`] if the first byte is no STX or ACK delimiter (such a delimiter has bits 4 and 3 clear, and 2 for STX or 6
///   for ACK in bits 2 to 0);
/// - [`FrameFault::Truncated`] if the bytes end before the byte count;
/// - [`FrameFault::ShortReply`] if an ACK has a byte count below 2;
/// - [`FrameFault::Truncated`] if the bytes end before the check byte;
/// - [`FrameFault::BadCheck`] if the check byte does not give the body even parity.
pub fn decode(bytes: &[u8]) -> Result<(Frame, usize), FrameFault>
    ensures accepts { IfOk result (λ (frame, len). BeginsWithBody bytes.now frame len) }
    ensures only { (frame : FrameParts) (len : ℕ) → BeginsWithBody bytes.now frame len → result ≡ Ok (frame, len) }
    ensures refused { IfErr result (IsRefusedWith bytes.now) }
{
    match prefix_of(bytes) {
        Prefix::Whole(layout) => {
            let len = layout.body_len();
            let view = FrameView::view_in(layout, &bytes[..len]);
            Ok((view.to_frame(), len))
        }
        Prefix::Cut(_) => Err(FrameFault::Truncated),
        Prefix::Wrong(wrong) => Err(wrong.fault()),
    }
}
