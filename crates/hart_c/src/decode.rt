//! Reading the frame at the front of some bytes, and their check byte.
ghost use Rattle.hart_frame.specs.wire.Parity.{IsCheckByte};
ghost use Rattle.hart_c.specs.Messages.{DecodeOutcome};

use crate::fault::{HART_OK, HartOutcome, number_of_frame_fault};
use crate::frame::{HartFrame, show_frame};
use hart_frame::decode;

/// Reads the frame at the front of `bytes`, from its delimiter on, and returns the length of its body. Writes the frame to `frame`,
/// starting at place 0.
///
/// # Errors
///
/// The first of these that holds, checked from the first byte on: a bad delimiter, an end before the byte count, a short reply, an end
/// before the check byte, a bad check byte (HCF_SPEC-081). `frame` is then unchanged.
#[unsafe(no_mangle)]
pub extern "C" fn hart_decode(bytes: &[u8], frame: &mut HartFrame) -> HartOutcome
    ensures { DecodeOutcome bytes.now frame.old frame.new result }
{
    match decode(bytes) {
        Ok((decoded, len)) => {
            show_frame(&decoded, 0, len as u64, frame);
            HartOutcome {
                len,
                fault: HART_OK,
            }
        }
        Err(fault) => HartOutcome {
            len: 0,
            fault: number_of_frame_fault(fault),
        },
    }
}

/// Returns the check byte of these bytes, which is the exclusive or of all of them.
#[unsafe(no_mangle)]
pub extern "C" fn hart_check_byte(bytes: &[u8]) -> u8
    ensures { IsCheckByte bytes.now result }
{
    hart_frame::check_byte(bytes)
}
