//! Text that is kept until it is written.
ghost use Rattle.std.specs.Prelude.{[], OnOk};
ghost use Rattle.hart_cli.specs.stream.Kept.{AddsUnlessFailed, HasRoomFor};

use crate::output::write_all;
use crate::stream::{Failed, Sink};
use hart_explain::{SIGHTING_LEN, TEXT_LEN, Text};

/// The greatest number of bytes of text that are kept.
pub const KEPT_LEN: usize = TEXT_LEN;

/// The greatest number of bytes that are appended to the kept text at once.
pub const PIECE_LEN: usize = SIGHTING_LEN;

/// Text that is not yet written.
pub type Kept = Text;

/// Writes and drops the kept text if it leaves room for fewer than [`PIECE_LEN`] bytes.
///
/// # Errors
///
/// `Failed` if a write fails.
pub fn make_room<W: Sink>(writer: &mut W, kept: &mut Kept) -> Result<(), Failed>
    ensures adds { AddsUnlessFailed (W.stream writer.old) (W.stream writer.new) kept.old kept.new [] result }
    ensures room { OnOk result (HasRoomFor 16384 kept.new) }
{
    if kept.len() > KEPT_LEN - PIECE_LEN {
        write_all(writer, kept.as_slice())?;
        kept.clear();
    }
    Ok(())
}
