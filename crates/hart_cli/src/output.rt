//! Writing a whole text.

ghost use Rattle.hart_cli.specs.stream.Stream.{Writes};

use crate::stream::{Failed, Sink};

/// Writes a whole text.
///
/// # Errors
///
/// `Failed` at the first write that fails. A prefix of the text is written then.
pub fn write_all<W: Sink>(writer: &mut W, text: &[u8]) -> Result<(), Failed>
    ensures { Writes (W.stream writer.old) (W.stream writer.new) text.now result }
{
    let mut rest = text;
    while !rest.is_empty() {
        let taken = writer.write(rest)?;
        rest = &rest[taken..];
    }
    Ok(())
}
