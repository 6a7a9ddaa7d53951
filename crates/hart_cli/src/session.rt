//! Calls that answer lines. Such a call writes one line for each line that it reads.
ghost use Rattle.std.specs.Prelude.{◌≡◌, []};
ghost use Rattle.hart_cli.specs.session.Session.{ServedOutcome};
ghost use Rattle.hart_cli.specs.session.Server.{Keeps, ServesInput};

use crate::fault::CliFault;
use crate::input::{InputEnd, PORTION_LEN, read_portion};
use crate::session::server::Server;
use crate::stream::{Failed, Sink, Source};
use hart_station::Station;
use std::alloc::Global;

mod server;

/// Reads the lines of an input, and writes the station's answer to each. All memory is allocated before the first line is read.
///
/// # Errors
///
/// [`CliFault::Memory`] if memory for a line is refused; then nothing is read. [`CliFault::Read`] if a read fails, and
/// [`CliFault::TooLong`] if the input has more than 2^64 - 1 bytes; then the answers to all whole lines before the fault are written.
/// [`CliFault::Write`] if a write fails; then only a prefix of the answers to the lines read so far is written.
pub fn serve_lines<S: Station + Drop, R: Source, W: Sink>(
    alloc: Global,
    station: S,
    reader: &mut R,
    writer: &mut W,
) -> Result<(), CliFault>
    ensures { ServedOutcome S.serves station
        (R.stream reader.old) (R.stream reader.new)
        (W.stream writer.old) (W.stream writer.new)
        result }
{
    let mut server = Server::new(alloc, station)?;
    match serve_input(reader, writer, &mut server)? {
        InputEnd::Ended => Ok(server.serve_rest(writer)?),
        InputEnd::ReadFailed => Err(CliFault::Read),
        InputEnd::TooLong => Err(CliFault::TooLong),
    }
}

/// Reads an input to its end, and writes the station's answers to its whole lines.
///
/// # Errors
///
/// `Failed` at the first write that fails.
fn serve_input<S: Station + Drop, R: Source, W: Sink>(
    reader: &mut R,
    writer: &mut W,
    server: &mut Server<S>,
) -> Result<InputEnd, Failed>
    requires quiet { server.old.kept ≡ [] }
    requires keeps { Keeps server.old [] }
    ensures { ServesInput S.serves server.old.station server.new
        (R.stream reader.old) (R.stream reader.new)
        (W.stream writer.old) (W.stream writer.new)
        result }
{
    let mut buffer = [0; PORTION_LEN];
    let mut room = usize::MAX;
    loop {
        let portion = read_portion(reader, &mut buffer, room);
        server.serve_more(writer, &buffer[..portion.len])?;
        if let Some(end) = portion.end {
            return Ok(end);
        }
        room -= portion.len;
    }
}
