//! A server: a station, the first bytes of the line that is being read, and the answers that are not yet written.
ghost use Rattle.std.specs.Prelude.{◌≡◌, ◌≤◌, ◌↔◌, ◌+◌, ◌++◌, ◌∷◌, [], ℕ, List, IfErr, IfOk, IsTrue, MatchOption, OnOk, codes, length};
ghost use Rattle.std.specs.Prelude.{take};
ghost use Rattle.std.specs.Str.Lines.{strip_carriage_return};
ghost use Rattle.hart_cli.specs.session.Session.{line_room};
ghost use Rattle.hart_station.specs.Station.{bad_line, line_read};
ghost use Rattle.hart_cli.specs.session.Server.{BeginsWithPart, HasNoFeed, Keeps, ServesLast, ServesPart, ServesText, most_kept};
ghost use Rattle.hart_cli.specs.stream.Kept.{HasRoomFor};

use crate::kept::{Kept, make_room};
use crate::output::write_all;
use crate::stream::{Failed, Sink};
use hart_line::{Filling, NoRoom};
use hart_station::lines::push_text;
use hart_station::{INPUT_LIMIT, SaidLine, Station};
use std::alloc::Global;
use std::marker::Model;

/// The greatest number of bytes that are kept of a part, which is the text from one line feed to the next. A part with this number of bytes
/// or more is a line that is too long, even if its last byte is a carriage return.
const MOST_KEPT: usize = INPUT_LIMIT + 2;

/// The size of the buffer for a part and for the space after its line.
const LINE_ROOM: usize = MOST_KEPT + 1;

/// A station with its buffers.
#[derive(Drop)]
pub struct Server<S> {
    /// The station that answers the lines.
    station: S,
    /// The bytes that were read since the last line feed, or the first [`MOST_KEPT`] of them.
    part: Filling<u8>,
    /// The answers that are not yet written.
    kept: Kept,
}

impl<S> Model for Server<S> {
    ghost use Rattle.std.specs.Prelude.{◌≡◌};
    ghost use Rattle.hart_cli.specs.session.Session.{line_room};
    ghost use Rattle.hart_cli.specs.session.Server.{ServerState};

    ghost Value = { ServerState S };

    ghost view = { λ server. record { station = server.station; part = server.part.items; kept = server.kept } };

    ghost invariant = { λ server. server.part.room ≡ line_room };
}

impl<S: Station + Drop> Server<S> {
    /// Makes a server with this station, and allocates the buffer for a line.
    ///
    /// # Errors
    ///
    /// [`NoRoom`] if this room was refused.
    pub fn new(alloc: Global, station: S) -> Result<Self, NoRoom>
        ensures made { IfOk result (λ server. server ≡ record { station = station; part = []; kept = [] }) }
        ensures refused { IfErr result (λ none. none.items ≡ line_room) }
    {
        let part = Filling::with_room(alloc, LINE_ROOM)?;
        Ok(Server {
            station,
            part,
            kept: Kept::new(),
        })
    }

    /// Adds `more`, the next bytes of an input, to the kept part. Lets the station answer the lines that are whole now, and writes the
    /// answers. Keeps the rest of the bytes.
    ///
    /// # Errors
    ///
    /// `Failed` at the first write that fails.
    pub fn serve_more<W: Sink>(&mut self, writer: &mut W, more: &[u8]) -> Result<(), Failed>
        requires quiet { self.old.kept ≡ [] }
        requires part { (part : List ℕ) × HasNoFeed part × Keeps self.old part }
        ensures serves { (part : List ℕ) → HasNoFeed part → Keeps self.old part
            → ServesText S.serves self.old self.new (part ++ more.now) (W.stream writer.old) (W.stream writer.new) result }
        ensures quiet { OnOk result (self.new.kept ≡ []) }
    {
        self.serve_whole(writer, more)?;
        write_all(writer, self.kept.as_slice())?;
        self.kept.clear();
        Ok(())
    }

    /// Adds `more`, the next bytes of an input, to the kept part. Lets the station answer the lines that are whole now. Keeps the rest of
    /// the bytes, and the answers that are not yet written.
    ///
    /// # Errors
    ///
    /// `Failed` at the first write that fails.
    fn serve_whole<W: Sink>(&mut self, writer: &mut W, more: &[u8]) -> Result<(), Failed>
        requires part { (part : List ℕ) × HasNoFeed part × Keeps self.old part }
        ensures serves { (part : List ℕ) → HasNoFeed part → Keeps self.old part
            → ServesText S.serves self.old self.new (part ++ more.now) (W.stream writer.old) (W.stream writer.new) result }
    {
        let mut rest = more;
        while let Some((part, after)) = next_part(rest) {
            keep(&mut self.part, part);
            make_room(writer, &mut self.kept)?;
            self.serve_part();
            rest = after;
        }
        keep(&mut self.part, rest);
        Ok(())
    }

    /// Serves the last line of an input, if it is not empty, and writes the station's answer. This line has no line feed.
    ///
    /// # Errors
    ///
    /// `Failed` at the first write that fails.
    pub fn serve_rest<W: Sink>(&mut self, writer: &mut W) -> Result<(), Failed>
        requires quiet { self.old.kept ≡ [] }
        requires part { (part : List ℕ) × Keeps self.old part }
        ensures { (part : List ℕ) → Keeps self.old part
            → ServesLast S.serves self.old.station (strip_carriage_return part) (W.stream writer.old) (W.stream writer.new) result }
    {
        if is_empty_line(self.part.as_slice()) {
            return Ok(());
        }
        self.serve_part();
        write_all(writer, self.kept.as_slice())
    }

    /// Lets the station answer the line of the kept part, keeps the answer, and drops the part.
    fn serve_part(&mut self)
        requires few { length self.old.part ≤ most_kept }
        requires room { HasRoomFor 866 self.old.kept }
        ensures { ServesPart S.serves self.old self.new }
    {
        close(&mut self.part);
        let said = answer_line(&mut self.station, self.part.as_slice());
        self.kept.extend_from_slice(said.as_slice());
        self.part.clear();
    }
}

/// Returns a station's answer to a line. `text` is the line and one more space.
fn answer_line<S: Station>(station: &mut S, text: &[u8]) -> SaidLine
    ensures { (line : List ℕ) → text.now ≡ line ++ 32 ∷ [] → S.serves station.old (line_read line) station.new result }
{
    if text.len() > INPUT_LIMIT + 1 {
        return too_long();
    }
    station.answer(text)
}

/// Returns the answer to a line that is too long.
fn too_long() -> SaidLine
    ensures { result ≡ bad_line (codes "too long") }
{
    let mut said = SaidLine::new();
    push_text(&mut said, "bad line: too long\n");
    said
}

/// Returns the text before the first line feed and the text after it, or `None` if there is no line feed.
fn next_part(text: &[u8]) -> Option<(&[u8], &[u8])>
    ensures { MatchOption result (HasNoFeed text.now) (λ taken. BeginsWithPart text.now (taken.0).now (taken.1).now) }
{
    let len = text.iter().position(|byte| *byte == b'\n')?;
    let (part, rest) = text.split_at(len);
    Some((part, &rest[1..]))
}

/// Returns true if a part is an empty line.
fn is_empty_line(part: &[u8]) -> bool
    ensures { IsTrue result ↔ (strip_carriage_return part.now ≡ []) }
{
    matches!(part, [] | [b'\r'])
}

/// Appends bytes to a part, as far as there is room for them.
fn keep(part: &mut Filling<u8>, bytes: &[u8])
    requires few { length part.old.items ≤ most_kept }
    requires room { part.old.room ≡ line_room }
    ensures bytes { part.new.items ≡ take most_kept (part.old.items ++ bytes.now) }
    ensures kept { part.new.room ≡ part.old.room }
{
    let most = bytes.len().min(MOST_KEPT - part.len());
    part.extend(&bytes[..most]);
}

/// Puts a space after the line of a part. If the part ends with a carriage return, the space replaces it.
fn close(part: &mut Filling<u8>)
    requires { length part.old.items + 1 ≤ part.old.room }
    ensures closed { part.new.items ≡ strip_carriage_return part.old.items ++ 32 ∷ [] }
    ensures kept { part.new.room ≡ part.old.room }
{
    if let [.., b'\r'] = part.as_slice() {
        part.replace(part.len() - 1, b' ');
    } else {
        part.push(b' ');
    }
}
