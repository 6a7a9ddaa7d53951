//! The first frame of what was heard. It is found with the code of the scanner, so that all frames are found by the same code.
ghost use Rattle.std.specs.Prelude.{◌≡◌, ◌+◌, ◌<◌, ◌≤◌, List, false, length, IsTrue, MatchOption, IfSome};
ghost use Rattle.hart_frame.specs.heard.Frames.{IsLone, lone_of, AreFrames, HasNoFrame, IsFirst};
ghost use Rattle.hart_frame.specs.private.Buffer.{IsSound, scan_of};
ghost use Rattle.hart_frame.specs.private.Prefix.{IsWholeBody};
ghost use Rattle.hart_frame.specs.private.Decision.{body_at, HoldsFirst, IsFirstIn};
ghost use Rattle.hart_frame.specs.scan.Scanner.{Gives, GivesNothing, new_scan};
ghost use Rattle.hart_frame.specs.wire.Body.{IsBody};
ghost use Rattle.hart_frame.specs.private.Layout.{layout_length};
ghost use Rattle.hart_frame.specs.declared.heard.found.Found.{Found};

use crate::scan::buffer::{Buffer, Span};
use crate::{Char, Found, Scanner};

/// Whether a delivery has no frame, one frame or several frames. A delivery is what is heard at once.
#[derive(Debug, Drop, PartialEq, Eq)]
pub enum LoneFrame {
    /// The delivery has no frame.
    NoFrame,
    /// The delivery has this frame, and no other.
    Alone(Found),
    /// The delivery has more than one frame.
    Several,
}

/// Returns the first frame of what was heard from the place `from` on, or `None` if no frame stands there.
///
/// A frame stands where two faultless preamble bytes `FF` stand at or after `from`, and its body follows directly in faultless characters.
/// Of several frames, the frame with the least start is returned. To find all frames of a list, begin with `from` 0, and continue from the
/// `stop` of each frame that is found.
///
/// ```rust
/// // 55 FF FF 02 80 00 00 82 was heard.
/// let found = first_frame(chars, 0).ok_or("no frame")?;
/// assert_eq!(rt; (found.start, found.stop), (3, 8));
/// assert!(rt; first_frame(chars, 8).is_none());
/// ```
pub fn first_frame(chars: &[Char], from: usize) -> Option<Found>
    ensures first { MatchOption result (HasNoFrame chars.now from) (λ found. IsFirst found chars.now from) }
    ensures start { IfSome result (λ found. from + 2 ≤ found.start) }
    ensures order { IfSome result (λ found. found.start < found.stop) }
    ensures within { IfSome result (λ found. found.stop ≤ length chars.now) }
{
    let mut scanner = Scanner::new();
    let found = first_found(&mut scanner, chars.get(from..)?)?;
    Some(Found {
        start: from + found.start,
        stop: from + found.stop,
        frame: found.frame,
    })
}

/// Pushes a list to a new scanner until the first frame of the list is decided. Returns a copy of that frame, or `None` if the list has no
/// frame.
fn first_found(scanner: &mut Scanner, chars: &[Char]) -> Option<Found>
    requires { scanner.old ≡ new_scan }
    ensures { MatchOption result (HasNoFrame chars.now 0) (λ found. IsFirstIn found chars.now) }
{
    scanner.push_chars(chars);
    if let Some(found) = next_found(scanner) {
        return Some(found);
    }
    scanner.finish();
    next_found(scanner)
}

/// Returns a copy of the next frame that a scanner gives.
fn next_found(scanner: &mut Scanner) -> Option<Found>
    ensures { MatchOption result (GivesNothing scanner.old scanner.new) (Gives scanner.old scanner.new) }
{
    let view = scanner.take()?;
    Some(Found {
        start: view.start as usize,
        stop: view.stop as usize,
        frame: view.frame.to_frame(),
    })
}

/// Returns whether a delivery has no frame, one frame or several frames. If it has exactly one frame, returns a copy of this frame. The
/// frame is copied only after it is known to be the only frame. This takes fewer instructions than two calls of [`first_frame`].
pub fn lone_frame(delivery: &[Char]) -> LoneFrame
    ensures lone { IsLone delivery.now result }
    ensures only { (frames : List Found) → AreFrames delivery.now 0 frames → result ≡ lone_of frames }
{
    let mut buffer = Buffer::new();
    let Some(span) = first_span(&mut buffer, delivery) else {
        return LoneFrame::NoFrame;
    };
    if has_frame(&delivery[span.stop as usize..]) {
        return LoneFrame::Several;
    }
    LoneFrame::Alone(found_at(&buffer, span))
}

/// Returns true if a frame stands in a list.
fn has_frame(chars: &[Char]) -> bool
    ensures some { IsTrue result → (found : Found) × IsFirst found chars.now 0 }
    ensures none { result ≡ false → HasNoFrame chars.now 0 }
{
    let mut buffer = Buffer::new();
    first_span(&mut buffer, chars).is_some()
}

/// Pushes a list to a new buffer until the first frame of the list is decided. Returns where the body of that frame lies in the buffer, or
/// `None` if the list has no frame.
fn first_span(buffer: &mut Buffer, chars: &[Char]) -> Option<Span>
    requires sound { IsSound buffer.old }
    requires is_new { scan_of buffer.old ≡ new_scan }
    ensures { MatchOption result (HasNoFrame chars.now 0) (HoldsFirst buffer.new chars.now) }
{
    buffer.push_chars(chars);
    if let Some(span) = buffer.next() {
        return Some(span);
    }
    buffer.finish();
    buffer.next()
}

/// Copies the frame at a span.
fn found_at(buffer: &Buffer, span: Span) -> Found
    requires within { span.at + layout_length span.layout ≤ length buffer.now.bytes }
    requires body { IsWholeBody span.layout (body_at buffer.now span) }
    ensures frame { IsBody result.frame (body_at buffer.now span) }
    ensures start { result.start ≡ span.start }
    ensures stop { result.stop ≡ span.stop }
{
    let view = buffer.found(span);
    Found {
        start: view.start as usize,
        stop: view.stop as usize,
        frame: view.frame.to_frame(),
    }
}
