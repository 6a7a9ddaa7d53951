//! The next frame in bytes in memory. The caller passes the state of the search, so no state is kept between calls.
ghost use Rattle.std.specs.Prelude.{None, ◌≡◌, ◌≢◌, ◌<◌, ◌≤◌, ◌+◌, ◌++◌, ◌∷◌, [], Bool, List, ℕ, false, true, IsTrue, IfSome, drop, length};
ghost use Rattle.std.specs.Prelude.{map};
ghost use Rattle.hart_frame.specs.heard.Character.{Character, faultless};
ghost use Rattle.hart_frame.specs.heard.Frames.{AreFrames, IsUndecided, moved};
ghost use Rattle.hart_frame.specs.scan.Next.{AreNext, frames_of};
ghost use Rattle.hart_frame.specs.declared.heard.found.Found.{Found};

use crate::scan::search::search_to_end;
use crate::{FoundView, FrameView};

/// The next frame in bytes, and the place from which to continue.
#[derive(Drop)]
pub struct NextInBytes<'a> {
    /// The next frame and its places in the bytes, or `None` if no frame is decided yet, or no frame is left.
    pub frame: Option<FoundView<'a>>,
    /// The place from which to continue. All later frames stand after it.
    pub used: usize,
}

/// Returns the next frame in bytes that were heard without faults. Copies nothing. The two preamble bytes of the frame stand at or after
/// `from`. `from` must be at most the number of bytes. If `ended` is true, nothing comes after the bytes.
///
/// Continue from [`NextInBytes::used`] to get the frame after the returned frame. If no frame is returned and `ended` is true, no frame is
/// left. If no frame is returned and `ended` is false, the bytes from `used` on, at most 268, may begin a frame together with what comes
/// after them. Places are counted from the first of `bytes`. So the places stay the same if bytes are added at the end, and change if bytes
/// at the front are dropped.
///
/// ```rust
/// let bytes = [0x55, 0xFF, 0xFF, 0x02, 0x80, 0x00, 0x00, 0x82];
/// let next = next_in_bytes(&bytes, 0, true);
/// let found = next.frame.ok_or("no frame")?;
/// assert_eq!(rt; (found.start, found.stop, next.used), (3, 8, 8));
/// ```
pub fn next_in_bytes(bytes: &[u8], from: usize, ended: bool) -> NextInBytes<'_>
    requires { from ≤ length bytes.now }
    ensures frames { AreNext (faultless bytes.now) ended from (frames_of result.frame) result.used }
    ensures within { result.used ≤ length bytes.now }
    ensures start { IfSome result.frame (λ view. from + 2 ≤ view.start) }
    ensures order { IfSome result.frame (λ view. view.start < view.stop) }
    ensures stop { IfSome result.frame (λ view. view.stop ≡ result.used) }
    ensures few { result.frame ≡ None → length bytes.now ≤ result.used + 268 }
    ensures all { result.frame ≡ None → IsTrue ended → result.used ≡ length bytes.now }
    ensures undecided { result.frame ≡ None → ended ≡ false → IsUndecided (faultless (drop result.used bytes.now)) }
{
    let searched = search_to_end(bytes, from, ended);
    let Some(layout) = searched.layout else {
        return NextInBytes {
            frame: None,
            used: searched.place,
        };
    };
    let start = searched.place + 2;
    let stop = start + layout.body_len();
    let found = FoundView {
        start: start as u64,
        stop: stop as u64,
        frame: FrameView::view_in(layout, &bytes[start..stop]),
    };
    NextInBytes {
        frame: Some(found),
        used: stop,
    }
}

/// Frames that calls find one after another are the next frames of the list, whether more characters follow or not. Each frame uses up some
/// characters.
///
/// A caller may keep only the characters that are not used up. Every frame that is still to be found stands in these characters and in
/// those that come later. The next frames of these characters, with places counted in the whole list, are the next frames of the whole
/// list. Once all characters are used up, all frames of the list are found. No frame contains a character with fault bits, so such a
/// character decides all frames before it.
pub fn next_frames_are_all()
    ensures nothing { (chars : List Character) (ended : Bool) (place : ℕ) → place ≤ length chars → AreNext chars ended place [] place }
    ensures some { (chars : List Character) (ended : Bool) (from to : ℕ) (found : Found) (more : List Found)
        → AreNext chars ended from (found ∷ more) to → (from + 2 ≤ found.start) × (found.start < found.stop) × (found.stop ≤ to) }
    ensures onward { (chars : List Character) (ended : Bool) (from mid to : ℕ) (given found : List Found)
        → AreNext chars ended from given mid → AreNext chars ended mid found to → AreNext chars ended from (given ++ found) to }
    ensures grown { (chars piece : List Character) (ended : Bool) (from to : ℕ) (given : List Found)
        → AreNext chars false from given to → AreNext (chars ++ piece) ended from given to }
    ensures ended { (chars : List Character) (ended : Bool) (from to : ℕ) (given : List Found) (closed : Bool)
        → (IsTrue ended → IsTrue closed) → AreNext chars ended from given to → AreNext chars closed from given to }
    ensures moved { (place : ℕ) (chars : List Character) (ended : Bool) (given : List Found) (to : ℕ) → place ≤ length chars
        → AreNext (drop place chars) ended 0 given to → AreNext chars ended place (map (moved place) given) (place + to) }
    ensures rest { (chars more : List Character) (ended : Bool) (given later : List Found) (to : ℕ) → AreNext chars ended 0 given to
        → (IsTrue ended → more ≡ []) → AreFrames (drop to chars ++ more) 0 later
        → AreFrames (chars ++ more) 0 (given ++ map (moved to) later) }
    ensures all { (chars : List Character) (ended : Bool) (given : List Found) → AreNext chars ended 0 given (length chars)
        → AreFrames chars 0 given }
    ensures whole { (chars : List Character) (given : List Found) → AreFrames chars 0 given → AreNext chars true 0 given (length chars) }
    ensures fault { (chars : List Character) (character : Character) (given : List Found) → character.faults ≢ 0
        → AreFrames chars 0 given → AreNext (chars ++ character ∷ []) false 0 given (length chars + 1) }
{}
