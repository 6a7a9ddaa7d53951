//! Finding the frames in what was heard. Each call finds the next frames, and the next call goes on after them.
ghost use Rattle.std.specs.Prelude.{◌≡◌, ◌<◌, ◌≤◌, false, true, List, IsTrue, All, drop, length, map, min, take};
ghost use Rattle.hart_frame.specs.heard.Character.{AreFaultBits, Character, faultless};
ghost use Rattle.hart_frame.specs.heard.Frames.{IsUndecided};
ghost use Rattle.hart_frame.specs.scan.Streamed.{IsHistory, IsWholeHistory};
ghost use Rattle.hart_frame.specs.scan.Scanner.{Gives, GivesNothing};
ghost use Rattle.hart_c.specs.Find.{Finds, SearchOutcome, char_of};
ghost use Rattle.hart_c.specs.Numbers.{IsTidy, found_in};

use crate::fault::{HART_BAD_FAULT_BITS, HART_OK};
use crate::frame::{HartFrame, show_found};
use crate::heard::have_fault_bits;
use hart_frame::{Char, Scanner, next_in_bytes};

/// The maximum number of characters passed to the scanner at once.
const CHUNK: usize = 64;

/// The result of a search.
#[repr(C)]
#[derive(Clone, Copy)]
pub struct HartSearch {
    /// How many of the passed elements are used up. Pass the unused elements again, followed by the new elements.
    pub used: usize,
    /// How many frames were found.
    pub count: usize,
    /// The number of the fault, or 0 if there is no fault.
    pub fault: u8,
}

/// A character that was heard.
#[repr(C)]
#[derive(Clone, Copy)]
pub struct HartChar {
    /// The byte.
    pub byte: u8,
    /// The fault bits: hex 40 vertical parity, 20 overrun, 10 framing, 02 buffer overflow.
    pub faults: u8,
}

/// Finds the next frames in bytes that were heard without faults, and stops when `frames` is full. Returns how many bytes are used up and
/// how many frames were found. `ended` is true if no more bytes come.
#[unsafe(no_mangle)]
pub extern "C" fn hart_find_in_bytes(
    bytes: &[u8],
    ended: bool,
    frames: &mut [HartFrame],
) -> HartSearch
    ensures { Finds (faultless bytes.now) ended frames.old frames.new result }
{
    let mut used = 0;
    let mut count = 0;
    while count < frames.len() {
        let next = next_in_bytes(bytes, used, ended);
        used = next.used;
        let Some(found) = next.frame else {
            return found_so_far(used, count);
        };
        show_found(&found, &mut frames[count]);
        count += 1;
    }
    found_so_far(used, count)
}

/// Returns the result of a search that used up `used` characters and found `count` frames.
fn found_so_far(used: usize, count: usize) -> HartSearch
    ensures { result ≡ record { used = used; count = count; fault = 0 } }
{
    HartSearch {
        used,
        count,
        fault: HART_OK,
    }
}

/// Finds the next frames in characters, which may have fault bits. Otherwise the call is like [`hart_find_in_bytes`].
///
/// # Errors
///
/// [`HART_BAD_FAULT_BITS`] if the `faults` of a character have a bit that is no fault bit. Then `used` and `count` are 0, and `frames` is
/// unchanged.
#[unsafe(no_mangle)]
pub extern "C" fn hart_find(heard: &[HartChar], ended: bool, frames: &mut [HartFrame]) -> HartSearch
    ensures { SearchOutcome heard.now ended frames.old frames.new result }
{
    if !have_fault_bits(heard) {
        return HartSearch {
            used: 0,
            count: 0,
            fault: HART_BAD_FAULT_BITS,
        };
    }
    let mut scanner = Scanner::new();
    let mut chunk = [Char::new(0, 0).unwrap(); CHUNK];
    let mut taken = 0;
    let mut count = 0;
    while taken < heard.len() && count < frames.len() {
        let len = copy_front(&heard[taken..], &mut chunk);
        taken += scanner.push_chars(&chunk[..len]);
        count = fill(&mut scanner, frames, count);
    }
    if !ended || count == frames.len() {
        return found_so_far(scanner.first_held() as usize, count);
    }
    scanner.finish();
    let count = fill(&mut scanner, frames, count);
    if count < frames.len() {
        return found_so_far(heard.len(), count);
    }
    found_so_far(scanner.first_held() as usize, count)
}

/// Copies the first characters to the front of a chunk, until no character is left or the chunk is full. Returns how many characters were
/// copied.
fn copy_front(heard: &[HartChar], chunk: &mut [Char]) -> usize
    requires { All (λ given. AreFaultBits given.faults) heard.now }
    ensures count { result ≡ min (length heard.now) (length chunk.old) }
    ensures copied { take result chunk.new ≡ take result (map char_of heard.now) }
    ensures len { length chunk.new ≡ length chunk.old }
{
    let count = heard.len().min(chunk.len());
    for place in 0..count {
        chunk[place] = char_of(&heard[place]);
    }
    count
}

/// Returns the character that this `HartChar` describes.
pub(crate) fn char_of(given: &HartChar) -> Char
    requires { AreFaultBits given.now.faults }
    ensures { result ≡ char_of given.now }
{
    Char::new(given.byte, given.faults).unwrap()
}

/// Writes the next frames of a scanner to `frames`, from index `count` on, until there are no more frames or no more room. Returns the
/// index after the last written frame.
#[inline(always)]
fn fill(scanner: &mut Scanner, frames: &mut [HartFrame], count: usize) -> usize
    requires room { count ≤ length frames.old }
    ensures within { result ≤ length frames.new }
    ensures onward { count ≤ result }
    ensures len { length frames.new ≡ length frames.old }
    ensures untouched { drop result frames.new ≡ drop result frames.old }
    ensures tidy { All IsTidy (take count frames.old) → All IsTidy (take result frames.new) }
    ensures so_far { (past : List Character) → IsHistory past scanner.old (map found_in (take count frames.old))
        → (result < length frames.new → scanner.old.finished ≡ false) → IsHistory past scanner.new (map found_in (take result frames.new)) }
    ensures all { (past : List Character) → IsHistory past scanner.old (map found_in (take count frames.old))
        → result < length frames.new → scanner.old.finished ≡ true → IsWholeHistory past (map found_in (take result frames.new)) }
    ensures waits { result < length frames.new → scanner.old.finished ≡ false → IsTrue scanner.new.drained }
    ensures few { result < length frames.new → scanner.old.finished ≡ false → length scanner.new.held ≤ 268 }
    ensures undecided { result < length frames.new → scanner.old.finished ≡ false → IsUndecided scanner.new.held }
    ensures going { scanner.old.finished ≡ false → scanner.new.finished ≡ false }
{
    let mut count = count;
    while count < frames.len() {
        if !give(scanner, &mut frames[count]) {
            return count;
        }
        count += 1;
    }
    count
}

/// Writes the next frame of a scanner to `frame` and returns true, or returns false if there is no next frame.
#[inline(always)]
fn give(scanner: &mut Scanner, frame: &mut HartFrame) -> bool
    ensures found { IsTrue result → Gives scanner.old scanner.new (found_in frame.new) }
    ensures tidy { IsTrue result → IsTidy frame.new }
    ensures none { result ≡ false → GivesNothing scanner.old scanner.new }
    ensures untouched { result ≡ false → frame.new ≡ frame.old }
{
    let Some(found) = scanner.take() else {
        return false;
    };
    show_found(&found, frame);
    true
}
