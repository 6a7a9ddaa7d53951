//! The marks by which a POSIX serial port reports receive errors.
ghost use Rattle.std.specs.Prelude.{◌≡◌, ◌≤◌, IfSome, MatchOption, length, take};
ghost use Rattle.hart_c.specs.Marks.{IsCut, IsMarked, Unmarks};

use crate::find::HartChar;
use hart_values::CommFaults;

/// The byte with which a mark begins.
const MARK: u8 = 0xFF;

/// The result of [`hart_unmark`]: how many bytes were used up, and how many characters were written.
#[repr(C)]
#[derive(Clone, Copy)]
pub struct HartUnmarked {
    /// How many bytes are used up. The caller passes the bytes after them again, followed by new bytes.
    pub used: usize,
    /// How many characters were written.
    pub len: usize,
}

/// A character, and how many bytes a port delivered for it.
#[derive(Clone, Copy)]
struct MarkedChar {
    char: HartChar,
    len: usize,
}

/// Reads the bytes that a POSIX port delivers with `INPCK` and `PARMRK` and without `ISTRIP`. Writes the characters of these bytes to the
/// front of `heard`, as far as there is room. A byte with a receive error has the fault bit hex 40. A mark that is cut off at the end of
/// the bytes is not used.
#[unsafe(no_mangle)]
pub extern "C" fn hart_unmark(bytes: &[u8], heard: &mut [HartChar]) -> HartUnmarked
    ensures { Unmarks bytes.now heard.old heard.new result }
{
    let mut used = 0;
    let mut len = 0;
    while len < heard.len() {
        let Some(next) = first_marked(&bytes[used..]) else {
            return HartUnmarked { used, len };
        };
        heard[len] = next.char;
        used += next.len;
        len += 1;
    }
    HartUnmarked { used, len }
}

/// Returns the first character of these bytes, or `None` if the bytes are only the beginning of a mark, or empty.
fn first_marked(bytes: &[u8]) -> Option<MarkedChar>
    ensures marked { MatchOption result (IsCut bytes.now) (λ first. IsMarked (take first.len bytes.now) first.char) }
    ensures within { IfSome result (λ first. first.len ≤ length bytes.now) }
{
    match bytes {
        [] | [MARK] | [MARK, 0] => None,
        [MARK, 0, byte, ..] => Some(marked(*byte, CommFaults::VERTICAL_PARITY, 3)),
        [MARK, byte, ..] => Some(marked(*byte, 0, 2)),
        [byte, ..] => Some(marked(*byte, 0, 1)),
    }
}

/// Returns this character, with the number of bytes that a port delivered for it.
fn marked(byte: u8, faults: u8, len: usize) -> MarkedChar
    ensures { result ≡ record { char = record { byte = byte; faults = faults }; len = len } }
{
    MarkedChar {
        char: HartChar { byte, faults },
        len,
    }
}
