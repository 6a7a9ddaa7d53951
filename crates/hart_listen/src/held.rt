//! Characters that were heard and are still held, because they may still become a frame.
ghost use Rattle.std.specs.Prelude.{◌≡◌, ◌≤◌, drop, length};

use hart_text::CHUNK_LEN;
use hart_values::ByteList;

/// The greatest number of characters that are kept because they may still become a frame: two preamble bytes, and the longest body without
/// its check byte.
pub const MOST_OPEN: usize = 268;

/// Characters that may still become a frame.
type Open = ByteList<MOST_OPEN>;

/// The greatest number of characters that are searched together: those that may still become a frame, and the next chunk of the input.
pub const HELD_LEN: usize = MOST_OPEN + CHUNK_LEN;

/// Faultless characters that were heard and are not yet dropped.
pub type Held = ByteList<HELD_LEN>;

/// Drops the first `used` held bytes. At most 268 stay.
pub fn let_go(held: &mut Held, used: usize)
    requires few { length (drop used held.old) ≤ 268 }
    ensures { held.new ≡ drop used held.old }
{
    if used >= held.len() {
        held.clear();
    } else {
        hold_from(held, used);
    }
}

/// Holds only the bytes from a place on. This is a separate function, since no bytes are left in most cases.
fn hold_from(held: &mut Held, place: usize)
    requires within { place ≤ length held.old }
    requires few { length (drop place held.old) ≤ 268 }
    ensures { held.new ≡ drop place held.old }
{
    let open = Open::from_slice(&held.as_slice()[place..]).unwrap();
    held.clear();
    held.extend_from_slice(open.as_slice());
}
