//! Several items without fault bits, read at once.
ghost use Rattle.std.specs.Prelude.{IfSome};
ghost use Rattle.hart_text.specs.Items.{ReadsRun};

use crate::digit_lanes::{LANES, leading_lanes, pair_lanes, separator_lanes};
use crate::items::is_separator;
use std::simd::prelude::*;

/// The greatest number of items that are read at once.
pub const RUN_LEN: usize = LANES;

/// Items without fault bits at the start of a text.
#[derive(Clone, Copy)]
pub struct ItemRun {
    /// The bytes of the items. The bytes after them have no meaning.
    pub bytes: [u8; RUN_LEN],
    /// The number of items, at least one.
    pub count: usize,
    /// The number of bytes of the text that were read.
    pub len: usize,
}

/// Returns the items at the start of a text if they have no fault bits and are spaced alike. Alike means: one separator follows each item,
/// or two separators follow each item, or no separator stands between items. Returns `None` for any other text, and for a text that is too
/// short for the lanes.
#[inline(always)]
pub fn item_run(text: &[u8]) -> Option<ItemRun>
    ensures { IfSome result (λ run. ReadsRun text.now run.bytes run.count run.len) }
{
    let [first, _, next, after, ..] = text else {
        return None;
    };
    if *next > b' ' {
        if is_separator(*first) || *next == b'!' {
            return None;
        }
        return dense_run(text);
    }
    // No separator is greater than a space. So these cheap tests rule out all spacings but one, which the lanes then check.
    if *after > b' ' {
        return spaced_run(text);
    }
    wide_run(text)
}

/// The lanes of the first digits of 16 spaced items, which take 48 bytes. Lanes 0 to 31 have the first 32 bytes, and lanes 32 to 63 have
/// the last 32 bytes.
const SPACED_HIGH: [usize; LANES] = [0, 3, 6, 9, 12, 15, 18, 21, 24, 27, 30, 49, 52, 55, 58, 61];

/// The lanes of the second digits of 16 spaced items.
const SPACED_LOW: [usize; LANES] = [1, 4, 7, 10, 13, 16, 19, 22, 25, 28, 31, 50, 53, 56, 59, 62];

/// The lanes of the byte after each of 16 spaced items.
const SPACED_AFTER: [usize; LANES] = [2, 5, 8, 11, 14, 17, 20, 23, 26, 29, 48, 51, 54, 57, 60, 63];

/// Returns the items at the start of a text that are each followed by one separator.
#[inline(always)]
fn spaced_run(text: &[u8]) -> Option<ItemRun>
    ensures { IfSome result (λ run. ReadsRun text.now run.bytes run.count run.len) }
{
    if text.len() < 3 * RUN_LEN {
        return None;
    }
    let front = u8x32::from_slice(text);
    let back = u8x32::from_slice(&text[16..]);
    let pairs = pair_lanes(
        front.shuffle(back, SPACED_HIGH),
        front.shuffle(back, SPACED_LOW),
    );
    let are_separators = separator_lanes(front.shuffle(back, SPACED_AFTER));
    let count = leading_lanes(pairs.are_digits & are_separators);
    if count == 0 {
        return None;
    }
    Some(ItemRun {
        bytes: pairs.values.to_array(),
        count,
        len: 3 * count,
    })
}

/// The places of the first digits of 16 items with two separators after each, which take 64 bytes.
const WIDE_HIGH: [usize; LANES] = [0, 4, 8, 12, 16, 20, 24, 28, 32, 36, 40, 44, 48, 52, 56, 60];

/// The places of the second digits of 16 items with two separators after each.
const WIDE_LOW: [usize; LANES] = [1, 5, 9, 13, 17, 21, 25, 29, 33, 37, 41, 45, 49, 53, 57, 61];

/// The places of the first of the two separators after each of 16 items.
const WIDE_AFTER: [usize; LANES] = [2, 6, 10, 14, 18, 22, 26, 30, 34, 38, 42, 46, 50, 54, 58, 62];

/// The places of the second of the two separators after each of 16 items.
const WIDE_NEXT: [usize; LANES] = [3, 7, 11, 15, 19, 23, 27, 31, 35, 39, 43, 47, 51, 55, 59, 63];

/// Returns the items at the start of a text that are each followed by two separators, such as two spaces or the end of a line.
#[inline(always)]
fn wide_run(text: &[u8]) -> Option<ItemRun>
    ensures { IfSome result (λ run. ReadsRun text.now run.bytes run.count run.len) }
{
    if text.len() < 4 * RUN_LEN {
        return None;
    }
    let front = u8x32::from_slice(text);
    let back = u8x32::from_slice(&text[32..]);
    let pairs = pair_lanes(
        front.shuffle(back, WIDE_HIGH),
        front.shuffle(back, WIDE_LOW),
    );
    let are_after = separator_lanes(front.shuffle(back, WIDE_AFTER));
    let are_next = separator_lanes(front.shuffle(back, WIDE_NEXT));
    let count = leading_lanes(pairs.are_digits & (are_after & are_next));
    if count == 0 {
        return None;
    }
    Some(ItemRun {
        bytes: pairs.values.to_array(),
        count,
        len: 4 * count,
    })
}

/// The places of the first digits of 16 items with nothing between them.
const DENSE_HIGH: [usize; LANES] = [0, 2, 4, 6, 8, 10, 12, 14, 16, 18, 20, 22, 24, 26, 28, 30];

/// The places of the second digits of 16 items with nothing between them.
const DENSE_LOW: [usize; LANES] = [1, 3, 5, 7, 9, 11, 13, 15, 17, 19, 21, 23, 25, 27, 29, 31];

/// Returns the unseparated items at the start of `text`. If a separator follows the last item, this separator is read too.
#[inline(always)]
fn dense_run(text: &[u8]) -> Option<ItemRun>
    ensures { IfSome result (λ run. ReadsRun text.now run.bytes run.count run.len) }
{
    if text.len() <= 2 * RUN_LEN {
        return None;
    }
    let bytes = u8x32::from_slice(text);
    let pairs = pair_lanes(bytes.swizzle(DENSE_HIGH), bytes.swizzle(DENSE_LOW));
    let count = leading_lanes(pairs.are_digits);
    let next = text[2 * count];
    if count == 0 || next == b'!' {
        return None;
    }
    Some(ItemRun {
        bytes: pairs.values.to_array(),
        count,
        len: 2 * count + usize::from(is_separator(next)),
    })
}
