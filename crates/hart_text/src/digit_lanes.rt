//! Sixteen bytes of a text at once, one in each lane of a vector. The proof compares the values of the digits with the values that the
//! crate `hex` gives, for all 256 values of a byte.
ghost use Rattle.std.specs.Prelude.{◌<◌};
ghost use Rattle.hart_text.specs.Digits.{AreDigitLanes, AreLeading, ArePairLanes, AreSeparatorLanes};

use std::simd::prelude::*;

/// The number of lanes.
pub const LANES: usize = 16;

/// Lanes that are read as hex digits.
#[derive(Clone, Copy)]
pub struct HexLanes {
    /// The value of each lane's digit, or the byte of each lane's pair of digits. If a lane has no digits, its value has no meaning.
    pub values: u8x16,
    /// A mask with a bit for each lane. The bit is set exactly if the lane has digits.
    pub are_digits: u64,
}

/// Reads pairs of bytes as hex digits. Returns the byte that each pair denotes, and which pairs are digits. `high` has the first digit of
/// each pair, `low` the second.
#[inline(always)]
pub fn pair_lanes(high: u8x16, low: u8x16) -> HexLanes
    ensures { ArePairLanes high low result.values result.are_digits }
{
    let high = digit_lanes(high);
    let low = digit_lanes(low);
    HexLanes {
        values: (high.values << u8x16::splat(4)) + low.values,
        are_digits: high.are_digits & low.are_digits,
    }
}

/// Returns the value of each byte as a hex digit, and which bytes are digits.
#[inline(always)]
fn digit_lanes(bytes: u8x16) -> HexLanes
    ensures { AreDigitLanes bytes result.values result.are_digits }
{
    let numbers = bytes - u8x16::splat(b'0');
    let are_numbers = numbers.simd_lt(u8x16::splat(10));
    // The bit 0x20 turns an upper case letter to lower case.
    let letters = (bytes | u8x16::splat(0x20)) - u8x16::splat(b'a');
    let are_letters = letters.simd_lt(u8x16::splat(6));
    HexLanes {
        values: are_numbers.select(numbers, letters + u8x16::splat(10)),
        are_digits: (are_numbers | are_letters).to_bitmask(),
    }
}

/// Returns a mask with a bit for each lane. The bit is set exactly if the lane has a separator.
#[inline(always)]
pub fn separator_lanes(bytes: u8x16) -> u64
    ensures { AreSeparatorLanes bytes result }
{
    let are_separators = bytes.simd_eq(u8x16::splat(b' '))
        | bytes.simd_eq(u8x16::splat(b'\t'))
        | bytes.simd_eq(u8x16::splat(b'\r'))
        | bytes.simd_eq(u8x16::splat(b'\n'));
    are_separators.to_bitmask()
}

/// Returns how many bits of a mask are set before the first bit that is not set.
#[tactic(auto, using(crate::proofs::lemmas::Lanes::leading_ones))]
#[inline(always)]
pub fn leading_lanes(mask: u64) -> usize
    requires { mask < 65536 }
    ensures { AreLeading mask result }
{
    mask.trailing_ones() as usize
}
