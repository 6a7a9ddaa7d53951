ghost use Rattle.std.specs.Prelude.{◌≡◌, ◌≤◌, ◌-◌, ◌*◌, ◌/◌, ◌++◌, bit_xor, fold, length, replicate, take};
ghost use Rattle.hart_frame.specs.wire.Parity.{IsCheckByte};

use std::simd::prelude::*;

/// The places in a block of sixteen bytes.
const PLACES: [u8; 16] = [0, 1, 2, 3, 4, 5, 6, 7, 8, 9, 10, 11, 12, 13, 14, 15];

/// Returns the check byte of some bytes: their exclusive or (HCF_SPEC-081).
///
/// Once the check byte is appended, each bit is set in an even number of the bytes. So this function returns 0 for a whole body.
#[tactic(auto, using(crate::proofs::lemmas::wire::Lane::checked_rest, std::proofs::lemmas::List::take_rest))]
pub fn check_byte(bytes: &[u8]) -> u8
    ensures { IsCheckByte bytes.now result }
{
    let (blocks, rest) = bytes.as_chunks::<32>();
    let mut lanes = u8x32::splat(0);
    for block in blocks {
        lanes ^= u8x32::from_array(*block);
    }
    let check = lanes.reduce_xor();
    rest.iter().fold(check, |check, byte| check ^ byte)
}

/// Returns what [`check_byte`] returns. Most bodies have fewer than 32 bytes, and for such bodies this function takes fewer instructions.
#[tactic(auto, using(crate::proofs::lemmas::wire::Lane::checked_rest, std::proofs::lemmas::List::take_rest))]
pub(crate) fn body_check(bytes: &[u8]) -> u8
    ensures { IsCheckByte bytes.now result }
{
    let whole = bytes.len() / 16 * 16;
    let lanes = fold_blocks(bytes);
    fold_few(lanes.reduce_xor(), &bytes[whole..])
}

/// Returns the check byte of the first `len` bytes. The last block of these bytes may have fewer than 16 bytes. If `bytes` has 16 bytes
/// from the start of this block on, all 16 are read at once. The bytes from the place `len` on then count as zeros.
#[inline(always)]
pub(crate) fn front_check(bytes: &[u8], len: usize) -> u8
    requires { len ≤ length bytes.now }
    ensures { IsCheckByte (take len bytes.now) result }
{
    let whole = len / 16 * 16;
    let lanes = fold_blocks(&bytes[..len]);
    match bytes[whole..].first_chunk::<16>() {
        Some(last) => (lanes ^ front_lanes(last, len - whole)).reduce_xor(),
        None => fold_few(lanes.reduce_xor(), &bytes[whole..len]),
    }
}

/// Returns the exclusive or of the whole blocks of sixteen bytes at the front, lane by lane.
#[inline(always)]
fn fold_blocks(bytes: &[u8]) -> u8x16
    ensures lanes { length result ≡ 16 }
    ensures front { fold bit_xor 0 result ≡ fold bit_xor 0 (take (length bytes.now / 16 * 16) bytes.now) }
{
    let (blocks, _) = bytes.as_chunks::<16>();
    let mut lanes = u8x16::splat(0);
    for block in blocks {
        lanes ^= u8x16::from_array(*block);
    }
    lanes
}

/// Returns the first `count` bytes of a block, with zeros in place of the other bytes.
#[inline(always)]
fn front_lanes(block: &[u8; 16], count: usize) -> u8x16
    requires { count ≤ 16 }
    ensures { result ≡ take count block.now ++ replicate (16 - count) 0 }
{
    let kept = u8x16::from_array(PLACES).simd_lt(u8x16::splat(count as u8));
    kept.select(u8x16::from_array(*block), u8x16::splat(0))
}

/// Returns the exclusive or of `check` and all of `bytes`. Reads four bytes at a time.
fn fold_few(check: u8, bytes: &[u8]) -> u8
    ensures { result ≡ fold bit_xor check bytes.now }
{
    let (words, rest) = bytes.as_chunks::<4>();
    let mut lanes = u8x4::splat(0);
    for word in words {
        lanes ^= u8x4::from_array(*word);
    }
    let check = check ^ lanes.reduce_xor();
    rest.iter().fold(check, |check, byte| check ^ byte)
}
