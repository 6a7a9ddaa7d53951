//! Check bytes of many parts of the same bytes. Each check byte comes from two sums.
ghost use Rattle.std.specs.Prelude.{◌≡◌, ◌≤◌, ◌+◌, ◌-◌, ◌<◌, ℕ, List, bit_xor, drop, length, slice_index, take};
ghost use Rattle.hart_frame.specs.private.Sums.{AreSums};
ghost use Rattle.hart_frame.specs.wire.Parity.{IsCheckByte};

use crate::wire::parity::front_check;
use std::simd::prelude::*;

/// The number of bytes that are summed at once.
const LANES: usize = 16;

/// The greatest number of bytes that are summed: more than the length of four of the longest bodies.
const MOST_SUMMED: usize = 1264;

/// How many sums are kept: one for each number of bytes from 0 to [`MOST_SUMMED`].
const ROOM: usize = 1265;

/// The indices that shift 16 lanes up by one lane and put a zero in the first lane. An index of 0 to 15 selects a zero, and an index of 16
/// to 31 selects a lane.
const ONE_ON: [usize; LANES] = [
    0, 16, 17, 18, 19, 20, 21, 22, 23, 24, 25, 26, 27, 28, 29, 30,
];

/// The indices that shift 16 lanes up by two lanes.
const TWO_ON: [usize; LANES] = [0, 0, 16, 17, 18, 19, 20, 21, 22, 23, 24, 25, 26, 27, 28, 29];

/// The indices that shift 16 lanes up by four lanes.
const FOUR_ON: [usize; LANES] = [0, 0, 0, 0, 16, 17, 18, 19, 20, 21, 22, 23, 24, 25, 26, 27];

/// The indices that shift 16 lanes up by eight lanes.
const EIGHT_ON: [usize; LANES] = [0, 0, 0, 0, 0, 0, 0, 0, 16, 17, 18, 19, 20, 21, 22, 23];

/// Sums: for each `count`, the check byte of the `count` bytes from a place on. The check byte of any part of these bytes is the exclusive
/// or of two sums.
#[derive(Drop)]
pub(crate) struct Sums {
    /// The place of the first byte that is summed.
    pub(crate) from: usize,
    /// The place after the last byte that is summed.
    pub(crate) to: usize,
    /// At the index `count`, the check byte of the first `count` bytes that are summed.
    pub(crate) checks: [u8; ROOM],
}

impl Sums {
    /// Returns sums that begin at a place, with no bytes summed yet.
    pub(crate) fn new(from: usize) -> Sums
        ensures from { result.from ≡ from }
        ensures sums { (bytes : List ℕ) → from ≤ length bytes → AreSums bytes result }
    {
        Sums {
            from,
            to: from,
            checks: [0; ROOM],
        }
    }

    /// Returns the check byte of the bytes from `start` up to `stop`.
    #[inline(always)]
    pub(crate) fn check(&mut self, bytes: &[u8], start: usize, stop: usize) -> u8
        requires sums { AreSums bytes.now self.old }
        requires after { self.old.from ≤ start }
        requires order { start ≤ stop }
        requires within { stop ≤ length bytes.now }
        ensures sums { AreSums bytes.now self.new }
        ensures after { self.new.from ≤ start }
        ensures check { IsCheckByte (take (stop - start) (drop start bytes.now)) result }
    {
        if stop <= self.to {
            return self.part_check(start, stop);
        }
        self.sum_and_check(bytes, start, stop)
    }

    /// Sums the bytes up to `stop`, and returns what [`Sums::check`] returns. If there are too few bytes for whole blocks, computes the
    /// check byte without sums.
    #[inline(never)]
    fn sum_and_check(&mut self, bytes: &[u8], start: usize, stop: usize) -> u8
        requires sums { AreSums bytes.now self.old }
        requires after { self.old.from ≤ start }
        requires order { start ≤ stop }
        requires within { stop ≤ length bytes.now }
        ensures sums { AreSums bytes.now self.new }
        ensures after { self.new.from ≤ start }
        ensures check { IsCheckByte (take (stop - start) (drop start bytes.now)) result }
    {
        self.sum_to(bytes, start, stop);
        if stop <= self.to {
            return self.part_check(start, stop);
        }
        front_check(&bytes[start..], stop - start)
    }

    /// Returns the exclusive or of the two sums that differ by the bytes from `start` up to `stop`.
    #[inline(always)]
    fn part_check(&self, start: usize, stop: usize) -> u8
        requires after { self.now.from ≤ start }
        requires order { start ≤ stop }
        requires reached { stop ≤ self.now.to }
        requires room { self.now.to ≤ self.now.from + 1264 }
        ensures { result ≡ bit_xor
            (slice_index self.now.checks (stop - self.now.from))
            (slice_index self.now.checks (start - self.now.from)) }
    {
        self.checks[stop - self.from] ^ self.checks[start - self.from]
    }

    /// Sums the bytes up to `stop`, and about as many further bytes as were summed before, in whole blocks. If there is no room for sums up
    /// to `stop`, drops the old sums and begins again at `start`.
    #[inline(always)]
    fn sum_to(&mut self, bytes: &[u8], start: usize, stop: usize)
        requires sums { AreSums bytes.now self.old }
        requires after { self.old.from ≤ start }
        requires order { start ≤ stop }
        requires within { stop ≤ length bytes.now }
        ensures sums { AreSums bytes.now self.new }
        ensures after { self.new.from ≤ start }
    {
        if self.from + MOST_SUMMED < stop {
            self.from = start;
            self.to = start;
        }
        let ahead = self.to - self.from;
        let end = bytes
            .len()
            .min(self.from + MOST_SUMMED)
            .min(stop + ahead + LANES);
        while self.to + LANES <= end {
            self.sum_block(bytes);
        }
    }

    /// Sums the next [`LANES`] bytes.
    #[inline(always)]
    fn sum_block(&mut self, bytes: &[u8])
        requires sums { AreSums bytes.now self.old }
        requires within { self.old.to + LANES ≤ length bytes.now }
        requires room { self.old.to + LANES ≤ self.old.from + MOST_SUMMED }
        ensures sums { AreSums bytes.now self.new }
        ensures from { self.new.from ≡ self.old.from }
        ensures to { self.new.to ≡ self.old.to + LANES }
    {
        let summed = self.to - self.from;
        let before = u8x16::splat(self.checks[summed]);
        let block = u8x16::from_slice(&bytes[self.to..]);
        let checks = before ^ running_checks(block);
        checks.copy_to_slice(&mut self.checks[summed + 1..summed + 1 + LANES]);
        self.to += LANES;
    }
}

/// Returns, in each lane, the check byte of the lanes from the first up to and including that lane.
#[inline(always)]
fn running_checks(lanes: u8x16) -> u8x16
    ensures len { length result ≡ 16 }
    ensures checks { (lane : ℕ) → lane < 16 → IsCheckByte (take (lane + 1) lanes) (slice_index result lane) }
{
    let none = u8x16::splat(0);
    let two = lanes ^ none.shuffle(lanes, ONE_ON);
    let four = two ^ none.shuffle(two, TWO_ON);
    let eight = four ^ none.shuffle(four, FOUR_ON);
    eight ^ none.shuffle(eight, EIGHT_ON)
}
