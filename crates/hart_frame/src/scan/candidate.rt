//! How bytes begin: with a frame, with what may become a frame, or with neither.
ghost use Rattle.std.specs.Prelude.{◌≡◌, ◌≤◌, ◌+◌, drop, length, slice_index};
ghost use Rattle.hart_frame.specs.private.Candidate.{IsCandidate, IsShort, IsShortPrefix, candidate_of};
ghost use Rattle.hart_frame.specs.private.Sums.{AreSums};

use crate::wire::layout::Layout;
use crate::wire::prefix::{Prefix, prefix_at, prefix_of};
use crate::wire::sums::Sums;

/// How bytes begin.
#[derive(Clone, Copy)]
pub(crate) enum Candidate {
    /// The bytes begin with no frame, whatever follows them. The number says how many bytes at the front are needed to prove this.
    Never(usize),
    /// The bytes may still become a frame.
    Open,
    /// The bytes begin with a frame of this layout.
    Whole(Layout),
}

/// Returns how the bytes begin. The first two bytes must be preamble bytes.
pub(crate) fn candidate_in(bytes: &[u8]) -> Candidate
    requires some { 2 ≤ length bytes.now }
    requires first { slice_index bytes.now 0 ≡ 255 }
    requires second { slice_index bytes.now 1 ≡ 255 }
    ensures candidate { IsCandidate bytes.now result }
    ensures few { IsShort bytes.now result }
{
    candidate_of(prefix_of(&bytes[2..]))
}

/// Returns what [`candidate_in`] returns for the bytes from `start` on, but takes the check byte from `sums`.
#[inline(always)]
pub(crate) fn candidate_at(bytes: &[u8], start: usize, sums: &mut Sums) -> Candidate
    requires some { start + 2 ≤ length bytes.now }
    requires first { slice_index bytes.now start ≡ 255 }
    requires second { slice_index bytes.now (start + 1) ≡ 255 }
    requires sums { AreSums bytes.now sums.old }
    requires after { sums.old.from ≤ start + 2 }
    ensures candidate { IsCandidate (drop start bytes.now) result }
    ensures few { IsShort (drop start bytes.now) result }
    ensures sums { AreSums bytes.now sums.new }
    ensures after { sums.new.from ≤ start + 2 }
{
    candidate_of(prefix_at(bytes, start + 2, sums))
}

/// Returns how bytes begin if they are two preamble bytes and a rest. `prefix` says how this rest begins.
#[inline(always)]
fn candidate_of(prefix: Prefix) -> Candidate
    requires { IsShortPrefix prefix }
    ensures { result ≡ candidate_of prefix }
{
    match prefix {
        Prefix::Whole(layout) => Candidate::Whole(layout),
        Prefix::Cut(_) => Candidate::Open,
        Prefix::Wrong(wrong) => Candidate::Never(2 + wrong.shown_by()),
    }
}
