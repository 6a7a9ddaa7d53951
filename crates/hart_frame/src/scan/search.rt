//! The search for frames in faultless bytes, without a copy.
ghost use Rattle.std.specs.Prelude.{None, ◌≡◌, ◌≢◌, ◌<◌, ◌≤◌, ◌+◌, ◌-◌, ℕ, All, MatchOption, drop, length, replicate, slice_index};
ghost use Rattle.std.specs.Prelude.{◌^◌, Some, max, slice_range, take};
ghost use Rattle.hart_frame.specs.private.Candidate.{IsCandidate};
ghost use Rattle.hart_frame.specs.private.Layout.{layout_length};
ghost use Rattle.hart_frame.specs.private.Search.{HasNoPair, IsNextPair, IsSearched, IsSearchedToEnd, IsSearching};
ghost use Rattle.hart_frame.specs.declared.scan.candidate.Candidate.TheVariants.{Never};

use crate::scan::candidate::{Candidate, candidate_at, candidate_in};
use crate::wire::layout::Layout;
use crate::wire::message::PREAMBLE;
use crate::wire::sums::Sums;
use memchr::memchr;
use std::simd::prelude::*;

/// The number of places that are searched for a pair at once.
const LANES: usize = 16;

/// The number of bytes that are needed to look for a pair at [`LANES`] places. A pair has 3 bytes.
const LOOKED_AT: usize = LANES + 2;

/// What a search of bytes finds.
#[derive(Clone, Copy)]
pub(crate) struct SearchResult {
    /// No frame begins before this place.
    pub(crate) place: usize,
    /// How many bytes at the front the search needed for its result.
    pub(crate) decided: usize,
    /// The layout of the frame that begins at `place`, or `None` if no frame is found. If no frame is found and more bytes can follow, the
    /// bytes from `place` on may still begin a frame.
    pub(crate) layout: Option<Layout>,
}

/// Searches for a frame from the place `from` on. The caller already knows that no prefix of fewer than `seen` bytes decides a frame.
pub(crate) fn search(bytes: &[u8], from: usize, seen: usize) -> SearchResult
    requires order { from ≤ seen }
    requires within { seen ≤ length bytes.now }
    requires few { seen ≤ from + 269 }
    ensures { IsSearched bytes.now from seen result }
{
    let Some(start) = next_pair(bytes, from) else {
        return open_at(bytes, bytes.len() - last_preambles(&bytes[from..]));
    };
    match candidate_in(&bytes[start..]) {
        Candidate::Never(count) => {
            let decided = looked_at(bytes, from, seen, from, seen, start, count);
            search_on(bytes, from, seen, start + 1, decided)
        }
        Candidate::Open => open_at(bytes, start),
        Candidate::Whole(layout) => whole_at(start, seen, layout),
    }
}

/// Continues, from the place `from`, a search that began at `first` and has looked at the first `seen` bytes. The caller of that search
/// already knew that no prefix of fewer than `known` bytes decides a frame. After a false start, the search goes on at the next place,
/// because a whole message may begin within the length that the false start gives. So possible bodies often overlap, and their check bytes
/// come from sums.
#[inline(never)]
fn search_on(bytes: &[u8], first: usize, known: usize, from: usize, seen: usize) -> SearchResult
    requires { IsSearching bytes.now first known from seen }
    ensures { IsSearched bytes.now first known result }
{
    let mut sums = Sums::new(from);
    let mut place = from;
    let mut decided = seen;
    while let Some(start) = next_pair(bytes, place) {
        match candidate_at(bytes, start, &mut sums) {
            Candidate::Never(count) => {
                decided = looked_at(bytes, first, known, place, decided, start, count);
                place = start + 1;
            }
            Candidate::Open => return open_at(bytes, start),
            Candidate::Whole(layout) => return whole_at(start, decided, layout),
        }
    }
    open_at(bytes, bytes.len() - last_preambles(&bytes[place..]))
}

/// Returns how many bytes at the front a search has looked at in all. When the search came to `place`, it had looked at the first `decided`
/// bytes. It then looked at `count` bytes from `start` on, which show that no frame begins at the pair at `start`. The search goes on right
/// after `start`.
#[inline(always)]
fn looked_at(
    bytes: &[u8],
    from: usize,
    seen: usize,
    place: usize,
    decided: usize,
    start: usize,
    count: usize,
) -> usize
    requires searching { IsSearching bytes.now from seen place decided }
    requires next { IsNextPair bytes.now place start }
    requires never { IsCandidate (drop start bytes.now) (Never count) }
    requires few { (2 ≤ count) × (count ≤ 269) }
    ensures { IsSearching bytes.now from seen (start + 1) result }
{
    decided.max(start + count)
}

/// Searches for a frame from the place `from` on. If `ended` is true, nothing can follow the bytes. The search then goes on after a place
/// at which a frame could begin only with more bytes.
pub(crate) fn search_to_end(bytes: &[u8], from: usize, ended: bool) -> SearchResult
    requires { from ≤ length bytes.now }
    ensures { IsSearchedToEnd bytes.now from ended result }
{
    let mut found = search(bytes, from, from);
    while ended && found.layout.is_none() && found.place < bytes.len() {
        found = search(bytes, found.place + 1, found.place + 1);
    }
    found
}

/// Returns the result of a search that decides no frame, because a frame may still begin at `place`.
fn open_at(bytes: &[u8], place: usize) -> SearchResult
    ensures { result ≡ record { place = place; decided = length bytes.now; layout = None } }
{
    SearchResult {
        place,
        decided: bytes.len(),
        layout: None,
    }
}

/// Returns the result of a search that finds a frame of this layout at `place`. The search had already looked at the first `seen` bytes.
#[inline(always)]
fn whole_at(place: usize, seen: usize, layout: Layout) -> SearchResult
    requires { place + 2 + layout_length layout < 2 ^ 64 }
    ensures { result ≡ record {
      place = place;
      decided = max seen (place + 2 + layout_length layout);
      layout = Some layout;
    } }
{
    SearchResult {
        place,
        decided: seen.max(place + 2 + layout.body_len()),
        layout: Some(layout),
    }
}

/// Returns the first place from `from` on at which a pair stands, or `None` if there is no such place. A pair is two preamble bytes and
/// then a byte that is no preamble byte. In noise, pairs are rare, and single preamble bytes are frequent.
#[inline(always)]
fn next_pair(bytes: &[u8], from: usize) -> Option<usize>
    requires { from ≤ length bytes.now }
    ensures { MatchOption result (HasNoPair bytes.now from (length bytes.now)) (IsNextPair bytes.now from) }
{
    let mut place = from;
    while place + LOOKED_AT <= bytes.len() {
        if let Some(start) = first_pair(bytes, place) {
            return Some(start);
        }
        place = next_preamble(bytes, place + LANES);
    }
    if from + LOOKED_AT <= bytes.len() {
        // This call looks again at some places that were already looked at.
        return first_pair(bytes, bytes.len() - LOOKED_AT);
    }
    pair_near_end(bytes, from)
}

/// Looks at the [`LANES`] places from `place` on. Returns the first of these places at which a pair stands, or `None` if there is none.
#[inline(always)]
fn first_pair(bytes: &[u8], place: usize) -> Option<usize>
    requires { place + LOOKED_AT ≤ length bytes.now }
    ensures { MatchOption result (HasNoPair bytes.now place (place + LANES)) (IsNextPair bytes.now place) }
{
    let preamble = u8x16::splat(PREAMBLE);
    let first = u8x16::from_slice(&bytes[place..]).simd_eq(preamble);
    let second = u8x16::from_slice(&bytes[place + 1..]).simd_eq(preamble);
    let other = u8x16::from_slice(&bytes[place + 2..]).simd_ne(preamble);
    let pairs = (first & second & other).to_bitmask();
    if pairs == 0 {
        return None;
    }
    Some(place + pairs.trailing_zeros() as usize)
}

/// Returns the pair that [`next_pair`] returns, but looks at one place after another. This function is for fewer bytes than [`first_pair`]
/// needs.
fn pair_near_end(bytes: &[u8], from: usize) -> Option<usize>
    requires { from ≤ length bytes.now }
    ensures { MatchOption result (HasNoPair bytes.now from (length bytes.now)) (IsNextPair bytes.now from) }
{
    for place in from..bytes.len().saturating_sub(2) {
        if bytes[place] == PREAMBLE
            && bytes[place + 1] == PREAMBLE
            && bytes[place + 2] != PREAMBLE
        {
            return Some(place);
        }
    }
    None
}

/// Returns how many preamble bytes stand at the end, at most two.
fn last_preambles(bytes: &[u8]) -> usize
    ensures few { result ≤ 2 }
    ensures within { result ≤ length bytes.now }
    ensures preambles { drop (length bytes.now - result) bytes.now ≡ replicate result 255 }
    ensures other { result < 2 → result < length bytes.now → slice_index bytes.now (length bytes.now - result - 1) ≢ 255 }
{
    match bytes {
        [.., PREAMBLE, PREAMBLE] => 2,
        [.., PREAMBLE] => 1,
        _ => 0,
    }
}

/// Returns the place of the first preamble byte from `from` on, or the place after the last byte if there is none.
pub(crate) fn next_preamble(bytes: &[u8], from: usize) -> usize
    requires { from ≤ length bytes.now }
    ensures after { from ≤ result }
    ensures within { result ≤ length bytes.now }
    ensures others { (place : ℕ) → from ≤ place → place < result → slice_index bytes.now place ≢ 255 }
    ensures preamble { result < length bytes.now → slice_index bytes.now result ≡ 255 }
{
    if bytes.get(from) == Some(&PREAMBLE) {
        return from;
    }
    match memchr(PREAMBLE, &bytes[from..]) {
        Some(offset) => from + offset,
        None => bytes.len(),
    }
}

/// Returns the place of the first byte from `from` on that is no preamble byte, or the place after the last byte if there is none.
pub(crate) fn preamble_end(bytes: &[u8], from: usize) -> usize
    requires { from ≤ length bytes.now }
    ensures after { from ≤ result }
    ensures within { result ≤ length bytes.now }
    ensures preambles { (place : ℕ) → from ≤ place → place < result → slice_index bytes.now place ≡ 255 }
    ensures other { result < length bytes.now → slice_index bytes.now result ≢ 255 }
{
    from + preamble_bytes(&bytes[from..])
}

/// Returns how many preamble bytes stand at the front, before any other byte.
fn preamble_bytes(bytes: &[u8]) -> usize
    ensures within { result ≤ length bytes.now }
    ensures preambles { All (λ byte. byte ≡ 255) (take result bytes.now) }
    ensures next { result < length bytes.now → slice_index bytes.now result ≢ 255 }
{
    bytes
        .iter()
        .position(|byte| *byte != PREAMBLE)
        .unwrap_or(bytes.len())
}
