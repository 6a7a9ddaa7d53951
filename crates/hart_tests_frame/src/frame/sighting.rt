//! Hears a list of characters in pieces, and compares the decided sightings with the messages and misses of the whole list.
use hart_frame::{After, Char, Miss, NextSighting, Sighting, first_frame, next_sighting, why_none};
use hart_rows::{hold_ok, same};
use std::alloc::Global;
use std::test::Fail;

/// A message, given by its start and its stop, or a miss, given by its place.
#[derive(Clone, Copy, Debug, PartialEq, Eq)]
enum Seen {
    Message(u64, u64),
    Missed(usize, Miss),
}

/// Characters, whether more may follow, and the sightings that are decided. The high byte of a character is its fault bits.
type Row<'a> = (&'a [u16], bool, &'a [Seen]);

/// Rows of characters. In these rows, only a single FF precedes each body whose check byte is FF.
const SEEN: &[Row] = &[
    (&[], false, &[]),
    (
        &[0xFF, 0xFF, 0x02, 0x80, 0x00, 0x00, 0x82],
        true,
        &[Seen::Message(2, 7)],
    ),
    (&[0xFF, 0xFF, 0x02, 0x80, 0x00, 0x00], true, &[]),
    (
        &[0xFF, 0xFF, 0x02, 0x80, 0x00, 0x00],
        false,
        &[Seen::Missed(2, Miss::Missing { count: 1 })],
    ),
    (
        &[0xFF, 0xFF, 0x02, 0x80, 0x00, 0x4000],
        true,
        &[Seen::Missed(
            2,
            Miss::Faulty {
                place: 5,
                faults: 0x40,
            },
        )],
    ),
    (
        &[0xFF, 0xFF, 0x40FF],
        true,
        &[Seen::Missed(
            2,
            Miss::Faulty {
                place: 2,
                faults: 0x40,
            },
        )],
    ),
    (
        &[0x00, 0xFF, 0x02, 0x80, 0x00, 0x00, 0x82],
        true,
        &[Seen::Missed(2, Miss::OnePreamble)],
    ),
    (&[0xFF, 0x02, 0x80, 0x7D, 0x00, 0xFF], true, &[]),
    (
        &[0xFF, 0x02, 0x80, 0x7D, 0x00, 0xFF],
        false,
        &[Seen::Missed(1, Miss::OnePreamble)],
    ),
    (
        &[0xFF, 0x02, 0x80, 0x7D, 0x00, 0xFF, 0x00],
        true,
        &[Seen::Missed(1, Miss::OnePreamble)],
    ),
    (
        &[
            0xFF, 0x02, 0x80, 0x7D, 0x00, 0xFF, 0xFF, 0x02, 0x80, 0x00, 0x00, 0x82,
        ],
        true,
        &[Seen::Message(7, 12)],
    ),
    (
        &[
            0xFF, 0x02, 0x80, 0x00, 0x40, 0xFF, 0xFF, 0x02, 0x80, 0x00, 0x00, 0x82,
        ],
        true,
        &[Seen::Message(7, 12)],
    ),
    (
        &[
            0xFF, 0x02, 0x80, 0x00, 0x40, 0xFF, 0xFF, 0x55, 0xFF, 0x02, 0x80, 0x00, 0x00, 0x82,
        ],
        true,
        &[
            Seen::Missed(7, Miss::BadDelimiter { byte: 0x55 }),
            Seen::Missed(9, Miss::OnePreamble),
        ],
    ),
    (
        &[
            0xFF, 0x02, 0x80, 0x00, 0x40, 0xFF, 0x02, 0x80, 0x00, 0x00, 0x82,
        ],
        true,
        &[],
    ),
    (
        &[
            0xFF, 0x02, 0x80, 0x00, 0x08, 0xFF, 0x02, 0x80, 0x00, 0x00, 0x82, 0x75, 0xFF,
        ],
        true,
        &[Seen::Missed(6, Miss::OnePreamble)],
    ),
    (
        &[
            0xFF, 0xFF, 0x02, 0x80, 0x00, 0x00, 0x83, 0xFF, 0xFF, 0x01, 0x80, 0xFF, 0xFF, 0x06,
            0x80, 0x00, 0x01,
        ],
        true,
        &[
            Seen::Missed(
                2,
                Miss::BadCheck {
                    place: 6,
                    byte: 0x83,
                    fits: 0x82,
                },
            ),
            Seen::Missed(9, Miss::Burst),
            Seen::Missed(13, Miss::ShortReply { byte_count: 1 }),
        ],
    ),
];

/// More bytes than any test hears.
const MOST_BYTES: usize = 10_000;

/// What was heard and may still be needed, and what was seen so far.
#[derive(Drop)]
struct Hearing {
    /// The faultless bytes that may still be needed.
    kept: Vec<u8>,
    /// The place of the first kept byte.
    first: usize,
    seen: Vec<Seen>,
}

/// Returns a sighting with `first` added to its places, so that they count from the first character heard.
fn placed(first: usize, sighting: &Sighting) -> Option<Seen> {
    match sighting {
        Sighting::Message(found) => {
            let first = first as u64;
            Some(Seen::Message(
                found.start.checked_add(first)?,
                found.stop.checked_add(first)?,
            ))
        }
        Sighting::Missed { place, miss, .. } => {
            Some(Seen::Missed(place.checked_add(first)?, moved(*miss, first)?))
        }
    }
}

/// Returns a miss with all its places increased by `places`.
fn moved(miss: Miss, places: usize) -> Option<Miss> {
    Some(match miss {
        Miss::Faulty { place, faults } => Miss::Faulty {
            place: place.checked_add(places)?,
            faults,
        },
        Miss::BadCheck { place, byte, fits } => Miss::BadCheck {
            place: place.checked_add(places)?,
            byte,
            fits,
        },
        other => other,
    })
}

/// Returns the next sighting from `from` on. Returns `None` if `from` lies past the bytes, if there are too many bytes, or if the damaged
/// character has no fault bit.
pub fn next_of(bytes: &[u8], after: After, from: usize) -> Option<NextSighting<'_>> {
    if from > bytes.len() || bytes.len() > MOST_BYTES {
        return None;
    }
    match after {
        After::More => Some(next_sighting(bytes, After::More, from)),
        After::End => Some(next_sighting(bytes, After::End, from)),
        After::Damaged(character) if !character.is_faultless() => {
            Some(next_sighting(bytes, After::Damaged(character), from))
        }
        After::Damaged(_) => None,
    }
}

impl Hearing {
    /// Adds the sightings that are decided by the kept bytes and by what comes after them, and drops the bytes that are no longer needed.
    /// Fails if more characters may come and more than 268 bytes stay.
    fn see(&mut self, alloc: Global, after: After) -> Result<(), Fail> {
        let mut used = 0;
        for _ in 0..=self.kept.len() {
            let Some(next) = next_of(&self.kept, after, used) else {
                break;
            };
            used = next.used;
            let Some(sighting) = next.sighting else { break };
            self.seen
                .push(placed(self.first, &sighting).ok_or("places")?)?;
        }
        self.first = self.first.checked_add(used).ok_or("a place")?;
        let mut kept = Vec::new(alloc);
        for byte in self.kept.get(used..).unwrap_or(&[]) {
            kept.push(*byte)?;
        }
        if after == After::More && kept.len() > 268 {
            return Err(Fail::from("too many are kept"));
        }
        self.kept = kept;
        Ok(())
    }
}

/// Returns the sightings of characters that are heard `size` at a time.
fn heard(alloc: Global, chars: &[Char], ended: bool, size: usize) -> Result<Vec<Seen>, Fail> {
    let mut hearing = Hearing {
        kept: Vec::new(alloc),
        first: 0,
        seen: Vec::new(alloc),
    };
    let mut count: usize = 0;
    for character in chars {
        if character.is_faultless() {
            hearing.kept.push(character.byte())?;
        } else {
            hearing.see(alloc, After::Damaged(*character))?;
        }
        count = count.wrapping_add(1);
        if count == size {
            hearing.see(alloc, After::More)?;
            count = 0;
        }
    }
    hearing.see(alloc, if ended { After::End } else { After::More })?;
    Ok(hearing.seen)
}

/// Returns the sightings of the whole list: its messages, and the misses in each gap between them. For a miss, only the characters after
/// the message before it count. A miss with one preamble byte is left out if `is_crossed` is true for its place.
fn of_whole(alloc: Global, chars: &[Char]) -> Result<Vec<Seen>, Fail> {
    let mut seen = Vec::new(alloc);
    let mut from = 0;
    for _ in 0..=chars.len() {
        let found = first_frame(chars, from);
        let stop = found.as_ref().map_or(chars.len(), |found| found.start);
        let gap = chars.get(from..).ok_or("a gap")?;
        for place in from..stop {
            let offset = place.checked_sub(from).ok_or("a place")?;
            if let Some(miss) = why_none(gap, offset)
                && !(miss == Miss::OnePreamble && is_crossed(gap, offset))
            {
                seen.push(Seen::Missed(place, moved(miss, from).ok_or("a place")?))?;
            }
        }
        let Some(found) = found else { break };
        seen.push(Seen::Message(found.start as u64, found.stop as u64))?;
        from = found.stop;
    }
    Ok(seen)
}

/// Whether two adjacent faultless `FF` begin inside the whole body that stands at a place.
fn is_crossed(chars: &[Char], place: usize) -> bool {
    let byte = |offset: usize| chars
        .get(place.wrapping_add(offset))
        .map_or(0, |character| character.byte());
    let first = byte(0);
    let address: usize = if first < 0x80 { 1 } else { 5 };
    let count = address
        .wrapping_add(usize::from(first / 32 % 4))
        .wrapping_add(2);
    let len = count.wrapping_add(usize::from(byte(count))).wrapping_add(2);
    (0..len).any(|offset| {
        let pair = chars.get(
            place.wrapping_add(offset)..place.wrapping_add(offset).wrapping_add(2),
        );
        pair.is_some_and(|pair| {
            pair.iter().all(|character| character.byte() == 0xFF && character.is_faultless())
        })
    })
}

/// Whether the decided sightings of a row's characters are the sightings of the row.
fn sees(alloc: Global, row: &Row) -> Result<bool, Fail> {
    let (heard_chars, more, want) = row;
    let mut chars = Vec::new(alloc);
    for both in *heard_chars {
        chars.push(Char::new((both % 256) as u8, (both / 256) as u8).ok_or("a character")?)?;
    }
    let seen = heard(alloc, &chars, !*more, 1)?;
    let at_once = heard(alloc, &chars, !*more, 7)?;
    Ok(same(&seen.as_slice(), want)? && same(&at_once.as_slice(), want)?)
}

#[test]
fn sightings_are_seen_when_they_are_decided(rt: HostRuntime) -> Result<(), Fail> {
    for (row, each) in SEEN.iter().enumerate() {
        hold_ok(&rt, sees(rt.alloc(), each), "row", row)?;
    }
    Ok(())
}

/// Bytes from which misheard messages are made.
const BYTES: &[u8] = &[
    0xFF, 0xFF, 0x02, 0x06, 0x80, 0x00, 0x00, 0x01, 0x02, 0x82, 0xFD, 0x7D,
];

/// Returns the next number of a pseudorandom sequence.
fn next_number(number: u64) -> u64 {
    number
        .wrapping_mul(6_364_136_223_846_793_005)
        .wrapping_add(1_442_695_040_888_963_407)
}

/// Appends a byte that `number` chooses: one of `BYTES`, or the check byte that fits the last bytes. Sometimes the character has a fault.
fn push_some(chars: &mut Vec<Char>, number: u64) -> Result<(), Fail> {
    let choice = (number / 65_536 % 64) as usize;
    let mut byte = *BYTES.get(choice % 12).unwrap_or(&0);
    if choice >= 48 {
        byte = 0;
        let count = choice.wrapping_sub(43);
        for character in chars.iter().rev().take(count) {
            byte ^= character.byte();
        }
    }
    let faults = if number / 16_777_216 % 40 == 0 {
        0x40
    } else {
        0
    };
    chars.push(Char::new(byte, faults).ok_or("a character")?)?;
    Ok(())
}

/// Whether a list of characters made from `number`, heard in pieces, has the sightings of the whole list. The sightings that are decided
/// before the end must be the first of them.
fn is_whole(alloc: Global, number: u64) -> Result<bool, Fail> {
    let mut chars = Vec::new(alloc);
    let mut state = number;
    for _ in 0..40 {
        state = next_number(state);
        push_some(&mut chars, state)?;
    }
    let whole = of_whole(alloc, &chars)?;
    let early = heard(alloc, &chars, false, 1)?;
    let early_at_once = heard(alloc, &chars, false, 1000)?;
    let sizes: [usize; 4] = [1, 3, 8, 1000];
    for size in sizes {
        let seen = heard(alloc, &chars, true, size)?;
        same(&seen.as_slice(), &whole.as_slice())?;
    }
    let begun = whole.get(..early.len()).ok_or("more than the whole list")?;
    Ok(same(&early.as_slice(), &begun)? && same(&early_at_once.as_slice(), &early.as_slice())?)
}

#[test]
fn sightings_are_those_of_the_whole_list(rt: HostRuntime) -> Result<(), Fail> {
    for number in 0..400 {
        let holds = is_whole(rt.alloc(), number);
        hold_ok(&rt, holds, "the list", number as usize)?;
    }
    Ok(())
}
