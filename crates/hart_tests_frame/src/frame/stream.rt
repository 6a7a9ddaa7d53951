//! Compares the frames of a scanner with the frames found in the whole list.
use super::*;
use crate::chars::{bytes_of, char_of};
use std::alloc::Global;

/// Sequences of characters, each with how often it is repeated. The high byte of a character is its fault bits.
type Parts = &'static [(&'static [u16], usize)];

/// A request and its reply.
const WORKED: Parts = &[
    (&[0xFF], 5),
    (
        &[
            0x82, 0xB7, 0x42, 0x0A, 0x1B, 0x2C, 0x13, 0x03, 0x01, 0x23, 0x45, 0x3D,
        ],
        1,
    ),
    (&[0xFF], 5),
    (
        &[
            0x86, 0xB7, 0x42, 0x0A, 0x1B, 0x2C, 0x13, 0x05, 0x00, 0x40, 0x01, 0x23, 0x45, 0x7F,
        ],
        1,
    ),
];

/// The first bytes of a message with 255 bytes of payload; a whole message stands in this payload.
const INSIDE: &[u16] = &[
    0xFF, 0xFF, 0x82, 0xB7, 0x42, 0x0A, 0x1B, 0x2C, 0x13, 0xFF, 0xFF, 0xFF, 0xFF, 0xFF, 0xFF, 0x02,
    0x80, 0x00, 0x00, 0x82,
];

/// A message.
const ONE: &[u16] = &[0xFF, 0xFF, 0x02, 0x80, 0x00, 0x00, 0x82];

/// A message whose check byte is FF.
const ENDS_WITH_FF: &[u16] = &[0xFF, 0xFF, 0x02, 0x80, 0x7D, 0x00, 0xFF];

/// A false start, and the first FF of the next start.
const FALSE: &[u16] = &[0xFF, 0xFF, 0x82, 0xB7, 0x42, 0x0A, 0x1B, 0x2C, 0x13, 0xFF];

/// Characters, and where their last frame stops.
const HEARD: &[(Parts, usize)] = &[
    (&[], 0),
    (WORKED, 36),
    (&[(INSIDE, 1), (&[0x00], 246)], 20),
    (&[(INSIDE, 1), (&[0x00], 245)], 20),
    (&[(INSIDE, 1)], 20),
    (&[(&[0xFF, 0xFF, 0x82, 0xFF, 0xFF, 0x82], 9), (ONE, 2)], 68),
    (&[(INSIDE, 1), (ONE, 40)], 300),
    (&[(ENDS_WITH_FF, 3), (ONE, 1)], 28),
    (
        &[
            (ENDS_WITH_FF, 1),
            (&[0xFF, 0x02, 0x00, 0x00, 0x00, 0x02], 1),
        ],
        7,
    ),
    (&[(FALSE, 90), (ONE, 1)], 907),
    (
        &[
            (&[0xFF], 300),
            (&[0xE2, 0x80, 0, 0, 0, 0, 1, 2, 3, 0, 255], 1),
            (&[0x55], 255),
            (&[0xC8], 1),
            (ONE, 1),
        ],
        574,
    ),
    (&[(&[0xFF, 0x40FF], 1), (ONE, 1)], 9),
    (&[(&[0xFF, 0xFF, 0x2002, 0x80, 0x00, 0x00, 0x82], 1)], 0),
    (&[(&[0xFF, 0xFF, 0x02, 0x1080, 0x00, 0x00, 0x82], 2)], 0),
    (&[(&[0xFF, 0xFF, 0x02, 0x80, 0x0200, 0x00, 0x82], 1)], 0),
    (&[(&[0xFF, 0xFF, 0x02, 0x80, 0x00, 0x7200, 0x82], 1)], 0),
    (&[(ONE, 1), (&[0x4055, 0x2082, 0x10FF], 5), (ONE, 1)], 29),
    (&[(INSIDE, 1), (&[0x40FF], 1), (ONE, 1)], 28),
];

/// Long noise and many false starts. If a frame stands at the end, the row has its start and its parts.
const NOISE: &[(Parts, Option<(usize, Read)>)] = &[
    (&[(&[0xFF], 100_000)], None),
    (
        &[(&[0xFF], 100_000), (&[0x02, 0x80, 0x00, 0x00, 0x82], 1)],
        Some((100_000, (5, FrameKind::Stx, &[0x80], &[], &[]))),
    ),
    (
        &[
            (&[0xFF], 20),
            (&[0xE2, 0x80, 0, 0, 0, 0, 1, 2, 3, 0, 255], 1),
            (&[0x55], 255),
            (&[0xC8], 1),
        ],
        Some((
            20,
            (
                267,
                FrameKind::Stx,
                &[0x80, 0, 0, 0, 0],
                &[1, 2, 3],
                &[0x55; 255],
            ),
        )),
    ),
    (&[(FALSE, 2000)], None),
];

/// The chunk sizes that are tried. A chunk size is the greatest number of characters that are pushed together.
const RUNS: &[usize] = &[1, 2, 3, 7, 100, MOST_RUN];

const MOST_RUN: usize = 1000;

const MOST_PUSHED: u64 = 200_000;

/// Returns the characters of some parts.
pub fn heard(alloc: Global, parts: Parts) -> Result<Vec<Char>, Fail> {
    let mut chars = Vec::new(alloc);
    for (part, times) in parts {
        for _ in 0..*times {
            push_part(&mut chars, part)?;
        }
    }
    Ok(chars)
}

/// Appends the characters of a part.
fn push_part(chars: &mut Vec<Char>, part: &[u16]) -> Result<(), Fail> {
    for both in part {
        chars.push(char_of(*both).ok_or("a character")?)?;
    }
    Ok(())
}

/// Takes the frames that are ready. Returns where the last of these frames stops, or `from` if no frame is ready. Returns `None` if
/// the taken frames are not the next frames of the whole list after `from`.
fn taken(scanner: &mut Scanner, chars: &[Char], from: usize) -> Option<usize> {
    let mut stop = from;
    for _ in 0..=chars.len() {
        let Some(view) = scanner.take() else {
            return Some(stop);
        };
        let want = first_frame(chars, stop)?;
        let places = (want.start as u64, want.stop as u64);
        if (view.start, view.stop) != places || view.frame.to_frame() != want.frame {
            return None;
        }
        stop = want.stop;
    }
    None
}

/// Like `taken`, after `finish`: the list must have no further frame, and the scanner must be like a new one.
fn last_taken(scanner: &mut Scanner, chars: &[Char], from: usize) -> Option<usize> {
    scanner.finish();
    let stop = taken(scanner, chars, from)?;
    if first_frame(chars, stop).is_some() || scanner.pushed() != 0 || !scanner.is_drained() {
        return None;
    }
    Some(stop)
}

/// Returns where the last frame of a list stops, if the scanner finds all frames of the list character by character.
fn by_character(chars: &[Char]) -> Option<usize> {
    let mut scanner = Scanner::new();
    let mut stop = 0;
    for character in chars {
        push(&mut scanner, *character)?;
        stop = taken(&mut scanner, chars, stop)?;
    }
    last_taken(&mut scanner, chars, stop)
}

/// Pushes a character, if the scanner is drained.
fn push(scanner: &mut Scanner, character: Char) -> Option<()> {
    if !scanner.is_drained() || scanner.pushed() >= MOST_PUSHED {
        return None;
    }
    scanner.push(character);
    Some(())
}

/// How the characters of a chunk are passed.
#[derive(Clone, Copy)]
enum Chunks {
    /// Faultless bytes. A character with faults is pushed alone.
    Bytes,
    /// Characters with and without faults.
    Chars,
}

/// Like `by_character`, with chunks of at most `size` characters.
fn by_chunks(chars: &[Char], size: usize, chunks: Chunks) -> Option<usize> {
    let mut scanner = Scanner::new();
    let mut heard: usize = 0;
    let mut stop = 0;
    for _ in 0..chars.len() {
        let rest = chars.get(heard..)?;
        if rest.is_empty() {
            break;
        }
        let count = match chunks {
            Chunks::Bytes => push_bytes(&mut scanner, rest, size)?,
            Chunks::Chars => push_chars(&mut scanner, rest, size)?,
        };
        heard = heard.checked_add(count)?;
        stop = taken(&mut scanner, chars, stop)?;
    }
    if heard != chars.len() {
        return None;
    }
    last_taken(&mut scanner, chars, stop)
}

/// Writes the first characters as bytes, up to a character with faults or the end of `bytes`. Returns how many characters it wrote.
fn write_bytes(bytes: &mut [u8], chars: &[Char]) -> usize {
    let mut count: usize = 0;
    for (place, character) in bytes.iter_mut().zip(chars) {
        if !character.is_faultless() {
            break;
        }
        *place = character.byte();
        count = count.saturating_add(1);
    }
    count
}

/// Pushes bytes if the scanner is drained, and returns how many bytes it heard.
fn push_drained(scanner: &mut Scanner, bytes: &[u8]) -> Option<usize> {
    if !scanner.is_drained() || scanner.pushed() >= MOST_PUSHED {
        return None;
    }
    Some(scanner.push_bytes(bytes))
}

/// If the scanner is drained, pushes the first faultless characters, at most `size`, or the first character alone if it has faults. Returns
/// how many characters the scanner heard.
fn push_bytes(scanner: &mut Scanner, chars: &[Char], size: usize) -> Option<usize> {
    let mut bytes = [0; MOST_RUN];
    let count = write_bytes(bytes.get_mut(..size)?, chars);
    if count == 0 {
        push(scanner, *chars.first()?)?;
        return Some(1);
    }
    push_drained(scanner, bytes.get(..count)?)
}

/// If the scanner is drained, pushes the first characters, at most `size`, and returns how many characters it heard.
fn push_chars(scanner: &mut Scanner, chars: &[Char], size: usize) -> Option<usize> {
    let chunk = chars.get(..chars.len().min(size))?;
    if !scanner.is_drained() || scanner.pushed() >= MOST_PUSHED {
        return None;
    }
    Some(scanner.push_chars(chunk))
}

/// Whether the last frame of a list stops at `stop`, if the list is pushed by chunks of each size in `RUNS`.
fn stops_by_chunks_at(chars: &[Char], stop: usize, chunks: Chunks) -> Result<bool, Fail> {
    let mut stops = true;
    for size in RUNS {
        stops &= same(&by_chunks(chars, *size, chunks), &Some(stop))?;
    }
    Ok(stops)
}

/// Whether the last frame of a list stops at `stop`, if the list is pushed character by character and by chunks of bytes.
fn stops_at(chars: &[Char], stop: usize) -> Result<bool, Fail> {
    Ok(same(&by_character(chars), &Some(stop))? && stops_by_chunks_at(chars, stop, Chunks::Bytes)?)
}

#[test]
fn a_scanner_gives_the_frames(rt: HostRuntime) -> Result<(), Fail> {
    for (row, (parts, want)) in HEARD.iter().enumerate() {
        let chars = heard(rt.alloc(), parts)?;
        hold_ok(&rt, stops_at(&chars, *want), "row", row)?;
        let by_chars = stops_by_chunks_at(&chars, *want, Chunks::Chars);
        hold_ok(&rt, by_chars, "the chunks of row", row)?;
    }
    Ok(())
}

/// How many characters were heard when a view was given, and where its frame starts and stops.
type Viewed = (usize, u64, u64);

/// Returns the view that the scanner gives next, if there is one, after `count` characters.
fn viewed(scanner: &mut Scanner, count: usize) -> Option<Viewed> {
    let view = scanner.take()?;
    Some((count, view.start, view.stop))
}

/// Returns the first view that a scanner gives of a list. It may come only after `finish`.
fn first_view(chars: &[Char]) -> Option<Viewed> {
    let mut scanner = Scanner::new();
    for (place, character) in chars.iter().enumerate() {
        push(&mut scanner, *character)?;
        let view = viewed(&mut scanner, place.saturating_add(1));
        if view.is_some() {
            return view;
        }
    }
    scanner.finish();
    viewed(&mut scanner, chars.len())
}

#[test]
fn a_view_waits_for_the_false_message_around_it(rt: HostRuntime) -> Result<(), Fail> {
    let chars = heard(rt.alloc(), &[(INSIDE, 1), (&[0x00], 300)])?;
    assert!(rt; first_view(&chars) == Some((266, 15, 20)));
    let finished = chars.get(..20).ok_or("20 characters")?;
    assert!(rt; first_view(finished) == Some((20, 15, 20)));
    Ok(())
}

/// Returns where the wanted frame stops, or 0 if no frame is wanted. Fails unless the first frame is the wanted one and the characters end
/// with it, or no frame is wanted and none is found.
fn noise_stop(chars: &[Char], want: &Option<(usize, Read)>) -> Result<usize, Fail> {
    match (first_frame(chars, 0), want) {
        (None, None) => Ok(0),
        (Some(found), Some((start, read))) => {
            let holds = same(&(found.start, found.stop), &(*start, chars.len()))?
                && is_read_as(&found.frame, read)?;
            Ok(holds.then_some(found.stop).ok_or("another frame")?)
        }
        (Some(found), None) => {
            let place = found.start;
            Err(Fail::new(format_args!("got a frame at {place}")))
        }
        (None, Some(_)) => Err("no frame".into()),
    }
}

/// Like `by_character`, with all characters as one chunk of bytes. None of the characters has a fault.
fn at_once(chars: &[Char], bytes: &[u8]) -> Option<usize> {
    let mut scanner = Scanner::new();
    if scanner.push_bytes(bytes) != bytes.len() {
        return None;
    }
    last_taken(&mut scanner, chars, 0)
}

/// Whether the wanted frame, and no other frame, is found, however the characters or their bytes are pushed.
fn is_passed(chars: &[Char], bytes: &[u8], want: &Option<(usize, Read)>) -> Result<bool, Fail> {
    let stop = noise_stop(chars, want)?;
    Ok(stops_at(chars, stop)? && same(&at_once(chars, bytes), &Some(stop))?)
}

#[test]
fn noise_is_passed(rt: HostRuntime) -> Result<(), Fail> {
    for (row, (parts, want)) in NOISE.iter().enumerate() {
        let chars = heard(rt.alloc(), parts)?;
        let bytes = bytes_of(rt.alloc(), &chars)?;
        hold_ok(&rt, is_passed(&chars, &bytes, want), "row", row)?;
    }
    Ok(())
}
