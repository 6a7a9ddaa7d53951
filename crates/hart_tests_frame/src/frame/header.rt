//! Headers that are heard at misses.
use super::sighting::next_of;
use super::*;

/// What a header says: the kind, the address bytes with a burst bit of 0, and the command.
type Said<'a> = (FrameKind, &'a [u8], u8);

/// Bytes, whether a character with fault bits follows them, and the header of the first miss, if it has one.
type Row<'a> = (&'a [u8], bool, Option<Said<'a>>);

const HEADERS: &[Row] = &[
    // Cut right before and right after the command.
    (&[0xFF, 0xFF, 0x02, 0x80], false, None),
    (
        &[0xFF, 0xFF, 0x02, 0x80, 0x07],
        false,
        Some((FrameKind::Stx, &[0x80], 7)),
    ),
    (
        &[0xFF, 0xFF, 0x02, 0x80, 0x07],
        true,
        Some((FrameKind::Stx, &[0x80], 7)),
    ),
    (
        &[0xFF, 0xFF, 0x82, 0xB7, 0x42, 0x0A, 0x1B, 0x2C],
        true,
        None,
    ),
    (
        &[0xFF, 0xFF, 0x82, 0xB7, 0x42, 0x0A, 0x1B, 0x2C, 0x13],
        true,
        Some((FrameKind::Stx, UNIQUE, 0x13)),
    ),
    (&[0xFF, 0xFF, 0x62, 0x80, 1, 2, 3], false, None),
    (
        &[0xFF, 0xFF, 0x62, 0x80, 1, 2, 3, 4],
        false,
        Some((FrameKind::Stx, &[0x80], 4)),
    ),
    (&[0xFF, 0xFF], true, None),
    // The secondary master, a burst bit, and broadcast.
    (
        &[0xFF, 0xFF, 0x06, 0x3F, 0x15],
        true,
        Some((FrameKind::Ack, &[0x3F], 0x15)),
    ),
    (
        &[0xFF, 0xFF, 0x02, 0xC1, 0x01],
        true,
        Some((FrameKind::Stx, &[0x81], 1)),
    ),
    (
        &[0xFF, 0xFF, 0x86, 0x77, 0x42, 0x0A, 0x1B, 0x2C, 0xFF],
        false,
        Some((FrameKind::Ack, &[0x37, 0x42, 0x0A, 0x1B, 0x2C], 0xFF)),
    ),
    (
        &[0xFF, 0xFF, 0x82, 0x80, 0, 0, 0, 0, 0x0B],
        false,
        Some((FrameKind::Stx, &[0x80, 0, 0, 0, 0], 0x0B)),
    ),
    // The delimiter of a burst message, and a byte that is no delimiter.
    (&[0xFF, 0xFF, 0x01, 0x80, 0x00, 0x00, 0x81], false, None),
    (&[0xFF, 0xFF, 0x0A, 0x80, 0x00, 0x00, 0x8A], false, None),
    // A byte count below 2, a bad check byte, and one preamble byte.
    (
        &[
            0xFF, 0xFF, 0xA6, 0xB7, 0x42, 0x0A, 0x1B, 0x2C, 0x55, 0x03, 0x01,
        ],
        false,
        Some((FrameKind::Ack, UNIQUE, 3)),
    ),
    (
        &[0xFF, 0xFF, 0x02, 0x80, 0x00, 0x00, 0x83, 0x55],
        false,
        Some((FrameKind::Stx, &[0x80], 0)),
    ),
    (
        &[0xFF, 0x02, 0x80, 0x00, 0x00, 0x82],
        false,
        Some((FrameKind::Stx, &[0x80], 0)),
    ),
];

/// Whether a header has this kind, these address bytes and this command.
fn says(header: &Header, (kind, address, command): &Said) -> Result<bool, Fail> {
    let bytes = header.address().bytes(header.master(), false);
    Ok(
        same(&header.kind(), kind)?
            && same_bytes(bytes.as_slice(), address)?
            && same(&header.command(), command)?,
    )
}

/// Whether the first sighting of a row is a miss with the header of the row.
fn has_its_header((bytes, damaged, want): &Row) -> Result<bool, Fail> {
    let after = if *damaged {
        After::Damaged(Char::new(0, 0x40).ok_or("a character")?)
    } else {
        After::End
    };
    let next = next_of(bytes, after, 0).ok_or("a sighting")?;
    match next.sighting {
        Some(Sighting::Missed { header, .. }) => match (header, want) {
            (Some(header), Some(want)) => says(&header, want),
            (header, want) => same(&header.is_some(), &want.is_some()),
        },
        _ => Err("no miss".into()),
    }
}

#[test]
fn misses_have_the_header_that_was_heard(rt: HostRuntime) -> Result<(), Fail> {
    for (row, each) in HEADERS.iter().enumerate() {
        hold_ok(&rt, has_its_header(each), "row", row)?;
    }
    Ok(())
}
