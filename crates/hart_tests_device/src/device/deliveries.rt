//! What a new bench device replies to a message that is cut, changed or damaged, and to noise.
use super::images::{ENDING, IMAGE_2, image_with};
use super::*;
use crate::chars::write_faultless;
use hart_frame::{Message, encode};
use hart_rows::exclusive_or;

/// The place in an image where the final assembly number begins. A row of `EXCHANGES` writes this number.
const ASSEMBLY: usize = 48;

/// The final assembly number in an image of a bench device, and then the counter and the flags of the image.
type Held = ([u8; 3], [u8; 3]);

/// The final assembly number, the counter and the flags in the image of a new bench device.
const UNCHANGED: Held = ([0; 3], [0; 3]);

/// The message of a request, the message of its reply, and what the image holds afterwards.
struct Exchange<'a> {
    request: &'a [u8],
    reply: &'a [u8],
    held: Held,
}

/// The message of the reply by which a new bench device is found at polling address 0.
const FOUND: &[u8] = &[
    0xFF, 0xFF, 0xFF, 0xFF, 0xFF, 0x06, 0x80, 0x00, 0x18, 0x00, 0x00, 0xFE, 0x37, 0x42, 0x05, 0x07,
    0x01, 0x02, 0x18, 0x00, 0x0A, 0x1B, 0x2C, 0x05, 0x04, 0x00, 0x00, 0x00, 0x00, 0x37, 0x00, 0x37,
    0x01, 0x31,
];

/// A read request and a write request.
const EXCHANGES: &[Exchange] = &[
    Exchange {
        request: &[0xFF, 0xFF, 0xFF, 0xFF, 0xFF, 0x02, 0x80, 0x00, 0x00, 0x82],
        reply: FOUND,
        held: UNCHANGED,
    },
    Exchange {
        request: &[
            0xFF, 0xFF, 0xFF, 0xFF, 0xFF, 0x82, 0xB7, 0x42, 0x0A, 0x1B, 0x2C, 0x13, 0x03, 0x01,
            0x23, 0x45, 0x3D,
        ],
        reply: &[
            0xFF, 0xFF, 0xFF, 0xFF, 0xFF, 0x86, 0xB7, 0x42, 0x0A, 0x1B, 0x2C, 0x13, 0x05, 0x00,
            0x40, 0x01, 0x23, 0x45, 0x7F,
        ],
        held: ([0x01, 0x23, 0x45], [0x00, 0x01, 0x03]),
    },
];

/// How many characters the longer request has.
pub(super) const MOST: usize = 17;

/// How many of the five preamble bytes may be lost. The other two must stand before the delimiter.
const SPARE: usize = 3;

/// Each set of fault bits that is not empty.
const FAULT_SETS: &[u8] = &[
    0x02, 0x10, 0x12, 0x20, 0x22, 0x30, 0x32, 0x40, 0x42, 0x50, 0x52, 0x60, 0x62, 0x70, 0x72,
];

/// Returns the characters of a request, followed by zeros, all faultless.
fn chars_of(request: &[u8]) -> Option<[Char; MOST]> {
    let mut chars = [Char::new(0, 0)?; MOST];
    write_faultless(&mut chars, request)?;
    Some(chars)
}

/// Whether a new bench device sends `reply` after this delivery, or nothing if `reply` is empty, and whether its image then has `held`.
fn leads_to(delivery: &[Char], reply: &[u8], held: Held) -> Result<bool, Fail> {
    let mut device = bench_device();
    let mut message = Message::new();
    if let Some(answer) = device.hear(delivery, &bench::process()) {
        encode(&answer, device.response_preambles(), &mut message)?;
    }
    let (assembly, ending) = held;
    let written = image_with(IMAGE_2, ASSEMBLY, &assembly);
    let image = image_with(written, ENDING, &ending);
    Ok(
        same_bytes(message.as_slice(), reply)?
            && same_bytes(device.image().as_slice(), image.as_slice())?,
    )
}

/// Returns the message of a communication-fault reply of the bench device, with this first address byte, this command and this
/// first status byte. `FB` is the exclusive or of the other bytes.
fn faulty_reply(address: u8, command: u8, status: u8) -> [u8; 16] {
    let check = exclusive_or(&[0xFB, address, command, status]);
    [
        0xFF, 0xFF, 0xFF, 0xFF, 0xFF, 0x86, address, 0x42, 0x0A, 0x1B, 0x2C, command, 0x02, status,
        0x00, check,
    ]
}

/// Returns the communication-fault reply to the write request if its character at `place` is heard changed, or `None` if the device is
/// silent. The place is at least `SPARE`.
fn reply_to_change(place: usize, byte: u8, faults: u8) -> Option<[u8; 16]> {
    match (place, byte) {
        (11..=16, _) if faults != 0 => Some(faulty_reply(0xB7, 0x13, 0x80 | faults)),
        (11, _) => Some(faulty_reply(0xB7, byte, 0x88)),
        (12, 0..=2) | (13..=16, _) => Some(faulty_reply(0xB7, 0x13, 0x88)),
        (6, 0x37 | 0x77) => Some(faulty_reply(0x37, 0x13, 0x88)),
        (6, 0xF7) => Some(faulty_reply(0xB7, 0x13, 0x88)),
        _ => None,
    }
}

/// Whether a request with one changed character has the right effect. A change in the spare preamble bytes has no effect. With a change at
/// any later place, the read request, which is for a polling address, gets no reply, and the write request gets a communication-fault reply
/// or none.
fn is_met_at(exchange: &Exchange, place: usize, byte: u8, faults: u8) -> Result<bool, Fail> {
    let mut chars = chars_of(exchange.request).ok_or("characters")?;
    let character = chars.get_mut(place).ok_or("a place")?;
    *character = Char::new(byte, faults).ok_or("faults")?;
    let delivery = chars.get(..exchange.request.len()).ok_or("too long")?;
    if place < SPARE {
        return leads_to(delivery, exchange.reply, exchange.held);
    }
    if exchange.request.len() == MOST
        && let Some(reply) = reply_to_change(place, byte, faults)
    {
        return leads_to(delivery, &reply, UNCHANGED);
    }
    leads_to(delivery, &[], UNCHANGED)
}

/// Whether a device that hears the first `len` characters of a request sends this reply, and whether its image then has `held`.
fn lead_to(request: &[u8], len: usize, reply: &[u8], held: Held) -> Result<bool, Fail> {
    let chars = chars_of(request).ok_or("characters")?;
    leads_to(chars.get(..len).ok_or("too long")?, reply, held)
}

/// Whether the device is silent to a request that ends before a place.
fn is_silent_before(exchange: &Exchange, place: usize) -> Result<bool, Fail> {
    lead_to(exchange.request, place, &[], UNCHANGED)
}

/// Whether a whole request gets its reply.
fn is_met_whole(exchange: &Exchange) -> Result<bool, Fail> {
    let len = exchange.request.len();
    lead_to(exchange.request, len, exchange.reply, exchange.held)
}

/// Whether `is_met_at` is true of a request for each other byte at a place.
fn is_met_with_other_bytes(exchange: &Exchange, place: usize, byte: u8) -> Result<bool, Fail> {
    let mut met = true;
    for change in 1..=255u8 {
        met &= is_met_at(exchange, place, byte ^ change, 0)?;
    }
    Ok(met)
}

/// Whether `is_met_at` is true of a request for each set of fault bits at a place.
fn is_met_with_fault_bits(exchange: &Exchange, place: usize, byte: u8) -> Result<bool, Fail> {
    let mut met = true;
    for faults in FAULT_SETS {
        met &= is_met_at(exchange, place, byte, *faults)?;
    }
    Ok(met)
}

/// Whether a request has the right effect with each damage at a place: the request ends before the place, has another byte there, or has
/// fault bits there.
fn is_met_with_damage(exchange: &Exchange, place: usize, byte: u8) -> Result<bool, Fail> {
    let cut = is_silent_before(exchange, place)?;
    let other = is_met_with_other_bytes(exchange, place, byte)?;
    let faulty = is_met_with_fault_bits(exchange, place, byte)?;
    Ok(cut && other && faulty)
}

/// Fails the test unless `is_met_with_damage` is true at each place of a request.
fn hold_places(rt: &impl Eprint, exchange: &Exchange) -> Result<(), Fail> {
    for (place, byte) in exchange.request.iter().enumerate() {
        let met = is_met_with_damage(exchange, place, *byte);
        hold_ok(rt, met, "place", place)?;
    }
    Ok(())
}

#[test]
fn damage_is_borne_in_the_spare_preamble_alone(rt: HostRuntime) -> Result<(), Fail> {
    for (row, exchange) in EXCHANGES.iter().enumerate() {
        hold_ok(&rt, is_met_whole(exchange), "row", row)?;
        hold_places(&rt, exchange)?;
    }
    Ok(())
}

/// The write request with a wrong check byte.
const BAD_CHECK: &[u8] = &[
    0xFF, 0xFF, 0xFF, 0xFF, 0xFF, 0x82, 0xB7, 0x42, 0x0A, 0x1B, 0x2C, 0x13, 0x03, 0x01, 0x23, 0x45,
    0x3C,
];

/// The message of the reply to `BAD_CHECK`.
const FAULTY: &[u8] = &[
    0xFF, 0xFF, 0xFF, 0xFF, 0xFF, 0x86, 0xB7, 0x42, 0x0A, 0x1B, 0x2C, 0x13, 0x02, 0x88, 0x00, 0xD7,
];

/// Returns the characters of the write request with a wrong check byte.
pub(super) fn garbled_write() -> Option<[Char; MOST]> {
    chars_of(BAD_CHECK)
}

/// The parts of noise: bytes, how often they are repeated, and the fault bits of their characters.
type Noise<'a> = &'a [(&'a [u8], usize, u8)];

/// The body of a request for the identity at polling address 0.
const IDENTIFY: &[u8] = &[0x02, 0x80, 0x00, 0x00, 0x82];

/// A false start, and the first preamble byte of the next start. This FF is also the byte count of the false start: 255 bytes of
/// payload.
const FALSE_START: &[u8] = &[0xFF, 0xFF, 0x82, 0xB7, 0x42, 0x0A, 0x1B, 0x2C, 0x13, 0xFF];

/// The bytes of the longest body before its payload of 255 bytes. The body has expansion bytes and the broadcast address.
const LONGEST: &[u8] = &[
    0xE2, 0x80, 0x00, 0x00, 0x00, 0x00, 0x00, 0x00, 0x00, 0x00, 0xFF,
];

/// Two preamble bytes, and the body of the write request up to the end of its address.
const TO_ADDRESS: &[u8] = &[0xFF, 0xFF, 0x82, 0xB7, 0x42, 0x0A, 0x1B, 0x2C];

/// A write request of the secondary master with a wrong check byte.
const BAD_CHECK_OF_SECONDARY: &[u8] = &[
    0xFF, 0xFF, 0x82, 0x37, 0x42, 0x0A, 0x1B, 0x2C, 0x13, 0x03, 0x0A, 0x0B, 0x0C, 0xD6,
];

/// The message of the reply to `BAD_CHECK_OF_SECONDARY`.
const FAULTY_TO_SECONDARY: &[u8] = &[
    0xFF, 0xFF, 0xFF, 0xFF, 0xFF, 0x86, 0x37, 0x42, 0x0A, 0x1B, 0x2C, 0x13, 0x02, 0x88, 0x00, 0x57,
];

/// The message of the reply to the write request, if the request is heard with a vertical parity fault at a data byte.
const VERTICAL: &[u8] = &[
    0xFF, 0xFF, 0xFF, 0xFF, 0xFF, 0x86, 0xB7, 0x42, 0x0A, 0x1B, 0x2C, 0x13, 0x02, 0xC0, 0x00, 0x9F,
];

/// The message of the reply to the write request, if the request is heard with an overrun at the byte count and with a wrong check byte.
const OVERRUN: &[u8] = &[
    0xFF, 0xFF, 0xFF, 0xFF, 0xFF, 0x86, 0xB7, 0x42, 0x0A, 0x1B, 0x2C, 0x13, 0x02, 0xA8, 0x00, 0xF7,
];

/// What is delivered, and the message of the reply to it, if any.
type Delivered<'a> = (Noise<'a>, &'a [u8]);

/// Noise, and requests after it.
const NOISES: &[Delivered] = &[
    (&[(&[0xFF], 100_000, 0)], &[]),
    (
        &[(&[0xFF], 100_000, 0), (IDENTIFY, 1, 0), (&[0x55], 1, 0)],
        FOUND,
    ),
    (
        &[
            (&[0xFF], 20, 0),
            (LONGEST, 1, 0),
            (&[0x00], 255, 0),
            (&[0x9D], 1, 0),
        ],
        &[],
    ),
    (&[(FALSE_START, 2000, 0)], FAULTY),
    (
        &[
            (FALSE_START, 2000, 0),
            (&[0xFF, 0xFF], 1, 0),
            (IDENTIFY, 1, 0),
        ],
        FOUND,
    ),
];

/// Garbled requests, with fault bits in or after their address or with a wrong check byte. Two are the longest request, with and without
/// its last character.
const GARBLED: &[Delivered] = &[
    (&[(BAD_CHECK, 1, 0)], FAULTY),
    (&[(BAD_CHECK_OF_SECONDARY, 1, 0)], FAULTY_TO_SECONDARY),
    (
        &[
            (TO_ADDRESS, 1, 0),
            (&[0x13, 0x03, 0x01], 1, 0),
            (&[0x23], 1, 0x40),
            (&[0x45, 0x3D], 1, 0),
        ],
        VERTICAL,
    ),
    (
        &[
            (TO_ADDRESS, 1, 0),
            (&[0x13], 1, 0),
            (&[0x03], 1, 0x20),
            (&[0x01, 0x23, 0x45, 0x3C], 1, 0),
        ],
        OVERRUN,
    ),
    (
        &[
            (&[0xFF, 0xFF, 0x82, 0xB7], 1, 0),
            (&[0x42], 1, 0x10),
            (
                &[0x0A, 0x1B, 0x2C, 0x13, 0x03, 0x01, 0x23, 0x45, 0x3D],
                1,
                0,
            ),
        ],
        &[],
    ),
    (
        &[(FALSE_START, 1, 0), (&[0x00], 255, 0), (&[0x01], 1, 0)],
        FAULTY,
    ),
    (&[(FALSE_START, 1, 0), (&[0x00], 255, 0)], &[]),
];

/// Garbled requests after noise, before noise, after a false start, and beside a whole frame.
const BESIDE: &[Delivered] = &[
    (&[(&[0x55, 0xFF, 0x00], 1, 0), (BAD_CHECK, 1, 0)], FAULTY),
    (&[(BAD_CHECK, 1, 0), (&[0x55], 100, 0)], FAULTY),
    (&[(&[0xFF, 0xFF, 0x00], 1, 0), (BAD_CHECK, 1, 0)], &[]),
    (
        &[(BAD_CHECK, 1, 0), (&[0xFF, 0xFF], 1, 0), (IDENTIFY, 1, 0)],
        FOUND,
    ),
    (
        &[(&[0xFF, 0xFF], 1, 0), (IDENTIFY, 1, 0), (BAD_CHECK, 1, 0)],
        FOUND,
    ),
];

/// Appends the characters of these bytes, each with these fault bits.
fn push_part(chars: &mut Vec<Char>, bytes: &[u8], faults: u8) -> Result<(), Fail> {
    for byte in bytes {
        chars.push(Char::new(*byte, faults).ok_or("faults")?)?;
    }
    Ok(())
}

/// Returns the characters of noise.
fn chars_of_noise(alloc: Global, noise: Noise) -> Result<Vec<Char>, Fail> {
    let mut chars = Vec::new(alloc);
    for (bytes, times, faults) in noise {
        for _ in 0..*times {
            push_part(&mut chars, bytes, *faults)?;
        }
    }
    Ok(chars)
}

/// Whether a new bench device replies to noise with this message, and its image stays unchanged.
fn noise_leads_to(alloc: Global, noise: Noise, reply: &[u8]) -> Result<bool, Fail> {
    let chars = chars_of_noise(alloc, noise)?;
    leads_to(chars.as_slice(), reply, UNCHANGED)
}

/// Fails the test unless each row of a table gets its reply.
fn hold_replies(
    rt: &impl Eprint,
    alloc: Global,
    word: &str,
    rows: &[Delivered],
) -> Result<(), Fail> {
    for (row, (noise, reply)) in rows.iter().enumerate() {
        let met = noise_leads_to(alloc, noise, reply);
        hold_ok(rt, met, word, row)?;
    }
    Ok(())
}

#[test]
fn noise_hides_no_request(rt: HostRuntime) -> Result<(), Fail> {
    hold_replies(&rt, rt.alloc(), "row", NOISES)?;
    hold_replies(&rt, rt.alloc(), "garbled row", GARBLED)?;
    hold_replies(&rt, rt.alloc(), "row beside others", BESIDE)?;
    Ok(())
}
