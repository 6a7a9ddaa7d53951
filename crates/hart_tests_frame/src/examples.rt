//! The examples in doc comments. `tools/doc_examples.py` checks that these lines are the same as the lines of the doc comments.
//!
//! The values that an example uses without defining them are defined above it.
use crate::frame::stream::heard;
use hart_frame::*;
use hart_values::{Address, MasterId, Payload};
use std::test::Fail;

/// A message after another byte.
const HEARD: &[u16] = &[0x55, 0xFF, 0xFF, 0x02, 0x80, 0x00, 0x00, 0x82];

/// A message with a wrong check byte.
const BAD_CHECK: &[u16] = &[0xFF, 0xFF, 0x02, 0x80, 0x00, 0x00, 0x83];

#[test]
fn decode_reads_a_body(rt: HostRuntime) -> Result<(), Fail> {
    let (frame, len) = decode(&[0x02, 0x80, 0x00, 0x00, 0x82])?;
    assert_eq!(rt; (frame.command(), len), (0, 5));
    Ok(())
}

#[test]
fn encode_writes_a_message(rt: HostRuntime) -> Result<(), Fail> {
    let identify = Frame::request(MasterId::Primary, Address::polling(0)?, 0, Payload::new());
    let mut message = Message::new();
    encode(&identify, 5, &mut message)?;
    assert_eq!(rt;
        &message.as_slice()[5..],
        [0x02, 0x80, 0x00, 0x00, 0x82].as_slice()
    );
    Ok(())
}

#[test]
fn first_frame_finds_a_frame(rt: HostRuntime) -> Result<(), Fail> {
    let heard = heard(rt.alloc(), &[(HEARD, 1)])?;
    let chars = heard.as_slice();
    // 55 FF FF 02 80 00 00 82 was heard.
    let found = first_frame(chars, 0).ok_or("no frame")?;
    assert_eq!(rt; (found.start, found.stop), (3, 8));
    assert!(rt; first_frame(chars, 8).is_none());
    Ok(())
}

#[test]
fn why_none_names_the_check_byte(rt: HostRuntime) -> Result<(), Fail> {
    let heard = heard(rt.alloc(), &[(BAD_CHECK, 1)])?;
    let chars = heard.as_slice();
    // FF FF 02 80 00 00 83 was heard.
    let wanted = Miss::BadCheck {
        place: 6,
        byte: 0x83,
        fits: 0x82,
    };
    assert_eq!(rt; why_none(chars, 2), Some(wanted));
    Ok(())
}

#[test]
fn next_in_bytes_lends_frames(rt: HostRuntime) -> Result<(), Fail> {
    let bytes = [0x55, 0xFF, 0xFF, 0x02, 0x80, 0x00, 0x00, 0x82];
    let next = next_in_bytes(&bytes, 0, true);
    let found = next.frame.ok_or("no frame")?;
    assert_eq!(rt; (found.start, found.stop, next.used), (3, 8, 8));
    Ok(())
}

#[test]
fn a_scanner_lends_frames(rt: HostRuntime) -> Result<(), Fail> {
    let mut scanner = Scanner::new();
    let used = scanner.push_bytes(&[0xFF, 0xFF, 0x02, 0x80, 0x00, 0x00, 0x82]);
    let view = scanner.take().ok_or("no frame")?;
    assert_eq!(rt; (used, view.start, view.stop), (7, 2, 7));
    Ok(())
}
