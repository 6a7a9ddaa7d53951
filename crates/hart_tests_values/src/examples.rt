//! The examples in doc comments. `tools/doc_examples.py` checks that these lines are the same as the lines of the doc comments.
use hart_text::{Digits, next_piece};
use hart_values::{Address, MasterId, PackedText};
use std::test::Fail;

#[test]
fn texts_have_pieces(rt: HostRuntime) -> Result<(), Fail> {
    let lead = next_piece(&Digits::new(), b"82!40 FF").ok_or("no piece")?;
    let char = lead.char.ok_or("no item")?;
    assert!(rt; (char.byte(), char.faults(), lead.len) == (0x82, 0x40, 5));
    Ok(())
}

#[test]
fn values_have_bytes(rt: HostRuntime) -> Result<(), Fail> {
    let address = Address::unique(0x3742, 0x0A1B2C)?;
    let bytes = address.bytes(MasterId::Primary, false);
    assert_eq!(rt; bytes.as_slice(), [0xB7, 0x42, 0x0A, 0x1B, 0x2C].as_slice());

    let tag = PackedText::<6>::from_text("PUMP-101".as_bytes())?;
    assert_eq!(rt;
        tag.as_bytes(),
        [0x41, 0x53, 0x50, 0xB7, 0x1C, 0x31].as_slice()
    );
    Ok(())
}
