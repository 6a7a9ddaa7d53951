//! The examples in doc comments. `tools/doc_examples.py` checks that the lines here are the same as in the doc comments.
use hart_cli::{Plain, dump};
use std::test::Fail;

#[test]
fn dump_writes_a_line(rt: HostRuntime) -> Result<(), Fail> {
    let mut reader = Plain::new(b"FF FF 02 80 00 00 82".as_slice());
    let mut writer = Plain::new(Vec::new(rt.alloc()));
    dump(rt.alloc(), &mut reader, &mut writer)?;
    assert_eq!(rt;
        writer.into_inner().as_slice(),
        b"2 7 STX P 0 @0 - 0 -\n".as_slice()
    );
    Ok(())
}
