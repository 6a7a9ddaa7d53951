//! The examples in doc comments. `tools/doc_examples.py` checks that these lines are the same as the lines of the doc comments.
use hart_commands::{Reply, ReplyContent, Request};
use hart_explain::{Pairs, Text, read_request, words};
use hart_values::Payload;
use std::test::Fail;

#[test]
fn requests_are_read(rt: HostRuntime) -> Result<(), Fail> {
    let request = Request::read(19, &[0x01, 0x23, 0x45, 0x67])?;
    assert_eq!(rt; request, Request::WriteAssembly([0x01, 0x23, 0x45]));
    let mut data = Payload::new();
    request.write(&mut data);
    assert_eq!(rt; data.as_slice(), [0x01, 0x23, 0x45].as_slice());
    Ok(())
}

#[test]
fn replies_are_read(rt: HostRuntime) -> Result<(), Fail> {
    let reply = Reply::read(16, &[0x00, 0x40, 0x01, 0x23, 0x45]).ok_or("no reply")?;
    assert_eq!(rt; reply.content, ReplyContent::Assembly([0x01, 0x23, 0x45]));
    Ok(())
}

#[test]
fn readings_are_printed(rt: HostRuntime) -> Result<(), Fail> {
    let data = [0x01, 0x23, 0x45];
    let mut text = Text::new();
    words::push_reading(&mut text, &Pairs::new(), 19, &data, read_request(19, &data));
    let lines = b"    final assembly number: 0x012345\n";
    assert_eq!(rt; text.as_slice(), lines.as_slice());
    Ok(())
}
