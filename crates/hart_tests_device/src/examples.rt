//! The examples in doc comments. `tools/doc_examples.py` checks that these lines are the same as the lines of the doc comments.
//!
//! The values that an example uses without defining them are defined above it.
use crate::chars::chars_of_items;
use hart_commands::Request;
use hart_device::{Device, FieldRegisters, bench};
use hart_frame::Frame;
use hart_master::{Master, MasterEvent};
use hart_values::{Address, MasterId, Payload};
use std::test::Fail;

#[test]
fn a_device_receives(rt: HostRuntime) -> Result<(), Fail> {
    let mut device: Device<FieldRegisters> = Device::new(
        bench::identity(),
        &bench::register_values(),
    );
    let own = Address::Unique(bench::identity().unique_address());
    let request = Frame::request(MasterId::Primary, own, 7, Payload::new());
    let reply = device
        .receive(&request, &bench::process())
        .ok_or("silence")?;
    assert_eq!(rt; reply.payload(), [0, 0, 0, 1].as_slice());
    Ok(())
}

#[test]
fn a_device_hears(rt: HostRuntime) -> Result<(), Fail> {
    let heard = chars_of_items(rt.alloc(), "FF FF 02 80 00 00 82")?;
    let delivery = heard.as_slice();
    let mut device: Device<FieldRegisters> = Device::new(
        bench::identity(),
        &bench::register_values(),
    );
    // FF FF 02 80 00 00 82 was heard: Command 0 at polling address 0.
    let reply = device.hear(delivery, &bench::process()).ok_or("silence")?;
    assert_eq!(rt; (reply.command(), reply.payload().len()), (0, 24));
    Ok(())
}

#[test]
fn a_master_sends_again(rt: HostRuntime) -> Result<(), Fail> {
    let mut master = Master::new(MasterId::Primary, 1, 33)?;
    master.submit(Address::polling(0)?, Request::Identify)?;
    assert!(rt; master.send().is_some());
    assert_eq!(rt; master.tick(33), MasterEvent::Retry);
    assert!(rt; master.send().is_some());
    assert_eq!(rt; master.tick(33), MasterEvent::NoReply(2));
    Ok(())
}
