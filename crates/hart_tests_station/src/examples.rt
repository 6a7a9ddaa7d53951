//! The examples in doc comments. `tools/doc_examples.py` checks that the lines here are the same as in the doc comments.
use hart_device::{Device, bench};
use hart_request::payload_of;
use hart_station::{DeviceLines, Station};
use std::test::Fail;

#[test]
fn payload_of_makes_data(rt: HostRuntime) -> Result<(), Fail> {
    let data = payload_of(6, &["polling_address=5", "loop_current_mode=1"])?;
    assert_eq!(rt; data.as_slice(), [5, 1].as_slice());
    Ok(())
}

#[test]
fn device_lines_answer(rt: HostRuntime) -> Result<(), Fail> {
    let device = Device::new(bench::identity(), &bench::register_values());
    let mut station = DeviceLines::new(rt.alloc(), device)?;
    // A station reads a line and one more space.
    let said = station.answer(b"counter ".as_slice());
    assert_eq!(rt; said.as_slice(), b"counter 0\n".as_slice());
    Ok(())
}
