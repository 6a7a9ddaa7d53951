//! The examples in doc comments. `tools/doc_examples.py` checks that these lines are the same as the lines of the doc comments.
use hart_device::{Device, FieldRegisters, bench};
use hart_line::{Outcome, read_script, run};
use hart_master::Master;
use hart_values::MasterId;
use std::test::Fail;

#[test]
fn a_script_is_run(rt: HostRuntime) -> Result<(), Fail> {
    let events = read_script(rt.alloc(), b"submit P @0 0\nturn P ok lost\n")?;
    let device: Device<FieldRegisters> = Device::new(bench::identity(), &bench::register_values());
    let primary = Master::new(MasterId::Primary, 3, 33)?;
    let secondary = Master::new(MasterId::Secondary, 3, 41)?;
    let report = run(
        rt.alloc(),
        device,
        primary,
        secondary,
        events.as_slice(),
        &bench::process(),
    )?;
    let outcome = report.outcomes.as_slice().first().ok_or("no outcome")?;
    assert_eq!(rt; *outcome, Outcome::Unfinished { sendings: 1 });
    Ok(())
}
