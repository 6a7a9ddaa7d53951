//! `hart sim`: a script, carried out on a line with the bench device and two masters.
ghost use Rattle.std.specs.Prelude.{◌≡◌, ℕ, List, IfErr, IfOk};
ghost use Rattle.std.specs.Option.{option_map};
ghost use Rattle.hart_device.specs.Device.{DeviceState};
ghost use Rattle.hart_line.specs.declared.fault.LineFault.{LineFault};
ghost use Rattle.hart_cli.specs.sim.Sim.{HasLineFault, IsSimulation, IsSimulationFault, SimOutcome};
ghost use Rattle.hart_cli.specs.input.WholeInput.{WholeOutcome};

use crate::calls::sim::text::SimText;
use crate::fault::CliFault;
use crate::image_word::device_of;
use crate::input::read_whole;
use crate::output::write_all;
use crate::stream::{Sink, Source};
use hart_device::{Device, ImageRegisters, bench};
use hart_line::{read_script, run_logged};
use hart_master::Master;
use hart_values::MasterId;
use std::alloc::Global;

mod text;

/// The retry limit of a master.
const RETRIES: u8 = 3;

/// The reply timeout of the primary master, in character times.
pub const PRIMARY_REPLY_LIMIT: u8 = 33;

/// The reply timeout of the secondary master, in character times.
pub const SECONDARY_REPLY_LIMIT: u8 = 41;

/// Reads a script, and carries it out with the bench device and two masters. Writes what was spoken, the outcome of each submission, and
/// what the device holds at the end. If the caller gives an image, as a word of hex, the device starts from that image.
///
/// # Errors
///
/// The faults of the image come first: [`CliFault::BadHex`], then [`CliFault::Image`]. If the image has a fault, nothing is read. Then come
/// [`CliFault::Read`] and [`CliFault::TooLong`]. Then comes [`CliFault::Line`] with the first bad line or, if no line is bad, with the
/// first leg whose damage is undetected. [`CliFault::Write`] comes last. At the first allocation that is refused, the call ends with
/// [`CliFault::Memory`] and does not look at what is left of the script. At `Write` a prefix of the text is written, but not all of it. At
/// any other fault nothing is written.
pub fn simulate<R: Source, W: Sink>(
    alloc: Global,
    image: Option<&str>,
    reader: &mut R,
    writer: &mut W,
) -> Result<(), CliFault>
    ensures { SimOutcome (option_map (λ word. word.now) image.entry)
        (R.stream reader.old) (R.stream reader.new)
        (W.stream writer.old) (W.stream writer.new)
        result }
{
    let device = device_of(alloc, image)?;
    simulate_with(alloc, device, reader, writer)
}

/// With a given device, an input has at most one text and at most one fault, but never both. So the image of the call and the input
/// determine the text that `simulate` writes, or the script's fault that it returns.
pub fn one_simulation()
    ensures one_text { (device : DeviceState) (input xs ys : List ℕ)
        → IsSimulation device input xs → IsSimulation device input ys → xs ≡ ys }
    ensures one_fault { (device : DeviceState) (input : List ℕ) (fault other : LineFault)
        → HasLineFault device input fault → HasLineFault device input other → fault ≡ other }
    ensures no_fault { (device : DeviceState) (input text : List ℕ) (fault : LineFault)
        → IsSimulation device input text → HasLineFault device input fault → ⊥ }
{}

/// Reads a script, carries it out with a device, and writes its text.
fn simulate_with<R: Source, W: Sink>(
    alloc: Global,
    device: Device<ImageRegisters>,
    reader: &mut R,
    writer: &mut W,
) -> Result<(), CliFault>
    ensures { WholeOutcome (IsSimulation device) (IsSimulationFault device)
        (R.stream reader.old) (R.stream reader.new)
        (W.stream writer.old) (W.stream writer.new)
        result }
{
    let input = read_whole(alloc, reader)?;
    let text = simulation(alloc, device, input.as_slice())?;
    write_all(writer, text.as_slice())?;
    Ok(())
}

/// Carries out the script of an input with this device, and returns its text.
///
/// # Errors
///
/// The fault of the input, or [`CliFault::Memory`] if memory is refused.
fn simulation(
    alloc: Global,
    device: Device<ImageRegisters>,
    input: &[u8],
) -> Result<Vec<u8>, CliFault>
    ensures text { IfOk result (λ text. IsSimulation device input.now text.items) }
    ensures fault { IfErr result (IsSimulationFault device input.now) }
{
    let events = read_script(alloc, input)?;
    let primary = Master::new(MasterId::Primary, RETRIES, PRIMARY_REPLY_LIMIT).unwrap();
    let secondary = Master::new(MasterId::Secondary, RETRIES, SECONDARY_REPLY_LIMIT).unwrap();
    let mut text = SimText::new(alloc);
    let ending = run_logged(
        alloc,
        device,
        primary,
        secondary,
        events.as_slice(),
        &bench::process(),
        &mut text,
    )?;
    text.push_outcomes(ending.outcomes.as_slice())?;
    Ok(text.finish(&ending.device)?)
}
