//! `hart answer`: what the bench device answers to one delivery.
ghost use Rattle.std.specs.Prelude.{◌≡◌, ◌<◌, ℕ, IfErr, IfOk, List, length};
ghost use Rattle.std.specs.Option.{option_map};
ghost use Rattle.hart_device.specs.Device.{DeviceState};
ghost use Rattle.hart_cli.specs.Answer.{AnswerOutcome, IsAnswer, IsTextFor};
ghost use Rattle.hart_cli.specs.input.InputChars.{IsWholeTextFault};
ghost use Rattle.hart_cli.specs.input.WholeInput.{WholeOutcome};

use crate::fault::CliFault;
use crate::image_word::device_of;
use crate::input::input_chars::read_chars;
use crate::input::read_whole;
use crate::output::write_all;
use crate::stream::{Sink, Source};
use hart_device::{Device, ImageRegisters, bench};
use hart_frame::Char;
use hart_line::Filling;
use hart_station::lines::{HexLine, message_line};
use std::alloc::Global;

/// Reads a delivery as hex items, and writes the bench device's answer as one line of hex, or nothing if the device is silent. If the
/// caller gives an image, as a word of hex, the device starts from that image.
///
/// # Errors
///
/// The faults of the image come first: [`CliFault::BadHex`], then [`CliFault::Image`]. If the image has a fault, nothing is read. Then come
/// [`CliFault::Read`] and [`CliFault::TooLong`], then [`CliFault::BadHex`] of the input, and then [`CliFault::Write`]. The fault is
/// [`CliFault::Memory`] if memory for the image, the input or its characters is refused. At `Write` a prefix of the line is written, but
/// not all of it. At any other fault nothing is written.
pub fn answer<R: Source, W: Sink>(
    alloc: Global,
    image: Option<&str>,
    reader: &mut R,
    writer: &mut W,
) -> Result<(), CliFault>
    ensures { AnswerOutcome (option_map (λ word. word.now) image.entry)
        (R.stream reader.old) (R.stream reader.new)
        (W.stream writer.old) (W.stream writer.new)
        result }
{
    let device = device_of(alloc, image)?;
    answer_of(alloc, device, reader, writer)
}

/// A device has at most one answer to an input. So the image of the call and the input determine what `answer` writes.
pub fn one_answer()
    ensures { (device : DeviceState) (input xs ys : List ℕ)
        → IsAnswer device input xs → IsAnswer device input ys → xs ≡ ys }
{}

/// Reads a delivery, and writes the device's answer to this delivery.
fn answer_of<R: Source, W: Sink>(
    alloc: Global,
    device: Device<ImageRegisters>,
    reader: &mut R,
    writer: &mut W,
) -> Result<(), CliFault>
    ensures { WholeOutcome (IsAnswer device) IsWholeTextFault
        (R.stream reader.old) (R.stream reader.new)
        (W.stream writer.old) (W.stream writer.new)
        result }
{
    let input = read_whole(alloc, reader)?;
    let line = answer_text(alloc, device, input)?;
    write_all(writer, line.as_slice())?;
    Ok(())
}

/// Returns the line with a device's answer to an input, or no text if the device is silent.
///
/// # Errors
///
/// The fault of the input, or [`CliFault::Memory`] if memory for its characters is refused.
fn answer_text(
    alloc: Global,
    mut device: Device<ImageRegisters>,
    input: Filling<u8>,
) -> Result<HexLine, CliFault>
    requires spare { length input.items < input.room }
    ensures text { IfOk result (IsAnswer device input.items) }
    ensures fault { IfErr result (IsWholeTextFault input.items) }
{
    let delivery = read_chars(alloc, input)?;
    Ok(answer_line(&mut device, delivery.as_slice()))
}

/// Returns the line with a device's answer to a delivery, or no text if the device is silent.
fn answer_line(device: &mut Device<ImageRegisters>, delivery: &[Char]) -> HexLine
    ensures { IsTextFor device.old delivery.now result }
{
    let preambles = device.response_preambles();
    match device.hear(delivery, &bench::process()) {
        Some(reply) => message_line(&reply, preambles),
        None => HexLine::new(),
    }
}
