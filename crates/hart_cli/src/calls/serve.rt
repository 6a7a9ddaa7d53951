//! `hart serve`: a device that answers many deliveries. It writes one line for each line that it reads.
ghost use Rattle.std.specs.Prelude.{◌≡◌, [], ℕ, List};
ghost use Rattle.std.specs.Option.{option_map};
ghost use Rattle.hart_device.specs.Device.{DeviceState};
ghost use Rattle.hart_station.specs.DeviceLines.{ServesLine};
ghost use Rattle.hart_cli.specs.Serve.{ServeOutcome};
ghost use Rattle.hart_cli.specs.session.Session.{IsServed, ServedOutcome};
ghost use Rattle.hart_cli.specs.input.Input.{Ending};

use crate::fault::CliFault;
use crate::image_word::device_of;
use crate::session::serve_lines;
use crate::stream::{Sink, Source};
use hart_device::{Device, ImageRegisters};
use hart_station::DeviceLines;
use std::alloc::Global;

/// Reads lines until the input ends, and writes the answer to each line.
///
/// If a write fails, the answers to all lines that ended before the last 16,384 bytes read have been written. The contract says no more
/// about when an answer is written. Tests show that, before each read, the answers to all whole lines read so far are written.
///
/// The bench device hears all items of a line at once. The line written for them is the reply in hex, or `-` for silence. `restart`,
/// `protect on` and `protect off` give `ok`, `image` gives the image of the device, and `counter` its counter. Any other line, or a line of
/// more than 1,048,576 bytes, gives `bad line:` and the reason, and changes nothing. If the caller gives an image, as a word of hex, the
/// device starts from that image. All memory is allocated before the first line is read. Words must be spelled exactly as here: programs
/// write the lines, so no other spellings are needed. No line sets an image; to go on from an image, start another process with it.
///
/// # Errors
///
/// [`CliFault::BadHex`] and [`CliFault::Image`] if the image has a fault, and [`CliFault::Memory`] if memory for the image or for a line is
/// refused; then nothing is read. [`CliFault::Read`] if a read fails, and [`CliFault::TooLong`] if the input has more than 2^64 - 1 bytes;
/// then the answers to all whole lines before the fault are written. [`CliFault::Write`] if a write fails; then only a prefix of the
/// answers to the lines read so far is written.
pub fn serve<R: Source, W: Sink>(
    alloc: Global,
    image: Option<&str>,
    reader: &mut R,
    writer: &mut W,
) -> Result<(), CliFault>
    ensures { ServeOutcome (option_map (λ word. word.now) image.entry)
        (R.stream reader.old) (R.stream reader.new)
        (W.stream writer.old) (W.stream writer.new)
        result }
{
    let device = device_of(alloc, image)?;
    serve_with(alloc, device, reader, writer)
}

/// The text of a device's answers to the lines of an input is unique. So the image and the input determine what `serve` writes.
pub fn one_service()
    ensures { (device : DeviceState) (input : List ℕ) (ending : Ending) (xs ys : List ℕ)
        → IsServed ServesLine device input ending xs → IsServed ServesLine device input ending ys → xs ≡ ys }
{}

/// Reads the lines of an input, and writes the device's answer to each.
fn serve_with<R: Source, W: Sink>(
    alloc: Global,
    device: Device<ImageRegisters>,
    reader: &mut R,
    writer: &mut W,
) -> Result<(), CliFault>
    ensures { ServedOutcome ServesLine device
        (R.stream reader.old) (R.stream reader.new)
        (W.stream writer.old) (W.stream writer.new)
        result }
{
    let lines = DeviceLines::new(alloc, device)?;
    serve_lines(alloc, lines, reader, writer)
}
