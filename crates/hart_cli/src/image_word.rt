//! The device of a call, and the image from which the device starts, as a word of hex.
ghost use Rattle.std.specs.Prelude.{◌≡◌, ℕ, List, Option, Some, IfErr, IfOk, replicate};
ghost use Rattle.std.specs.Option.{option_map};
ghost use Rattle.hart_device.specs.Device.{DeviceState};
ghost use Rattle.hart_cli.specs.ImageWord.{HasImageFault, HasNoDevice, IsDeviceOf, IsImageWord};
ghost use Rattle.hart_cli.specs.declared.fault.CliFault.{CliFault};

use crate::fault::CliFault;
use hart_device::laws::{bytes_have_one_image_fault, images_have_one_state};
use hart_device::{Device, ImageRegisters, bench};
use hart_line::{NoRoom, reserved};
use hex::FromHexError;
use std::alloc::Global;
use std::marker::Model;

/// The image of a call as a word of hex, if the call was given an image. A call checks the word before it reads anything.
#[derive(Drop)]
pub struct ImageWord<'a> {
    /// The image in hex, two digits for each byte, or `None` if the call was given no image.
    pub word: Option<&'a str>,
}

impl<'a> Model for ImageWord<'a> {
    ghost use Rattle.std.specs.Prelude.{List, Option, ℕ};
    ghost use Rattle.std.specs.Option.{option_map};

    ghost Value = { Option (List ℕ) };

    ghost view = { λ image. option_map (λ word. word.now) image.word };
}

/// Returns the bench device. Without an image, the device is new. With an image, the device has the state of the image, and its cold start
/// bits are clear.
///
/// # Errors
///
/// [`CliFault::BadHex`] at the word's length if that length is odd, and otherwise at the first byte that is no hex digit.
/// [`CliFault::Image`] if the word is good hex, but no device can start from the image. [`CliFault::Memory`] if memory for the bytes of the
/// image is refused.
pub fn device_of(alloc: Global, image: Option<&str>) -> Result<Device<ImageRegisters>, CliFault>
    ensures device { IfOk result (IsDeviceOf (option_map (λ word. word.now) image.entry)) }
    ensures fault { IfErr result (HasNoDevice (option_map (λ word. word.now) image.entry)) }
{
    let Some(word) = image else {
        return Ok(Device::new(bench::identity(), &bench::register_values()));
    };
    device_from(alloc, word.as_bytes())
}

/// Returns the bench device in the state of the image that a word encodes, or the reason why there is no such device.
fn device_from(alloc: Global, word: &[u8]) -> Result<Device<ImageRegisters>, CliFault>
    ensures device { IfOk result (IsDeviceOf (Some word.now)) }
    ensures fault { IfErr result (HasNoDevice (Some word.now)) }
{
    let bytes = decoded(alloc, word)?;
    let device = Device::from_image(bench::identity(), bytes.as_slice())?;
    Ok(device)
}

/// Returns the bytes that a word encodes in hex, or the reason why there are no such bytes.
fn decoded(alloc: Global, word: &[u8]) -> Result<Vec<u8>, CliFault>
    ensures bytes { IfOk result (λ bytes. IsImageWord word.now bytes.items) }
    ensures fault { IfErr result (HasNoDevice (Some word.now)) }
{
    let mut bytes = zeros(alloc, word.len() / 2)?;
    match hex::decode_to_slice(word, bytes.as_mut_slice()) {
        Ok(()) => Ok(bytes),
        Err(FromHexError::InvalidHexCharacter { index, .. }) => {
            Err(CliFault::BadHex { place: index })
        }
        Err(FromHexError::OddLength) => Err(CliFault::BadHex { place: word.len() }),
        // There is room for all bytes that the word can encode.
        Err(FromHexError::InvalidStringLength) => unreachable!(),
        Err(FromHexError::OutOfMemory) => unreachable!(),
    }
}

/// Returns `count` zero bytes.
fn zeros(alloc: Global, count: usize) -> Result<Vec<u8>, NoRoom>
    ensures zeros { IfOk result (λ bytes. bytes.items ≡ replicate count 0) }
    ensures refused { IfErr result (λ none. none.items ≡ count) }
{
    let mut bytes = reserved(alloc, count)?;
    let _there_is_room = bytes.resize(count, 0);
    Ok(bytes)
}

/// A call has at most one device, and its image has at most one fault. A call whose image has a fault has no device.
pub fn one_device()
    ensures one { (image : Option (List ℕ)) (device other : DeviceState)
        → IsDeviceOf image device → IsDeviceOf image other → device ≡ other }
    ensures one_fault { (image : Option (List ℕ)) (fault other : CliFault)
        → HasImageFault image fault → HasImageFault image other → fault ≡ other }
    ensures no_fault { (image : Option (List ℕ)) (device : DeviceState) (fault : CliFault)
        → IsDeviceOf image device → HasImageFault image fault → ⊥ }
{
    // No-ops, called for their contracts.
    images_have_one_state();
    bytes_have_one_image_fault();
}
