//! The image of a device: the bytes that are kept of the device while it is stopped (implementation choice).
ghost use Rattle.std.specs.Prelude.{◌≡◌, ◌<◌, ◌^◌, ◌↔◌, ◌⊎◌, [], ◌∷◌, ◌++◌, false, IsOk, IfOk, IfErr, IfSome, IfNone, length, slice_index};
ghost use Rattle.hart_commands.specs.Registers.{AreValid};
ghost use Rattle.hart_device.specs.Identity.{two_bytes};
ghost use Rattle.hart_device.specs.Registers.{HoldsInvalid, contents_in, values_of};
ghost use Rattle.hart_device.specs.Image.{IsImage, IsImageOf, IsImageFault, flags_of, image_of};
ghost use Rattle.hart_device.specs.Device.{for_both};
ghost use Rattle.hart_device.specs.Image.{state_with};
ghost use Rattle.hart_device.specs.declared.identity_parts.IdentityParts.{IdentityParts};

use crate::image::flags::Flags;
use crate::registers::image_registers::ImageRegisters;
use crate::registers::ranges::ARRAY_LEN;
use crate::{Device, DeviceFault, Identity, RegisterStore, RegisterValues};
use hart_commands::Register;
use hart_values::{ByteList, EachMaster, MasterId};

mod flags;

/// An image: 86 bytes in version 2, and 54 in version 1, which has no long tag.
pub type Image = ByteList<86>;

/// The version that has every register except the long tag.
const VERSION_1: u8 = 1;

/// The version that has every register.
const VERSION_2: u8 = 2;

/// The number of bytes of the registers in an image of version 1.
const ARRAY_LEN_OF_VERSION_1: usize = 50;

/// The number of bytes at the end of an image: two for the counter and one for the flags.
const ENDING_LEN: usize = 3;

/// What an image holds.
#[derive(Clone, Copy)]
pub(crate) struct ImageParts {
    /// The values of the registers.
    pub values: RegisterValues,
    /// The configuration change counter.
    pub counter: u16,
    /// The configuration-changed bits, and whether the device is write protected.
    pub flags: Flags,
}

impl<S: RegisterStore> Device<S> {
    /// Returns the image of the device, in version 2: all that the device holds except its identity and its cold start bits.
    /// [`Device::from_image`] reads this image, and [`Device::restore_cold_start`] restores the cold start bits.
    pub fn image(&self) -> Image
        ensures written { result ≡ image_of self.now }
        ensures image { IsImageOf self.now result }
        ensures len { length result ≡ 86 }
    {
        let registers = self.registers();
        let counter = self.counter();
        let mut image = Image::new();
        image.push(VERSION_2);
        for register in Register::ALL {
            image.extend_from_slice(registers.get(register));
        }
        image.extend_from_slice(&counter.to_be_bytes());
        let flags = Flags {
            changed: EachMaster {
                primary: self.changed(MasterId::Primary),
                secondary: self.changed(MasterId::Secondary),
            },
            protected: self.is_protected(),
        };
        image.push(flags.byte());
        image
    }

    /// Makes a device with this identity from an image of version 1 or 2, with clear cold start bits. An image of version 1 has no
    /// long tag. The long tag of the device is then the text of its tag, followed by 24 spaces.
    ///
    /// # Errors
    ///
    /// The first of these that applies:
    ///
    /// - [`DeviceFault::BadLength`] if there are no bytes;
    /// - [`DeviceFault::BadVersion`] for a version other than 1 and 2;
    /// - [`DeviceFault::BadLength`] if images of that version have another length;
    /// - [`DeviceFault::BadField`] for a polling address above 63, a loop current mode above 1, an invalid date, or flags above 7.
    pub fn from_image(identity: Identity, image: &[u8]) -> Result<Self, DeviceFault>
        ensures accepted { IsOk result ↔ IsImage image.now }
        ensures kept { IfOk result (λ device. (device.identity ≡ identity) × IsImageOf device image.now) }
        ensures no_cold_start { IfOk result (λ device. device.cold_start ≡ for_both false) }
        ensures refused { IfErr result (IsImageFault image.now) }
    {
        let parts = read_image(image)?;
        Ok(Device::restored(
            identity,
            &parts.values,
            parts.counter,
            parts.flags.changed,
            parts.flags.protected,
        ))
    }
}

/// Reads an image of version 1 or 2, with the errors of [`Device::from_image`].
fn read_image(image: &[u8]) -> Result<ImageParts, DeviceFault>
    ensures kept { IfOk result (λ parts. (identity : IdentityParts) → IsImageOf (state_with identity parts) image.now) }
    ensures refused { IfErr result (IsImageFault image.now) }
{
    let (version, rest) = image.split_first().ok_or(DeviceFault::BadLength)?;
    match *version {
        VERSION_1 => read_version_1(rest),
        VERSION_2 => read_version_2(rest),
        _ => Err(DeviceFault::BadVersion),
    }
}

/// Reads an image of version 1 from its bytes after the version.
fn read_version_1(rest: &[u8]) -> Result<ImageParts, DeviceFault>
    ensures kept { IfOk result (λ parts. (identity : IdentityParts) → IsImageOf (state_with identity parts) (1 ∷ rest.now)) }
    ensures refused { IfErr result (IsImageFault (1 ∷ rest.now)) }
{
    if rest.len() != ARRAY_LEN_OF_VERSION_1 + ENDING_LEN {
        return Err(DeviceFault::BadLength);
    }
    let (array, ending) = rest.split_at(ARRAY_LEN_OF_VERSION_1);
    let mut bytes = [0; ARRAY_LEN];
    bytes[..ARRAY_LEN_OF_VERSION_1].copy_from_slice(array);
    let mut registers = ImageRegisters { bytes };
    registers.set_long_tag();
    read_parts(&registers, ending).ok_or(DeviceFault::BadField)
}

/// Reads an image of version 2 from its bytes after the version.
fn read_version_2(rest: &[u8]) -> Result<ImageParts, DeviceFault>
    ensures kept { IfOk result (λ parts. (identity : IdentityParts) → IsImageOf (state_with identity parts) (2 ∷ rest.now)) }
    ensures refused { IfErr result (IsImageFault (2 ∷ rest.now)) }
{
    if rest.len() != ARRAY_LEN + ENDING_LEN {
        return Err(DeviceFault::BadLength);
    }
    let (array, ending) = rest.split_at(ARRAY_LEN);
    let mut bytes = [0; ARRAY_LEN];
    bytes.copy_from_slice(array);
    read_parts(&ImageRegisters { bytes }, ending).ok_or(DeviceFault::BadField)
}

/// Reads the registers and the last bytes of an image, or returns `None` if a field is bad.
fn read_parts(registers: &ImageRegisters, ending: &[u8]) -> Option<ImageParts>
    requires { length ending.now ≡ 3 }
    ensures registers { IfSome result (λ parts. values_of parts.values ≡ contents_in «registers».now.bytes) }
    ensures valid { IfSome result (λ parts. AreValid (values_of parts.values) × (parts.counter < 2 ^ 16)) }
    ensures ending { IfSome result (λ parts.
        two_bytes parts.counter ++ flags_of parts.flags.changed parts.flags.protected ∷ [] ≡ ending.now) }
    ensures refused { IfNone result (HoldsInvalid «registers».now.bytes ⊎ (7 < slice_index ending.now 2)) }
{
    let values = registers.values()?;
    let flags = Flags::from_byte(ending[2])?;
    Some(ImageParts {
        values,
        counter: u16::from_be_bytes([ending[0], ending[1]]),
        flags,
    })
}
