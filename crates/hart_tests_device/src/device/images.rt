//! Images of both versions: which images are refused, and what a device does after it starts from an accepted image.
use super::*;

/// An image of version 1 of a new bench device.
const IMAGE_1: [u8; 54] = [
    0x01, 0x00, 0x01, 0x82, 0x08, 0x20, 0x82, 0x08, 0x20, 0x82, 0x08, 0x20, 0x82, 0x08, 0x20, 0x82,
    0x08, 0x20, 0x82, 0x08, 0x20, 0x82, 0x08, 0x20, 0x82, 0x08, 0x20, 0x82, 0x08, 0x20, 0x82, 0x08,
    0x20, 0x82, 0x08, 0x20, 0x82, 0x08, 0x20, 0x82, 0x08, 0x20, 0x82, 0x08, 0x20, 0x00, 0x00, 0x00,
    0x00, 0x00, 0x00, 0x00, 0x00, 0x00,
];

/// The image of a new bench device, which is of version 2.
pub(super) const IMAGE_2: [u8; 86] = [
    0x02, 0x00, 0x01, 0x82, 0x08, 0x20, 0x82, 0x08, 0x20, 0x82, 0x08, 0x20, 0x82, 0x08, 0x20, 0x82,
    0x08, 0x20, 0x82, 0x08, 0x20, 0x82, 0x08, 0x20, 0x82, 0x08, 0x20, 0x82, 0x08, 0x20, 0x82, 0x08,
    0x20, 0x82, 0x08, 0x20, 0x82, 0x08, 0x20, 0x82, 0x08, 0x20, 0x82, 0x08, 0x20, 0x00, 0x00, 0x00,
    0x00, 0x00, 0x00, 0x20, 0x20, 0x20, 0x20, 0x20, 0x20, 0x20, 0x20, 0x20, 0x20, 0x20, 0x20, 0x20,
    0x20, 0x20, 0x20, 0x20, 0x20, 0x20, 0x20, 0x20, 0x20, 0x20, 0x20, 0x20, 0x20, 0x20, 0x20, 0x20,
    0x20, 0x20, 0x20, 0x00, 0x00, 0x00,
];

/// The place in an image of version 2 where the long tag begins.
const LONG_TAG: usize = 51;

/// The place in an image of version 2 where the counter and the flags begin.
pub(super) const ENDING: usize = 83;

/// Returns an image with these bytes from a place on, or the same image if the bytes do not fit there.
pub(super) fn image_with<const N: usize>(image: [u8; N], place: usize, bytes: &[u8]) -> [u8; N] {
    let mut changed = image;
    write_from(&mut changed, place, bytes);
    changed
}

/// Overwrites an image with bytes from a place on, if all of them fit there.
fn write_from(image: &mut [u8], place: usize, bytes: &[u8]) {
    if let Some(rest) = image.get_mut(place..)
        && let Some(part) = rest.get_mut(..bytes.len())
    {
        part.copy_from_slice(bytes);
    }
}

/// Returns the fault with which bytes are refused as an image, or `None` if the bytes are an image.
pub(super) fn image_fault(image: &[u8]) -> Option<DeviceFault> {
    Device::<ImageRegisters>::from_image(bench::identity(), image).err()
}

/// Bytes that make an image bad, the places where they begin in version 1 and in version 2, and the fault.
type BadImage<'a> = (&'a [u8], usize, usize, DeviceFault);

/// Unknown versions, and bad values of the polling address, the loop current mode, the date and the flags.
const BAD_IMAGES: &[BadImage] = &[
    (&[0x00], 0, 0, DeviceFault::BadVersion),
    (&[0x00, 0x40], 0, 0, DeviceFault::BadVersion),
    (&[0x03], 0, 0, DeviceFault::BadVersion),
    (&[0xFF], 0, 0, DeviceFault::BadVersion),
    (&[0x40], 1, 1, DeviceFault::BadField),
    (&[0x02], 2, 2, DeviceFault::BadField),
    (&[0x1D, 0x02, 0x00], 45, 45, DeviceFault::BadField),
    (&[0x08], 53, 85, DeviceFault::BadField),
    (&[0x80], 53, 85, DeviceFault::BadField),
    (&[0xFF], 53, 85, DeviceFault::BadField),
];

/// Bytes that are no image because their version is unknown or their length is wrong for their version, and the fault.
const BAD_LENGTHS: &[(&[u8], DeviceFault)] = &[
    (&[], DeviceFault::BadLength),
    (&[0x00], DeviceFault::BadVersion),
    (&[0x01], DeviceFault::BadLength),
    (&[0x01, 0x40], DeviceFault::BadLength),
    (&[0x01; 53], DeviceFault::BadLength),
    (&[0x01; 55], DeviceFault::BadLength),
    (&[0x01; 86], DeviceFault::BadLength),
    (&[0x02], DeviceFault::BadLength),
    (&[0x02, 0x40], DeviceFault::BadLength),
    (&[0x02; 54], DeviceFault::BadLength),
    (&[0x02; 85], DeviceFault::BadLength),
    (&[0x02; 87], DeviceFault::BadLength),
    (&[0x03], DeviceFault::BadVersion),
    (&[0x03; 54], DeviceFault::BadVersion),
];

/// Whether the good image of each version is accepted, and is refused with the row's fault after the row's bytes are written into it.
fn is_refused(row: &BadImage) -> Result<bool, Fail> {
    let (bytes, first, second, fault) = *row;
    Ok(
        is_refused_with(IMAGE_1, first, bytes, fault)?
            && is_refused_with(IMAGE_2, second, bytes, fault)?,
    )
}

/// Whether an image is accepted, and is refused with this fault after these bytes are written into it from `place` on.
fn is_refused_with<const N: usize>(
    image: [u8; N],
    place: usize,
    bytes: &[u8],
    fault: DeviceFault,
) -> Result<bool, Fail> {
    Ok(
        same(&image_fault(&image), &None)?
            && same(&image_fault(&image_with(image, place, bytes)), &Some(fault))?,
    )
}

#[test]
fn bad_images_are_refused(rt: HostRuntime) -> Result<(), Fail> {
    for (number, row) in BAD_IMAGES.iter().enumerate() {
        hold_ok(&rt, is_refused(row), "row", number)?;
    }
    for (number, (bytes, fault)) in BAD_LENGTHS.iter().enumerate() {
        let got = image_fault(bytes);
        hold_same(&rt, &got, &Some(*fault), "length row", number)?;
    }
    Ok(())
}

/// The last bytes of the image that a device starts from, what the device replies to a write, and the last bytes of its image afterwards.
type GoesOn<'a> = ([u8; 3], &'a [u8], [u8; 3]);

/// Devices that start from an image: without and with write protection, with the greatest counter, and after a write.
const GOES_ON: &[GoesOn] = &[
    (
        [0x00, 0x00, 0x00],
        &[0x00, 0x40, 0x01, 0x23, 0x45],
        [0x00, 0x01, 0x03],
    ),
    ([0x00, 0x00, 0x04], &[0x07, 0x00], [0x00, 0x00, 0x04]),
    (
        [0xFF, 0xFF, 0x00],
        &[0x00, 0x40, 0x01, 0x23, 0x45],
        [0x00, 0x00, 0x03],
    ),
    (
        [0x12, 0xFF, 0x02],
        &[0x00, 0x40, 0x01, 0x23, 0x45],
        [0x13, 0x00, 0x03],
    ),
];

/// Whether a device that starts from the image of a row does as the row says. Afterwards a second device must be able to start from the
/// image of the first.
fn goes_on<S: RegisterStore + Drop>(row: &GoesOn) -> Result<bool, Fail> {
    let (before, payload, after) = row;
    let image = image_with(IMAGE_2, ENDING, before);
    let mut device: Device<S> = Device::from_image(bench::identity(), &image)?;
    let write = request(19, &[0x01, 0x23, 0x45])?;
    let reply = device.receive(&write, &bench::process()).ok_or("silence")?;
    let stopped = device.image();
    let ending = stopped.as_slice().get(ENDING..).ok_or("too short")?;
    let ends = same_bytes(reply.payload(), payload)? && same_bytes(ending, after)?;
    Ok(
        ends && has_image::<S>(&image, &image)?
            && has_image::<S>(stopped.as_slice(), stopped.as_slice())?,
    )
}

#[test]
fn devices_go_on_from_their_images(rt: HostRuntime) -> Result<(), Fail> {
    for (number, row) in GOES_ON.iter().enumerate() {
        hold_ok(&rt, goes_on::<FieldRegisters>(row), "row", number)?;
        hold_ok(&rt, goes_on::<ImageRegisters>(row), "image row", number)?;
    }
    Ok(())
}

/// Returns the image of a device made from `image`.
fn image_after<S: RegisterStore + Drop>(image: &[u8]) -> Result<Image, DeviceFault> {
    Ok(Device::<S>::from_image(bench::identity(), image)?.image())
}

/// Whether a device made from `image` has the image `other`.
fn has_image<S: RegisterStore + Drop>(image: &[u8], other: &[u8]) -> Result<bool, Fail> {
    same_bytes(image_after::<S>(image)?.as_slice(), other)
}

/// Whether a device made from `image` has the image `other`, with each kind of store.
fn have_image(image: &[u8], other: &[u8]) -> Result<bool, Fail> {
    Ok(has_image::<FieldRegisters>(image, other)? && has_image::<ImageRegisters>(image, other)?)
}

/// A place in an image of version 1, the bytes from there on, and the first eight characters of the long tag that results.
type Migrated<'a> = (usize, &'a [u8], &'a [u8; 8]);

const MIGRATED: &[Migrated] = &[
    (1, &[0x3F], b"        "),
    (2, &[0x00], b"        "),
    (3, &[0xFF; 24], b"        "),
    (27, &[0x41, 0x53, 0x50, 0xB7, 0x1C, 0x31], b"PUMP-101"),
    (27, &[0x00; 6], b"@@@@@@@@"),
    (27, &[0xFF; 6], b"????????"),
    (33, &[0x41; 12], b"        "),
    (45, &[0x1F, 0x0C, 0xFF], b"        "),
    (48, &[0x01, 0x23, 0x45], b"        "),
    (51, &[0x12, 0xFF], b"        "),
    (53, &[0x07], b"        "),
];

/// Returns the version 2 image of a device made from a version 1 image. The long tag of the device is this text and spaces.
fn migrated(image: &[u8; 54], text: &[u8; 8]) -> [u8; 86] {
    let held = image_with(IMAGE_2, 1, &image[1..51]);
    let tagged = image_with(held, LONG_TAG, text);
    image_with(tagged, ENDING, &image[51..54])
}

/// Returns a long tag of 32 bytes. The first byte is `32 * group`, and each further byte is one more than the byte before it.
fn long_tag_of(group: u8) -> [u8; 32] {
    let mut long_tag = [0; 32];
    let mut next = group.wrapping_mul(32);
    for byte in &mut long_tag {
        *byte = next;
        next = next.wrapping_add(1);
    }
    long_tag
}

/// Whether devices made from an image with the long tag of a group keep that image.
fn keep_long_tag(group: u8) -> Result<bool, Fail> {
    let image = image_with(IMAGE_2, LONG_TAG, &long_tag_of(group));
    have_image(&image, &image)
}

/// Whether devices made from the version 1 image of a row have the version 2 image that results.
fn migrate(row: &Migrated) -> Result<bool, Fail> {
    let (place, bytes, text) = *row;
    let image = image_with(IMAGE_1, place, bytes);
    have_image(&image, &migrated(&image, text))
}

#[test]
fn images_of_both_versions_are_gone_on_from(rt: HostRuntime) -> Result<(), Fail> {
    for group in 0..8u8 {
        hold_ok(&rt, keep_long_tag(group), "group", usize::from(group))?;
    }
    for (number, row) in MIGRATED.iter().enumerate() {
        hold_ok(&rt, migrate(row), "row", number)?;
    }
    Ok(())
}
