//! Packed text for a caller in C.
ghost use Rattle.std.specs.Prelude.{◌≡◌, ◌*◌, ◌/◌, ◌≤◌, IfErr, IfOk, OnErr, length};
ghost use Rattle.hart_values.specs.packed_text.Packing.{IsPacked, IsPackedSize};
ghost use Rattle.hart_c.specs.Faults.{AllPass, IsFirstOf};
ghost use Rattle.hart_c.specs.Messages.{IsWritten};
ghost use Rattle.hart_c.specs.Texts.{PackOutcome, UnpackOutcome, pack_checks, padded, unpack_checks};

use crate::fault::{Fault, HartOutcome};
use crate::output::{outcome_of, put};
use hart_device::DeviceFault;
use hart_values::PackedText;

/// The maximum number of characters of a packed text.
const MOST_TEXT: usize = 32;

/// Packs a text, filled up with spaces, into all bytes of `packed`, which has 6, 12 or 24 bytes. Returns the length of `packed`.
///
/// # Errors
///
/// The first of these that holds: a `packed` of another length, a text that is too long for `packed` (8, 16 or 32 characters fit), or a
/// character outside hex 20 to 5F. `packed` is then unchanged.
#[unsafe(no_mangle)]
pub extern "C" fn hart_pack_text(text: &[u8], packed: &mut [u8]) -> HartOutcome
    ensures { PackOutcome text.now packed.old packed.new result }
{
    outcome_of(pack(text, packed))
}

/// Packs a text into all bytes of `packed`. Returns the number of these bytes, or the first fault.
fn pack(text: &[u8], packed: &mut [u8]) -> Result<usize, Fault>
    ensures passed { IfOk result (λ len. AllPass (pack_checks text.now (length packed.old))) }
    ensures packed { IfOk result (λ len. (len ≡ length packed.old)
        × IsPacked (padded (4 * length packed.old / 3) text.now) packed.new) }
    ensures refused { IfErr result (IsFirstOf (pack_checks text.now (length packed.old))) }
    ensures unchanged { OnErr result (packed.new ≡ packed.old) }
{
    match packed.len() {
        6 => pack_into::<6>(text, packed),
        12 => pack_into::<12>(text, packed),
        24 => pack_into::<24>(text, packed),
        _ => Err(Fault::Device(DeviceFault::BadLength)),
    }
}

/// Packs a text into the `N` bytes of `packed`. Returns `N`, or the first fault.
fn pack_into<const N: usize>(text: &[u8], packed: &mut [u8]) -> Result<usize, Fault>
    requires size { IsPackedSize N }
    requires room { length packed.old ≡ N }
    ensures passed { IfOk result (λ len. AllPass (pack_checks text.now N)) }
    ensures packed { IfOk result (λ len. (len ≡ N) × IsPacked (padded (4 * N / 3) text.now) packed.new) }
    ensures refused { IfErr result (IsFirstOf (pack_checks text.now N)) }
    ensures unchanged { OnErr result (packed.new ≡ packed.old) }
{
    if text.len() > 4 * N / 3 {
        return Err(Fault::TooLong);
    }
    let whole = padded(text);
    let Ok(made) = PackedText::<N>::from_text(&whole[..4 * N / 3]) else {
        return Err(Fault::BadCharacter);
    };
    packed.copy_from_slice(made.as_bytes());
    Ok(N)
}

/// Returns a text, filled up with spaces to 32 characters.
fn padded(text: &[u8]) -> [u8; MOST_TEXT]
    requires { length text.now ≤ 32 }
    ensures { result ≡ padded 32 text.now }
{
    let mut whole = [b' '; MOST_TEXT];
    whole[..text.len()].copy_from_slice(text);
    whole
}

/// Writes the text of 6, 12 or 24 bytes of packed text to the front of `text`: 8, 16 or 32 characters. Returns the number of characters.
///
/// # Errors
///
/// The first of these that holds: a `packed` of another length, or no room. `text` is then unchanged.
#[unsafe(no_mangle)]
pub extern "C" fn hart_unpack_text(packed: &[u8], text: &mut [u8]) -> HartOutcome
    ensures { UnpackOutcome packed.now text.old text.new result }
{
    outcome_of(unpack(packed, text))
}

/// Unpacks `packed` to the front of `text`. Returns the length of the text, or the first fault.
fn unpack(packed: &[u8], text: &mut [u8]) -> Result<usize, Fault>
    ensures written { IfOk result (IsWritten (λ text. IsPacked text packed.now) text.old text.new) }
    ensures size { IfOk result (λ len. IsPackedSize (length packed.now)) }
    ensures refused { IfErr result (IsFirstOf (unpack_checks packed.now (length text.old))) }
    ensures unchanged { OnErr result (text.new ≡ text.old) }
{
    match packed.len() {
        6 => unpack_from::<6>(packed, text),
        12 => unpack_from::<12>(packed, text),
        24 => unpack_from::<24>(packed, text),
        _ => Err(Fault::Device(DeviceFault::BadLength)),
    }
}

/// Writes the text of `N` bytes of packed text to the front of `text`. Returns the length of the text, or the first fault.
fn unpack_from<const N: usize>(packed: &[u8], text: &mut [u8]) -> Result<usize, Fault>
    requires size { IsPackedSize N }
    requires len { length packed.now ≡ N }
    ensures written { IfOk result (IsWritten (λ text. IsPacked text packed.now) text.old text.new) }
    ensures refused { IfErr result (IsFirstOf (unpack_checks packed.now (length text.old))) }
    ensures unchanged { OnErr result (text.new ≡ text.old) }
{
    let mut bytes = [0; N];
    bytes.copy_from_slice(packed);
    let mut whole = [b' '; MOST_TEXT];
    PackedText::<N>::from_bytes(bytes)
        .write_text(&mut whole[..4 * N / 3])
        .unwrap();
    put(&whole[..4 * N / 3], text)
}
