ghost use Rattle.std.specs.Prelude.{◌≡◌, ◌≢◌, ◌↔◌, IsSome, IfSome, IfNone, [], ◌∷◌, length};
ghost use Rattle.hart_commands.specs.Registers.{AreValid, IsValidIn, size_of};
ghost use Rattle.hart_commands.specs.RequestData.{mode_byte};
ghost use Rattle.hart_commands.specs.declared.register.Register.{Register};
ghost use Rattle.hart_commands.specs.declared.register.Register.TheVariants.{Polling, Mode, Tag, LongTag};
ghost use Rattle.hart_device.specs.Image.{IsLongTagOf};
ghost use Rattle.hart_device.specs.Registers.{HoldsInvalid, contents_in, standing_for, values_of};

use crate::registers::bytes_of;
use crate::registers::field_registers::FieldRegisters;
use crate::registers::ranges::{ARRAY_LEN, range_of};
use crate::{RegisterStore, RegisterValues};
use hart_commands::{Overwrite, Register};
use hart_values::{HartDate, LoopMode, PackedText, PollingAddress};

/// A store with all registers in one array, one after the other, in the order of an image.
#[derive(Clone, Copy, Debug, PartialEq, Eq)]
pub struct ImageRegisters {
    pub(crate) bytes: [u8; ARRAY_LEN],
}

impl RegisterStore for ImageRegisters {
    ghost contents = { λ store. contents_in store.bytes };

    fn with(values: &RegisterValues) -> Self {
        let fields = FieldRegisters::with(values);
        let mut store = ImageRegisters {
            bytes: [0; ARRAY_LEN],
        };
        for register in Register::ALL {
            store.write(register, fields.get(register));
        }
        store
    }

    fn get(&self, register: Register) -> &[u8] {
        let range = range_of(register);
        &self.bytes[range.start..range.end]
    }

    fn overwrite(&mut self, overwrite: &Overwrite) {
        for register in Register::ALL {
            if let Some(bytes) = overwrite.get(register) {
                self.write(register, bytes);
            }
        }
    }
}

impl ImageRegisters {
    /// Returns the values of the registers, or `None` if a register holds invalid bytes. Any bytes are valid in the long tag.
    pub(crate) fn values(&self) -> Option<RegisterValues>
        ensures kept { IfSome result (λ values. values_of values ≡ contents_in self.now.bytes) }
        ensures valid { IfSome result (λ values. AreValid (values_of values)) }
        ensures refused { IfNone result (HoldsInvalid self.now.bytes) }
    {
        let polling = polling_in(self.get(Register::Polling))?;
        let mode = mode_in(self.get(Register::Mode))?;
        let date = HartDate::from_bytes(bytes_of(self, Register::Date)).ok()?;
        Some(RegisterValues {
            polling,
            mode,
            message: PackedText::from_bytes(bytes_of(self, Register::Message)),
            tag: PackedText::from_bytes(bytes_of(self, Register::Tag)),
            descriptor: PackedText::from_bytes(bytes_of(self, Register::Descriptor)),
            date,
            assembly: bytes_of(self, Register::Assembly),
            long_tag: bytes_of(self, Register::LongTag),
        })
    }

    /// Sets the long tag to the text of the tag and 24 spaces.
    pub(crate) fn set_long_tag(&mut self)
        ensures set { IsLongTagOf (standing_for Tag self.new.bytes) (standing_for LongTag self.new.bytes) }
        ensures others { (other : Register) → other ≢ LongTag
            → standing_for other self.new.bytes ≡ standing_for other self.old.bytes }
    {
        let tag = PackedText::from_bytes(bytes_of(self, Register::Tag));
        self.write(Register::LongTag, &long_tag_of(&tag));
    }

    /// Sets the bytes of a register.
    fn write(&mut self, register: Register, bytes: &[u8])
        requires { length bytes.now ≡ size_of register }
        ensures written { standing_for register self.new.bytes ≡ bytes.now }
        ensures others { (other : Register) → other ≢ register
            → standing_for other self.new.bytes ≡ standing_for other self.old.bytes }
    {
        let range = range_of(register);
        self.bytes[range.start..range.end].copy_from_slice(bytes);
    }
}

/// Returns the text of a tag and 24 spaces.
fn long_tag_of(tag: &PackedText<6>) -> [u8; 32]
    ensures { IsLongTagOf tag.now result }
{
    let mut text = [0; 8];
    tag.write_text(&mut text).unwrap();
    let mut long_tag = [b' '; 32];
    long_tag[..8].copy_from_slice(&text);
    long_tag
}

/// Reads the polling address from the byte of its register, or returns `None` if the byte is not valid.
fn polling_in(bytes: &[u8]) -> Option<PollingAddress>
    requires { length bytes.now ≡ size_of Polling }
    ensures valid { IsSome result ↔ IsValidIn Polling bytes.now }
    ensures kept { IfSome result (λ address. address ∷ [] ≡ bytes.now) }
{
    PollingAddress::new(bytes[0]).ok()
}

/// Reads the loop current mode from the byte of its register, or returns `None` if the byte is not valid.
fn mode_in(bytes: &[u8]) -> Option<LoopMode>
    requires { length bytes.now ≡ size_of Mode }
    ensures valid { IsSome result ↔ IsValidIn Mode bytes.now }
    ensures kept { IfSome result (λ mode. mode_byte mode ∷ [] ≡ bytes.now) }
{
    LoopMode::from_byte(bytes[0])
}
