//! Stores of the registers of a device.
ghost use Rattle.std.specs.Prelude.{◌≡◌, length, unwrap_or};
ghost use Rattle.hart_commands.specs.Registers.{AreValid, Contents, bytes_in, named_in, size_of};
ghost use Rattle.hart_commands.specs.declared.register.Register.{Register};
ghost use Rattle.hart_device.specs.Registers.{values_of};

use crate::RegisterValues;
use hart_commands::{Overwrite, Register};

pub mod field_registers;
pub mod image_registers;
pub mod ranges;
pub mod values;

/// A store of the registers of a device, in any layout. There are two stores, so proofs about devices have to hold for every store.
///
/// In contracts, a store is its contents: the bytes of each register.
pub trait RegisterStore {
    ghost contents: { Self → Contents };

    /// Makes a store. Each register holds the value that `values` has for it.
    fn with(values: &RegisterValues) -> Self
        ensures held { (register : Register) → bytes_in (contents result) register ≡ bytes_in (values_of values.now) register }
        ensures valid { AreValid (contents result) };

    /// Returns the bytes of a register.
    fn get(&self, register: Register) -> &[u8]
        ensures value { result.now ≡ bytes_in (contents self.now) register }
        ensures size { length result.now ≡ size_of register };

    /// Sets the registers named by `overwrite`. Every other register is unchanged.
    fn overwrite(&mut self, overwrite: &Overwrite)
        ensures { (register : Register) → bytes_in (contents self.new) register
            ≡ unwrap_or (named_in overwrite.now register) (bytes_in (contents self.old) register) };
}

/// Returns the bytes of a register that has `N` bytes.
pub(crate) fn bytes_of<S: RegisterStore, const N: usize>(store: &S, register: Register) -> [u8; N]
    requires { size_of register ≡ N }
    ensures { result ≡ bytes_in (S.contents store.now) register }
{
    let mut bytes = [0; N];
    bytes.copy_from_slice(store.get(register));
    bytes
}
