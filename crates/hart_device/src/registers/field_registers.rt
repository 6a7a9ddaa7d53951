ghost use Rattle.std.specs.Prelude.{◌≡◌, length, unwrap_or};
ghost use Rattle.hart_commands.specs.Registers.{named_in, size_of};

use crate::{RegisterStore, RegisterValues};
use hart_commands::{Overwrite, Register};

/// A store with one field for each register.
#[derive(Clone, Copy, Debug, PartialEq, Eq)]
pub struct FieldRegisters {
    polling: [u8; 1],
    mode: [u8; 1],
    message: [u8; 24],
    tag: [u8; 6],
    descriptor: [u8; 12],
    date: [u8; 3],
    assembly: [u8; 3],
    long_tag: [u8; 32],
}

impl RegisterStore for FieldRegisters {
    ghost contents = { λ store. record {
      polling = store.polling;
      mode = store.mode;
      message = store.message;
      tag = store.tag;
      descriptor = store.descriptor;
      date = store.date;
      assembly = store.assembly;
      long_tag = store.long_tag;
    } };

    fn with(values: &RegisterValues) -> Self {
        let mut store = FieldRegisters {
            polling: [values.polling.number()],
            mode: [values.mode.byte()],
            message: [0; 24],
            tag: [0; 6],
            descriptor: [0; 12],
            date: [0; 3],
            assembly: values.assembly,
            long_tag: values.long_tag,
        };
        store.message.copy_from_slice(values.message.as_bytes());
        store.tag.copy_from_slice(values.tag.as_bytes());
        store
            .descriptor
            .copy_from_slice(values.descriptor.as_bytes());
        store.date.copy_from_slice(values.date.as_bytes());
        store
    }

    fn get(&self, register: Register) -> &[u8] {
        match register {
            Register::Polling => &self.polling,
            Register::Mode => &self.mode,
            Register::Message => &self.message,
            Register::Tag => &self.tag,
            Register::Descriptor => &self.descriptor,
            Register::Date => &self.date,
            Register::Assembly => &self.assembly,
            Register::LongTag => &self.long_tag,
        }
    }

    fn overwrite(&mut self, overwrite: &Overwrite) {
        replace(&mut self.polling, overwrite, Register::Polling);
        replace(&mut self.mode, overwrite, Register::Mode);
        replace(&mut self.message, overwrite, Register::Message);
        replace(&mut self.tag, overwrite, Register::Tag);
        replace(&mut self.descriptor, overwrite, Register::Descriptor);
        replace(&mut self.date, overwrite, Register::Date);
        replace(&mut self.assembly, overwrite, Register::Assembly);
        replace(&mut self.long_tag, overwrite, Register::LongTag);
    }
}

/// Sets the bytes of a register, if the overwrite names it.
fn replace(bytes: &mut [u8], overwrite: &Overwrite, register: Register)
    requires { length bytes.old ≡ size_of register }
    ensures { bytes.new ≡ unwrap_or (named_in overwrite.now register) bytes.old }
{
    if let Some(others) = overwrite.get(register) {
        bytes.copy_from_slice(others);
    }
}
