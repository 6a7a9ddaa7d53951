//! The initial values of the registers of a device, as a C struct.
ghost use Rattle.std.specs.Prelude.{◌≡◌, ◌<◌, ◌↔◌, IsSome, IfSome};
ghost use Rattle.hart_commands.specs.Registers.{AreValid};
ghost use Rattle.hart_device.specs.Bench.{bench_values};
ghost use Rattle.hart_device.specs.Registers.{values_of};
ghost use Rattle.hart_c.specs.Numbers.{contents_of};

use hart_device::{RegisterValues, bench};
use hart_values::{HartDate, LoopMode, PackedText, PollingAddress};

/// The initial values of the registers of a device (HCF_SPEC-127).
#[repr(C)]
#[derive(Clone, Copy)]
pub struct HartRegisters {
    /// The polling address, at most 63.
    pub polling_address: u8,
    /// The loop current mode: 1 if the loop current follows the process, 0 if the loop current is held.
    pub loop_current_mode: u8,
    /// The message, 32 characters of packed text.
    pub message: [u8; 24],
    /// The tag, 8 characters of packed text.
    pub tag: [u8; 6],
    /// The descriptor, 16 characters of packed text.
    pub descriptor: [u8; 12],
    /// The date: the day, the month and the year minus 1900, or three zeros if the date is not set.
    pub date: [u8; 3],
    /// The final assembly number.
    pub assembly: [u8; 3],
    /// The long tag, 32 characters.
    pub long_tag: [u8; 32],
}

/// Writes the initial values of the registers of the bench device to `registers`.
#[unsafe(no_mangle)]
pub extern "C" fn hart_bench_registers(registers: &mut HartRegisters)
    ensures { contents_of «registers».new ≡ values_of bench_values }
{
    let values = bench::register_values();
    registers.polling_address = values.polling.number();
    registers.loop_current_mode = values.mode.byte();
    registers.message.copy_from_slice(values.message.as_bytes());
    registers.tag.copy_from_slice(values.tag.as_bytes());
    registers
        .descriptor
        .copy_from_slice(values.descriptor.as_bytes());
    registers.date.copy_from_slice(values.date.as_bytes());
    registers.assembly = values.assembly;
    registers.long_tag = values.long_tag;
}

/// Returns the register values that this `HartRegisters` describes, or `None` if a register would hold invalid bytes.
pub(crate) fn values_of(given: &HartRegisters) -> Option<RegisterValues>
    ensures accepted { IsSome result ↔ AreValid (contents_of given.now) }
    ensures same { IfSome result (λ values. values_of values ≡ contents_of given.now) }
{
    let polling = PollingAddress::new(given.polling_address).ok()?;
    let mode = LoopMode::from_byte(given.loop_current_mode)?;
    let date = HartDate::from_bytes(given.date).ok()?;
    Some(RegisterValues {
        polling,
        mode,
        message: PackedText::from_bytes(given.message),
        tag: PackedText::from_bytes(given.tag),
        descriptor: PackedText::from_bytes(given.descriptor),
        date,
        assembly: given.assembly,
        long_tag: given.long_tag,
    })
}
