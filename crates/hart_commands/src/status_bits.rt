//! The bits of the two status bytes of a reply, and their names (HCF_SPEC-099).
ghost use Rattle.std.specs.Prelude.{◌≡◌, ◌==◌, find, map, option_map};
ghost use Rattle.hart_commands.specs.StatusBits.{comm_fault_name, device_state_name, name_of, seen_bit};

use hart_values::{CommFaults, DeviceStatus};

/// A bit of a status byte, and its name.
#[derive(Clone, Copy, Debug, PartialEq, Eq)]
pub struct NamedBit {
    /// The value of the bit.
    pub value: u8,
    /// The name of the bit.
    pub name: &'static str,
}

/// Makes a named bit in one line.
macro_rules! bit {
    ($value:expr, $name:literal) => {
        NamedBit {
            value: $value,
            name: $name,
        }
    };
}

/// The communication faults that have names.
pub const COMM_FAULTS: &[NamedBit] = &[
    bit!(CommFaults::VERTICAL_PARITY, "vertical parity"),
    bit!(CommFaults::OVERRUN, "overrun"),
    bit!(CommFaults::FRAMING, "framing"),
    bit!(CommFaults::LONGITUDINAL_PARITY, "longitudinal parity"),
    bit!(CommFaults::BUFFER_OVERFLOW, "buffer overflow"),
];

/// The bits of the device status.
pub const DEVICE_STATES: &[NamedBit] = &[
    bit!(DeviceStatus::DEVICE_MALFUNCTION, "device malfunction"),
    bit!(DeviceStatus::CONFIGURATION_CHANGED, "configuration changed"),
    bit!(DeviceStatus::COLD_START, "cold start"),
    bit!(DeviceStatus::MORE_STATUS_AVAILABLE, "more status available"),
    bit!(DeviceStatus::LOOP_CURRENT_FIXED, "loop current fixed"),
    bit!(
        DeviceStatus::LOOP_CURRENT_SATURATED,
        "loop current saturated"
    ),
    bit!(
        DeviceStatus::NON_PRIMARY_VARIABLE_OUT_OF_LIMITS,
        "non-primary variable out of limits"
    ),
    bit!(
        DeviceStatus::PRIMARY_VARIABLE_OUT_OF_LIMITS,
        "primary variable out of limits"
    ),
];

/// Returns the name of a bit of the device status, such as `cold start` for hex 20, or `None` if `value` is not the value of a single bit
/// (HCF_SPEC-099).
pub fn device_state_name(value: u8) -> Option<&'static str>
    ensures { option_map (λ name. name.now) result ≡ device_state_name value }
{
    name_of(DEVICE_STATES, value)
}

/// Returns the name of a communication fault, such as `overrun` for hex 20, or `None` if `value` is not the value of a single bit, or if
/// the bit has no name (HCF_SPEC-099).
pub fn comm_fault_name(value: u8) -> Option<&'static str>
    ensures { option_map (λ name. name.now) result ≡ comm_fault_name value }
{
    name_of(COMM_FAULTS, value)
}

/// Returns the name of the bit with this value, or `None` if no bit of the table has it.
fn name_of(bits: &'static [NamedBit], value: u8) -> Option<&'static str>
    ensures { option_map (λ name. name.now) result ≡ name_of (map seen_bit bits.now) value }
{
    Some(find_bit(bits, value)?.name)
}

/// Returns the bit with this value, or `None` if no bit of the table has it.
fn find_bit(bits: &'static [NamedBit], value: u8) -> Option<&'static NamedBit>
    ensures { option_map (λ bit. seen_bit bit.now) result ≡ find (λ bit. bit.value == value) (map seen_bit bits.now) }
{
    bits.iter().find(|bit| bit.value == value)
}
