//! What a device measures, and what it knows of its parts, such as its sensor. The caller passes these values with each request, so a
//! device stores none of them.
ghost use Rattle.std.specs.Prelude.{◌≡◌};
ghost use Rattle.hart_device.specs.Process.{extended_device_status, has_more_status, is_any_set};

use hart_commands::{SensorContent, ShortList};
use hart_values::Bits32;

/// The place of the extended device status among the additional status bytes.
const EXTENDED_DEVICE_STATUS: usize = 6;

/// A dynamic variable (HCF_SPEC-127).
#[derive(Clone, Copy, Debug, Default, PartialEq, Eq)]
pub struct ProcessVariable {
    /// The classification.
    pub classification: u8,
    /// The code of the unit.
    pub unit: u8,
    /// The value.
    pub value: Bits32,
    /// The status.
    pub status: u8,
}

/// The values of the loop current output (HCF_SPEC-127, Command 15).
#[derive(Clone, Copy, Debug, PartialEq, Eq)]
pub struct OutputValues {
    /// The code for what the loop current does at an alarm.
    pub alarm_code: u8,
    /// The code of the transfer function.
    pub transfer_function: u8,
    /// The code of the unit of the range values.
    pub unit: u8,
    /// The value at the upper end of the loop current.
    pub upper_range_value: Bits32,
    /// The value at the lower end of the loop current.
    pub lower_range_value: Bits32,
    /// The damping, in seconds.
    pub damping: Bits32,
    /// The flags of the analog channel.
    pub channel_flags: u8,
}

/// The values that a device measures, and what it knows of its parts (HCF_SPEC-127).
#[derive(Debug, Drop, PartialEq, Eq)]
pub struct Process {
    /// The loop current, in milliampere.
    pub loop_current: Bits32,
    /// The percent of range.
    pub percent_of_range: Bits32,
    /// The first dynamic variable, the primary one.
    pub first: ProcessVariable,
    /// The other dynamic variables, at most three.
    pub others: ShortList<ProcessVariable, 3>,
    /// When the variables were measured.
    pub time_stamp: [u8; 4],
    /// The bits of the device status that the process sets: hex 80, 04, 02 and 01. Other bits are ignored.
    pub status: u8,
    /// The additional status bytes; byte 6, counted from 0, is the extended device status.
    pub additional_status: [u8; 25],
    /// The sensor.
    pub sensor: SensorContent,
    /// The loop current output.
    pub output: OutputValues,
}

impl Process {
    /// Returns the extended device status.
    pub(crate) fn extended_device_status(&self) -> u8
        ensures { result ≡ extended_device_status self.now }
    {
        self.additional_status[EXTENDED_DEVICE_STATUS]
    }

    /// Returns true if an additional status byte other than the extended device status is not 0.
    pub(crate) fn has_more_status(&self) -> bool
        ensures { result ≡ has_more_status self.now }
    {
        let (before, _) = self.additional_status.split_at(EXTENDED_DEVICE_STATUS);
        let (_, after) = self.additional_status.split_at(EXTENDED_DEVICE_STATUS + 1);
        is_any_set(before) || is_any_set(after)
    }
}

/// Returns true if any of the bytes is not 0.
fn is_any_set(bytes: &[u8]) -> bool
    ensures { result ≡ is_any_set bytes.now }
{
    bytes.iter().any(|byte| *byte != 0)
}
