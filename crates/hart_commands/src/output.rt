ghost use Rattle.std.specs.Prelude.{◌≡◌, ◌≤◌, ◌++◌, length};
ghost use Rattle.hart_commands.specs.Groups.{output_of, output_bytes};

use hart_values::{Bits32, Payload};

/// The loop current output of a device (HCF_SPEC-127, Command 15).
#[derive(Clone, Copy, Debug, PartialEq, Eq)]
pub struct OutputContent {
    /// The code for what the loop current does at an alarm.
    pub alarm_code: u8,
    /// The code of the transfer function.
    pub transfer_function: u8,
    /// The code of the unit of the range values.
    pub unit: u8,
    /// The value at the upper end of the loop current.
    pub upper_range_value: Bits32,
    /// The value at the lower end of the loop current.
    pub lower_range_value: Bits32,
    /// The damping, in seconds.
    pub damping: Bits32,
    /// Whether the device is write protected: 0 no, 1 yes.
    pub write_protect_code: u8,
    /// A byte that the standard reserves, 250.
    pub reserved: u8,
    /// The flags of the analog channel.
    pub channel_flags: u8,
}

impl OutputContent {
    /// Reads the output from 18 bytes.
    pub(crate) fn from_bytes(bytes: [u8; 18]) -> Self
        ensures { result ≡ output_of bytes }
    {
        OutputContent {
            alarm_code: bytes[0],
            transfer_function: bytes[1],
            unit: bytes[2],
            upper_range_value: Bits32([bytes[3], bytes[4], bytes[5], bytes[6]]),
            lower_range_value: Bits32([bytes[7], bytes[8], bytes[9], bytes[10]]),
            damping: Bits32([bytes[11], bytes[12], bytes[13], bytes[14]]),
            write_protect_code: bytes[15],
            reserved: bytes[16],
            channel_flags: bytes[17],
        }
    }

    /// Adds the 18 bytes of the output at the end of a payload.
    pub(crate) fn push_to(&self, payload: &mut Payload)
        requires { length payload.old ≤ 200 }
        ensures { payload.new ≡ payload.old ++ output_bytes self.now }
    {
        payload.extend_from_slice(&[self.alarm_code, self.transfer_function, self.unit]);
        payload.extend_from_slice(&self.upper_range_value.0);
        payload.extend_from_slice(&self.lower_range_value.0);
        payload.extend_from_slice(&self.damping.0);
        payload.extend_from_slice(&[self.write_protect_code, self.reserved, self.channel_flags]);
    }
}
