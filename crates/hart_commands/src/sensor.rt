ghost use Rattle.std.specs.Prelude.{◌≡◌, ◌≤◌, ◌++◌, length};
ghost use Rattle.hart_commands.specs.Groups.{sensor_of, sensor_bytes};

use hart_values::{Bits32, Payload};

/// The sensor of a device (HCF_SPEC-127, Command 14).
#[derive(Clone, Copy, Debug, PartialEq, Eq)]
pub struct SensorContent {
    /// The serial number of the transducer.
    pub serial_number: [u8; 3],
    /// The code of the unit of the limits and of the span.
    pub unit: u8,
    /// The upper limit of the transducer.
    pub upper_limit: Bits32,
    /// The lower limit of the transducer.
    pub lower_limit: Bits32,
    /// The minimum span of the transducer.
    pub minimum_span: Bits32,
}

impl SensorContent {
    /// Reads the sensor from 16 bytes.
    pub(crate) fn from_bytes(bytes: [u8; 16]) -> Self
        ensures { result ≡ sensor_of bytes }
    {
        SensorContent {
            serial_number: [bytes[0], bytes[1], bytes[2]],
            unit: bytes[3],
            upper_limit: Bits32([bytes[4], bytes[5], bytes[6], bytes[7]]),
            lower_limit: Bits32([bytes[8], bytes[9], bytes[10], bytes[11]]),
            minimum_span: Bits32([bytes[12], bytes[13], bytes[14], bytes[15]]),
        }
    }

    /// Adds the 16 bytes of the sensor at the end of a payload.
    pub(crate) fn push_to(&self, payload: &mut Payload)
        requires { length payload.old ≤ 200 }
        ensures { payload.new ≡ payload.old ++ sensor_bytes self.now }
    {
        payload.extend_from_slice(&self.serial_number);
        payload.push(self.unit);
        payload.extend_from_slice(&self.upper_limit.0);
        payload.extend_from_slice(&self.lower_limit.0);
        payload.extend_from_slice(&self.minimum_span.0);
    }
}
