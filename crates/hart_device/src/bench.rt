//! The bench device (implementation choice): the device that the program `hart` simulates.
ghost use Rattle.std.specs.Prelude.{◌≡◌};
ghost use Rattle.hart_device.specs.Bench.{bench_identity, bench_process, bench_values};

use crate::{Identity, IdentityParts, OutputValues, Process, ProcessVariable, RegisterValues};
use hart_commands::{SensorContent, ShortList};
use hart_values::{Bits32, HartDate, LoopMode, PackedText, PollingAddress};

/// Eight spaces in packed text.
const TAG: [u8; 6] = [0x82, 0x08, 0x20, 0x82, 0x08, 0x20];

/// Sixteen spaces in packed text.
const DESCRIPTOR: [u8; 12] = [
    0x82, 0x08, 0x20, 0x82, 0x08, 0x20, 0x82, 0x08, 0x20, 0x82, 0x08, 0x20,
];

/// Thirty-two spaces in packed text.
const MESSAGE: [u8; 24] = [
    0x82, 0x08, 0x20, 0x82, 0x08, 0x20, 0x82, 0x08, 0x20, 0x82, 0x08, 0x20, 0x82, 0x08, 0x20, 0x82,
    0x08, 0x20, 0x82, 0x08, 0x20, 0x82, 0x08, 0x20,
];

/// Thirty-two spaces.
const LONG_TAG: [u8; 32] = [b' '; 32];

/// Degrees Celsius.
const CELSIUS: u8 = 0x20;

/// Returns the identity: type hex 3742, id hex 0A1B2C.
pub fn identity() -> Identity
    ensures { result ≡ bench_identity }
{
    Identity::new(IdentityParts {
        expanded_device_type: 0x3742,
        device_id: 0x0A1B2C,
        request_preambles: 5,
        response_preambles: 5,
        device_revision: 1,
        software_revision: 2,
        hardware_revision: 3,
        signalling_code: 0,
        flags: 0,
        device_variables: 4,
        manufacturer: 0x0037,
        private_label_distributor: 0x0037,
        device_profile: 1,
    })
    .unwrap()
}

/// Returns the initial values of the registers: polling address 0, loop current enabled, texts of spaces, date not set, assembly
/// number 0, long tag of spaces.
pub fn register_values() -> RegisterValues
    ensures { result ≡ bench_values }
{
    RegisterValues {
        polling: PollingAddress::new(0).unwrap(),
        mode: LoopMode::Enabled,
        message: PackedText::from_bytes(MESSAGE),
        tag: PackedText::from_bytes(TAG),
        descriptor: PackedText::from_bytes(DESCRIPTOR),
        date: HartDate::from_bytes([0; 3]).unwrap(),
        assembly: [0; 3],
        long_tag: LONG_TAG,
    }
}

/// Returns the process: 12 mA, 50 percent, 25 degrees Celsius.
pub fn process() -> Process
    ensures { result ≡ bench_process }
{
    Process {
        loop_current: Bits32([0x41, 0x40, 0x00, 0x00]),
        percent_of_range: Bits32([0x42, 0x48, 0x00, 0x00]),
        first: ProcessVariable {
            classification: 0,
            unit: CELSIUS,
            value: Bits32([0x41, 0xC8, 0x00, 0x00]),
            status: 0xC0,
        },
        others: ShortList::new(),
        time_stamp: [0; 4],
        status: 0,
        additional_status: [0; 25],
        sensor: SensorContent {
            serial_number: [0; 3],
            unit: CELSIUS,
            upper_limit: Bits32([0x43, 0x48, 0x00, 0x00]),
            lower_limit: Bits32([0; 4]),
            minimum_span: Bits32([0x41, 0x20, 0x00, 0x00]),
        },
        output: OutputValues {
            alarm_code: 0,
            transfer_function: 0,
            unit: CELSIUS,
            upper_range_value: Bits32([0x42, 0xC8, 0x00, 0x00]),
            lower_range_value: Bits32([0; 4]),
            damping: Bits32([0x3F, 0x80, 0x00, 0x00]),
            channel_flags: 0,
        },
    }
}
