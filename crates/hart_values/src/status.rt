//! What the two status bytes of a reply mean.
ghost use Rattle.std.specs.Prelude.{◌≡◌, ℕ, slice_index};

use crate::{CommFaults, DeviceStatus, ResponseCode};

pub mod comm_faults;
pub mod device_status;
pub mod response_code;

/// The bit of the first status byte that is set for communication faults, and clear for a response code.
const FAULTS_BIT: u8 = 0x80;

/// What the two status bytes of a reply mean (HCF_SPEC-099).
#[derive(Clone, Copy, Debug, PartialEq, Eq)]
pub enum Status {
    /// The response code and the device status. The device has received the request without communication faults.
    Code(ResponseCode, DeviceStatus),
    /// The device has received the request with these communication faults.
    Faulty(CommFaults),
}

impl Status {
    ghost use Rattle.hart_values.specs.status.StatusBytes.{IsStatusBytes};

    /// Reads the status from two bytes.
    pub fn read(bytes: [u8; 2]) -> Self
        ensures held { IsStatusBytes result bytes }
        ensures only { (status : Status) → IsStatusBytes status bytes → result ≡ status }
    {
        let [first, second] = bytes;
        match ResponseCode::new(first) {
            Ok(code) => Status::Code(code, DeviceStatus(second)),
            Err(_) => Status::Faulty(CommFaults::new(first & !FAULTS_BIT).unwrap()),
        }
    }

    /// Returns the two bytes of the status. For communication faults, the second byte is 0.
    pub fn bytes(self) -> [u8; 2]
        ensures held { IsStatusBytes self result }
        ensures nothing_beside_faults { (faults : ℕ) → self ≡ Status.Faulty faults → slice_index result 1 ≡ 0 }
    {
        match self {
            Status::Code(code, device) => [code.value(), device.0],
            Status::Faulty(faults) => [FAULTS_BIT | faults.value(), 0],
        }
    }
}
