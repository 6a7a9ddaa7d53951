ghost use Rattle.std.specs.Prelude.{◌≡◌, ◌≤◌, length, Some};
ghost use Rattle.hart_device.specs.FaultText.{device_fault_number, device_fault_text};

use std::fmt;
use thiserror::Error;

/// Why the parts of an identity were refused, or why an image was refused.
#[derive(Clone, Copy, Debug, PartialEq, Eq, Error)]
pub enum DeviceFault {
    /// The unique address would be the broadcast address.
    BroadcastAddress,
    /// A number of an identity is outside its range.
    OutOfRange,
    /// An image of an unknown version.
    BadVersion,
    /// An image with no bytes, or with the wrong length for its version.
    BadLength,
    /// An image with bytes that are not valid in their register, or with flags above 7.
    BadField,
}

impl DeviceFault {
    /// Returns the number of the fault, 1 to 5.
    pub fn number(self) -> u8
        ensures { result ≡ device_fault_number self }
    {
        match self {
            DeviceFault::BroadcastAddress => 1,
            DeviceFault::OutOfRange => 2,
            DeviceFault::BadVersion => 3,
            DeviceFault::BadLength => 4,
            DeviceFault::BadField => 5,
        }
    }

    /// Returns the text of the fault.
    pub fn text(self) -> &'static str
        ensures text { result.now ≡ device_fault_text self }
        ensures short { length result.now ≤ 18 }
    {
        match self {
            DeviceFault::BroadcastAddress => "broadcast address",
            DeviceFault::OutOfRange => "out of range",
            DeviceFault::BadVersion => "bad image: version",
            DeviceFault::BadLength => "bad image: length",
            DeviceFault::BadField => "bad image: field",
        }
    }
}

impl fmt::Display for DeviceFault {
    ghost output = { λ fault. Some (device_fault_text fault) };

    fn fmt<W: fmt::Write>(&self, f: &mut fmt::Formatter<W>) -> fmt::Result {
        f.write_str(self.text())
    }
}
