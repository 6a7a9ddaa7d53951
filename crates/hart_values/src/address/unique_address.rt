ghost use Rattle.std.specs.Prelude.{◌≡◌, ◌<◌, ◌%◌, ◌^◌, ◌↔◌, IsOk, IfOk, IfErr};

use crate::ValueFault;
use std::marker::Model;

/// The unique address of a device: its expanded device type and its device id (HCF_SPEC-081).
///
/// The expanded device type has 16 bits, but an address has only the lower 14, so only these 14 bits are kept. The unique address with type
/// 0 and device id 0 is the broadcast address.
#[derive(Clone, Copy, Debug, PartialEq, Eq, Hash)]
pub struct UniqueAddress {
    expanded_type: u16,
    device_id: u32,
}

impl Model for UniqueAddress {
    ghost use Rattle.std.specs.Prelude.{◌<◌, ◌^◌};
    ghost use Rattle.hart_values.specs.address.DeviceNumbers.{DeviceNumbers};

    ghost Value = { DeviceNumbers };

    ghost view = { λ a. record { expanded_type = a.expanded_type; device_id = a.device_id } };

    ghost invariant = { λ a. (a.expanded_type < 2 ^ 14) × (a.device_id < 2 ^ 24) };

    ghost inverse = { λ n. record { expanded_type = n.expanded_type; device_id = n.device_id } };
}

impl UniqueAddress {
    /// Returns the unique address with this device id and with the lower 14 bits of this expanded device type.
    ///
    /// # Errors
    ///
    /// [`ValueFault::OutOfRange`] if `device_id` is above 16,777,215.
    pub fn new(expanded_type: u16, device_id: u32) -> Result<Self, ValueFault>
        ensures accepted { IsOk result ↔ (device_id < 2 ^ 24) }
        ensures kept { IfOk result (λ address. address ≡
            record { expanded_type = expanded_type % 2 ^ 14; device_id = device_id }) }
        ensures refused { IfErr result (λ fault. fault ≡ ValueFault.OutOfRange) }
    {
        if device_id < 1 << 24 {
            Ok(UniqueAddress {
                expanded_type: expanded_type % (1 << 14),
                device_id,
            })
        } else {
            Err(ValueFault::OutOfRange)
        }
    }

    /// Returns the lower 14 bits of the expanded device type.
    pub fn expanded_type(self) -> u16
        ensures same { result ≡ self.expanded_type }
        ensures in_range { result < 2 ^ 14 }
    {
        self.expanded_type
    }

    /// Returns the device id, 24 bits.
    pub fn device_id(self) -> u32
        ensures same { result ≡ self.device_id }
        ensures in_range { result < 2 ^ 24 }
    {
        self.device_id
    }
}
