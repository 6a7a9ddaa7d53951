//! The device status, the second status byte of a reply (HCF_SPEC-099).
use hart_values::DeviceStatus;

/// The bits of the device status that the process sets.
pub(crate) const PROCESS_BITS: u8 = DeviceStatus::DEVICE_MALFUNCTION
    | DeviceStatus::LOOP_CURRENT_SATURATED
    | DeviceStatus::NON_PRIMARY_VARIABLE_OUT_OF_LIMITS
    | DeviceStatus::PRIMARY_VARIABLE_OUT_OF_LIMITS;
