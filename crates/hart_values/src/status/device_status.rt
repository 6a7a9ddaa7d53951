/// The state of a device, as eight bits in its replies (HCF_SPEC-099).
#[derive(Clone, Copy, Debug, PartialEq, Eq)]
pub struct DeviceStatus(pub u8);

impl DeviceStatus {
    /// The device has found a fault in itself.
    pub const DEVICE_MALFUNCTION: u8 = 0x80;

    /// The configuration has changed since this master last cleared the bit.
    pub const CONFIGURATION_CHANGED: u8 = 0x40;

    /// The device was restarted, and this is its first reply with a response code to this master since then.
    pub const COLD_START: u8 = 0x20;

    /// More status can be read by Command 48.
    pub const MORE_STATUS_AVAILABLE: u8 = 0x10;

    /// The loop current is held at a fixed value and does not follow the process.
    pub const LOOP_CURRENT_FIXED: u8 = 0x08;

    /// The loop current has reached its upper or lower limit and goes no further.
    pub const LOOP_CURRENT_SATURATED: u8 = 0x04;

    /// A variable other than the primary one is beyond its limits.
    pub const NON_PRIMARY_VARIABLE_OUT_OF_LIMITS: u8 = 0x02;

    /// The primary variable is beyond its limits.
    pub const PRIMARY_VARIABLE_OUT_OF_LIMITS: u8 = 0x01;
}
