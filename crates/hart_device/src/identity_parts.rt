/// The numbers of a device's identity (HCF_SPEC-127). [`Identity::new`](crate::Identity::new) says which numbers are accepted.
#[derive(Clone, Copy, Debug, PartialEq, Eq)]
pub struct IdentityParts {
    /// The expanded device type. Its lower 14 bits are in the unique address.
    pub expanded_device_type: u16,
    /// The device id, at most 16,777,215.
    pub device_id: u32,
    /// The least number of preamble bytes of a request, 5 to 20.
    pub request_preambles: u8,
    /// The number of preamble bytes of a reply, 5 to 20.
    pub response_preambles: u8,
    /// The revision of the device.
    pub device_revision: u8,
    /// The revision of the device's software.
    pub software_revision: u8,
    /// The revision of the device's hardware, at most 31.
    pub hardware_revision: u8,
    /// The physical signalling code, at most 7.
    pub signalling_code: u8,
    /// The flags.
    pub flags: u8,
    /// The greatest number of device variables.
    pub device_variables: u8,
    /// The code of the manufacturer.
    pub manufacturer: u16,
    /// The code of the private label distributor.
    pub private_label_distributor: u16,
    /// The device profile.
    pub device_profile: u8,
}
