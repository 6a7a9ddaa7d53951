ghost use Rattle.std.specs.Prelude.{◌≡◌, ◌≤◌, ◌++◌, length};
ghost use Rattle.hart_commands.specs.Groups.{identity_of, identity_bytes};

use hart_values::Payload;

/// The first byte of an identity.
pub(crate) const FIRST_BYTE: u8 = 254;

/// The identity of a device, as in its reply to Command 0, 11 or 21 (HCF_SPEC-127).
///
/// Numbers of several bytes have the most significant byte first.
#[derive(Clone, Copy, Debug, PartialEq, Eq)]
pub struct IdentityContent {
    /// The expanded device type.
    pub expanded_device_type: [u8; 2],
    /// The least number of preamble bytes that a request to the device needs.
    pub request_preambles: u8,
    /// The major revision of the protocol. The device of this repository has 7.
    pub protocol_revision: u8,
    /// The revision of the device.
    pub device_revision: u8,
    /// The revision of the device's software.
    pub software_revision: u8,
    /// The revision of the hardware in the upper five bits, and the physical signalling code in the lower three bits.
    pub hardware_and_signalling: u8,
    /// The flags.
    pub flags: u8,
    /// The device id.
    pub device_id: [u8; 3],
    /// The least number of preamble bytes of the device's replies.
    pub response_preambles: u8,
    /// The greatest number of device variables.
    pub device_variables: u8,
    /// The configuration change counter.
    pub configuration_change_counter: [u8; 2],
    /// The extended device status.
    pub extended_device_status: u8,
    /// The code of the manufacturer.
    pub manufacturer: [u8; 2],
    /// The code of the private label distributor.
    pub private_label_distributor: [u8; 2],
    /// The device profile.
    pub device_profile: u8,
}

impl IdentityContent {
    /// Reads the identity from 22 bytes. The first byte is ignored.
    pub(crate) fn from_bytes(bytes: [u8; 22]) -> Self
        ensures { result ≡ identity_of bytes }
    {
        IdentityContent {
            expanded_device_type: [bytes[1], bytes[2]],
            request_preambles: bytes[3],
            protocol_revision: bytes[4],
            device_revision: bytes[5],
            software_revision: bytes[6],
            hardware_and_signalling: bytes[7],
            flags: bytes[8],
            device_id: [bytes[9], bytes[10], bytes[11]],
            response_preambles: bytes[12],
            device_variables: bytes[13],
            configuration_change_counter: [bytes[14], bytes[15]],
            extended_device_status: bytes[16],
            manufacturer: [bytes[17], bytes[18]],
            private_label_distributor: [bytes[19], bytes[20]],
            device_profile: bytes[21],
        }
    }

    /// Adds the 22 bytes of the identity at the end of a payload.
    pub(crate) fn push_to(&self, payload: &mut Payload)
        requires { length payload.old ≤ 200 }
        ensures { payload.new ≡ payload.old ++ identity_bytes self.now }
    {
        payload.push(FIRST_BYTE);
        payload.extend_from_slice(&self.expanded_device_type);
        payload.extend_from_slice(&[
            self.request_preambles,
            self.protocol_revision,
            self.device_revision,
            self.software_revision,
            self.hardware_and_signalling,
            self.flags,
        ]);
        payload.extend_from_slice(&self.device_id);
        payload.extend_from_slice(&[self.response_preambles, self.device_variables]);
        payload.extend_from_slice(&self.configuration_change_counter);
        payload.push(self.extended_device_status);
        payload.extend_from_slice(&self.manufacturer);
        payload.extend_from_slice(&self.private_label_distributor);
        payload.push(self.device_profile);
    }
}
