//! Who a device is, as a C struct.
ghost use Rattle.std.specs.Prelude.{◌≡◌};
ghost use Rattle.hart_device.specs.Bench.{bench_identity};
ghost use Rattle.hart_c.specs.Numbers.{parts_of};

use hart_device::IdentityParts;

/// Who a device is (HCF_SPEC-127).
#[repr(C)]
#[derive(Clone, Copy)]
pub struct HartIdentity {
    /// The device id, at most 16,777,215.
    pub device_id: u32,
    /// The expanded device type. Its lower 14 bits are in the unique address.
    pub expanded_device_type: u16,
    /// The code of the manufacturer.
    pub manufacturer: u16,
    /// The code of the private label distributor.
    pub private_label_distributor: u16,
    /// The least number of preamble bytes of a request, 5 to 20.
    pub request_preambles: u8,
    /// The number of preamble bytes of a reply, 5 to 20.
    pub response_preambles: u8,
    /// The revision of the device.
    pub device_revision: u8,
    /// The revision of the device's software.
    pub software_revision: u8,
    /// The revision of the device's hardware, at most 31.
    pub hardware_revision: u8,
    /// The physical signalling code, at most 7.
    pub signalling_code: u8,
    /// The flags.
    pub flags: u8,
    /// The greatest number of device variables.
    pub device_variables: u8,
    /// The device profile.
    pub device_profile: u8,
}

/// Writes the identity of the bench device to `identity`.
#[unsafe(no_mangle)]
pub extern "C" fn hart_bench_identity(identity: &mut HartIdentity)
    ensures { parts_of identity.new ≡ bench_identity }
{
    *identity = HartIdentity {
        device_id: 0x0A1B2C,
        expanded_device_type: 0x3742,
        manufacturer: 0x0037,
        private_label_distributor: 0x0037,
        request_preambles: 5,
        response_preambles: 5,
        device_revision: 1,
        software_revision: 2,
        hardware_revision: 3,
        signalling_code: 0,
        flags: 0,
        device_variables: 4,
        device_profile: 1,
    };
}

/// Returns the parts of the identity that this `HartIdentity` describes.
pub(crate) fn parts_of(identity: &HartIdentity) -> IdentityParts
    ensures { result ≡ parts_of identity.now }
{
    IdentityParts {
        expanded_device_type: identity.expanded_device_type,
        device_id: identity.device_id,
        request_preambles: identity.request_preambles,
        response_preambles: identity.response_preambles,
        device_revision: identity.device_revision,
        software_revision: identity.software_revision,
        hardware_revision: identity.hardware_revision,
        signalling_code: identity.signalling_code,
        flags: identity.flags,
        device_variables: identity.device_variables,
        manufacturer: identity.manufacturer,
        private_label_distributor: identity.private_label_distributor,
        device_profile: identity.device_profile,
    }
}
