ghost use Rattle.std.specs.Prelude.{◌≡◌, ◌<◌, ◌^◌, ◌↔◌, IsOk, IfOk, IfErr, IsTrue};
ghost use Rattle.hart_frame.specs.wire.Message.{IsPreambleCount};
ghost use Rattle.hart_device.specs.Identity.{AreIdentityParts, AreInRange, IsIdentityFault, own_numbers, identity_content, three_bytes};

use crate::{DeviceFault, IdentityParts};
use hart_commands::IdentityContent;
use hart_frame::is_preamble_count;
use hart_values::{Address, UniqueAddress};
use std::marker::Model;

/// The major revision of the protocol.
const PROTOCOL_REVISION: u8 = 7;

/// The identity of a device (HCF_SPEC-127). Its numbers are in range, and its unique address is not the broadcast address.
///
/// In contracts, an identity is its parts.
#[derive(Clone, Copy, Debug, PartialEq, Eq)]
pub struct Identity {
    parts: IdentityParts,
}

impl Model for Identity {
    ghost use Rattle.hart_device.specs.declared.identity_parts.IdentityParts.{IdentityParts};
    ghost use Rattle.hart_device.specs.Identity.{AreIdentityParts};

    ghost Value = { IdentityParts };

    ghost view = { λ identity. identity.parts };

    ghost invariant = { λ identity. AreIdentityParts identity.parts };

    ghost inverse = { λ parts. record { parts = parts } };
}

impl Identity {
    /// Makes an identity from these parts.
    ///
    /// # Errors
    ///
    /// [`DeviceFault::OutOfRange`] if one of these numbers is out of range:
    ///
    /// - a device id above 16,777,215;
    /// - a number of preamble bytes outside 5 to 20;
    /// - a hardware revision above 31;
    /// - a signalling code above 7.
    ///
    /// Otherwise [`DeviceFault::BroadcastAddress`] if the device id and the lower 14 bits of the device type are both 0.
    pub fn new(parts: IdentityParts) -> Result<Self, DeviceFault>
        ensures accepted { IsOk result ↔ AreIdentityParts parts }
        ensures kept { IfOk result (λ identity. identity ≡ parts) }
        ensures refused { IfErr result (λ fault. IsIdentityFault parts fault) }
    {
        if !is_in_range(&parts) {
            return Err(DeviceFault::OutOfRange);
        }
        if Address::Unique(address_of(&parts)).is_broadcast() {
            return Err(DeviceFault::BroadcastAddress);
        }
        Ok(Identity { parts })
    }

    /// Returns the unique address of the device.
    pub fn unique_address(&self) -> UniqueAddress
        ensures { result ≡ own_numbers self.now }
    {
        address_of(&self.parts)
    }

    /// Returns the number of preamble bytes of a reply, 5 to 20.
    pub fn response_preambles(&self) -> u8
        ensures same { result ≡ self.now.response_preambles }
        ensures in_range { IsPreambleCount result }
        ensures identity { AreIdentityParts self.now }
    {
        self.parts.response_preambles
    }

    /// Returns the content of a reply to Command 0, with this configuration change counter and this extended device status.
    pub(crate) fn content(&self, counter: u16, extended_device_status: u8) -> IdentityContent
        ensures { result ≡ identity_content self.now counter extended_device_status }
    {
        let parts = &self.parts;
        IdentityContent {
            expanded_device_type: parts.expanded_device_type.to_be_bytes(),
            request_preambles: parts.request_preambles,
            protocol_revision: PROTOCOL_REVISION,
            device_revision: parts.device_revision,
            software_revision: parts.software_revision,
            hardware_and_signalling: 8 * parts.hardware_revision + parts.signalling_code,
            flags: parts.flags,
            device_id: three_bytes(parts.device_id),
            response_preambles: parts.response_preambles,
            device_variables: parts.device_variables,
            configuration_change_counter: counter.to_be_bytes(),
            extended_device_status,
            manufacturer: parts.manufacturer.to_be_bytes(),
            private_label_distributor: parts.private_label_distributor.to_be_bytes(),
            device_profile: parts.device_profile,
        }
    }
}

/// Returns true if each number is in its range.
fn is_in_range(parts: &IdentityParts) -> bool
    ensures { IsTrue result ↔ AreInRange parts.now }
{
    parts.device_id < 1 << 24
        && is_preamble_count(parts.request_preambles)
        && is_preamble_count(parts.response_preambles)
        && parts.hardware_revision < 1 << 5
        && parts.signalling_code < 1 << 3
}

/// Returns the unique address. Its two numbers are the lower 14 bits of the device type, and the device id.
fn address_of(parts: &IdentityParts) -> UniqueAddress
    requires { parts.now.device_id < 2 ^ 24 }
    ensures { result ≡ own_numbers parts.now }
{
    UniqueAddress::new(parts.expanded_device_type, parts.device_id).unwrap()
}

/// Returns the three bytes of a number of 24 bits, the most significant first.
fn three_bytes(number: u32) -> [u8; 3]
    requires { number < 2 ^ 24 }
    ensures { result ≡ three_bytes number }
{
    let [_, high, middle, low] = number.to_be_bytes();
    [high, middle, low]
}
