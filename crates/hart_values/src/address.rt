//! Addresses of a message, and their bytes.
ghost use Rattle.std.specs.Prelude.{◌≡◌, ◌<◌, ◌%◌, ◌^◌, ◌↔◌, ◌⊎◌, length, Bool, Some, IsTrue, IsOk, IsSome, IfOk, IfErr, IfSome};

use crate::address::first_byte::{join_first_byte, split_first_byte};
use crate::{ByteList, MasterId, PollingAddress, UniqueAddress, ValueFault};

pub mod first_byte;
pub mod polling_address;
pub mod unique_address;

/// The bytes of an address in a message: one or five.
pub type AddressBytes = ByteList<5>;

/// The address of a message (HCF_SPEC-081): a polling address of one byte, or a unique address of five.
#[derive(Clone, Copy, Debug, PartialEq, Eq, Hash)]
pub enum Address {
    /// A polling address, of one byte.
    Polling(PollingAddress),
    /// A unique address or the broadcast address, of five bytes.
    Unique(UniqueAddress),
}

impl Address {
    ghost use Rattle.hart_values.specs.address.AddressBytes.{IsAddressBytes, broadcast, is_broadcast};

    /// Returns the polling address with this number.
    ///
    /// # Errors
    ///
    /// [`ValueFault::OutOfRange`] if `number` is above 63.
    pub fn polling(number: u8) -> Result<Self, ValueFault>
        ensures accepted { IsOk result ↔ (number < 64) }
        ensures kept { IfOk result (λ address. address ≡ Address.Polling number) }
        ensures refused { IfErr result (λ fault. fault ≡ ValueFault.OutOfRange) }
    {
        Ok(Address::Polling(PollingAddress::new(number)?))
    }

    /// Returns the unique address with this device id and with the lower 14 bits of this expanded device type.
    ///
    /// # Errors
    ///
    /// [`ValueFault::OutOfRange`] if `device_id` is above 16,777,215.
    pub fn unique(expanded_type: u16, device_id: u32) -> Result<Self, ValueFault>
        ensures accepted { IsOk result ↔ (device_id < 2 ^ 24) }
        ensures kept { IfOk result (λ address. address ≡
            Address.Unique (record { expanded_type = expanded_type % 2 ^ 14; device_id = device_id })) }
        ensures refused { IfErr result (λ fault. fault ≡ ValueFault.OutOfRange) }
    {
        Ok(Address::Unique(UniqueAddress::new(expanded_type, device_id)?))
    }

    /// Returns true if this is the broadcast address, which is the unique address with type 0 and device id 0.
    pub fn is_broadcast(self) -> bool
        ensures known { IsTrue result ↔ (self ≡ broadcast) }
        ensures test { result ≡ is_broadcast self }
    {
        match self {
            Address::Polling(_) => false,
            Address::Unique(unique) => unique.expanded_type() == 0 && unique.device_id() == 0,
        }
    }

    /// Returns the bytes of the address in a message. The first byte includes the master bit and the burst bit. `master` is the master that
    /// sends or receives the message.
    pub fn bytes(self, master: MasterId, burst: bool) -> AddressBytes
        ensures { IsAddressBytes master burst self result }
    {
        let mut bytes = AddressBytes::new();
        match self {
            Address::Polling(polling) => bytes.push(join_first_byte(
                master,
                burst,
                polling.number(),
            )),
            Address::Unique(unique) => {
                let [type_high, type_low] = unique.expanded_type().to_be_bytes();
                let [_, id_high, id_middle, id_low] = unique.device_id().to_be_bytes();
                bytes.push(join_first_byte(master, burst, type_high));
                bytes.extend_from_slice(&[type_low, id_high, id_middle, id_low]);
            }
        }
        bytes
    }

    /// Reads the master bit, the burst bit and the address from these bytes.
    ///
    /// One byte is a polling address, five bytes are a unique address. The result is `None` for any other number of bytes.
    pub fn read(bytes: &[u8]) -> Option<(MasterId, bool, Address)>
        ensures lengths { IsSome result ↔ ((length bytes.now ≡ 1) ⊎ (length bytes.now ≡ 5)) }
        ensures found { IfSome result (λ (master, burst, address). IsAddressBytes master burst address bytes.now) }
        ensures only { (master : MasterId) (burst : Bool) (address : Address)
            → IsAddressBytes master burst address bytes.now → result ≡ Some (master, burst, address) }
    {
        let (master, burst, six_bits) = split_first_byte(*bytes.first()?);
        let address = match bytes {
            [_] => Address::polling(six_bits),
            [_, type_low, id_high, id_middle, id_low] => Address::unique(
                u16::from_be_bytes([six_bits, *type_low]),
                u32::from_be_bytes([0, *id_high, *id_middle, *id_low]),
            ),
            _ => return None,
        };
        Some((master, burst, address.ok()?))
    }
}
