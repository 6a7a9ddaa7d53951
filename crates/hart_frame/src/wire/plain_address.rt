//! Addresses as plain numbers. A view holds its address in this form, because the type of a field of a view may not implement `Model`. For
//! a type that implements `Model`, contracts see another value in place of the value itself.
ghost use Rattle.std.specs.Prelude.{◌≡◌};
ghost use Rattle.hart_frame.specs.private.Address.{IsInRange};
ghost use Rattle.hart_frame.specs.wire.View.{address_of};

use hart_values::Address;

/// The numbers of an address: a polling address, or an expanded device type and a device id.
#[derive(Clone, Copy)]
pub(crate) enum PlainAddress {
    Polling(u8),
    Unique(u16, u32),
}

/// Returns the numbers of an address.
pub(crate) fn plain_of(address: Address) -> PlainAddress
    ensures { address_of result ≡ address }
{
    match address {
        Address::Polling(polling) => PlainAddress::Polling(polling.number()),
        Address::Unique(unique) => PlainAddress::Unique(unique.expanded_type(), unique.device_id()),
    }
}

/// Returns the address of these numbers.
pub(crate) fn address_of_plain(plain: PlainAddress) -> Address
    requires { IsInRange plain }
    ensures { result ≡ address_of plain }
{
    match plain {
        PlainAddress::Polling(number) => Address::polling(number).unwrap(),
        PlainAddress::Unique(expanded_type, device_id) => {
            Address::unique(expanded_type, device_id).unwrap()
        }
    }
}
