ghost use Rattle.std.specs.Prelude.{◌≡◌};
ghost use Rattle.hart_master.specs.Unique.{address_of, unique_in};

use hart_commands::{IdentityContent, Reply, ReplyContent};
use hart_values::Address;

/// Returns the unique address of the identity in a reply with code 0. Returns `None` for any other reply, and for the broadcast
/// address.
///
/// The unique address has only the lower 14 bits of the expanded device type.
pub fn unique_of(reply: &Reply) -> Option<Address>
    ensures { result ≡ unique_in reply.now }
{
    match &reply.content {
        ReplyContent::Identity(identity) if reply.code.value() == 0 => {
            Some(address_of(identity)).filter(|address| !address.is_broadcast())
        }
        _ => None,
    }
}

/// Returns the address of an identity, which may be the broadcast address.
fn address_of(identity: &IdentityContent) -> Address
    ensures { result ≡ address_of identity.now }
{
    let [high, middle, low] = identity.device_id;
    Address::unique(
        u16::from_be_bytes(identity.expanded_device_type),
        u32::from_be_bytes([0, high, middle, low]),
    )
    .unwrap()
}
