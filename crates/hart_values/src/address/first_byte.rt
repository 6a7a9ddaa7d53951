//! The first byte of an address: the master bit, the burst bit, and six bits of the address.
ghost use Rattle.std.specs.Prelude.{◌≡◌, ◌<◌};
ghost use Rattle.hart_values.specs.address.AddressBytes.{first_byte};

use crate::MasterId;

const MASTER_BIT: u8 = 0x80;

const BURST_BIT: u8 = 0x40;

/// Returns the first byte of an address: the master bit, the burst bit and these six bits of the address.
pub(crate) fn join_first_byte(master: MasterId, burst: bool, six_bits: u8) -> u8
    requires { six_bits < 64 }
    ensures { result ≡ first_byte master burst six_bits }
{
    let master_bit = match master {
        MasterId::Primary => MASTER_BIT,
        MasterId::Secondary => 0,
    };
    let burst_bit = if burst { BURST_BIT } else { 0 };
    master_bit + burst_bit + six_bits
}

/// Splits the first byte of an address into the master, the burst bit and the six bits of the address.
pub(crate) fn split_first_byte(byte: u8) -> (MasterId, bool, u8)
    ensures joined { byte ≡ first_byte result.0 result.1 result.2 }
    ensures in_range { result.2 < 64 }
{
    let master = if byte < MASTER_BIT {
        MasterId::Secondary
    } else {
        MasterId::Primary
    };
    let low_bits = byte % MASTER_BIT;
    (master, low_bits >= BURST_BIT, low_bits % BURST_BIT)
}
