//! Requests that a device heard with faults.
ghost use Rattle.std.specs.Prelude.{◌≡◌, ◌==◌, ◌^◌, ◌↔◌, ℕ, All, length, not, bit_and, IfSome, IsSome, IsTrue, MatchOption};
ghost use Rattle.std.specs.List.{list_any};
ghost use Rattle.hart_values.specs.declared.address.Address.TheVariants.{Unique};
ghost use Rattle.hart_values.specs.declared.master_id.MasterId.{MasterId};
ghost use Rattle.hart_frame.specs.heard.Character.{faultless};
ghost use Rattle.hart_device.specs.answer.Garbled.{BeginsWithGarbled, HasGarbled, IsAsking, communication_faults, garbled_reply};
ghost use Rattle.hart_device.specs.answer.Garbled.{has_fault, has_odd_bit};
ghost use Rattle.hart_device.specs.Bits.{bit_if};
ghost use Rattle.hart_device.specs.Identity.{own_numbers};
ghost use Rattle.hart_device.specs.declared.answer.garbled.GarbledRequest.{GarbledRequest};

use crate::Identity;
use crate::bits::bit_if;
use hart_frame::{
    Char, Frame, Payload, UNIQUE_COMMAND_PLACE, UNIQUE_REQUEST, are_faultless, first_start,
    unique_request_len,
};
use hart_values::{Address, CommFaults, MasterId, Status};

/// A request to a device, heard with faults.
#[derive(Clone, Copy, Debug, PartialEq, Eq)]
pub struct GarbledRequest {
    /// The master that the address of the request names.
    pub master: MasterId,
    /// The command, as it was heard.
    pub command: u8,
    /// The communication faults of all characters of the request.
    pub faults: CommFaults,
}

impl GarbledRequest {
    /// Returns the communication-fault reply of the device with this identity.
    pub(crate) fn reply(self, identity: &Identity) -> Frame
        ensures { result ≡ garbled_reply identity.now self }
    {
        let own = Address::Unique(identity.unique_address());
        let request = Frame::request(self.master, own, self.command, Payload::new());
        let mut payload = Payload::new();
        payload.extend_from_slice(&Status::Faulty(self.faults).bytes());
        request.reply(payload)
    }
}

/// Finds the garbled request in a delivery to the device with this identity. Returns `None` if the delivery has no garbled request.
///
/// The search looks only at the first place where a body may start.
pub(crate) fn garbled_in(identity: &Identity, delivery: &[Char]) -> Option<GarbledRequest>
    ensures { MatchOption result ((request : GarbledRequest) → HasGarbled identity.now delivery.now request → ⊥)
        (HasGarbled identity.now delivery.now) }
{
    garbled_at(identity, &delivery[first_start(delivery)?..])
}

/// Reads the garbled request at the front of the characters. Returns `None` if no garbled request begins there.
fn garbled_at(identity: &Identity, chars: &[Char]) -> Option<GarbledRequest>
    ensures { MatchOption result ((request : GarbledRequest) → BeginsWithGarbled identity.now chars.now request → ⊥)
        (BeginsWithGarbled identity.now chars.now) }
{
    let master = asking_master(identity, chars.get(..UNIQUE_COMMAND_PLACE)?)?;
    let command = chars.get(UNIQUE_COMMAND_PLACE)?.byte();
    let byte_count = chars.get(UNIQUE_COMMAND_PLACE + 1)?.byte();
    let garbled = chars.get(..unique_request_len(byte_count))?;
    Some(GarbledRequest {
        master,
        command,
        faults: communication_faults(garbled),
    })
}

/// Reads the first six characters of a request, and returns the master that sent it. Returns `None` if a character has a fault. Returns
/// `None` too if the bytes are not the delimiter hex 82 and the unique address of the device with this identity.
fn asking_master(identity: &Identity, head: &[Char]) -> Option<MasterId>
    ensures { MatchOption result ((master : MasterId) → IsAsking identity.now head.now master → ⊥) (IsAsking identity.now head.now) }
{
    let [delimiter, first, second, third, fourth, fifth] = bytes_of_head(head)?;
    let (master, _burst, address) = Address::read(&[first, second, third, fourth, fifth])?;
    if delimiter != UNIQUE_REQUEST || !is_own(identity, address) {
        return None;
    }
    Some(master)
}

/// Returns the bytes of six characters without faults. Returns `None` for any other number of characters, and if a character has a fault.
#[tactic(auto, using(std::proofs::lemmas::Grind::common_steps, std::proofs::lemmas::Bool::Decides::nat_tests))]
fn bytes_of_head(head: &[Char]) -> Option<[u8; 6]>
    ensures bytes { IfSome result (λ bytes. head.now ≡ faultless bytes) }
    ensures all { length head.now ≡ 6 → All (λ character. character.faults ≡ 0) head.now → IsSome result }
{
    let [delimiter, first, second, third, fourth, fifth] = head else {
        return None;
    };
    if !are_faultless(head) {
        return None;
    }
    Some([
        delimiter.byte(),
        first.byte(),
        second.byte(),
        third.byte(),
        fourth.byte(),
        fifth.byte(),
    ])
}

/// Returns true for the unique address of the device with this identity.
fn is_own(identity: &Identity, address: Address) -> bool
    ensures { IsTrue result ↔ (address ≡ Unique (own_numbers identity.now)) }
{
    match address {
        Address::Polling(_) => false,
        Address::Unique(unique) => unique == identity.unique_address(),
    }
}

/// Returns the communication faults of the characters. The bit for longitudinal parity depends only on the bytes of the characters, and the
/// other bits only on their fault bits.
fn communication_faults(chars: &[Char]) -> CommFaults
    ensures { result ≡ communication_faults chars.now }
{
    let faults = fault_if(chars, CommFaults::VERTICAL_PARITY)
        | fault_if(chars, CommFaults::OVERRUN)
        | fault_if(chars, CommFaults::FRAMING)
        | bit_if(has_odd_bit(chars), CommFaults::LONGITUDINAL_PARITY)
        | fault_if(chars, CommFaults::BUFFER_OVERFLOW);
    CommFaults::new(faults).unwrap()
}

/// Returns `fault` if one of the characters has this fault bit, and otherwise 0.
fn fault_if(chars: &[Char], fault: u8) -> u8
    ensures { (bit : ℕ) → fault ≡ 2 ^ bit → result ≡ bit_if (has_fault bit chars.now) fault }
{
    bit_if(has_fault(chars, fault), fault)
}

/// Returns true if one of the characters has one of these fault bits.
fn has_fault(chars: &[Char], faults: u8) -> bool
    ensures { result ≡ list_any (λ character. not (bit_and character.faults faults == 0)) chars.now }
{
    chars
        .iter()
        .any(|character| character.faults() & faults != 0)
}

/// Returns true if the exclusive or of the bytes is not 0.
fn has_odd_bit(chars: &[Char]) -> bool
    ensures { result ≡ has_odd_bit chars.now }
{
    let mut check = 0;
    for character in chars {
        check ^= character.byte();
    }
    check != 0
}
