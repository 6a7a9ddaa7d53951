ghost use Rattle.std.specs.Prelude.{◌≡◌, ◌≤◌, ◌-◌, length};
ghost use Rattle.hart_frame.specs.wire.Body.{IsBody};
ghost use Rattle.hart_frame.specs.private.Prefix.{IsWholeBody};
ghost use Rattle.hart_frame.specs.private.Address.{IsInRange};
ghost use Rattle.hart_frame.specs.declared.wire.kind.FrameKind.TheVariants.{Ack};

use crate::wire::layout::Layout;
use crate::wire::plain_address::{PlainAddress, address_of_plain, plain_of};
use crate::{Expansion, Frame, FrameKind, Payload};
use hart_values::{Address, MasterId};

/// A frame that borrows its expansion bytes and its payload from a scanner, or from bytes in memory.
///
/// The address is held as plain numbers, and ghost facts replace a `Model`: the prover handles no borrowing struct with a field whose type
/// implements `Model`.
#[derive(Drop)]
pub struct FrameView<'a> {
    kind: FrameKind,
    master: MasterId,
    burst: bool,
    address: PlainAddress,
    expansion: &'a [u8],
    command: u8,
    payload: &'a [u8],
    ghost in_range: { IsInRange address },
    ghost few_expansion_bytes: { length expansion.now ≤ 3 },
    ghost few_payload_bytes: { length payload.now ≤ 255 },
    ghost long_enough: { kind ≡ Ack → 2 ≤ length payload.now },
}

impl FrameView<'_> {
    ghost use Rattle.hart_frame.specs.wire.FrameParts.{IsLongEnough};
    ghost use Rattle.hart_frame.specs.wire.View.{parts_of};

    /// Returns whether the frame is a request or a reply.
    pub fn kind(&self) -> FrameKind
        ensures { result ≡ (parts_of self.now).kind }
    {
        self.kind
    }

    /// Returns the master: the sender of a request, or the receiver of a reply.
    pub fn master(&self) -> MasterId
        ensures { result ≡ (parts_of self.now).master }
    {
        self.master
    }

    /// Returns the burst bit.
    pub fn burst(&self) -> bool
        ensures { result ≡ (parts_of self.now).burst }
    {
        self.burst
    }

    /// Returns the address.
    pub fn address(&self) -> Address
        ensures { result ≡ (parts_of self.now).address }
    {
        address_of_plain(self.address)
    }

    /// Returns the expansion bytes, at most 3.
    pub fn expansion(&self) -> &[u8]
        ensures expansion { result.now ≡ (parts_of self.now).expansion }
        ensures fits { length result.now ≤ 3 }
    {
        self.expansion
    }

    /// Returns the command number.
    pub fn command(&self) -> u8
        ensures { result ≡ (parts_of self.now).command }
    {
        self.command
    }

    /// Returns the payload, at most 255 bytes. An ACK's payload has at least its two status bytes.
    pub fn payload(&self) -> &[u8]
        ensures payload { result.now ≡ (parts_of self.now).payload }
        ensures fits { length result.now ≤ 255 }
        ensures long_enough { IsLongEnough (parts_of self.now).kind result.now }
    {
        self.payload
    }

    /// Returns the same frame with its own copy of the expansion bytes and the payload.
    pub fn to_frame(&self) -> Frame
        ensures { result ≡ parts_of self.now }
    {
        let address = self.address();
        let expansion = Expansion::from_slice(self.expansion).unwrap();
        let payload = Payload::from_slice(self.payload).unwrap();
        Frame::new(
            self.kind,
            self.master,
            self.burst,
            address,
            expansion,
            self.command,
            payload,
        )
        .unwrap()
    }
}

impl<'a> FrameView<'a> {
    ghost use Rattle.hart_frame.specs.wire.View.{parts_of};

    /// Returns a view of the frame whose body is `bytes` and has this layout.
    pub(crate) fn view_in(layout: Layout, bytes: &'a [u8]) -> FrameView<'a>
        requires body { IsWholeBody layout bytes.now }
        ensures { IsBody (parts_of result) bytes.now }
    {
        let address_end = usize::from(layout.address_end);
        let command_place = usize::from(layout.command_place);
        let payload_place = command_place + 2;
        let payload_end = payload_place + usize::from(layout.byte_count);
        let (master, burst, address) = Address::read(&bytes[1..address_end]).unwrap();
        FrameView {
            kind: layout.kind,
            master,
            burst,
            address: plain_of(address),
            expansion: &bytes[address_end..command_place],
            command: bytes[command_place],
            payload: &bytes[payload_place..payload_end],
        }
    }
}
