//! The header at the front of bytes.
ghost use Rattle.std.specs.Prelude.{◌≡◌, option_map};
ghost use Rattle.hart_frame.specs.private.Address.{IsInRange};

use crate::FrameKind;
use crate::wire::delimiter::read_delimiter;
use crate::wire::plain_address::{PlainAddress, address_of_plain, plain_of};
use hart_values::{Address, MasterId};

/// The header of a frame: its kind, its master, its address and its command.
#[derive(Clone, Copy)]
pub struct Header {
    kind: FrameKind,
    master: MasterId,
    address: PlainAddress,
    command: u8,
    ghost in_range: { IsInRange address },
}

impl Header {
    ghost use Rattle.hart_frame.specs.wire.Header.{header_in, header_parts};

    /// Returns whether the frame is a request or a reply.
    pub fn kind(&self) -> FrameKind
        ensures { result ≡ (header_parts self.now).kind }
    {
        self.kind
    }

    /// Returns the master: the sender of a request, or the receiver of a reply.
    pub fn master(&self) -> MasterId
        ensures { result ≡ (header_parts self.now).master }
    {
        self.master
    }

    /// Returns the address.
    pub fn address(&self) -> Address
        ensures { result ≡ (header_parts self.now).address }
    {
        address_of_plain(self.address)
    }

    /// Returns the command number.
    pub fn command(&self) -> u8
        ensures { result ≡ (header_parts self.now).command }
    {
        self.command
    }

    /// Reads the header at the front of the bytes. Returns `None` if the first byte is no STX or ACK delimiter, or if the bytes end before
    /// the command.
    #[tactic(auto, unfolding(crate::specs::wire::Header::header_in))]
    pub(crate) fn read(bytes: &[u8]) -> Option<Header>
        ensures { option_map header_parts result ≡ header_in bytes.now }
    {
        let delimiter = read_delimiter(*bytes.first()?)?;
        let command_place = delimiter.command_place();
        let command = *bytes.get(command_place)?;
        let (master, _, address) = Address::read(&bytes[1..delimiter.address_end()])?;
        Some(Header {
            kind: delimiter.kind,
            master,
            address: plain_of(address),
            command,
        })
    }
}
