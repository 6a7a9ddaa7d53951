//! Where the parts of a body stand.
ghost use Rattle.std.specs.Prelude.{◌≡◌, ◌+◌, ◌<◌, ◌^◌, List, ℕ};
ghost use Rattle.hart_frame.specs.wire.Layout.{body_length, byte_count_in, delimiter_in};

use crate::FrameKind;
use crate::wire::delimiter::UNIQUE_COMMAND_PLACE;

/// The kind of a body and the places of its parts, as its delimiter and its byte count give them.
#[derive(Clone, Copy)]
pub(crate) struct Layout {
    pub(crate) kind: FrameKind,
    /// The place after the address bytes.
    pub(crate) address_end: u8,
    pub(crate) command_place: u8,
    pub(crate) byte_count: u8,
}

impl Layout {
    ghost use Rattle.hart_frame.specs.private.Layout.{layout_length};

    /// Returns the length of the body.
    pub(crate) fn body_len(self) -> usize
        ensures { result ≡ layout_length self }
    {
        body_len(usize::from(self.command_place), self.byte_count)
    }
}

/// Returns the length of the body of a request to a unique address, with this byte count and without expansion bytes.
pub fn unique_request_len(byte_count: u8) -> usize
    ensures len { result ≡ 9 + byte_count }
    ensures body { (bytes : List ℕ) → delimiter_in bytes ≡ 0x82 → byte_count_in bytes ≡ byte_count → body_length bytes ≡ result }
{
    body_len(UNIQUE_COMMAND_PLACE, byte_count)
}

/// Returns the length of a body whose command stands at this place. After the command come the byte count, `byte_count` bytes of payload,
/// and the check byte.
fn body_len(command_place: usize, byte_count: u8) -> usize
    requires { command_place + 3 + byte_count < 2 ^ 64 }
    ensures { result ≡ command_place + 3 + byte_count }
{
    command_place + 3 + usize::from(byte_count)
}
