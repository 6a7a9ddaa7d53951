//! The first byte of a body: bit 7 is the address type, bits 6 and 5 are the number of expansion bytes, and bits 2 to 0 are the kind.
ghost use Rattle.std.specs.Prelude.{◌≡◌, ◌≤◌, ◌+◌, ◌*◌, ◌/◌, ◌%◌, ◌⊎◌, ◌↔◌, IsSome, IfSome, IsTrue};
ghost use Rattle.hart_frame.specs.wire.Delimiter.{IsDelimiter, delimiter_of, is_burst_delimiter, kind_code};

use crate::wire::layout::Layout;
use crate::{Frame, FrameKind};
use hart_values::Address;

const UNIQUE_ADDRESS: u8 = 0x80;

const EXPANSION_BYTE: u8 = 0x20;

const PHYSICAL_LAYER: u8 = 0x08;

const STX: u8 = 0x02;

const ACK: u8 = 0x06;

const BURST: u8 = 0x01;

/// The bits that are the same in all delimiters of STX and ACK: bits 4 and 3 (the physical layer), and bits 1 and 0 of the kind. Bit 2 is
/// left out, because an STX and an ACK differ in it.
const ALIKE: u8 = 0x1B;

/// The delimiter of a request to a unique address, without expansion bytes.
pub const UNIQUE_REQUEST: u8 = 0x82;

// The prover refuses any other value.
const _: () = prove!(UNIQUE_REQUEST == 0x82);

/// The place of the command in a body that begins with [`UNIQUE_REQUEST`]: after this delimiter and five address bytes.
pub const UNIQUE_COMMAND_PLACE: usize = 6;

/// What a delimiter says of the bytes after it.
#[derive(Clone, Copy)]
pub(crate) struct Delimiter {
    pub(crate) kind: FrameKind,
    /// The number of address bytes: one or five.
    pub(crate) address_len: u8,
    /// The number of expansion bytes, at most 3.
    pub(crate) expansion_len: u8,
    ghost address_fits: { address_len ≤ 5 },
    ghost expansion_fits: { expansion_len ≤ 3 },
}

impl Delimiter {
    /// Returns the place after the address bytes.
    pub(crate) fn address_end(self) -> usize
        ensures { result ≡ 1 + self.address_len }
    {
        1 + usize::from(self.address_len)
    }

    /// Returns the place of the command: after the delimiter, the address bytes and the expansion bytes.
    pub(crate) fn command_place(self) -> usize
        ensures { result ≡ 1 + self.address_len + self.expansion_len }
    {
        usize::from(1 + self.address_len + self.expansion_len)
    }

    /// Returns the place of the byte count, right after the command.
    pub(crate) fn byte_count_place(self) -> usize
        ensures { result ≡ 2 + self.address_len + self.expansion_len }
    {
        self.command_place() + 1
    }

    /// Returns the layout of a body with this delimiter and this byte count. Returns `None` if the byte count of an ACK is below 2, because
    /// its payload has at least two status bytes.
    pub(crate) fn layout(self, byte_count: u8) -> Option<Layout>
        ensures allowed { IsSome result ↔ ((kind_code self.kind ≡ 2) ⊎ (2 ≤ byte_count)) }
        ensures kind { IfSome result (λ layout. layout.kind ≡ self.kind) }
        ensures address { IfSome result (λ layout. layout.address_end ≡ 1 + self.address_len) }
        ensures command { IfSome result (λ layout. layout.command_place ≡ 1 + self.address_len + self.expansion_len) }
        ensures count { IfSome result (λ layout. layout.byte_count ≡ byte_count) }
    {
        if self.kind == FrameKind::Ack && byte_count < 2 {
            return None;
        }
        let address_end = 1 + self.address_len;
        Some(Layout {
            kind: self.kind,
            address_end,
            command_place: address_end + self.expansion_len,
            byte_count,
        })
    }
}

/// Returns the delimiter of the frame's body.
pub(crate) fn delimiter_byte(frame: &Frame) -> u8
    ensures { result ≡ delimiter_of frame.now }
{
    let address_type = match frame.address() {
        Address::Polling(_) => 0,
        Address::Unique(_) => UNIQUE_ADDRESS,
    };
    let kind = match frame.kind() {
        FrameKind::Stx => STX,
        FrameKind::Ack => ACK,
    };
    address_type + EXPANSION_BYTE * frame.expansion().len() as u8 + kind
}

/// Reads the byte as a delimiter. Returns `None` if it is no STX or ACK delimiter.
pub(crate) fn read_delimiter(byte: u8) -> Option<Delimiter>
    ensures known { IsSome result ↔ IsDelimiter byte }
    ensures kind { IfSome result (λ delimiter. kind_code delimiter.kind ≡ byte % 8) }
    ensures address { IfSome result (λ delimiter. delimiter.address_len ≡ 1 + 4 * (byte / 128)) }
    ensures expansion { IfSome result (λ delimiter. delimiter.expansion_len ≡ byte / 32 % 4) }
{
    if byte & ALIKE != STX {
        return None;
    }
    let kind = if byte & ACK == STX {
        FrameKind::Stx
    } else {
        FrameKind::Ack
    };
    Some(Delimiter {
        kind,
        address_len: if byte < UNIQUE_ADDRESS { 1 } else { 5 },
        expansion_len: byte / EXPANSION_BYTE % 4,
    })
}

/// Returns true if the byte is the delimiter of a burst message. This crate does not decode burst messages.
pub(crate) fn is_burst_delimiter(byte: u8) -> bool
    ensures { result ≡ is_burst_delimiter byte }
{
    byte / PHYSICAL_LAYER % 4 == 0 && byte % PHYSICAL_LAYER == BURST
}
