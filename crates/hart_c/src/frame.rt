//! A frame, as a C struct of 288 bytes. It is used to find, read and write frames. A call writes only the bytes that the frame needs.
ghost use Rattle.std.specs.Prelude.{◌≡◌, ◌≤◌, false, length, true};
ghost use Rattle.hart_frame.specs.wire.View.{found_of};
ghost use Rattle.hart_c.specs.Numbers.{IsTidy, address_of, found_in, frame_in};

use hart_frame::{FoundView, Frame, FrameKind};
use hart_values::{Address, MasterId};

/// A frame, and where it stands in the characters that were passed.
#[repr(C)]
#[derive(Clone, Copy)]
pub struct HartFrame {
    /// The place of the delimiter, from 0.
    pub start: u64,
    /// The place after the check byte.
    pub stop: u64,
    /// The device id of a unique address, at most 16,777,215; 0 for a polling address.
    pub device_id: u32,
    /// The expanded device type of a unique address, at most 16,383; 0 for a polling address.
    pub expanded_type: u16,
    /// Whether the frame is a reply (ACK). Otherwise it is a request (STX).
    pub is_reply: bool,
    /// Whether the master of the frame is the primary one.
    pub is_primary: bool,
    /// The burst bit.
    pub is_burst: bool,
    /// Whether the address of the frame is a unique address of five bytes. Otherwise it is a polling address. A unique address with 0 as
    /// `expanded_type` and as `device_id` is the broadcast address.
    pub is_unique: bool,
    /// The polling address, at most 63; 0 for a unique address.
    pub polling_address: u8,
    /// The command number.
    pub command: u8,
    /// How many expansion bytes there are, at most 3.
    pub expansion_len: u8,
    /// How many payload bytes there are.
    pub payload_len: u8,
    /// The expansion bytes. Only the first `expansion_len` bytes are used.
    pub expansion: [u8; 3],
    /// The payload. The payload of a reply begins with the two status bytes. Only the first `payload_len` bytes are used.
    pub payload: [u8; 255],
}

/// A frame of zeros, for a master with no request in hand.
pub(crate) const NO_FRAME: HartFrame = HartFrame {
    start: 0,
    stop: 0,
    device_id: 0,
    expanded_type: 0,
    is_reply: false,
    is_primary: false,
    is_burst: false,
    is_unique: false,
    polling_address: 0,
    command: 0,
    expansion_len: 0,
    payload_len: 0,
    expansion: [0; 3],
    payload: [0; 255],
};

/// The parts of a frame. Parts that are byte strings are borrowed.
#[derive(Drop)]
struct Parts<'a> {
    kind: FrameKind,
    master: MasterId,
    burst: bool,
    address: Address,
    expansion: &'a [u8],
    command: u8,
    payload: &'a [u8],
}

/// Writes to `frame` the frame that a scanner found.
#[inline(always)]
pub(crate) fn show_found(found: &FoundView<'_>, frame: &mut HartFrame)
    ensures found { found_in frame.new ≡ found_of found.now }
    ensures tidy { IsTidy frame.new }
{
    let view = &found.frame;
    let parts = Parts {
        kind: view.kind(),
        master: view.master(),
        burst: view.burst(),
        expansion: view.expansion(),
        command: view.command(),
        payload: view.payload(),
        address: view.address(),
    };
    show_parts(&parts, frame);
    frame.start = found.start;
    frame.stop = found.stop;
}

/// Writes to `frame` a frame, and the places where it starts and stops.
pub(crate) fn show_frame(shown: &Frame, start: u64, stop: u64, frame: &mut HartFrame)
    ensures found { found_in frame.new ≡ record { start = start; stop = stop; frame = shown.now } }
    ensures tidy { IsTidy frame.new }
{
    let parts = Parts {
        kind: shown.kind(),
        master: shown.master(),
        burst: shown.burst(),
        address: shown.address(),
        expansion: shown.expansion(),
        command: shown.command(),
        payload: shown.payload(),
    };
    show_parts(&parts, frame);
    frame.start = start;
    frame.stop = stop;
}

/// Replaces the parts of `frame` by these parts.
#[inline(always)]
fn show_parts(parts: &Parts<'_>, frame: &mut HartFrame)
    requires expansion { length parts.now.expansion.now ≤ 3 }
    requires payload { length parts.now.payload.now ≤ 255 }
    ensures parts { frame_in frame.new ≡ record {
      kind = parts.now.kind;
      master = parts.now.master;
      burst = parts.now.burst;
      address = parts.now.address;
      expansion = parts.now.expansion.now;
      command = parts.now.command;
      payload = parts.now.payload.now;
    } }
    ensures tidy { IsTidy frame.new }
{
    show_address(parts.address, frame);
    frame.is_reply = parts.kind == FrameKind::Ack;
    frame.is_primary = parts.master == MasterId::Primary;
    frame.is_burst = parts.burst;
    frame.command = parts.command;
    frame.expansion_len = parts.expansion.len() as u8;
    if !parts.expansion.is_empty() {
        frame.expansion[..parts.expansion.len()].copy_from_slice(parts.expansion);
    }
    frame.payload_len = parts.payload.len() as u8;
    frame.payload[..parts.payload.len()].copy_from_slice(parts.payload);
}

/// Replaces the address of `frame` by this address. The other parts stay the same.
#[inline(always)]
fn show_address(address: Address, frame: &mut HartFrame)
    ensures address { address_of frame.new.is_unique frame.new ≡ address }
    ensures polling { frame.new.is_unique ≡ true → frame.new.polling_address ≡ 0 }
    ensures unique { frame.new.is_unique ≡ false → (frame.new.expanded_type ≡ 0) × (frame.new.device_id ≡ 0) }
    ensures others { frame.new ≡ record frame.old {
      is_unique = frame.new.is_unique;
      polling_address = frame.new.polling_address;
      expanded_type = frame.new.expanded_type;
      device_id = frame.new.device_id;
    } }
{
    match address {
        Address::Polling(polling) => {
            frame.is_unique = false;
            frame.polling_address = polling.number();
            frame.expanded_type = 0;
            frame.device_id = 0;
        }
        Address::Unique(unique) => {
            frame.is_unique = true;
            frame.polling_address = 0;
            frame.expanded_type = unique.expanded_type();
            frame.device_id = unique.device_id();
        }
    }
}
