ghost use Rattle.std.specs.Prelude.{◌≡◌, ◌≤◌, ◌↔◌, length, IsOk, IfOk, IfErr};

use crate::wire::message::push_body;
use crate::{Body, FrameFault, FrameKind};
use hart_values::{Address, ByteList, MasterId, Payload};
use std::marker::Model;

mod in_place;

/// The expansion bytes of a frame, at most 3.
pub type Expansion = ByteList<3>;

/// What one message says: a request of a master or the reply of a device (HCF_SPEC-081).
#[derive(Debug, Drop, PartialEq, Eq)]
pub struct Frame {
    kind: FrameKind,
    master: MasterId,
    burst: bool,
    address: Address,
    expansion: Expansion,
    command: u8,
    payload: Payload,
}

impl Model for Frame {
    ghost use Rattle.hart_frame.specs.wire.FrameParts.{FrameParts, IsLongEnough};

    ghost Value = { FrameParts };

    ghost view = { λ f. record {
      kind = f.kind;
      master = f.master;
      burst = f.burst;
      address = f.address;
      expansion = f.expansion;
      command = f.command;
      payload = f.payload;
    } };

    ghost invariant = { λ f. IsLongEnough f.kind f.payload };

    ghost inverse = { λ f. record {
      kind = f.kind;
      master = f.master;
      burst = f.burst;
      address = f.address;
      expansion = f.expansion;
      command = f.command;
      payload = f.payload;
    } };
}

impl Frame {
    ghost use Rattle.hart_frame.specs.wire.FrameParts.{IsLongEnough, request_parts, reply_parts};
    ghost use Rattle.hart_frame.specs.wire.Body.{IsBody};

    /// Returns the frame of these parts.
    ///
    /// # Errors
    ///
    /// [`FrameFault::TooShortReply`] if an ACK's payload has fewer than 2 bytes.
    pub fn new(
        kind: FrameKind,
        master: MasterId,
        burst: bool,
        address: Address,
        expansion: Expansion,
        command: u8,
        payload: Payload,
    ) -> Result<Self, FrameFault>
        ensures accepted { IsOk result ↔ IsLongEnough kind payload }
        ensures kept { IfOk result (λ frame. frame ≡ record {
          kind = kind;
          master = master;
          burst = burst;
          address = address;
          expansion = expansion;
          command = command;
          payload = payload;
        }) }
        ensures refused { IfErr result (λ fault. fault ≡ FrameFault.TooShortReply) }
    {
        if kind == FrameKind::Ack && payload.len() < 2 {
            return Err(FrameFault::TooShortReply);
        }
        Ok(Frame {
            kind,
            master,
            burst,
            address,
            expansion,
            command,
            payload,
        })
    }

    /// Returns the request of this master to this address: an STX with the burst bit clear and without expansion bytes.
    pub fn request(master: MasterId, address: Address, command: u8, payload: Payload) -> Self
        ensures { result ≡ request_parts master address command payload }
    {
        Frame {
            kind: FrameKind::Stx,
            master,
            burst: false,
            address,
            expansion: Expansion::new(),
            command,
            payload,
        }
    }

    /// Returns the reply to this frame: an ACK with the same master bit, address and command, with the burst bit clear and without
    /// expansion bytes.
    ///
    /// The payload begins with the two status bytes.
    pub fn reply(&self, payload: Payload) -> Self
        requires { 2 ≤ length payload }
        ensures { result ≡ reply_parts self.now payload }
    {
        Frame {
            kind: FrameKind::Ack,
            master: self.master,
            burst: false,
            address: self.address,
            expansion: Expansion::new(),
            command: self.command,
            payload,
        }
    }

    /// Returns whether the frame is a request or a reply.
    pub fn kind(&self) -> FrameKind
        ensures { result ≡ self.now.kind }
    {
        self.kind
    }

    /// Returns the master: the sender of a request, or the receiver of a reply.
    pub fn master(&self) -> MasterId
        ensures { result ≡ self.now.master }
    {
        self.master
    }

    /// Returns the burst bit.
    pub fn burst(&self) -> bool
        ensures { result ≡ self.now.burst }
    {
        self.burst
    }

    /// Returns the address: a polling address, a device's unique address, or broadcast.
    pub fn address(&self) -> Address
        ensures { result ≡ self.now.address }
    {
        self.address
    }

    /// Returns the expansion bytes, at most 3.
    pub fn expansion(&self) -> &[u8]
        ensures value { result.now ≡ self.now.expansion }
        ensures fits { length result.now ≤ 3 }
    {
        self.expansion.as_slice()
    }

    /// Returns the command number.
    pub fn command(&self) -> u8
        ensures { result ≡ self.now.command }
    {
        self.command
    }

    /// Returns the payload, at most 255 bytes. An ACK's payload has at least its two status bytes.
    pub fn payload(&self) -> &[u8]
        ensures value { result.now ≡ self.now.payload }
        ensures fits { length result.now ≤ 255 }
        ensures long_enough { IsLongEnough self.now.kind result.now }
    {
        self.payload.as_slice()
    }

    /// Returns the frame's body: its bytes from the delimiter to the check byte.
    pub fn body(&self) -> Body
        ensures { IsBody self.now result }
    {
        let mut body = Body::new();
        push_body(self, &mut body);
        body
    }

    /// Writes the frame's body to `output`, and replaces what `output` held.
    pub fn write_body(&self, output: &mut Body)
        ensures { IsBody self.now output.new }
    {
        output.clear();
        push_body(self, output);
    }
}
