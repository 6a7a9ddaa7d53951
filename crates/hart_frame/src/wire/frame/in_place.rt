//! Functions that write a new frame over an old frame, so that no frame is moved in memory.
ghost use Rattle.std.specs.Prelude.{◌≡◌, ◌≤◌, length};
ghost use Rattle.hart_frame.specs.wire.FrameParts.{reply_parts, request_parts};
ghost use Rattle.hart_frame.specs.wire.View.{parts_of};

use crate::{Frame, FrameKind, FrameView};
use hart_values::{Address, MasterId, Payload};

impl Frame {
    /// Overwrites this frame with the request that [`Frame::request`] returns for these arguments.
    pub fn set_request(
        &mut self,
        master: MasterId,
        address: Address,
        command: u8,
        payload: &Payload,
    )
        ensures { self.new ≡ request_parts master address command payload.now }
    {
        self.kind = FrameKind::Stx;
        self.master = master;
        self.burst = false;
        self.address = address;
        self.expansion.clear();
        self.command = command;
        self.payload.clear();
        self.payload.extend_from_slice(payload.as_slice());
    }

    /// Overwrites this frame with the reply to `request` that [`Frame::reply`] returns.
    ///
    /// The payload begins with the two status bytes.
    pub fn set_reply(&mut self, request: &Frame, payload: &Payload)
        requires { 2 ≤ length payload.now }
        ensures { self.new ≡ reply_parts request.now payload.now }
    {
        self.kind = FrameKind::Ack;
        self.master = request.master;
        self.burst = false;
        self.address = request.address;
        self.expansion.clear();
        self.command = request.command;
        self.payload.clear();
        self.payload.extend_from_slice(payload.as_slice());
    }

    /// Overwrites this frame with the frame that [`FrameView::to_frame`] returns for this view.
    pub fn set_view(&mut self, view: &FrameView<'_>)
        ensures { self.new ≡ parts_of view.now }
    {
        self.kind = view.kind();
        self.master = view.master();
        self.burst = view.burst();
        self.address = view.address();
        self.expansion.clear();
        self.expansion.extend_from_slice(view.expansion());
        self.command = view.command();
        self.payload.clear();
        self.payload.extend_from_slice(view.payload());
    }
}
