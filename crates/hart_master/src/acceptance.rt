//! Whether a frame is the reply to a request.
ghost use Rattle.std.specs.Prelude.{◌≡◌, ◌↔◌, IsTrue, IfSome};
ghost use Rattle.hart_commands.specs.declared.reply.Reply.{Reply};
ghost use Rattle.hart_master.specs.Acceptance.{IsReplyTo, IsReplyFrame, Matches, MatchesFrame};

use crate::hand::Transaction;
use hart_commands::{Reply, command_name};
use hart_frame::{Frame, FrameKind};
use hart_values::{Address, MasterId};

/// Returns the reply that the frame holds, or `None` if the frame is no reply to this request.
pub(crate) fn accepted_reply(
    id: MasterId,
    transaction: &Transaction,
    frame: &Frame,
) -> Option<Reply>
    ensures is_reply { IfSome result (IsReplyTo id transaction.now.address transaction.now.request frame.now) }
    ensures known { (reply : Reply) → IsReplyTo id transaction.now.address transaction.now.request frame.now reply
        → result ≡ Some reply }
{
    let answers = matches(
        id,
        transaction.address,
        transaction.request.command(),
        frame,
    );
    if answers {
        Reply::read(frame.command(), frame.payload())
    } else {
        None
    }
}

/// Returns true if a frame answers a request frame of any command: an ACK without expansion bytes, with the request's master, address
/// and command. The payload is not read.
pub fn matches_frame(request: &Frame, frame: &Frame) -> bool
    ensures { IsTrue result ↔ MatchesFrame request.now frame.now }
{
    matches(
        request.master(),
        request.address(),
        request.command(),
        frame,
    )
}

/// Returns true if a frame is the reply to a request frame: it answers the request, and has no communication faults. If the command is
/// known, [`Reply::read`] must also accept the payload.
pub(crate) fn is_reply_frame(request: &Frame, frame: &Frame) -> bool
    ensures { IsTrue result ↔ IsReplyFrame request.now frame.now }
{
    matches_frame(request, frame)
        && frame.payload()[0] < 128
        && (command_name(frame.command()).is_none()
            || Reply::read(frame.command(), frame.payload()).is_some())
}

/// Returns true if a frame answers a request of this master with this command to this address: an ACK without expansion bytes, with this
/// master, address and command. The payload is not read.
pub fn matches(id: MasterId, address: Address, command: u8, frame: &Frame) -> bool
    ensures { IsTrue result ↔ Matches id address command frame.now }
{
    frame.kind() == FrameKind::Ack
        && frame.expansion().is_empty()
        && frame.master() == id
        && frame.address() == address
        && frame.command() == command
}
