//! Laws about the definitions alone, for the crates that use this crate.
ghost use Rattle.std.specs.Prelude.{◌≡◌, ◌≤◌, ◌⊎◌, ◌↔◌, ◌∷◌, [], ℕ, List, Err, slice_index};
ghost use Rattle.hart_values.specs.declared.master_id.MasterId.{MasterId};
ghost use Rattle.hart_values.specs.declared.address.Address.{Address};
ghost use Rattle.hart_frame.specs.heard.Character.{Character};
ghost use Rattle.hart_frame.specs.wire.FrameParts.{FrameParts};
ghost use Rattle.hart_frame.specs.heard.Frames.{AreFrames};
ghost use Rattle.hart_frame.specs.declared.heard.found.Found.{Found};
ghost use Rattle.hart_commands.specs.declared.reply.Reply.{Reply};
ghost use Rattle.hart_commands.specs.declared.request.Request.{Request};
ghost use Rattle.hart_master.specs.Acceptance.{IsAccepted, IsReplyTo};
ghost use Rattle.hart_master.specs.FrameMaster as frames;
ghost use Rattle.hart_master.specs.Master as masters;
ghost use Rattle.hart_master.specs.declared.event.MasterEvent.{MasterEvent};
ghost use Rattle.hart_master.specs.declared.fault.MasterFault.{MasterFault};
ghost use Rattle.hart_master.specs.declared.frame_event.FrameEvent.{FrameEvent};
ghost use Rattle.hart_master.specs.declared.frame_hand.FrameHand.{FrameHand};
ghost use Rattle.hart_master.specs.declared.hand.Hand.{Hand};

use hart_frame::laws::{every_list_has_frames, frames_are_unambiguous};

/// A frame is read as exactly one reply to a request, or it is no reply to this request.
pub fn replies_are_decided()
    ensures one_reply { (id : MasterId) (address : Address) (request : Request) (frame : FrameParts) (r s : Reply)
        → IsReplyTo id address request frame r → IsReplyTo id address request frame s → r ≡ s }
    ensures decided { (id : MasterId) (address : Address) (request : Request) (frame : FrameParts)
        → ((reply : Reply) × IsReplyTo id address request frame reply)
        ⊎ ((reply : Reply) → IsReplyTo id address request frame reply → ⊥) }
{}

/// A delivery (all that was heard at once) is either accepted as exactly one reply, or not accepted. A delivery without frames is not
/// accepted. A delivery with one frame is accepted only if this frame is the reply.
pub fn acceptance_is_decided()
    ensures one_reply { (id : MasterId) (address : Address) (request : Request) (delivery : List Character) (r s : Reply)
        → IsAccepted id address request delivery r → IsAccepted id address request delivery s → r ≡ s }
    ensures decided { (id : MasterId) (address : Address) (request : Request) (delivery : List Character)
        → ((reply : Reply) × IsAccepted id address request delivery reply)
        ⊎ ((reply : Reply) → IsAccepted id address request delivery reply → ⊥) }
    ensures without_frames { (id : MasterId) (address : Address) (request : Request) (delivery : List Character) (reply : Reply)
        → AreFrames delivery 0 [] → IsAccepted id address request delivery reply → ⊥ }
    ensures by_its_frame { (id : MasterId) (address : Address) (request : Request) (delivery : List Character)
        (found : Found) (reply : Reply) → AreFrames delivery 0 (found ∷ [])
        → IsAccepted id address request delivery reply → IsReplyTo id address request found.frame reply }
{
    // These calls do nothing: only their contracts are needed.
    every_list_has_frames();
    frames_are_unambiguous();
    replies_are_decided();
}

/// A frame with communication faults is not a reply to any request. In such a frame, bit 7 of the first status byte is set. So a delivery
/// whose only frame has communication faults is never accepted.
pub fn communication_faults_are_no_reply()
    ensures frame { (id : MasterId) (address : Address) (request : Request) (frame : FrameParts) (reply : Reply)
        → 128 ≤ slice_index frame.payload 0 → IsReplyTo id address request frame reply → ⊥ }
    ensures delivery { (id : MasterId) (address : Address) (request : Request) (delivery : List Character) (found : Found)
        (reply : Reply) → AreFrames delivery 0 (found ∷ []) → 128 ≤ slice_index found.frame.payload 0
        → IsAccepted id address request delivery reply → ⊥ }
{
    // This call does nothing: only its contract is needed.
    acceptance_is_decided();
}

/// A [`FrameMaster`](crate::FrameMaster) decides as a [`Master`](crate::Master) does. Suppose both have the same in hand. Then they take
/// and refuse the same requests and send the same frames. If they receive the same frame, or if the same time passes, they return the same
/// event. Afterwards both again have the same in hand. A request that was answered counts as no longer in hand.
///
/// The requests are values of the type `Request`, and their frames have exactly the data that a `Master` sends. The law is about one frame
/// at a time: it says nothing of [`Master::hear`](crate::Master::hear), which may get several frames at once. It also says nothing of
/// [`FrameMaster::again`](crate::FrameMaster::again), which a `Master` does not have.
#[tactic(auto, using(crate::proofs::lemmas::Alike::has_name))]
pub fn masters_over_frames_decide_alike()
    ensures refused { (id : MasterId) (hand : Hand) (other : FrameHand) (address : Address) (request : Request) (fault : MasterFault)
        → frames.AreAlike id hand other
        → (masters.result_submitted hand address request ≡ Err (record { fault = fault; request = request }))
        ↔ (frames.result_submitted other (frames.frame_of id address request)
        ≡ Err (record { fault = fault; request = frames.frame_of id address request })) }
    ensures taken { (id : MasterId) (hand : Hand) (other : FrameHand) (address : Address) (request : Request)
        → frames.AreAlike id hand other
        → frames.AreAlike id (masters.hand_submitted hand address request)
        (frames.hand_submitted other (frames.frame_of id address request)) }
    ensures frame { (id : MasterId) (hand : Hand) (other : FrameHand) → frames.AreAlike id hand other
        → masters.frame_sent id hand ≡ frames.frame_due other }
    ensures sent { (id : MasterId) (hand : Hand) (other : FrameHand) → frames.AreAlike id hand other
        → frames.AreAlike id (masters.hand_sent hand) (frames.hand_sent other) }
    ensures received { (id : MasterId) (hand : Hand) (other : FrameHand) (frame : FrameParts) (event : MasterEvent) (told : FrameEvent)
        → frames.AreAlike id hand other
        → masters.IsHeard hand (masters.FrameBrings id hand frame) event → frames.IsReceived other frame told
        → (told ≡ frames.event_of event)
        × frames.AreAlike id (masters.hand_heard hand event) (frames.hand_received other told) }
    ensures ticked { (id : MasterId) (hand : Hand) (other : FrameHand) (retries reply_limit time : ℕ) → frames.AreAlike id hand other
        → frames.event_ticked retries reply_limit other time ≡ frames.event_of (masters.event_ticked retries reply_limit hand time) }
    ensures time { (id : MasterId) (hand : Hand) (other : FrameHand) (retries reply_limit time : ℕ) → frames.AreAlike id hand other
        → frames.AreAlike id (masters.hand_ticked retries reply_limit hand time)
        (frames.hand_ticked retries reply_limit other time) }
{}
