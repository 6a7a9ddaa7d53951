//! The two masters of a line. Besides its request in hand, each master keeps a place: the index of the request's outcome.
ghost use Rattle.std.specs.Prelude.{◌≡◌, ℕ, Option, None, Some, MatchOption, length};
ghost use Rattle.std.specs.Option.{option_copied};
ghost use Rattle.hart_line.specs.Types.{Reply, MasterId, EachMaster};
ghost use Rattle.hart_values.specs.EachMaster.{of_master, with_master};
ghost use Rattle.hart_commands.specs.RequestData.{IsRequest};
ghost use Rattle.hart_line.specs.line.Masters.{AreHeld, AreInTurn, Awaits, Concludes, Holds, Submits, first_outcome, hand_after_turn};
ghost use Rattle.hart_line.specs.line.Masters.{outcome_in_turn};
ghost use Rattle.hart_line.specs.world.Spoken.{frame_if, frame_of};
ghost use Rattle.hart_line.specs.world.Step.{Accepts, sent_by, submission_fault};
ghost use Rattle.hart_line.specs.world.World.{InHand};

use crate::{Filling, Outcome};
use hart_commands::Request;
use hart_frame::{Char, Frame};
use hart_master::{Master, MasterEvent, MasterFault};
use hart_values::{Address, MasterId};

/// How many character times pass at the end of a turn: the longest reply limit. So a reply comes in its turn or never, and a shorter reply
/// limit makes no difference.
const TURN_TIME: u8 = 255;

/// A master. If it has a request in hand, `place` is the index of the outcome of this request.
#[derive(Drop)]
pub struct Submitter {
    pub master: Master,
    pub place: usize,
}

impl Submitter {
    /// Submits a request and returns the fault for which the master refuses it, if any. The outcome of the request will have the index
    /// `place`. Not inlined, because LLVM would otherwise choose between the two masters at each field.
    #[tactic(auto, using(crate::proofs::lemmas::line::Turn::refused_submits))]
    #[inline(never)]
    fn submit(&mut self, place: usize, address: Address, request: &Request) -> Option<MasterFault>
        ensures submits { (id : MasterId) (retries : ℕ) (held : Option InHand) → Holds id retries held self.old
            → Submits held place address request.now (submission_fault held address request.now) (first_outcome result)
            (λ left. Holds id retries left self.new) }
        ensures well_made { IsRequest request.now }
    {
        match self.master.submit(address, request.copy()) {
            Ok(()) => {
                self.place = place;
                None
            }
            Err(rejected) => Some(rejected.fault),
        }
    }

    /// Sends the request in hand, if there is one, and awaits the reply. Writes the request's frame over `frame`. Returns true if a request
    /// was sent. Not inlined, for the same reason as `submit`.
    #[inline(never)]
    fn send(&mut self, frame: &mut Frame) -> bool
        ensures { (id : MasterId) (retries : ℕ) (held : Option InHand) → Holds id retries held self.old
            → (frame_if result frame.new ≡ frame_of (sent_by id held)) × Awaits id retries held self.new }
    {
        self.master.send_into(frame)
    }

    /// Hears the frame that comes back, if any. Returns the outcome of the request in hand if the frame is the awaited reply, and otherwise
    /// `None`.
    fn hear(&mut self, returned: Option<&Frame>) -> Option<Outcome>
        ensures awaited { (id : MasterId) (retries : ℕ) (held : Option InHand) → Awaits id retries held self.old
            → MatchOption result (Accepts id held (option_copied returned.entry) None × Awaits id retries held self.new)
            (λ outcome. (reply : Reply) × Accepts id held (option_copied returned.entry) (Some reply)
            × (Some outcome ≡ outcome_in_turn retries held (Some reply)) × Holds id retries None self.new) }
        ensures overheard { (id : MasterId) (retries : ℕ) (held : Option InHand) → Holds id retries held self.old
            → Holds id retries held self.new }
    {
        match self.master.receive(returned?) {
            MasterEvent::Answered(reply, sendings) => Some(Outcome::Answered { reply, sendings }),
            _ => None,
        }
    }

    /// Stops waiting for a reply. Returns the outcome of the request, or `None` if no reply was awaited.
    fn stop_waiting(&mut self) -> Option<Outcome>
        ensures { (id : MasterId) (retries : ℕ) (held : Option InHand) → Awaits id retries held self.old
            → (result ≡ outcome_in_turn retries held None) × Holds id retries (hand_after_turn retries held None) self.new }
    {
        match self.master.tick(TURN_TIME) {
            MasterEvent::NoReply(sendings) => Some(Outcome::NoReply { sendings }),
            MasterEvent::Retry => Some(Outcome::Unfinished {
                sendings: self.master.sendings(),
            }),
            _ => None,
        }
    }

    /// Ends the turn of this master. The frame that comes back, if any, decides the outcome of the request that the master has sent.
    fn conclude(&mut self, returned: Option<&Frame>, outcomes: &mut Filling<Outcome>)
        ensures concludes { (id : MasterId) (retries : ℕ) (held : Option InHand) → Awaits id retries held self.old
            → Concludes id retries held (option_copied returned.entry) outcomes.old.items outcomes.new.items
            (λ left. Holds id retries left self.new) }
        ensures as_many { length outcomes.new.items ≡ length outcomes.old.items }
        ensures room { outcomes.new.room ≡ outcomes.old.room }
    {
        let place = self.place;
        if let Some(answered) = self.hear(returned) {
            outcomes.replace(place, answered);
        } else if let Some(outcome) = self.stop_waiting() {
            outcomes.replace(place, outcome);
        }
    }
}

/// The two masters of a line.
#[derive(Drop)]
pub struct Masters {
    pub primary: Submitter,
    pub secondary: Submitter,
}

impl Masters {
    /// Submits a request to a master and returns the fault for which the master refuses it, if any. Its outcome will have the index
    /// `place`.
    #[inline(always)]
    pub fn submit(
        &mut self,
        who: MasterId,
        place: usize,
        address: Address,
        request: &Request,
    ) -> Option<MasterFault>
        ensures submits { (retries : EachMaster ℕ) (hands : EachMaster (Option InHand)) → AreHeld retries hands self.old
            → Submits (of_master who hands) place address request.now
            (submission_fault (of_master who hands) address request.now) (first_outcome result)
            (λ left. AreHeld retries (with_master who left hands) self.new) }
        ensures well_made { IsRequest request.now }
    {
        match who {
            MasterId::Primary => self.primary.submit(place, address, request),
            MasterId::Secondary => self.secondary.submit(place, address, request),
        }
    }

    /// Lets a master send the request in its hand, if there is one, and await the reply. Writes the request's frame over `frame`. Returns
    /// true if a request was sent.
    #[inline(always)]
    pub fn send(&mut self, who: MasterId, frame: &mut Frame) -> bool
        ensures { (retries : EachMaster ℕ) (hands : EachMaster (Option InHand)) → AreHeld retries hands self.old
            → (frame_if result frame.new ≡ frame_of (sent_by who (of_master who hands))) × AreInTurn who retries hands self.new }
    {
        match who {
            MasterId::Primary => self.primary.send(frame),
            MasterId::Secondary => self.secondary.send(frame),
        }
    }

    /// Lets both masters hear what comes back, and ends the turn of the master `who`.
    pub fn end_turn(
        &mut self,
        who: MasterId,
        returned: Option<&Frame>,
        outcomes: &mut Filling<Outcome>,
    )
        ensures ends { (retries : EachMaster ℕ) (hands : EachMaster (Option InHand)) → AreInTurn who retries hands self.old
            → Concludes who (of_master who retries) (of_master who hands) (option_copied returned.entry) outcomes.old.items
            outcomes.new.items (λ left. AreHeld retries (with_master who left hands) self.new) }
        ensures as_many { length outcomes.new.items ≡ length outcomes.old.items }
        ensures room { outcomes.new.room ≡ outcomes.old.room }
    {
        match who {
            MasterId::Primary => {
                let _overheard = self.secondary.hear(returned);
                self.primary.conclude(returned, outcomes);
            }
            MasterId::Secondary => {
                let _overheard = self.primary.hear(returned);
                self.secondary.conclude(returned, outcomes);
            }
        }
    }

    /// Lets both masters hear noise between two turns, and the device's answer to it, if any.
    pub fn hear_noise(&mut self, chars: &[Char], answer: Option<&Frame>)
        ensures { (retries : EachMaster ℕ) (hands : EachMaster (Option InHand)) → AreHeld retries hands self.old
            → AreHeld retries hands self.new }
    {
        let _event = self.primary.master.hear(chars);
        let _event = self.secondary.master.hear(chars);
        let _overheard = self.primary.hear(answer);
        let _overheard = self.secondary.hear(answer);
    }
}

/// Returns the outcome of a submission before its request is sent: unfinished, or refused if there is a fault.
pub fn first_outcome(fault: Option<MasterFault>) -> Outcome
    ensures { result ≡ first_outcome fault }
{
    match fault {
        None => Outcome::Unfinished { sendings: 0 },
        Some(fault) => Outcome::Refused(fault),
    }
}
