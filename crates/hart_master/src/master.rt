ghost use Rattle.std.specs.Prelude.{◌≡◌, ◌≤◌, ◌<◌, ◌↔◌, ◌+◌, if◌then◌else◌, ℕ, IsTrue, IsOk, IsSome, IfOk, IfErr, IfSome, None, nat_le};
ghost use Rattle.hart_frame.specs.wire.FrameParts.{request_parts};
ghost use Rattle.hart_commands.specs.RequestData.{command_of, request_data};
ghost use Rattle.hart_commands.specs.declared.reply.Reply.{Reply};
ghost use Rattle.hart_master.specs.declared.hand.Hand.TheVariants as hands;
ghost use Rattle.hart_master.specs.Master.{sendings_of, result_submitted, hand_submitted, frame_sent, hand_sent};
ghost use Rattle.hart_master.specs.Master.{DeliveryBrings, FrameBrings, IsHeard, hand_heard, event_ticked, hand_ticked};

use crate::acceptance::accepted_reply;
use crate::hand::{Hand, Transaction};
use crate::pairing::may_ask;
use crate::{MasterEvent, MasterFault, Rejected};
use hart_commands::Request;
use hart_frame::{Char, Frame, LoneFrame, lone_frame};
use hart_values::{Address, MasterId, Payload};
use std::marker::Model;
use std::mem;

/// The highest retry limit that a master can have.
pub(crate) const MOST_RETRIES: u8 = 15;

/// One of the two masters, with one request in hand or none.
///
/// The caller submits a request, and the master sends it. If no reply comes within the reply limit, the master sends the request
/// again. It sends a request at most `retries + 1` times in all.
#[derive(Debug, Drop)]
pub struct Master {
    id: MasterId,
    retries: u8,
    reply_limit: u8,
    hand: Hand,
}

impl Model for Master {
    ghost use Rattle.std.specs.Prelude.{◌≤◌, ◌<◌};
    ghost use Rattle.hart_master.specs.Master.{MasterState, IsWithin};

    ghost Value = { MasterState };

    ghost view = { λ m. record { id = m.id; retries = m.retries; reply_limit = m.reply_limit; hand = m.hand } };

    ghost invariant = { λ m. (m.retries ≤ 15) × (0 < m.reply_limit) × IsWithin m.retries m.hand };
}

impl Master {
    /// Makes a master with no request in hand. If it accepts no reply within `reply_limit` character times, it sends the request
    /// again, at most `retries` times. The limit is at least 1, and there are at most 15 retries.
    ///
    /// # Errors
    ///
    /// [`MasterFault::OutOfRange`] if `retries` is above 15 or `reply_limit` is 0.
    pub fn new(id: MasterId, retries: u8, reply_limit: u8) -> Result<Self, MasterFault>
        ensures accepted { IsOk result ↔ ((retries ≤ 15) × (0 < reply_limit)) }
        ensures kept { IfOk result (λ master. master ≡
            record { id = id; retries = retries; reply_limit = reply_limit; hand = hands.Empty }) }
        ensures refused { IfErr result (λ fault. fault ≡ MasterFault.OutOfRange) }
    {
        if retries > MOST_RETRIES || reply_limit == 0 {
            return Err(MasterFault::OutOfRange);
        }
        Ok(Master {
            id,
            retries,
            reply_limit,
            hand: Hand::Empty,
        })
    }

    /// Returns whether this is the primary or the secondary master.
    pub fn id(&self) -> MasterId
        ensures { result ≡ self.now.id }
    {
        self.id
    }

    /// Returns true if no request is in hand.
    pub fn is_idle(&self) -> bool
        ensures { IsTrue result ↔ (self.now.hand ≡ hands.Empty) }
    {
        matches!(self.hand, Hand::Empty)
    }

    /// Returns how often the request in hand was sent, or 0 if no request is in hand.
    pub fn sendings(&self) -> u8
        ensures counted { result ≡ sendings_of self.now.hand }
        ensures at_most { result ≤ self.now.retries + 1 }
    {
        match &self.hand {
            Hand::Empty => 0,
            Hand::ToSend(transaction) | Hand::Awaiting(transaction, _) => transaction.sendings,
        }
    }

    /// Takes in hand a request to this address, to send it later.
    ///
    /// # Errors
    ///
    /// [`MasterFault::Pending`] if a request is in hand already, whatever the address. Otherwise [`MasterFault::WrongAddress`] for
    /// a polling address with a command other than 0, and for broadcast with a command other than 11 and 21. The error contains the
    /// request, and the master is unchanged.
    pub fn submit(&mut self, address: Address, request: Request) -> Result<(), Rejected>
        ensures result { result ≡ result_submitted self.old.hand address request }
        ensures state { self.new ≡ record self.old { hand = hand_submitted self.old.hand address request } }
    {
        let fault = if !matches!(self.hand, Hand::Empty) {
            MasterFault::Pending
        } else if !may_ask(address, &request) {
            MasterFault::WrongAddress
        } else {
            self.hand = Hand::ToSend(Transaction {
                address,
                request,
                sendings: 0,
            });
            return Ok(());
        };
        Err(Rejected { fault, request })
    }

    /// Returns the frame of the request in hand if this request is due to be sent. From then on the master awaits the reply. The frame is
    /// an STX of this master with the burst bit clear, no expansion bytes and the data of the request. If no request is due, the result is
    /// `None` and the master is unchanged.
    pub fn send(&mut self) -> Option<Frame>
        ensures frame { result ≡ frame_sent self.old.id self.old.hand }
        ensures state { self.new ≡ record self.old { hand = hand_sent self.old.hand } }
        // A request is sent at most `retries + 1` times.
        ensures sent_before { IsSome result → sendings_of self.old.hand ≤ self.old.retries }
        ensures at_most { sendings_of self.new.hand ≤ self.old.retries + 1 }
    {
        match mem::replace(&mut self.hand, Hand::Empty) {
            Hand::ToSend(transaction) => {
                let frame = request_frame(self.id, &transaction);
                let sendings = transaction.sendings + 1;
                self.hand = Hand::Awaiting(
                    Transaction {
                        sendings,
                        ..transaction
                    },
                    0,
                );
                Some(frame)
            }
            other => {
                self.hand = other;
                None
            }
        }
    }

    /// Like [`Master::send`], but writes the frame to `frame` and returns true. If nothing is due, the call returns false and leaves
    /// `frame` unchanged.
    pub fn send_into(&mut self, frame: &mut Frame) -> bool
        ensures sends { IsTrue result ↔ IsSome (frame_sent self.old.id self.old.hand) }
        ensures frame { IfSome (frame_sent self.old.id self.old.hand) (λ sent. frame.new ≡ sent) }
        ensures silent { frame_sent self.old.id self.old.hand ≡ None → frame.new ≡ frame.old }
        ensures state { self.new ≡ record self.old { hand = hand_sent self.old.hand } }
        ensures sent_before { IsTrue result → sendings_of self.old.hand ≤ self.old.retries }
        ensures at_most { sendings_of self.new.hand ≤ self.old.retries + 1 }
    {
        match mem::replace(&mut self.hand, Hand::Empty) {
            Hand::ToSend(transaction) => {
                let mut payload = Payload::new();
                transaction.request.write(&mut payload);
                let command = transaction.request.command();
                frame.set_request(self.id, transaction.address, command, &payload);
                let sendings = transaction.sendings + 1;
                self.hand = Hand::Awaiting(
                    Transaction {
                        sendings,
                        ..transaction
                    },
                    0,
                );
                true
            }
            other => {
                self.hand = other;
                false
            }
        }
    }

    /// Hears a delivery. If the delivery has exactly one frame, the call does the same as [`Master::receive`] with that frame. Otherwise
    /// the result is [`MasterEvent::Nothing`], and the master is unchanged.
    pub fn hear(&mut self, delivery: &[Char]) -> MasterEvent
        ensures event { IsHeard self.old.hand (DeliveryBrings self.old.id self.old.hand delivery.now) result }
        ensures state { self.new ≡ record self.old { hand = hand_heard self.old.hand result } }
        ensures answered { (reply : Reply) → DeliveryBrings self.old.id self.old.hand delivery.now reply
            → result ≡ MasterEvent.Answered reply (sendings_of self.old.hand) }
        ensures nothing { ((reply : Reply) → DeliveryBrings self.old.id self.old.hand delivery.now reply → ⊥)
            → result ≡ MasterEvent.Nothing }
    {
        // A master that awaits no reply does not search the delivery for frames.
        if !matches!(self.hand, Hand::Awaiting(..)) {
            return MasterEvent::Nothing;
        }
        match lone_frame(delivery) {
            LoneFrame::Alone(found) => self.receive(&found.frame),
            LoneFrame::NoFrame | LoneFrame::Several => MasterEvent::Nothing,
        }
    }

    /// Receives a frame that the caller has found. If the frame is the awaited reply, returns the reply and the number of sendings, and
    /// drops the request. Otherwise the result is [`MasterEvent::Nothing`], and the master is unchanged.
    ///
    /// A reply is an ACK without expansion bytes. It has this master's bit and the request's address and command, and
    /// [`Reply::read`](hart_commands::Reply::read) accepts its payload. Its burst bit is ignored.
    pub fn receive(&mut self, frame: &Frame) -> MasterEvent
        ensures event { IsHeard self.old.hand (FrameBrings self.old.id self.old.hand frame.now) result }
        ensures state { self.new ≡ record self.old { hand = hand_heard self.old.hand result } }
        ensures answered { (reply : Reply) → FrameBrings self.old.id self.old.hand frame.now reply
            → result ≡ MasterEvent.Answered reply (sendings_of self.old.hand) }
        ensures nothing { ((reply : Reply) → FrameBrings self.old.id self.old.hand frame.now reply → ⊥)
            → result ≡ MasterEvent.Nothing }
    {
        let Hand::Awaiting(transaction, _) = &self.hand else {
            return MasterEvent::Nothing;
        };
        let Some(reply) = accepted_reply(self.id, transaction, frame) else {
            return MasterEvent::Nothing;
        };
        let sendings = transaction.sendings;
        self.hand = Hand::Empty;
        MasterEvent::Answered(reply, sendings)
    }

    /// Lets this number of character times pass. A number of 255 means 255 or more.
    ///
    /// While a reply is awaited, the character times of all calls are added up. The sum is never more than 255. When the sum reaches the
    /// reply limit, the request is due again, and the result is [`MasterEvent::Retry`]. If the request was already sent `retries + 1`
    /// times, the master drops it instead, and the result is [`MasterEvent::NoReply`]. In all other cases the result is
    /// [`MasterEvent::Nothing`].
    pub fn tick(&mut self, character_times: u8) -> MasterEvent
        ensures event { result ≡ event_ticked self.old.retries self.old.reply_limit self.old.hand character_times }
        ensures state { self.new ≡ record self.old {
          hand = hand_ticked self.old.retries self.old.reply_limit self.old.hand character_times;
        } }
        ensures given_up { (sendings : ℕ) → result ≡ MasterEvent.NoReply sendings → sendings ≡ self.old.retries + 1 }
        ensures sent_again { result ≡ MasterEvent.Retry → sendings_of self.new.hand ≤ self.old.retries }
        // The reply limit is at most 255, so 255 character times end every wait.
        ensures limit_fits { self.old.reply_limit ≤ 255 }
    {
        match mem::replace(&mut self.hand, Hand::Empty) {
            Hand::Awaiting(transaction, time) => {
                let time = time.saturating_add(character_times);
                if time < self.reply_limit {
                    self.hand = Hand::Awaiting(transaction, time);
                    MasterEvent::Nothing
                } else {
                    self.end_wait(transaction)
                }
            }
            other => {
                self.hand = other;
                MasterEvent::Nothing
            }
        }
    }

    /// Ends the wait for the reply to this request. The caller has already taken the request out of the hand. The request is due again,
    /// unless it was already sent `retries + 1` times.
    fn end_wait(&mut self, transaction: Transaction) -> MasterEvent
        requires { self.old.hand ≡ hands.Empty }
        ensures event { result ≡
            (if nat_le transaction.sendings self.old.retries then MasterEvent.Retry else MasterEvent.NoReply transaction.sendings) }
        ensures state { self.new ≡ record self.old {
          hand = if nat_le transaction.sendings self.old.retries then hands.ToSend transaction else hands.Empty;
        } }
    {
        if transaction.sendings <= self.retries {
            self.hand = Hand::ToSend(transaction);
            MasterEvent::Retry
        } else {
            MasterEvent::NoReply(transaction.sendings)
        }
    }
}

/// Returns the frame of a request of this master.
fn request_frame(id: MasterId, transaction: &Transaction) -> Frame
    ensures { result ≡ request_parts id transaction.now.address
        (command_of transaction.now.request) (request_data transaction.now.request) }
{
    let mut payload = Payload::new();
    transaction.request.write(&mut payload);
    Frame::request(
        id,
        transaction.address,
        transaction.request.command(),
        payload,
    )
}
