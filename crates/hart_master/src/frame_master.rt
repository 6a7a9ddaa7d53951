ghost use Rattle.std.specs.Prelude.{◌≡◌, ◌≤◌, ◌<◌, ◌↔◌, ◌+◌, ℕ, IsTrue, IsOk, IfOk, IfErr, IsSome, option_map, Err};
ghost use Rattle.hart_master.specs.declared.frame_hand.FrameHand.{FrameHand};
ghost use Rattle.hart_master.specs.declared.frame_hand.FrameHand.TheVariants as hands;
ghost use Rattle.hart_master.specs.FrameMaster.{IsReceived, IsRequestFrame, IsWithin, MayBeSent, event_again, event_ended, event_ticked};
ghost use Rattle.hart_master.specs.FrameMaster.{BringsReply, frame_due, hand_again, hand_ended, hand_received, hand_sent, hand_submitted};
ghost use Rattle.hart_master.specs.FrameMaster.{hand_ticked};
ghost use Rattle.hart_master.specs.FrameMaster.{is_idle, result_submitted, sendings_of};

use crate::acceptance::is_reply_frame;
use crate::master::MOST_RETRIES;
use crate::pairing::may_send;
use crate::{FrameEvent, FrameHand, FrameTransaction, MasterFault, RejectedFrame};
use hart_frame::{Frame, FrameKind};
use std::marker::Model;
use std::mem;

/// A master whose requests are frames, of any command, with one request frame in hand or none.
///
/// It decides as a [`Master`](crate::Master) does. It reads the reply data of known commands, but only to decide whether a frame is the
/// reply. Its caller submits a request frame, sends the frame that is due, and passes in the frames that were found, or how long no frame
/// was found. A request is sent at most `retries + 1` times. A frame of an unknown command may go to any address. Any reply to such a frame
/// counts, unless the reply has communication faults.
#[derive(Debug, Drop)]
pub struct FrameMaster {
    retries: u8,
    reply_limit: u8,
    hand: FrameHand,
}

impl Model for FrameMaster {
    ghost use Rattle.std.specs.Prelude.{◌≤◌, ◌<◌};
    ghost use Rattle.hart_master.specs.FrameMaster.{FrameMasterState, IsWithin};

    ghost Value = { FrameMasterState };

    ghost view = { λ m. record { retries = m.retries; reply_limit = m.reply_limit; hand = m.hand } };

    ghost invariant = { λ m. (m.retries ≤ 15) × (0 < m.reply_limit) × IsWithin m.retries m.hand };
}

impl FrameMaster {
    /// Makes a master with `hand` in hand, for instance [`FrameHand::Empty`]. It awaits each reply for `reply_limit` character times, and
    /// sends a request again at most `retries` times. The limit is at least 1, and there are at most 15 retries.
    ///
    /// # Errors
    ///
    /// [`MasterFault::OutOfRange`] if `retries` is above 15, `reply_limit` is 0, or a master with these retries cannot have `hand` in hand.
    /// A frame in hand must be a frame that [`submit`](Self::submit) takes. The frame must not have been sent more often than the retries
    /// allow. If its reply is awaited, or if it was answered, it must have been sent at least once.
    pub fn new(retries: u8, reply_limit: u8, hand: FrameHand) -> Result<Self, MasterFault>
        ensures accepted { IsOk result ↔ ((retries ≤ 15) × (0 < reply_limit) × IsWithin retries hand) }
        ensures kept { IfOk result (λ master. master ≡ record { retries = retries; reply_limit = reply_limit; hand = hand }) }
        ensures refused { IfErr result (λ fault. fault ≡ MasterFault.OutOfRange) }
    {
        if retries > MOST_RETRIES || reply_limit == 0 || !is_within(retries, &hand) {
            return Err(MasterFault::OutOfRange);
        }
        Ok(FrameMaster {
            retries,
            reply_limit,
            hand,
        })
    }

    /// Returns what the master has in hand.
    pub fn hand(&self) -> &FrameHand
        ensures value { result.now ≡ self.now.hand }
        ensures within { IsWithin self.now.retries self.now.hand }
        ensures retries { self.now.retries ≤ 15 }
        ensures limit { 0 < self.now.reply_limit }
    {
        &self.hand
    }

    /// Returns true if the master takes a new request: no request is in hand, or the request in hand was answered.
    pub fn is_idle(&self) -> bool
        ensures { result ≡ is_idle self.now.hand }
    {
        matches!(self.hand, FrameHand::Empty | FrameHand::Answered(_))
    }

    /// Takes in hand a request frame, to send it later.
    ///
    /// # Errors
    ///
    /// The first of these that applies:
    ///
    /// - [`MasterFault::OutOfRange`] if the frame is no [request](is_request) of a master;
    /// - [`MasterFault::Pending`] if the master is not idle;
    /// - [`MasterFault::WrongAddress`] if the command is known and may not be sent to this address.
    ///
    /// The error contains the frame, and the master is unchanged.
    pub fn submit(&mut self, request: Frame) -> Result<(), RejectedFrame>
        ensures result { IsRequestFrame request → result ≡ result_submitted self.old.hand request }
        ensures state { IsRequestFrame request → self.new ≡ record self.old { hand = hand_submitted self.old.hand request } }
        ensures no_request { (IsRequestFrame request → ⊥) → result ≡ Err (record { fault = MasterFault.OutOfRange; request = request }) }
        ensures unchanged { (IsRequestFrame request → ⊥) → self.new ≡ self.old }
    {
        let fault = if !is_request(&request) {
            MasterFault::OutOfRange
        } else if !self.is_idle() {
            MasterFault::Pending
        } else if !may_send(&request) {
            MasterFault::WrongAddress
        } else {
            self.hand = FrameHand::Due(FrameTransaction {
                request,
                sendings: 0,
            });
            return Ok(());
        };
        Err(RejectedFrame { fault, request })
    }

    /// Returns the frame that is due to be sent, or `None` if no frame is due.
    pub fn due(&self) -> Option<&Frame>
        ensures { option_map (λ frame. frame.now) result ≡ frame_due self.now.hand }
    {
        match &self.hand {
            FrameHand::Due(transaction) => Some(&transaction.request),
            _ => None,
        }
    }

    /// Records that the caller sent the frame that was due. From then on the master awaits the reply. If no frame is due, nothing changes.
    pub fn sent(&mut self)
        ensures state { self.new ≡ record self.old { hand = hand_sent self.old.hand } }
        // A request is sent at most `retries + 1` times.
        ensures sent_before { IsSome (frame_due self.old.hand) → sendings_of self.old.hand ≤ self.old.retries }
        ensures at_most { sendings_of self.new.hand ≤ self.old.retries + 1 }
    {
        self.hand = match mem::replace(&mut self.hand, FrameHand::Empty) {
            FrameHand::Due(transaction) => FrameHand::Awaiting(
                FrameTransaction {
                    sendings: transaction.sendings + 1,
                    ..transaction
                },
                0,
            ),
            other => other,
        };
    }

    /// Receives a frame. If it is the awaited reply, returns the number of sendings, and the master is idle again. Otherwise returns
    /// [`FrameEvent::Nothing`], and the master is unchanged.
    pub fn receive(&mut self, frame: &Frame) -> FrameEvent
        ensures event { IsReceived self.old.hand frame.now result }
        ensures state { self.new ≡ record self.old { hand = hand_received self.old.hand result } }
        ensures answered { BringsReply self.old.hand frame.now → result ≡ FrameEvent.Answered (sendings_of self.old.hand) }
    {
        match mem::replace(&mut self.hand, FrameHand::Empty) {
            FrameHand::Awaiting(transaction, _) if is_reply_frame(&transaction.request, frame) => {
                let sendings = transaction.sendings;
                self.hand = FrameHand::Answered(transaction);
                FrameEvent::Answered(sendings)
            }
            other => {
                self.hand = other;
                FrameEvent::Nothing
            }
        }
    }

    /// Lets this number of character times pass. A number of 255 means 255 or more.
    ///
    /// While a reply is awaited, the character times of all calls are added up, to 255 at most. When the sum reaches the reply limit, the
    /// request is due again, and the result is [`FrameEvent::Retry`]. If the request was already sent `retries + 1` times, the master drops
    /// it instead, and the result is [`FrameEvent::NoReply`]. In all other cases the result is [`FrameEvent::Nothing`].
    pub fn tick(&mut self, character_times: u8) -> FrameEvent
        ensures event { result ≡ event_ticked self.old.retries self.old.reply_limit self.old.hand character_times }
        ensures state { self.new ≡ record self.old {
          hand = hand_ticked self.old.retries self.old.reply_limit self.old.hand character_times;
        } }
        ensures given_up { (sendings : ℕ) → result ≡ FrameEvent.NoReply sendings → sendings ≡ self.old.retries + 1 }
    {
        match mem::replace(&mut self.hand, FrameHand::Empty) {
            FrameHand::Awaiting(transaction, time) => {
                let time = time.saturating_add(character_times);
                if time < self.reply_limit {
                    self.hand = FrameHand::Awaiting(transaction, time);
                    FrameEvent::Nothing
                } else {
                    self.end_wait(transaction)
                }
            }
            other => {
                self.hand = other;
                FrameEvent::Nothing
            }
        }
    }

    /// Ends the wait for a reply at once, or repeats a request that was answered. In both cases the request is due again, and the result is
    /// [`FrameEvent::Retry`]. If the request was already sent `retries + 1` times, the master drops it instead, and the result is
    /// [`FrameEvent::NoReply`]. If no reply is awaited and no request was answered, the result is [`FrameEvent::Nothing`]. Use this
    /// function after a reply with communication faults, or with the response code for a busy device.
    pub fn again(&mut self) -> FrameEvent
        ensures event { result ≡ event_again self.old.retries self.old.hand }
        ensures state { self.new ≡ record self.old { hand = hand_again self.old.retries self.old.hand } }
    {
        match mem::replace(&mut self.hand, FrameHand::Empty) {
            FrameHand::Awaiting(transaction, _) | FrameHand::Answered(transaction) => {
                self.end_wait(transaction)
            }
            other => {
                self.hand = other;
                FrameEvent::Nothing
            }
        }
    }

    /// Ends the wait for the reply to this request. The caller has already taken the request out of the hand. The request is due again,
    /// unless it was already sent `retries + 1` times.
    fn end_wait(&mut self, transaction: FrameTransaction) -> FrameEvent
        requires empty { self.old.hand ≡ hands.Empty }
        requires request { MayBeSent transaction.request }
        ensures event { result ≡ event_ended self.old.retries transaction }
        ensures state { self.new ≡ record self.old { hand = hand_ended self.old.retries transaction } }
    {
        if transaction.sendings <= self.retries {
            self.hand = FrameHand::Due(transaction);
            FrameEvent::Retry
        } else {
            FrameEvent::NoReply(transaction.sendings)
        }
    }
}

/// Returns true if a master with this number of retries may have `hand` in hand.
fn is_within(retries: u8, hand: &FrameHand) -> bool
    ensures { IsTrue result ↔ IsWithin retries hand.now }
{
    match hand {
        FrameHand::Empty => true,
        FrameHand::Due(transaction) => {
            may_be_sent(&transaction.request) && transaction.sendings <= retries
        }
        FrameHand::Awaiting(transaction, _) | FrameHand::Answered(transaction) => {
            may_be_sent(&transaction.request)
                && transaction.sendings > 0
                && transaction.sendings - 1 <= retries
        }
    }
}

/// Returns true if a master may send this frame.
fn may_be_sent(frame: &Frame) -> bool
    ensures { IsTrue result ↔ MayBeSent frame.now }
{
    is_request(frame) && may_send(frame)
}

/// Returns true if a frame is the request of a master: an STX with the burst bit clear and without expansion bytes.
pub fn is_request(frame: &Frame) -> bool
    ensures { IsTrue result ↔ IsRequestFrame frame.now }
{
    frame.kind() == FrameKind::Stx && !frame.burst() && frame.expansion().is_empty()
}
