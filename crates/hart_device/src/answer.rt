//! The answers of a device to what it hears, and how the device changes.
ghost use Rattle.std.specs.Prelude.{◌≡◌, ◌≤◌, ◌↔◌, length, false, true, IsSome, IsTrue, IfSome, MatchOption, None, Ok};
ghost use Rattle.hart_commands.specs.ReplyData.{reply_payload};
ghost use Rattle.hart_commands.specs.Registers.{NamesValid};
ghost use Rattle.hart_device.specs.Device.{after, counted, written};
ghost use Rattle.hart_device.specs.answer.Answer.{answer_of, asked_effect, code_of, is_addressed, is_answered, is_paired};
ghost use Rattle.hart_device.specs.answer.Answer.{judged_of, names_another, reading_of, reply_of, reply_with, state_after};
ghost use Rattle.hart_device.specs.answer.Delivery.{Brings, Brought, answer_to, state_after_delivery};
ghost use Rattle.hart_device.specs.answer.Garbled.{HasGarbled, garbled_reply};
ghost use Rattle.hart_device.specs.declared.answer.garbled.GarbledRequest.{GarbledRequest};

use crate::answer::garbled::garbled_in;
use crate::{Device, Process, RegisterStore};
use hart_commands::{
    Overwrite, Register, Reply, ReplyContent, Request, may_be_broadcast, request_code, writes_of,
};
use hart_frame::{Char, Frame, FrameKind, LoneFrame, Payload, lone_frame};
use hart_values::{Address, EachMaster, MasterId, ResponseCode};

mod content;
pub mod garbled;
mod own;
mod process_content;
pub mod status;
mod variables;

/// The command by which a master finds the device at a polling address.
const IDENTIFY: u8 = 0;

impl<S: RegisterStore> Device<S> {
    /// Hears a delivery, which is all that was heard at once, and returns the reply. If the delivery has exactly one frame, the call does
    /// the same as [`Device::receive`] with that frame. A garbled request is a request to this device that was heard with faults. If the
    /// delivery has a garbled request and no frame, the reply has the communication faults of this request, and the device is unchanged.
    /// After any other delivery the device is silent (`None`) and unchanged.
    ///
    /// ```rust
    /// let mut device: Device<FieldRegisters> = Device::new(
    ///     bench::identity(),
    ///     &bench::register_values(),
    /// );
    /// // FF FF 02 80 00 00 82 was heard: Command 0 at polling address 0.
    /// let reply = device.hear(delivery, &bench::process()).ok_or("silence")?;
    /// assert_eq!(rt; (reply.command(), reply.payload().len()), (0, 24));
    /// ```
    pub fn hear(&mut self, delivery: &[Char], process: &Process) -> Option<Frame>
        ensures answer { (brought : Brought) → Brings self.old.identity delivery.now brought
            → result ≡ answer_to self.old process.now brought }
        ensures state { (brought : Brought) → Brings self.old.identity delivery.now brought
            → self.new ≡ state_after_delivery self.old brought }
    {
        match lone_frame(delivery) {
            LoneFrame::Alone(found) => self.receive(&found.frame, process),
            // A garbled request is answered, but not carried out.
            LoneFrame::NoFrame => self.reply_to_garbled(delivery),
            LoneFrame::Several => None,
        }
    }

    /// Returns the communication-fault reply to the garbled request of a delivery, or `None` if there is no such request. Call this
    /// only for a delivery without a frame, since an undamaged request also has the form of a garbled request.
    pub fn reply_to_garbled(&self, delivery: &[Char]) -> Option<Frame>
        ensures reply { MatchOption result ((request : GarbledRequest) → HasGarbled self.now.identity delivery.now request → ⊥)
            (λ reply. (request : GarbledRequest) × HasGarbled self.now.identity delivery.now request
            × (reply ≡ garbled_reply self.now.identity request)) }
    {
        let request = garbled_in(&self.identity, delivery)?;
        Some(request.reply(&self.identity))
    }

    /// Receives a frame and returns the reply, or `None` if the device is silent. A frame that gets no reply does not change the device.
    ///
    /// The reply describes the state after the command. Whatever its response code, the reply shows the master's cold start bit and clears
    /// this bit. A command with a code other than 0 changes only this bit.
    pub fn receive(&mut self, frame: &Frame, process: &Process) -> Option<Frame>
        ensures answer { result ≡ answer_of self.old process.now frame.now }
        ensures state { self.new ≡ state_after self.old frame.now }
    {
        let mut payload = Payload::new();
        if self.answer_into(frame, process, &mut payload) {
            Some(frame.reply(payload))
        } else {
            None
        }
    }

    /// Like [`Device::receive`], but writes the reply to `reply` and returns true. If the device is silent, the call returns false and
    /// leaves `reply` unchanged.
    pub fn receive_into(&mut self, frame: &Frame, process: &Process, reply: &mut Frame) -> bool
        ensures answers { IsTrue result ↔ IsSome (answer_of self.old process.now frame.now) }
        ensures answer { IfSome (answer_of self.old process.now frame.now) (λ answer. reply.new ≡ answer) }
        ensures silent { answer_of self.old process.now frame.now ≡ None → reply.new ≡ reply.old }
        ensures state { self.new ≡ state_after self.old frame.now }
    {
        let mut payload = Payload::new();
        let answers = self.answer_into(frame, process, &mut payload);
        if answers {
            reply.set_reply(frame, &payload);
        }
        answers
    }

    /// Carries out the request of a frame. Returns true if the device answers the frame; `payload` then has the payload of the answer.
    fn answer_into(&mut self, frame: &Frame, process: &Process, payload: &mut Payload) -> bool
        ensures answers { result ≡ is_answered self.old frame.now }
        ensures written { IsTrue result → payload.new ≡ reply_payload (reply_of self.old process.now frame.now) }
        ensures two { IsTrue result → 2 ≤ length payload.new }
        ensures state { self.new ≡ state_after self.old frame.now }
    {
        let Some(judged) = self.judge(frame) else {
            return false;
        };
        self.carry_out(frame.master(), &judged);
        self.write_payload(frame, process, &judged, payload);
        self.cold_start.set(frame.master(), false);
        true
    }

    /// Judges a frame. Returns the frame's request, or the code that refuses the request. Returns `None` if the device is silent.
    fn judge(&self, frame: &Frame) -> Option<Result<Request, ResponseCode>>
        ensures { MatchOption result (is_answered self.now frame.now ≡ false)
            (λ judged. (is_answered self.now frame.now ≡ true) × (judged ≡ judged_of self.now frame.now)) }
    {
        let reading = Request::read(frame.command(), frame.payload());
        let code = request_code(frame.command(), &reading, self.protected, self.counter);
        if !self.answers(frame, &reading, code) {
            return None;
        }
        if code == ResponseCode::SUCCESS {
            Some(reading)
        } else {
            Some(Err(code))
        }
    }

    /// Returns true if the device answers a frame. `reading` is the request in the frame, or the code that refuses the frame's data; `code`
    /// is the frame's response code.
    fn answers(
        &self,
        frame: &Frame,
        reading: &Result<Request, ResponseCode>,
        code: ResponseCode,
    ) -> bool
        requires reading { reading.now ≡ reading_of frame.now }
        requires code { code ≡ code_of self.now frame.now }
        ensures { result ≡ is_answered self.now frame.now }
    {
        self.is_addressed(frame)
            && !self.names_another(reading)
            && !(frame.address().is_broadcast() && code != ResponseCode::SUCCESS)
    }

    /// Returns true if the frame is a request without expansion bytes, and the device accepts the frame's command at the frame's address.
    fn is_addressed(&self, frame: &Frame) -> bool
        ensures { result ≡ is_addressed self.now frame.now }
    {
        frame.kind() == FrameKind::Stx
            && frame.expansion().is_empty()
            && self.is_paired(frame.address(), frame.command())
    }

    /// Returns true if the device accepts this command at this address.
    fn is_paired(&self, address: Address, command: u8) -> bool
        ensures { result ≡ is_paired self.now address command }
    {
        match address {
            Address::Polling(polling) => {
                command == IDENTIFY && self.byte(Register::Polling) == polling.number()
            }
            Address::Unique(unique) => {
                unique == self.identity.unique_address()
                    || (may_be_broadcast(command) && address.is_broadcast())
            }
        }
    }

    /// Returns true if the request is Command 11 with a tag that is not the device's, or Command 21 with a long tag that is not the
    /// device's.
    fn names_another(&self, reading: &Result<Request, ResponseCode>) -> bool
        ensures { result ≡ names_another self.now reading.now }
    {
        match reading {
            Ok(Request::IdentifyByTag(tag)) => self.registers.get(Register::Tag) != tag.as_bytes(),
            Ok(Request::IdentifyByLongTag(long_tag)) => {
                self.registers.get(Register::LongTag) != long_tag.as_slice()
            }
            _ => false,
        }
    }

    /// Carries out the request of a judged frame. Does nothing if the frame was refused.
    fn carry_out(&mut self, master: MasterId, judged: &Result<Request, ResponseCode>)
        ensures { self.new ≡ after master (asked_effect judged.now) self.old }
    {
        if let Ok(request) = judged {
            self.execute(master, request);
        }
    }

    /// Carries out a request that has code 0.
    #[tactic(auto, using(crate::proofs::lemmas::answer::Effect::write_is_executed))]
    fn execute(&mut self, master: MasterId, request: &Request)
        ensures { self.new ≡ after master (asked_effect (Ok request.now)) self.old }
    {
        if let Some(overwrite) = writes_of(request) {
            self.write(&overwrite);
        } else if let Request::ResetChanged(_) = request {
            self.changed.set(master, false);
        }
    }

    /// Executes a configuration write: sets the registers that the overwrite names, counts the write, and sets the configuration-changed
    /// bits.
    fn write(&mut self, overwrite: &Overwrite)
        requires { NamesValid overwrite.now }
        ensures { self.new ≡ written overwrite.now self.old }
    {
        self.registers.overwrite(overwrite);
        self.count();
    }

    /// Counts a configuration write, and sets the configuration-changed bits.
    fn count(&mut self)
        ensures { self.new ≡ counted self.old }
    {
        self.counter = self.counter.wrapping_add(1);
        self.changed = EachMaster {
            primary: true,
            secondary: true,
        };
    }

    /// Replaces `payload` by the payload of the reply to a judged frame.
    fn write_payload(
        &self,
        frame: &Frame,
        process: &Process,
        judged: &Result<Request, ResponseCode>,
        payload: &mut Payload,
    )
        ensures written { payload.new ≡ reply_payload (reply_with self.now process.now frame.now judged.now) }
        ensures two { 2 ≤ length payload.new }
    {
        let (code, content) = match judged {
            Ok(request) => (ResponseCode::SUCCESS, self.content(process, request)),
            Err(code) => (*code, ReplyContent::Refused),
        };
        let reply = Reply {
            command: frame.command(),
            code,
            status: self.status(process, frame.master()),
            content,
        };
        reply.write(payload);
    }
}
