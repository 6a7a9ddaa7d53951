//! The HART line: a device and its two masters, and what an event does to them.
ghost use Rattle.std.specs.Prelude.{◌≡◌, ◌<◌, [], ◌∷◌, Any, IfErr, OnOk};
ghost use Rattle.std.specs.Option.{option_copied};
ghost use Rattle.hart_commands.specs.RequestData.{IsRequest};
ghost use Rattle.hart_device.specs.Device.{IsDevice};
ghost use Rattle.hart_line.specs.Types.{Process, Noise, Submit, Turn};
ghost use Rattle.hart_line.specs.line.Line.{StepsOn, StopsAt};
ghost use Rattle.hart_line.specs.line.Room.{HasRoomFor, LeavesRoom};
ghost use Rattle.hart_line.specs.world.Promises.{AreWellMade};
ghost use Rattle.hart_line.specs.world.Spoken.{frame_if, party_of};

use crate::line::event_frames::EventFrames;
use crate::line::leg::{answer_among, answer_in, arrived_in};
use crate::line::log::Log;
use crate::line::masters::{Masters, Submitter, first_outcome};
use crate::line::report::Ending;
use crate::{Filling, Heard, Leg, LineEvent, NoRoom, Outcome, Outcomes, Party};
use hart_commands::Request;
use hart_device::{Device, Process, RegisterStore};
use hart_frame::{Char, Frame};
use hart_master::Master;
use hart_values::{Address, MasterId, Payload};
use std::marker::Model;

pub mod event_frames;
pub mod leg;
pub mod log;
pub mod logged;
pub mod masters;
pub mod report;
pub mod room;
pub mod run;

/// The number of preamble bytes that a master puts before a request.
const MASTER_PREAMBLES: u8 = 20;

/// A HART line: a device, its two masters, what became of each submission so far, and what was spoken in the last event.
#[derive(Drop)]
pub struct Line<S: RegisterStore> {
    device: Device<S>,
    masters: Masters,
    outcomes: Filling<Outcome>,
    spoken: EventFrames,
    /// The number of preamble bytes of the device's replies.
    response_preambles: u8,
    /// The request and the reply of an event are written into these two fields, because each frame takes about 300 bytes. With calls that
    /// return frames, a turn whose two legs are clean takes a quarter more instructions, and a turn without a request takes twice as many.
    request: Frame,
    reply: Frame,
}

impl<S: RegisterStore> Model for Line<S> {
    ghost use Rattle.hart_frame.specs.wire.Message.{IsPreambleCount};
    ghost use Rattle.hart_line.specs.line.Line.{LineState};

    ghost Value = { LineState };

    ghost view = { λ line. record {
      device = line.device;
      masters = line.masters;
      outcomes = line.outcomes.items;
      spoken = line.spoken;
      outcomes_room = line.outcomes.room;
      response_preambles = line.response_preambles;
    } };

    ghost invariant = { λ line. IsPreambleCount line.response_preambles };
}

impl<S: RegisterStore> Line<S> {
    /// Returns the HART line of this device and these masters, with this room for outcomes. Nothing has happened on it yet.
    pub fn new(
        outcomes: Filling<Outcome>,
        device: Device<S>,
        primary: Master,
        secondary: Master,
    ) -> Self
        ensures line { result ≡ record {
          device = device;
          masters = record {
            primary = record { master = primary; place = 0 };
            secondary = record { master = secondary; place = 0 };
          };
          outcomes = outcomes.items;
          spoken = [];
          outcomes_room = outcomes.room;
          response_preambles = device.identity.response_preambles;
        } }
        ensures device { IsDevice device }
    {
        let response_preambles = device.response_preambles();
        Line {
            device,
            masters: Masters {
                primary: Submitter {
                    master: primary,
                    place: 0,
                },
                secondary: Submitter {
                    master: secondary,
                    place: 0,
                },
            },
            outcomes,
            spoken: EventFrames::new(),
            response_preambles,
            request: no_frame(),
            reply: no_frame(),
        }
    }

    /// Notes the line's spoken frames in a log, and stops at the first frame for which the log has no room. Afterwards the line keeps no
    /// frames, whether or not all of them were noted.
    pub fn tell<L: Log>(&mut self, log: &mut L) -> Result<(), NoRoom>
        ensures line { OnOk result (self.new ≡ record self.old { spoken = [] }) }
        ensures noted { OnOk result (L.notes log.old self.old.spoken log.new) }
        ensures refused { IfErr result (λ none. (0 < none.items) × Any (λ said. L.needs said none.items) self.old.spoken) }
    {
        self.spoken.note_in(log)?;
        Ok(())
    }

    /// Returns the device and the outcomes to which the script has led.
    pub fn into_ending(self) -> Ending<S>
        ensures device { result.device ≡ self.device }
        ensures outcomes { result.outcomes ≡ self.outcomes }
    {
        Ending {
            device: self.device,
            outcomes: Outcomes::new(self.outcomes.finish()),
        }
    }

    /// Carries out one event, or returns the leg whose damage is undetected. There must be room for the event.
    pub fn step(&mut self, event: &LineEvent, process: &Process) -> Result<(), Leg>
        requires room { HasRoomFor (event.now ∷ []) self.old }
        ensures stepped { OnOk result (StepsOn process.now event.now self.old self.new) }
        ensures stopped { IfErr result (StopsAt process.now event.now self.old) }
        ensures well_made { OnOk result (AreWellMade (event.now ∷ [])) }
        ensures room { OnOk result (LeavesRoom event.now self.old self.new) }
    {
        match event {
            LineEvent::Submit {
                who,
                address,
                request,
            } => self.submit(*who, *address, request),
            LineEvent::Turn { who, up, down } => return self.turn(*who, up, down, process),
            LineEvent::Protect(on) => self.device.protect(*on),
            LineEvent::Noise(chars) => return self.hear_noise(chars.as_slice(), process),
            LineEvent::Restart => self.device.restart(),
        }
        Ok(())
    }

    /// Submits a request to a master and adds its first outcome.
    fn submit(&mut self, who: MasterId, address: Address, request: &Request)
        requires room { HasRoomFor (Submit who address request.now ∷ []) self.old }
        ensures stepped { (process : Process) → StepsOn process (Submit who address request.now) self.old self.new }
        ensures well_made { IsRequest request.now }
        ensures room { LeavesRoom (Submit who address request.now) self.old self.new }
    {
        let place = self.outcomes.len();
        let fault = self.masters.submit(who, place, address, request);
        let outcome = first_outcome(fault);
        self.outcomes.push(outcome);
    }

    /// Carries out a turn of a master. The master sends the request in its hand, if there is one. The device hears the characters of the
    /// leg up and answers. Both masters hear the characters of the leg down. Returns the first leg with undetected damage as the error.
    fn turn(
        &mut self,
        who: MasterId,
        up: &Heard,
        down: &Heard,
        process: &Process,
    ) -> Result<(), Leg>
        requires room { HasRoomFor (Turn who up.now down.now ∷ []) self.old }
        ensures stepped { OnOk result (StepsOn process.now (Turn who up.now down.now) self.old self.new) }
        ensures stopped { IfErr result (StopsAt process.now (Turn who up.now down.now) self.old) }
        ensures room { OnOk result (LeavesRoom (Turn who up.now down.now) self.old self.new) }
    {
        let is_sent = self.masters.send(who, &mut self.request);
        let sent = frame_if(is_sent, &self.request);
        self.spoken.speak(party_of(who), MASTER_PREAMBLES, sent);
        let Ok(is_answered) = answer_in(&mut self.device, up, sent, process, &mut self.reply) else {
            return Err(Leg::Up);
        };
        let sent_back = frame_if(is_answered, &self.reply);
        let preambles = self.response_preambles;
        self.spoken.speak(Party::Device, preambles, sent_back);
        let Ok(returned) = arrived_in(down, sent_back) else {
            return Err(Leg::Down);
        };
        self.masters.end_turn(who, returned, &mut self.outcomes);
        Ok(())
    }

    /// Carries out noise. The device and both masters hear the noise. Both masters also hear the device's answer, without damage. Returns
    /// [`Leg::Noise`] as the error if the damage of the noise is undetected.
    fn hear_noise(&mut self, chars: &[Char], process: &Process) -> Result<(), Leg>
        requires room { HasRoomFor (Noise chars.now ∷ []) self.old }
        ensures stepped { OnOk result (StepsOn process.now (Noise chars.now) self.old self.new) }
        ensures stopped { IfErr result (StopsAt process.now (Noise chars.now) self.old) }
        ensures room { OnOk result (LeavesRoom (Noise chars.now) self.old self.new) }
    {
        let reply = &mut self.reply;
        let Ok(is_answered) = answer_among(&mut self.device, chars, None, process, reply) else {
            return Err(Leg::Noise);
        };
        let answer = frame_if(is_answered, &self.reply);
        let preambles = self.response_preambles;
        self.spoken.speak(Party::Device, preambles, answer);
        self.masters.hear_noise(chars, answer);
        Ok(())
    }
}

/// Returns this master as a party of the line.
fn party_of(id: MasterId) -> Party
    ensures { result ≡ party_of id }
{
    match id {
        MasterId::Primary => Party::Primary,
        MasterId::Secondary => Party::Secondary,
    }
}

/// Returns the frame if `is_there` is true, and otherwise `None`.
fn frame_if(is_there: bool, frame: &Frame) -> Option<&Frame>
    ensures { option_copied result ≡ frame_if is_there frame.now }
{
    if is_there { Some(frame) } else { None }
}

/// Returns a placeholder for a frame that is not written yet.
fn no_frame() -> Frame {
    let address = Address::polling(0).unwrap();
    Frame::request(MasterId::Primary, address, 0, Payload::new())
}
