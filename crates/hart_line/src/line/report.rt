ghost use Rattle.std.specs.Prelude.{◌≡◌};

use crate::PlainList;
use hart_commands::Reply;
use hart_device::{Device, RegisterStore};
use hart_frame::Body;
use hart_master::MasterFault;

/// Who speaks on the line.
#[derive(Clone, Copy, Debug, PartialEq, Eq)]
pub enum Party {
    /// The primary master.
    Primary,
    /// The secondary master.
    Secondary,
    /// The field device.
    Device,
}

/// A frame that was spoken: its party, its number of preamble bytes and its body.
#[derive(Debug, Drop, PartialEq, Eq)]
pub struct Spoken {
    /// Who spoke the frame.
    pub party: Party,
    /// The number of preamble bytes.
    pub preambles: u8,
    /// The body, from the delimiter to the check byte.
    pub bytes: Body,
}

impl Spoken {
    /// Returns a copy.
    pub(crate) fn copied(&self) -> Self
        ensures { result ≡ self.now }
    {
        let mut bytes = Body::new();
        bytes.extend_from_slice(self.bytes.as_slice());
        Spoken {
            party: self.party,
            preambles: self.preambles,
            bytes,
        }
    }
}

/// What became of a submission.
#[derive(Debug, Drop, PartialEq, Eq)]
pub enum Outcome {
    /// A reply was accepted, after this number of sendings.
    Answered { reply: Reply, sendings: u8 },
    /// The request was sent this number of times, no reply was accepted, and the request was given up.
    NoReply { sendings: u8 },
    /// The request was sent this number of times, and is neither answered nor given up.
    Unfinished { sendings: u8 },
    /// The master refused the submission.
    Refused(MasterFault),
}

/// What became of each submission, in order.
pub type Outcomes = PlainList<Outcome>;

/// What was spoken, in order.
pub type SpokenList = PlainList<Spoken>;

/// What a script leads to.
#[derive(Debug, Drop)]
pub struct Report<S: RegisterStore> {
    /// The device at the end.
    pub device: Device<S>,
    /// What became of each submission.
    pub outcomes: Outcomes,
    /// What was spoken.
    pub spoken: SpokenList,
}

/// What a script leads to, without what was spoken.
#[derive(Debug, Drop)]
pub struct Ending<S: RegisterStore> {
    /// The device at the end.
    pub device: Device<S>,
    /// What became of each submission.
    pub outcomes: Outcomes,
}
