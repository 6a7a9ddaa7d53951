ghost use Rattle.std.specs.Prelude.{◌≡◌, ◌≤◌, length, Some};
ghost use Rattle.hart_line.specs.FaultText.{line_fault_number, joined, leg_word, line_fault_text};

use crate::{FaultText, NoRoom};
use std::fmt;
use thiserror::Error;

/// A part of an event in which something is heard.
#[derive(Clone, Copy, Debug, PartialEq, Eq)]
pub enum Leg {
    /// From a master to the device, in a turn.
    Up,
    /// From the device to the masters, in a turn.
    Down,
    /// Noise, which the device and both masters hear.
    Noise,
}

impl Leg {
    /// Returns the word that names the leg.
    pub fn word(self) -> &'static str
        ensures word { result.now ≡ leg_word self }
        ensures short { length result.now ≤ 5 }
    {
        match self {
            Leg::Up => "up",
            Leg::Down => "down",
            Leg::Noise => "noise",
        }
    }
}

impl fmt::Display for Leg {
    ghost output = { λ leg. Some (leg_word leg) };

    fn fmt<W: fmt::Write>(&self, f: &mut fmt::Formatter<W>) -> fmt::Result {
        f.write_str(self.word())
    }
}

/// Why a script could not be read or carried out.
#[derive(Clone, Copy, Debug, PartialEq, Eq, Error)]
pub enum LineFault {
    /// In this leg of this event, a frame was heard that was not sent in the leg, or several frames were heard. Events are counted from 0.
    Undetected { event: usize, leg: Leg },
    /// Memory was refused.
    Memory(NoRoom),
    /// The line with this number stands for no event, although it is neither empty nor a comment. Lines are counted from 1.
    BadLine { number: usize },
}

impl LineFault {
    /// Returns the number of the fault, 1 to 3.
    pub fn number(self) -> u8
        ensures { result ≡ line_fault_number self }
    {
        match self {
            LineFault::Undetected { .. } => 1,
            LineFault::Memory(_) => 2,
            LineFault::BadLine { .. } => 3,
        }
    }

    /// Returns the text of the fault.
    pub fn text(self) -> FaultText
        ensures { joined result ≡ line_fault_text self }
    {
        match self {
            LineFault::Undetected { event, leg } => FaultText {
                before: "undetected damage at event ",
                number: Some(event),
                comma: ", ",
                word: leg.word(),
            },
            LineFault::Memory(_) => FaultText::plain("out of memory"),
            LineFault::BadLine { number } => FaultText::numbered("bad line ", number),
        }
    }
}

impl fmt::Display for LineFault {
    ghost output = { λ fault. Some (line_fault_text fault) };

    fn fmt<W: fmt::Write>(&self, f: &mut fmt::Formatter<W>) -> fmt::Result {
        self.text().fmt(f)
    }
}

impl From<NoRoom> for LineFault {
    ghost use Rattle.hart_line.specs.declared.fault.LineFault.TheVariants.{Memory};

    ghost from_gives = { λ none fault. fault ≡ Memory none };

    fn from(none: NoRoom) -> LineFault {
        LineFault::Memory(none)
    }
}
