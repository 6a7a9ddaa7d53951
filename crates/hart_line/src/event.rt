use crate::CharList;
use hart_commands::Request;
use hart_values::{Address, MasterId};

/// What is heard in one leg of a turn.
#[derive(Debug, Drop)]
pub enum Heard {
    /// What was sent in this leg is heard without faults. If nothing was sent, nothing is heard.
    Clean,
    /// Nothing is heard.
    Lost,
    /// These characters are heard in place of what was sent.
    Chars(CharList),
}

/// One event on the line.
#[derive(Debug, Drop)]
pub enum LineEvent {
    /// A master is asked to send this request to this address.
    Submit {
        who: MasterId,
        address: Address,
        request: Request,
    },
    /// A master has its turn: the device hears `up`, and then both masters hear `down`.
    Turn {
        who: MasterId,
        up: Heard,
        down: Heard,
    },
    /// The write protection of the device is switched on or off.
    Protect(bool),
    /// The device and both masters hear these characters, which the device may take for a damaged request. Both masters also hear the
    /// device's answer, without damage: a script has no word for damage to this answer.
    Noise(CharList),
    /// The device loses its power and starts again. The masters keep what they have in hand.
    Restart,
}
