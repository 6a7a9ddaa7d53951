//! Why the words for the fields make no request.
ghost use Rattle.std.specs.Prelude.{◌≡◌};
ghost use Rattle.hart_request.specs.FaultText.{name_at, reason_text};
ghost use Rattle.hart_request.specs.Reason.{reasoned};

use crate::reason::Reason;
use hart_commands::request_rows;

/// A bad word, and why it is bad.
#[derive(Clone, Copy, Debug)]
pub struct BadField {
    /// The number of the bad word, from 4 on. If the command is unknown or refuses the fields, the number is 3. If a field is missing, the
    /// number is one more than the number of the last word.
    pub number: usize,
    /// What is wrong.
    pub fault: FieldFault,
}

/// Why the words for the fields make no request.
#[derive(Clone, Copy, Debug)]
pub enum FieldFault {
    /// The command is not known.
    UnknownCommand,
    /// The word does not have the form NAME=VALUE.
    NotNamed,
    /// The requests of the command have no field of this name.
    UnknownField,
    /// An earlier word gives the same field.
    GivenTwice,
    /// No word gives a value to this field of the command. `field` is the place of the field in the command's requests, counted from 0.
    Missing { command: u8, field: usize },
    /// The field cannot have the character at this place of the text, counted from 0.
    BadCharacter { place: usize },
    /// The text has more than `most` characters, the most that the field can have.
    TooLong { most: usize },
    /// The value is not a decimal number from 0 to `greatest`.
    NoNumber { greatest: u16 },
    /// The value is neither a day of the years 1900 to 2155, in the form that `explain` shows, nor `not set`.
    NoDate,
    /// The value does not have the form `0x` and `count` bytes in hex.
    NoBytes { count: u8 },
    /// The value does not have the form `0x` and one to eight bytes in hex.
    NoCodes,
    /// The fields make data that a device refuses with this code.
    Refused { code: u8 },
}

impl FieldFault {
    /// Returns the text of the fault.
    pub fn reason(self) -> Reason
        ensures { reasoned result ≡ reason_text self }
    {
        match self {
            FieldFault::UnknownCommand => Reason::plain("unknown command"),
            FieldFault::NotNamed => Reason::plain("no NAME=VALUE"),
            FieldFault::UnknownField => Reason::plain("unknown field"),
            FieldFault::GivenTwice => Reason::plain("given twice"),
            FieldFault::Missing { command, field } => {
                Reason::worded("missing field ", name_at(command, field))
            }
            FieldFault::BadCharacter { place } => Reason::numbered("bad character at ", place, ""),
            FieldFault::TooLong { most } => {
                Reason::numbered("too long: at most ", most, " characters")
            }
            FieldFault::NoNumber { greatest } => {
                Reason::numbered("no number from 0 to ", usize::from(greatest), "")
            }
            FieldFault::NoDate => Reason::plain("no date"),
            FieldFault::NoBytes { count } => {
                Reason::numbered("not 0x and ", usize::from(count), " bytes in hex")
            }
            FieldFault::NoCodes => Reason::plain("not 0x and 1 to 8 bytes in hex"),
            FieldFault::Refused { code } => {
                Reason::numbered("refused with code ", usize::from(code), "")
            }
        }
    }
}

/// Returns the name in words of the field at a place in a command's requests, or no text if there is no such field.
fn name_at(command: u8, field: usize) -> &'static str
    ensures { result.now ≡ name_at command field }
{
    match request_rows(command).get(field) {
        Some(row) => row.words,
        None => "",
    }
}
