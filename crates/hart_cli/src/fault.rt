//! Why a call of the command line ended early. Functions, not attributes of `thiserror`, define the texts, because attributes have no
//! contracts.

ghost use Rattle.std.specs.Prelude.{◌≡◌, Some};
ghost use Rattle.hart_line.specs.FaultText.{joined};
ghost use Rattle.hart_cli.specs.FaultNumbers.{cli_fault_number};
ghost use Rattle.hart_cli.specs.FaultText.{fault_line, fault_text, reason_of, text_before_reason};
ghost use Rattle.hart_request.specs.Reason.{reasoned};
ghost use Rattle.hart_cli.specs.declared.fault.CliFault.TheVariants.{Image, Memory, Write};

use crate::stream::Failed;
use hart_device::DeviceFault;
use hart_line::{FaultText, LineFault, NoRoom};
use hart_request::{BadField, Reason};
use hart_station::{FaultLine, TextFault, line_of_parts};
use std::fmt;
use thiserror::Error;

/// Why a call ended early.
#[derive(Clone, Copy, Debug, Error)]
pub enum CliFault {
    /// The reader failed.
    Read,
    /// The writer failed.
    Write,
    /// The input is longer than its limit. The limit is 2^64 - 1 bytes for `explain`, `serve` and `master`, 2^64 - 2 for a raw input, and
    /// [`INPUT_LIMIT`](crate::INPUT_LIMIT) for all other inputs.
    TooLong,
    /// The input has bad hex at this place, counted from 0. No separator and no item begins there. In an input of `explain`, no silence and
    /// no date begins there either. In an image word of odd length, the place is the word's length. In any other image word, it is the
    /// place of the first byte that is no hex digit.
    BadHex { place: usize },
    /// A line of the script is bad, or a leg of the script has undetected damage.
    Line(LineFault),
    /// No device can start from this image.
    Image(DeviceFault),
    /// Memory was refused, for this number of bytes or other elements.
    Memory(NoRoom),
    /// This word of `hart encode` or `hart request` is bad: 1 is WHO, 2 ADDRESS, 3 COMMAND and 4 DATA. `hart request` has no DATA. On the
    /// command line of `hart master`, 1 is WHO.
    BadWord { number: u8 },
    /// The words of a request do not give the fields of its command.
    BadField(BadField),
}

impl CliFault {
    /// Returns the number of the fault, 1 to 8.
    pub fn number(self) -> u8
        ensures { result ≡ cli_fault_number self }
    {
        match self {
            CliFault::Read => 1,
            CliFault::Write => 2,
            CliFault::TooLong => 3,
            CliFault::BadHex { .. } => 4,
            CliFault::Line(_) => 5,
            CliFault::Image(_) => 6,
            CliFault::Memory(_) => 7,
            CliFault::BadWord { .. } | CliFault::BadField(_) => 8,
        }
    }

    /// Returns the text of the fault and a line feed. The function allocates nothing, so that it can report refused memory.
    pub fn text_line(self) -> FaultLine
        ensures { result.bytes ≡ fault_line self }
    {
        line_of_parts(self.text(), self.reason())
    }

    /// Returns the text of the fault, without the reason why a word of `hart request` is bad.
    fn text(self) -> FaultText
        ensures { joined result ≡ text_before_reason self }
    {
        match self {
            CliFault::Read => FaultText::plain("read fault"),
            CliFault::Write => FaultText::plain("write fault"),
            CliFault::TooLong => FaultText::plain("input too long"),
            CliFault::BadHex { place } => TextFault::BadHex { place }.text(),
            CliFault::Line(fault) => fault.text(),
            CliFault::Image(fault) => FaultText::plain(fault.text()),
            CliFault::Memory(none) => LineFault::Memory(none).text(),
            CliFault::BadWord { number } => TextFault::BadWord { number }.text(),
            CliFault::BadField(bad) => TextFault::BadField(bad).text(),
        }
    }

    /// Returns the reason of a [`CliFault::BadField`]. For any other fault, returns the reason that has no text.
    fn reason(self) -> Reason
        ensures { reasoned result ≡ reason_of self }
    {
        match self {
            CliFault::BadField(bad) => bad.fault.reason(),
            _ => Reason::none(),
        }
    }
}

impl fmt::Display for CliFault {
    ghost output = { λ fault. Some (fault_text fault) };

    fn fmt<W: fmt::Write>(&self, f: &mut fmt::Formatter<W>) -> fmt::Result {
        self.text().fmt(f)?;
        self.reason().fmt(f)
    }
}

impl From<Failed> for CliFault {
    ghost from_gives = { λ _ e. e ≡ Write };

    /// Reports a failed write as [`CliFault::Write`]. No call converts a failed read in this way: a failed read is reported as
    /// [`CliFault::Read`].
    fn from(_failed: Failed) -> CliFault {
        CliFault::Write
    }
}

impl From<TextFault> for CliFault {
    ghost use Rattle.hart_cli.specs.FaultText.{of_text};

    ghost from_gives = { λ fault e. e ≡ of_text fault };

    fn from(fault: TextFault) -> CliFault {
        match fault {
            TextFault::BadHex { place } => CliFault::BadHex { place },
            TextFault::BadWord { number } => CliFault::BadWord { number },
            TextFault::BadField(bad) => CliFault::BadField(bad),
        }
    }
}

impl From<NoRoom> for CliFault {
    ghost from_gives = { λ none e. e ≡ Memory none };

    fn from(none: NoRoom) -> CliFault {
        CliFault::Memory(none)
    }
}

impl From<DeviceFault> for CliFault {
    ghost from_gives = { λ fault e. e ≡ Image fault };

    /// Reports a device's fault as a fault of its image, since only making a device from an image can fail.
    fn from(fault: DeviceFault) -> CliFault {
        CliFault::Image(fault)
    }
}

impl From<LineFault> for CliFault {
    ghost use Rattle.hart_cli.specs.FaultText.{call_fault};

    ghost from_gives = { λ fault e. e ≡ call_fault fault };

    /// Reports refused memory as [`CliFault::Memory`], and any other fault of a script as [`CliFault::Line`].
    fn from(fault: LineFault) -> CliFault {
        match fault {
            LineFault::Memory(none) => CliFault::Memory(none),
            other => CliFault::Line(other),
        }
    }
}
