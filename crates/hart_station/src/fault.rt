//! Why a line is bad, or a word of a request. Functions, not attributes of `thiserror`, define the texts, because attributes have no
//! contracts.
ghost use Rattle.std.specs.Prelude.{◌≡◌, ◌∷◌, ◌++◌, ◌≤◌, [], length};
ghost use Rattle.hart_line.specs.FaultText.{joined};
ghost use Rattle.hart_request.specs.Reason.{reasoned};
ghost use Rattle.hart_station.specs.FaultText.{fault_text, reason_of, text_before_reason};
ghost use Rattle.hart_station.specs.declared.fault.TextFault.TheVariants.{BadField as FaultOfField};

use arrayvec::ArrayString;
use hart_line::FaultText;
use hart_request::{BadField, Reason};
use itoa::Buffer;

/// Why a line is bad, or a word of a request.
#[derive(Clone, Copy, Debug)]
pub enum TextFault {
    /// The text has bad hex at this place, counted from 0. No separator and no item begins there.
    BadHex { place: usize },
    /// This word is bad. The words of a request have the numbers 1 for WHO, 2 for ADDRESS, 3 for COMMAND and 4 for DATA. The words of a
    /// line of a master are counted from 1.
    BadWord { number: u8 },
    /// The words of a request do not give the fields of its command.
    BadField(BadField),
}

/// The length of the longest text: 54 characters of a fault, 80 of a reason, and a line feed.
const LONGEST_LINE: usize = 135;

/// The text of a fault and a line feed.
pub type FaultLine = ArrayString<LONGEST_LINE>;

impl TextFault {
    /// Returns the text of the fault and a line feed.
    pub fn text_line(self) -> FaultLine
        ensures { result.bytes ≡ fault_text self ++ 10 ∷ [] }
    {
        line_of_parts(self.text(), self.reason())
    }

    /// Returns the text of the fault, without the reason why a field is bad.
    pub fn text(self) -> FaultText
        ensures { joined result ≡ text_before_reason self }
    {
        match self {
            TextFault::BadHex { place } => FaultText::numbered("bad hex at ", place),
            TextFault::BadWord { number } => FaultText::numbered("bad word ", usize::from(number)),
            TextFault::BadField(bad) => FaultText {
                before: "bad word ",
                number: Some(bad.number),
                comma: ": ",
                word: "",
            },
        }
    }

    /// Returns the reason of a [`TextFault::BadField`]. For any other fault, returns the reason that has no text.
    fn reason(self) -> Reason
        ensures { reasoned result ≡ reason_of self }
    {
        match self {
            TextFault::BadField(bad) => bad.fault.reason(),
            _ => Reason::none(),
        }
    }
}

/// Returns the text of a fault, its reason and a line feed as one line. The function allocates nothing, so that it can report refused
/// memory. The function pushes the text part by part, since no contract says that `write!` succeeds.
pub fn line_of_parts(text: FaultText, reason: Reason) -> FaultLine
    ensures { result.bytes ≡ (joined text ++ reasoned reason) ++ 10 ∷ [] }
{
    let mut line = ArrayString::new();
    push_text(&mut line, text);
    push_reason(&mut line, reason);
    line.push_str("\n");
    line
}

/// Adds the text of a fault to a line.
fn push_text(line: &mut FaultLine, text: FaultText)
    requires { line.old.bytes ≡ [] }
    ensures text { line.new.bytes ≡ joined text }
    ensures few { length line.new.bytes ≤ 54 }
{
    line.push_str(text.before);
    if let Some(number) = text.number {
        line.push_str(Buffer::new().format(number));
    }
    line.push_str(text.comma);
    line.push_str(text.word);
}

/// Adds a reason to a line.
fn push_reason(line: &mut FaultLine, reason: Reason)
    requires { length line.old.bytes ≤ 54 }
    ensures reason { line.new.bytes ≡ line.old.bytes ++ reasoned reason }
    ensures few { length line.new.bytes ≤ 134 }
{
    line.push_str(reason.before);
    if let Some(number) = reason.number {
        line.push_str(Buffer::new().format(number));
    }
    line.push_str(reason.after);
}

impl From<BadField> for TextFault {
    ghost from_gives = { λ bad e. e ≡ FaultOfField bad };

    fn from(bad: BadField) -> TextFault {
        TextFault::BadField(bad)
    }
}
