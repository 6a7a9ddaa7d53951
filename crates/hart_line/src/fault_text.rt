ghost use Rattle.std.specs.Prelude.{◌≡◌, ◌+◌, ◌≤◌, ◌++◌, decimal, length};

use std::fmt;

/// The text of a fault, kept in parts so that it can be written without allocating memory.
#[derive(Clone, Copy, Debug, PartialEq, Eq)]
pub struct FaultText {
    /// The whole text if it has no number, and otherwise the part before the number.
    pub before: &'static str,
    /// The number, written in decimal.
    pub number: Option<usize>,
    /// The text between the number and the last word.
    pub comma: &'static str,
    /// The last word.
    pub word: &'static str,
    /// The three texts have at most 34 bytes in all. A number has at most 20 digits, so a whole text has at most 54 bytes.
    pub ghost short: { length before.now + length comma.now + length word.now ≤ 34 },
}

impl FaultText {
    ghost use Rattle.hart_line.specs.FaultText.{joined};

    /// Returns a text without a number.
    pub fn plain(text: &'static str) -> FaultText
        requires { length text.now ≤ 34 }
        ensures { joined result ≡ text.now }
    {
        FaultText {
            before: text,
            number: None,
            comma: "",
            word: "",
        }
    }

    /// Returns a text that ends with a number.
    pub fn numbered(before: &'static str, number: usize) -> FaultText
        requires { length before.now ≤ 34 }
        ensures { joined result ≡ before.now ++ decimal number }
    {
        FaultText {
            before,
            number: Some(number),
            comma: "",
            word: "",
        }
    }
}

impl fmt::Display for FaultText {
    ghost use Rattle.std.specs.Prelude.{Some};
    ghost use Rattle.hart_line.specs.FaultText.{joined};

    ghost output = { λ text. Some (joined text) };

    fn fmt<W: fmt::Write>(&self, f: &mut fmt::Formatter<W>) -> fmt::Result {
        f.write_str(self.before)?;
        if let Some(number) = self.number {
            write!(f, "{number}")?;
        }
        f.write_str(self.comma)?;
        f.write_str(self.word)
    }
}
