//! The text of a reason, made without an allocation.
ghost use Rattle.std.specs.Prelude.{◌≡◌, ◌+◌, ◌++◌, ◌≤◌, [], decimal, length};

use std::fmt;

/// The text of a reason, in parts, so that it can be written without an allocation.
#[derive(Clone, Copy, Debug)]
pub struct Reason {
    /// The part before the number or the last word. If the text has neither, this part is the whole text.
    pub before: &'static str,
    /// The number, written in decimal, if there is one.
    pub number: Option<usize>,
    /// The part after the number. If the reason has no number, this part is the reason's last word, or empty.
    pub after: &'static str,
    /// The parts besides the number have at most 60 bytes. A number has at most 20 digits, so a whole reason has at most 80 bytes.
    pub ghost short: { length before.now + length after.now ≤ 60 },
}

impl Reason {
    ghost use Rattle.hart_request.specs.Reason.{reasoned};

    /// Returns the reason that has no text.
    pub fn none() -> Reason
        ensures { reasoned result ≡ [] }
    {
        Reason::plain("")
    }

    /// Returns the reason with this text, without a number.
    pub fn plain(text: &'static str) -> Reason
        requires { length text.now ≤ 60 }
        ensures { reasoned result ≡ text.now }
    {
        Reason {
            before: text,
            number: None,
            after: "",
        }
    }

    /// Returns the reason with a text that ends in a word.
    pub fn worded(before: &'static str, word: &'static str) -> Reason
        requires { length before.now + length word.now ≤ 60 }
        ensures { reasoned result ≡ before.now ++ word.now }
    {
        Reason {
            before,
            number: None,
            after: word,
        }
    }

    /// Returns the reason with a text that has a number in it.
    pub fn numbered(before: &'static str, number: usize, after: &'static str) -> Reason
        requires { length before.now + length after.now ≤ 60 }
        ensures { reasoned result ≡ before.now ++ decimal number ++ after.now }
    {
        Reason {
            before,
            number: Some(number),
            after,
        }
    }
}

impl fmt::Display for Reason {
    ghost use Rattle.std.specs.Prelude.{Some};
    ghost use Rattle.hart_request.specs.Reason.{reasoned};

    ghost output = { λ reason. Some (reasoned reason) };

    fn fmt<W: fmt::Write>(&self, f: &mut fmt::Formatter<W>) -> fmt::Result {
        f.write_str(self.before)?;
        if let Some(number) = self.number {
            write!(f, "{number}")?;
        }
        f.write_str(self.after)
    }
}
