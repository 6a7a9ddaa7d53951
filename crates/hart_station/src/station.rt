//! A station, a device or a master, answers lines of text.
ghost use Rattle.std.specs.Prelude.{◌≡◌, ◌≤◌, ◌+◌, ◌∷◌, [], ◌++◌, ℕ, List, None, Option, Some, codes, length};
ghost use Rattle.hart_station.specs.Station.{bad_line, input_limit};

use hart_values::ByteList;

/// The greatest number of bytes in a line of a station, and in an input of `answer`, `dump` and `sim`.
pub const INPUT_LIMIT: usize = 1_048_576;

/// The greatest number of characters in a line. Each character takes at least two bytes of the line.
pub const CHARS_ROOM: usize = INPUT_LIMIT / 2;

/// The answer to a line. The longest answer has the word `send`, a space, and the line of a message of 287 bytes.
pub type SaidLine = ByteList<866>;

/// Answers lines of text, as the device of `hart serve` and the master of `hart master` do.
pub trait Station {
    // The relation between the station before a line, what it reads of the line, the station afterwards, and its answer. The station reads
    // nothing of a line that is too long.
    ghost serves: { Self → Option (List ℕ) → Self → List ℕ → Type 0 };

    /// Answers a line. `text` is the line and one more space.
    fn answer(&mut self, text: &[u8]) -> SaidLine
        requires short { length text.now ≤ input_limit + 1 }
        ensures { (line : List ℕ) → text.now ≡ line ++ 32 ∷ [] → serves self.old (Some line) self.new result };

    // A line that is too long changes nothing.
    ghost too_long: { (station : Self) → serves station None station (bad_line (codes "too long")) };
}
