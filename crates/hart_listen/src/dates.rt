//! The dates of the characters that are held. A date has at most 32 bytes, so the dates of all held characters fit in a buffer of a fixed
//! size.
ghost use Rattle.std.specs.Prelude.{◌≡◌, ◌+◌, ◌≤◌, ◌<◌, ◌^◌, [], ℕ, get_or, length};
ghost use Rattle.hart_listen.specs.Dates.{date_at, kept_word};

use crate::held::MOST_OPEN;
use arrayvec::ArrayVec;
use hart_text::DATE_LEN;

/// A date: the length of its word, and then the word. The length is 0 if there is no date.
pub type Date = [u8; DATE_LEN + 1];

/// The dates of the held characters, and of the characters that come next.
#[derive(Drop)]
pub struct Dates {
    /// The dates of the first held characters.
    pub held: ArrayVec<Date, MOST_OPEN>,
    /// The date of the other held characters, and of the characters that come next.
    pub last: Date,
}

impl Dates {
    /// Returns the state in which nothing has a date.
    pub fn new() -> Dates
        ensures held { result.held.items ≡ [] }
        ensures none { (place : ℕ) → date_at result place ≡ [] }
    {
        Dates {
            held: ArrayVec::new(),
            last: [0; DATE_LEN + 1],
        }
    }

    /// Hears a date, which becomes the date of the characters that come next.
    pub fn hear(&mut self, word: &[u8])
        requires { length word.now ≤ 32 }
        ensures held { self.new.held ≡ self.old.held }
        ensures last { kept_word self.new.last ≡ word.now }
    {
        let mut date = [0; DATE_LEN + 1];
        date[0] = word.len() as u8;
        date[1..=word.len()].copy_from_slice(word);
        self.last = date;
    }

    /// Drops the dates of the first `used` characters, and keeps the dates of the next `count` characters.
    pub fn let_go(&mut self, used: usize, count: usize)
        requires few { count ≤ 268 }
        requires enough { length self.old.held.items ≤ used + count }
        requires places { used + count < 2 ^ 64 }
        ensures count { length self.new.held.items ≡ count }
        ensures dates { (place : ℕ) → date_at self.new place ≡ date_at self.old (used + place) }
    {
        if count == 0 {
            self.held.clear();
            return;
        }
        let mut held = ArrayVec::new();
        for place in 0..count {
            held.push(self.date_at(used + place));
        }
        self.held = held;
    }

    /// Returns the word of the date of the held character at a place, or no bytes if there is no date.
    pub fn word_at(&self, place: usize) -> &[u8]
        ensures word { result.now ≡ date_at self.now place }
        ensures few { length result.now ≤ 32 }
    {
        match self.held.as_slice().get(place) {
            Some(date) => word_of(date),
            None => word_of(&self.last),
        }
    }

    /// Returns the date of the held character at a place.
    fn date_at(&self, place: usize) -> Date
        ensures { result ≡ get_or self.now.held.items place self.now.last }
    {
        match self.held.as_slice().get(place) {
            Some(date) => *date,
            None => self.last,
        }
    }
}

/// Returns the word of a date, or no bytes if there is no date.
fn word_of(date: &Date) -> &[u8]
    ensures word { result.now ≡ kept_word date.now }
    ensures few { length result.now ≤ 32 }
{
    let len = usize::from(date[0]).min(DATE_LEN);
    &date[1..=len]
}
