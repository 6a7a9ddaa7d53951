//! What was heard and is not yet told.
ghost use Rattle.std.specs.Prelude.{◌≡◌, ◌++◌, ◌+◌, ◌-◌, ◌<◌, ◌≤◌, ◌^◌, ◌∷◌, ℕ, List, [], false, true, drop, length, map};
ghost use Rattle.std.specs.Option.{option_to_list};
ghost use Rattle.hart_explain.specs.Sighting.{FitsFrom};
ghost use Rattle.hart_frame.specs.declared.scan.sighting.After.TheVariants.{End};
ghost use Rattle.hart_frame.specs.heard.Character.{faultless};
ghost use Rattle.hart_frame.specs.heard.Sighting.{Seen, moved_seen};
ghost use Rattle.hart_frame.specs.scan.Sighting.{AfterIsValid, heard_with, is_end, seen_of};
ghost use Rattle.hart_text.specs.Heard.{Date, NothingBegins, Silence, heard_chars};
ghost use Rattle.hart_text.specs.Items.{NoPieceBegins};
ghost use Rattle.hart_text.specs.Marks.{HasMark, heard_mark, mark_length};
ghost use Rattle.hart_listen.specs.Before.{AreAlike};
ghost use Rattle.hart_listen.specs.Dates.{date_at};
ghost use Rattle.hart_listen.specs.Gaps.{seen_place};
ghost use Rattle.hart_listen.specs.LastMessages.{KeepsOwn, recalled};
ghost use Rattle.hart_listen.specs.Listener.{DecidesNoMore, HasTold, Hears, HearsDecided, HearsText, IsNextSighting, IsWaiting};
ghost use Rattle.hart_listen.specs.Listener.{chars_after};
ghost use Rattle.hart_listen.specs.Listener.{dated_from};
ghost use Rattle.hart_listen.specs.Preambles.{counted, last_stop, preambles_at, preambles_dropped, stop_after};
ghost use Rattle.hart_listen.specs.Teller.{Tells, moment};

use crate::dates::Dates;
use crate::held;
use crate::held::Held;
use crate::item_reader::ItemReader;
use crate::past::Past;
use crate::teller::Teller;
use hart_frame::{After, Char, NextSighting, Sighting, next_sighting};
use hart_text::{Mark, leading_mark, next_piece, read_chunk};

/// Hears characters, silences and dates, and tells what they decide. It keeps the faultless characters that are not wholly told, and what
/// later sightings need of those that are told.
#[derive(Drop)]
pub struct Listener {
    /// The characters that may still become a frame.
    pub held: Held,
    /// The place of the first held character in all that was heard.
    pub first: u64,
    /// The dates of the held characters, and of the characters that come next.
    pub dates: Dates,
    /// What is kept of what was told and dropped.
    pub past: Past,
}

impl Listener {
    /// Returns the state in which nothing was heard.
    pub fn new() -> Listener
        ensures waiting { IsWaiting result }
        ensures told { HasTold false result [] [] }
        ensures first { result.first ≡ 0 }
        ensures held { result.held ≡ [] }
    {
        Listener {
            held: Held::new(),
            first: 0,
            dates: Dates::new(),
            past: Past::new(),
        }
    }

    /// Hears the leading items, silences and dates of a text, and tells what they decide. Returns the place of the rest of the text, where
    /// no separator, item, silence or date begins.
    pub fn hear_text<W, T: Teller<W>>(
        &mut self,
        teller: &mut T,
        writer: &mut W,
        items: &mut ItemReader,
        text: &[u8],
    ) -> usize
        requires waiting { IsWaiting self.old }
        requires places { self.old.first + length self.old.held + length text.now < 2 ^ 64 - 1 }
        ensures hears { HearsText T.told self.old self.new text.now result (moment teller.old writer.old) (moment teller.new writer.new) }
        ensures stops { NothingBegins (drop result text.now) }
        ensures waiting { IsWaiting self.new }
    {
        let mut place = 0;
        loop {
            place += self.hear_items(teller, writer, items, &text[place..]);
            let rest = &text[place..];
            let Some(mark) = leading_mark(rest) else {
                return place;
            };
            place += self.hear_mark(teller, writer, mark, rest);
        }
    }

    /// Hears the characters of the leading items of a text. Returns the place of the rest of the text, where neither an item nor a
    /// separator begins.
    fn hear_items<W, T: Teller<W>>(
        &mut self,
        teller: &mut T,
        writer: &mut W,
        items: &mut ItemReader,
        text: &[u8],
    ) -> usize
        requires waiting { IsWaiting self.old }
        requires places { self.old.first + length self.old.held + length text.now < 2 ^ 64 - 1 }
        ensures hears { HearsText T.told self.old self.new text.now result (moment teller.old writer.old) (moment teller.new writer.new) }
        ensures stops { NoPieceBegins (drop result text.now) }
        ensures waiting { IsWaiting self.new }
    {
        let mut place = 0;
        loop {
            items.chunk.clear();
            place += read_chunk(&items.digits, &text[place..], &mut items.chunk);
            self.hear_bytes(teller, writer, items.chunk.as_slice());
            let Some(lead) = next_piece(&items.digits, &text[place..]) else {
                return place;
            };
            self.hear_char(teller, writer, lead.char);
            place += lead.len;
        }
    }

    /// Hears the silence or date that begins a text, and returns the number of its bytes.
    fn hear_mark<W, T: Teller<W>>(
        &mut self,
        teller: &mut T,
        writer: &mut W,
        mark: Mark,
        text: &[u8],
    ) -> usize
        requires waiting { IsWaiting self.old }
        requires mark { HasMark text.now mark }
        requires within { mark_length mark ≤ length text.now }
        requires places { self.old.first + length self.old.held < 2 ^ 64 - 1 }
        ensures hears { Hears T.told
            self.old self.new (heard_mark text.now mark ∷ []) false
            (moment teller.old writer.old) (moment teller.new writer.new) }
        ensures len { result ≡ mark_length mark }
        ensures waiting { IsWaiting self.new }
        ensures long { self.new.first + length self.new.held ≡ self.old.first + length self.old.held }
    {
        match mark {
            Mark::Silence => {
                self.hear_silence(teller, writer);
                1
            }
            Mark::Date { len } => {
                self.dates.hear(&text[1..=len]);
                1 + len
            }
        }
    }

    /// Hears that the line fell silent, and tells the rest of what was heard before.
    fn hear_silence<W, T: Teller<W>>(&mut self, teller: &mut T, writer: &mut W)
        requires waiting { IsWaiting self.old }
        requires places { self.old.first + length self.old.held < 2 ^ 64 - 1 }
        ensures hears { Hears T.told self.old self.new (Silence ∷ []) false (moment teller.old writer.old) (moment teller.new writer.new) }
        ensures waiting { IsWaiting self.new }
        ensures long { self.new.first + length self.new.held ≡ self.old.first + length self.old.held }
    {
        let silence = After::End;
        self.tell_held(teller, writer, silence);
        self.past.hear_silence();
    }

    /// Hears bytes without faults, and tells what they decide.
    pub fn hear_bytes<W, T: Teller<W>>(&mut self, teller: &mut T, writer: &mut W, bytes: &[u8])
        requires waiting { IsWaiting self.old }
        requires few { length bytes.now ≤ 8192 }
        requires places { self.old.first + length self.old.held + length bytes.now < 2 ^ 64 - 1 }
        ensures hears { Hears T.told
            self.old self.new (heard_chars (faultless bytes.now)) false
            (moment teller.old writer.old) (moment teller.new writer.new) }
        ensures waiting { IsWaiting self.new }
        ensures long { self.new.first + length self.new.held ≡ self.old.first + length self.old.held + length bytes.now }
    {
        self.held.extend_from_slice(bytes);
        self.tell_held(teller, writer, After::More);
    }

    /// Hears the character of an item or a separator. A separator has no character, and changes nothing.
    fn hear_char<W, T: Teller<W>>(&mut self, teller: &mut T, writer: &mut W, char: Option<Char>)
        requires waiting { IsWaiting self.old }
        requires places { self.old.first + length self.old.held + 1 < 2 ^ 64 - 1 }
        ensures hears { Hears T.told
            self.old self.new (heard_chars (option_to_list char)) false
            (moment teller.old writer.old) (moment teller.new writer.new) }
        ensures waiting { IsWaiting self.new }
        ensures long { self.new.first + length self.new.held ≤ self.old.first + length self.old.held + 1 }
    {
        match char {
            None => {}
            Some(char) if char.is_faultless() => self.hear_bytes(teller, writer, &[char.byte()]),
            Some(char) => self.tell_held(teller, writer, After::Damaged(char)),
        }
    }

    /// Tells all that the held characters and what comes after them decide, and holds the rest.
    fn tell_held<W, T: Teller<W>>(&mut self, teller: &mut T, writer: &mut W, after: After)
        requires valid { AfterIsValid after }
        requires places { self.old.first + length self.old.held < 2 ^ 64 - 1 }
        requires dated { length self.old.dates.held.items ≤ length self.old.held }
        requires own { KeepsOwn self.old.first self.old.past.last }
        requires preambles { self.old.past.preambles ≤ self.old.first }
        ensures hears { Hears T.told
            self.old self.new
            (heard_chars (chars_after after)) (is_end after)
            (moment teller.old writer.old) (moment teller.new writer.new) }
        ensures waiting { IsWaiting self.new }
        ensures ended { after ≡ End → self.new.held ≡ [] }
        ensures long { self.new.first + length self.new.held ≡ self.old.first + length self.old.held + length (chars_after after) }
    {
        let held = self.held.as_slice();
        let used = tell_decided(
            teller,
            writer,
            &mut self.past,
            &self.dates,
            self.first,
            held,
            &after,
        );
        self.let_go(used);
    }

    /// Drops the first `used` characters, which are told. `used` counts the held characters first, and then those that came after them. At
    /// most 268 characters stay held.
    fn let_go(&mut self, used: usize)
        requires places { self.old.first + used < 2 ^ 64 }
        requires few { length (drop used self.old.held) ≤ 268 }
        requires dated { length self.old.dates.held.items ≤ length self.old.held }
        requires preambles { self.old.past.preambles + length self.old.held < 2 ^ 64 }
        ensures held { self.new.held ≡ drop used self.old.held }
        ensures first { self.new.first ≡ self.old.first + used }
        ensures past { self.new.past ≡ record self.old.past
            { preambles = preambles_dropped self.old.past.preambles self.old.held used } }
        ensures dated { length self.new.dates.held.items ≡ length self.new.held }
        ensures dates { (place : ℕ) → date_at self.new.dates place ≡ date_at self.old.dates (used + place) }
    {
        let count = self.held.len().saturating_sub(used);
        self.past.let_go(self.held.as_slice(), used);
        held::let_go(&mut self.held, used);
        self.first += used as u64;
        self.dates.let_go(used, count);
    }

    /// Hears that nothing comes after what was heard, and tells the rest of it.
    pub fn hear_end<W, T: Teller<W>>(&mut self, teller: &mut T, writer: &mut W)
        requires waiting { IsWaiting self.old }
        requires places { self.old.first + length self.old.held < 2 ^ 64 - 1 }
        ensures hears { Hears T.told self.old self.new [] true (moment teller.old writer.old) (moment teller.new writer.new) }
        ensures ended { self.new.held ≡ [] }
    {
        self.tell_held(teller, writer, After::End);
    }
}

/// Tells all sightings that some bytes and what comes after them decide. The first byte has the place `first` in all that was heard.
/// Returns how many characters are told.
fn tell_decided<W, T: Teller<W>>(
    teller: &mut T,
    writer: &mut W,
    past: &mut Past,
    dates: &Dates,
    first: u64,
    held: &[u8],
    after: &After,
) -> usize
    requires valid { AfterIsValid after.now }
    requires own { KeepsOwn first past.old.last }
    requires preambles { past.old.preambles ≤ first }
    requires places { first + length held.now < 2 ^ 64 - 1 }
    ensures hears { HearsDecided T.told
        first held.now after.now result dates.now
        past.old past.new
        (moment teller.old writer.old) (moment teller.new writer.new) }
    ensures own { KeepsOwn (first + result) past.new.last }
    ensures preambles { past.new.preambles ≡ past.old.preambles }
    ensures decided { DecidesNoMore held.now after.now result }
{
    let mut used = 0;
    loop {
        let next = next_after(held, after, used);
        used = next.used;
        let Some(sighting) = next.sighting else {
            return used;
        };
        tell_sighting(teller, writer, past, dates, first, held, &sighting);
    }
}

/// Tells a sighting with the date of its place, and with what was heard before it. The first held byte has the place `first`.
fn tell_sighting<W, T: Teller<W>>(
    teller: &mut T,
    writer: &mut W,
    past: &mut Past,
    dates: &Dates,
    first: u64,
    held: &[u8],
    sighting: &Sighting<'_>,
)
    requires places { FitsFrom first sighting.now }
    requires within { seen_place (seen_of sighting.now) ≤ length held.now }
    requires few { past.old.preambles + length held.now < 2 ^ 64 }
    requires own { KeepsOwn (2 ^ 64 - 2) past.old.last }
    ensures tells { (earlier : List Seen) → past.old.stop ≡ last_stop earlier → Tells T.told
        (moment teller.old writer.old) (moment teller.new writer.new)
        (counted (preambles_at past.old.preambles first (faultless held.now)) earlier
        (dated_from past.old.last (λ place. date_at dates.now (place - first)) first (seen_of sighting.now ∷ []))) }
    ensures alike { AreAlike (recalled past.new.last) (recalled past.old.last ++ map (moved_seen first) (seen_of sighting.now ∷ [])) }
    ensures own { (most : ℕ) → KeepsOwn most past.old.last → KeepsOwn (most + 1) past.new.last }
    ensures stop { past.new.stop ≡ stop_after past.old.stop (moved_seen first (seen_of sighting.now)) }
    ensures preambles { past.new.preambles ≡ past.old.preambles }
{
    let date = dates.word_at(place_of(sighting));
    let before = past.hear(first, held, sighting);
    teller.tell(writer, date, first, before, sighting);
}

/// Returns the place of a sighting.
fn place_of(sighting: &Sighting<'_>) -> usize
    requires { FitsFrom 0 sighting.now }
    ensures { result ≡ seen_place (seen_of sighting.now) }
{
    match sighting {
        Sighting::Message(found) => found.start as usize,
        Sighting::Missed { place, .. } => *place,
    }
}

/// Returns the next sighting from the place `from` on, in held bytes and in what comes after them. The prover cannot follow a copy of an
/// enum that holds a character, so each arm makes the value of `after` anew.
fn next_after<'a>(held: &'a [u8], after: &After, from: usize) -> NextSighting<'a>
    requires within { from ≤ length (heard_with held.now after.now) }
    requires valid { AfterIsValid after.now }
    requires places { length held.now < 2 ^ 64 - 1 }
    ensures { IsNextSighting held.now after.now from result }
{
    match after {
        After::More => next_sighting(held, After::More, from),
        After::Damaged(char) => next_sighting(held, After::Damaged(*char), from),
        After::End => next_sighting(held, After::End, from),
    }
}
