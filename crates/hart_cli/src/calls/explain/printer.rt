//! Tellers that print dated sightings: in words, or as JSON objects. They print on a page, which remembers a failed write. So functions
//! that add text need not check for it.
ghost use Rattle.std.specs.Prelude.{◌≡◌, ◌≤◌, ◌++◌, [], false, true, MatchResult, length};
ghost use Rattle.hart_frame.specs.heard.Sighting.{moved_seen};
ghost use Rattle.hart_frame.specs.scan.Sighting.{seen_of};
ghost use Rattle.hart_explain.specs.Sighting.{FitsFrom};
ghost use Rattle.hart_cli.specs.explain.Explanation.{text_of};
ghost use Rattle.hart_cli.specs.explain.Printer.{IsBlank, PrintedBetween, Takes};
ghost use Rattle.hart_cli.specs.stream.Kept.{HasRoomFor};

use crate::kept::{KEPT_LEN, Kept, PIECE_LEN};
use crate::output::write_all;
use crate::stream::{Failed, Sink};
use hart_explain::{Before, Pairs, objects, words};
use hart_frame::Sighting;
use hart_listen::Teller;

/// The form of the text about sightings.
#[derive(Clone, Copy)]
pub enum Style {
    /// In words.
    Words,
    /// As JSON objects, one on each line.
    Objects,
}

/// Prints dated sightings in a style.
#[derive(Drop)]
pub struct Printer {
    /// The form of the text.
    pub style: Style,
    /// The table of hex digits for the text.
    pub pairs: Pairs,
    /// The text on its way to the writer.
    pub page: Page,
}

/// Text that is not yet written, and whether a write failed. After a failed write, no more is written, and further text is dropped.
#[derive(Drop)]
pub struct Page {
    /// The text that is not yet written.
    pub kept: Kept,
    /// Whether a write failed.
    pub failed: bool,
}

impl Page {
    /// Returns a page without text, on which no write has failed.
    pub fn new() -> Page
        ensures { IsBlank result }
    {
        Page {
            kept: Kept::new(),
            failed: false,
        }
    }

    /// Writes the kept text and drops it. Writes nothing if a write failed before.
    ///
    /// # Errors
    ///
    /// `Failed` if a write failed, now or before.
    pub fn write<W: Sink>(&mut self, writer: &mut W) -> Result<(), Failed>
        ensures takes { Takes self.old self.new (W.stream writer.old) (W.stream writer.new) [] }
        ensures quiet { self.new.kept ≡ [] }
        ensures failed { MatchResult result (λ _. self.new.failed ≡ false) (λ _. self.new.failed ≡ true) }
    {
        if self.failed {
            self.kept.clear();
            return Err(Failed);
        }
        let result = write_all(writer, self.kept.as_slice());
        self.kept.clear();
        self.failed = result.is_err();
        result
    }

    /// Writes and drops the kept text if it leaves room for fewer than `PIECE_LEN` bytes. The next [`Page::write`] says whether a write
    /// failed.
    #[tactic(auto, using(crate::proofs::lemmas::explain::Printer::takes_none))]
    pub fn make_room<W: Sink>(&mut self, writer: &mut W)
        ensures takes { Takes self.old self.new (W.stream writer.old) (W.stream writer.new) [] }
        ensures room { HasRoomFor 16384 self.new.kept }
    {
        if self.kept.len() > KEPT_LEN - PIECE_LEN {
            let _result = self.write(writer);
        }
    }
}

/// If a write failed, the text of further sightings is dropped.
impl<W: Sink> Teller<W> for Printer {
    ghost told = { PrintedBetween W.stream };

    #[inline(always)]
    fn tell(
        &mut self,
        writer: &mut W,
        date: &[u8],
        first: u64,
        before: Before,
        sighting: &Sighting<'_>,
    ) {
        self.page.make_room(writer);
        push_sighting(
            &mut self.page.kept,
            &self.pairs,
            self.style,
            date,
            first,
            before,
            sighting,
        );
    }
}

/// Appends the text of a dated sighting to a text that has room for it. The places in the sighting are counted from `first` on.
#[inline(always)]
fn push_sighting(
    kept: &mut Kept,
    pairs: &Pairs,
    style: Style,
    date: &[u8],
    first: u64,
    before: Before,
    sighting: &Sighting<'_>,
)
    requires room { HasRoomFor 16384 kept.old }
    requires date { length date.now ≤ 32 }
    requires places { FitsFrom first sighting.now }
    ensures { kept.new ≡ kept.old
        ++ text_of style (record { date = date.now; before = before; seen = moved_seen first (seen_of sighting.now) }) }
{
    match style {
        Style::Words => words::push_sighting(kept, pairs, date, first, before, sighting),
        Style::Objects => objects::push_line(kept, pairs, date, first, before, sighting),
    }
}
