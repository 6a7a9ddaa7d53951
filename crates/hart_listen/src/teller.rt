//! Tellers: they take the dated sightings that a listener hears.
ghost use Rattle.std.specs.Prelude.{◌≤◌, ◌∷◌, [], List, length};
ghost use Rattle.hart_explain.specs.Sighting.{FitsFrom};
ghost use Rattle.hart_frame.specs.heard.Sighting.{moved_seen};
ghost use Rattle.hart_frame.specs.scan.Sighting.{seen_of};
ghost use Rattle.hart_listen.specs.Dated.{Dated};
ghost use Rattle.hart_listen.specs.Teller.{Moment, Tells, moment};

use hart_explain::Before;
use hart_frame::Sighting;

/// Tells what is heard to a writer, in whatever form. The contracts of a listener say only that it told the right sightings in the sense of
/// `told`, so a caller has to prove from `told` what was written.
pub trait Teller<W> {
    // These dated sightings were told from the first moment to the last one. The second moment lies between them.
    ghost told: { Moment Self W → Moment Self W → Moment Self W → List Dated → Type 0 };

    /// Tells a sighting. Its places are counted from `first` on. `date` is the date of its place, or empty. `before` is what is known of it
    /// from what was heard before it.
    fn tell(
        &mut self,
        writer: &mut W,
        date: &[u8],
        first: u64,
        before: Before,
        sighting: &Sighting<'_>,
    )
        requires date { length date.now ≤ 32 }
        requires places { FitsFrom first sighting.now }
        ensures { Tells told
            (moment self.old writer.old) (moment self.new writer.new)
            (record { date = date.now; before = before; seen = moved_seen first (seen_of sighting.now) } ∷ []) };
}
