//! Logs, in which the frames spoken on a line are noted while a script is carried out.
ghost use Rattle.std.specs.Prelude.{◌<◌, [], ◌∷◌, ◌++◌, ℕ, IfErr, List, OnOk};
ghost use Rattle.hart_line.specs.Types.{Spoken};

use crate::{Filling, NoRoom, Spoken};

/// Notes the frames that are spoken on a line, in whatever form.
pub trait Log {
    // The first log becomes the second when these frames are noted in it, in this order.
    ghost notes: { Self → List Spoken → Self → Type 0 };

    // Noting this frame may need memory for this number of items.
    ghost needs: { Spoken → ℕ → Type 0 };

    /// Notes a frame that was spoken.
    ///
    /// # Errors
    ///
    /// [`NoRoom`] if memory for the frame was refused. After this error, the contract does not say what the log keeps.
    fn note(&mut self, spoken: &Spoken) -> Result<(), NoRoom>
        ensures noted { OnOk result (notes self.old (spoken.now ∷ []) self.new) }
        ensures refused { IfErr result (λ none. (0 < none.items) × needs spoken.now none.items) };

    // Noting no frames leaves a log unchanged. Noting some frames and then others has the effect of noting all of them in this order.
    ghost none: { (log : Self) → notes log [] log };

    ghost more: { (a b c : Self) (xs ys : List Spoken) → notes a xs b → notes b ys c → notes a (xs ++ ys) c };
}

/// The log of a script whose spoken frames are all kept: a list with room for all these frames, so that noting needs no memory.
#[derive(Drop)]
pub(crate) struct KeptFrames {
    pub frames: Filling<Spoken>,
}

impl Log for KeptFrames {
    ghost use Rattle.std.proofs.Common.{arith};
    ghost use Rattle.std.proofs.lemmas.Grind.{common_steps};
    ghost use Rattle.hart_line.specs.line.Room.{NotesWithin};

    ghost notes = { λ old noted new. NotesWithin old.frames noted new.frames };

    ghost needs = { λ spoken items. ⊥ };

    fn note(&mut self, spoken: &Spoken) -> Result<(), NoRoom> {
        if self.frames.spare() > 0 {
            self.frames.push(spoken.copied());
        }
        Ok(())
    }

    ghost none = { λ list. Prim.grind (arith, common_steps) };

    ghost more = { λ a b c xs ys first next. Prim.grind (arith, common_steps) };
}
