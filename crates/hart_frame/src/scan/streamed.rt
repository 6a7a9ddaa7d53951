//! Laws for a caller that keeps the characters that it pushed to a scanner and the frames that it was given.
ghost use Rattle.std.specs.Prelude.{◌≡◌, ◌+◌, ◌<◌, ◌≤◌, ◌++◌, [], List, IsTrue, false, length, drop, map};
ghost use Rattle.hart_frame.specs.heard.Character.{Character};
ghost use Rattle.hart_frame.specs.heard.Frames.{AreFrames, moved};
ghost use Rattle.hart_frame.specs.scan.Chunk.{BeginsWithFrame};
ghost use Rattle.hart_frame.specs.scan.Next.{AreNext};
ghost use Rattle.hart_frame.specs.scan.Scanner.{Gives, GivesNothing, MovesPast, Scan, hearing};
ghost use Rattle.hart_frame.specs.scan.Streamed.{IsHistory, IsWholeHistory};
ghost use Rattle.hart_frame.specs.declared.heard.found.Found.{Found};

/// The frames that a scanner gave are the frames in all that was pushed, from the start up to the first character that the scanner holds.
/// So these frames come first in all that is pushed, whatever is still to come. Once the scanner has ended, it has given all frames.
pub fn frames_are_streamed()
    ensures next { (past : List Character) (scan : Scan) (given : List Found) → IsHistory past scan given
        → AreNext past scan.finished 0 given scan.first }
    ensures so_far { (past more : List Character) (scan : Scan) (given frames : List Found) → IsHistory past scan given
        → (IsTrue scan.finished → more ≡ []) → AreFrames (past ++ more) 0 frames → (later : List Found) × (frames ≡ given ++ later) }
    ensures all { (past : List Character) (given : List Found) → IsWholeHistory past given → AreFrames past 0 given }
    ensures pushed { (past : List Character) (scan : Scan) (given : List Found) → IsHistory past scan given
        → scan.first + length scan.held ≡ length past }
{}

/// A scanner that moves past some frames and then past other frames moves past all these frames. What the scanner hears later does not
/// change which frames it moved past. These frames are the next frames in all that was heard, whatever the scanner dropped before and
/// whatever comes later.
pub fn scanners_move_past_the_next_frames()
    ensures onward { (old mid new : Scan) (given found : List Found) → MovesPast old mid given → MovesPast mid new found
        → MovesPast old new (given ++ found) }
    ensures hearing { (old new : Scan) (chars : List Character) (given : List Found) → old.finished ≡ false → MovesPast old new given
        → MovesPast (hearing old chars) (hearing new chars) given }
    ensures frames { (old new : Scan) (given later : List Found) (past more : List Character) → MovesPast old new given
        → length past ≡ old.first → (IsTrue old.finished → more ≡ []) → AreFrames (past ++ (old.held ++ more)) new.first later
        → AreFrames (past ++ (old.held ++ more)) old.first (given ++ later) }
{}

/// The same characters give the same frames in the end, whatever chunks they are pushed in.
pub fn any_chunking_gives_the_same_frames()
    ensures { (past : List Character) (given other : List Found) → IsWholeHistory past given → IsWholeHistory past other
        → given ≡ other }
{}

/// A scanner gives a frame if the characters that it holds begin with a frame. After each frame that it gives, it holds fewer characters.
pub fn held_frames_are_given()
    ensures next { (old new : Scan) → BeginsWithFrame old → GivesNothing old new → ⊥ }
    ensures onward { (old new : Scan) (found : Found) → Gives old new found → length new.held < length old.held }
{}

/// A scanner holds all characters that were pushed from the place of its first held character on. The first frames of all that is pushed
/// are the frames that the scanner gave. The later frames stand in the held characters and in what is still to come. All places are counted
/// in all that is pushed. So a caller that keeps only what is held, at most 269 characters, misses no later frame.
#[tactic(auto, using(crate::proofs::lemmas::Laws::held_characters_have_the_later_frames))]
pub fn held_characters_have_the_later_frames()
    ensures within { (past : List Character) (scan : Scan) (given : List Found) → IsHistory past scan given
        → scan.first ≤ length past }
    ensures held { (past : List Character) (scan : Scan) (given : List Found) → IsHistory past scan given
        → drop scan.first past ≡ scan.held }
    ensures later { (past more : List Character) (scan : Scan) (given later : List Found) → IsHistory past scan given
        → (IsTrue scan.finished → more ≡ []) → AreFrames (drop scan.first past ++ more) 0 later
        → AreFrames (past ++ more) 0 (given ++ map (moved scan.first) later) }
{}
