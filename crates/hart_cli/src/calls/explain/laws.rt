//! What an explanation says, and what it does not say.
ghost use Rattle.std.specs.Prelude.{◌≡◌, ◌++◌, [], ℕ, Bool, List, Option, false};
ghost use Rattle.hart_frame.specs.heard.Sighting.{Seen, sightings};
ghost use Rattle.hart_text.specs.Heard.{HasNoMark, Heard};
ghost use Rattle.hart_cli.specs.declared.fault.CliFault.{CliFault};
ghost use Rattle.hart_cli.specs.dump.Dump.{IsDump};
ghost use Rattle.hart_cli.specs.declared.calls.explain.printer.Style.{Style};
ghost use Rattle.hart_cli.specs.declared.calls.explain.printer.Style.TheVariants.{Objects, Words};
ghost use Rattle.hart_listen.specs.Dated.{explanation};
ghost use Rattle.hart_listen.specs.Preambles.{object_lines};
ghost use Rattle.hart_listen.specs.Sightings.{ComeFirst, date_of};
ghost use Rattle.hart_cli.specs.explain.Explanation.{IsDecidedIn, IsExplanation, IsTextIn, decoding_of};
ghost use Rattle.hart_cli.specs.explain.Same.{AreOfSameMessages, AreOfSameSightings};
ghost use Rattle.hart_cli.specs.input.Input.{Ending, Left};
ghost use Rattle.hart_cli.specs.input.LiveInput.{IsDecidedText};

/// Decided text never changes: whatever is heard or read next, the text decided so far is a prefix of the whole explanation. What was heard
/// determines the text that is decided in a style.
pub fn explanations_grow()
    ensures one { (style : Style) (heard : List Heard) (xs ys : List ℕ) → IsDecidedIn style heard xs → IsDecidedIn style heard ys
        → xs ≡ ys }
    ensures heard { (style : Style) (heard more : List Heard) (text whole : List ℕ) → IsDecidedIn style heard text
        → IsTextIn style (heard ++ more) whole → (rest : List ℕ) × (whole ≡ text ++ rest) }
    ensures read { (style : Style) (is_raw : Bool) (input more : List ℕ) (ending : Ending) (fault : Option CliFault) (text whole : List ℕ)
        → IsDecidedText (decoding_of is_raw) (IsDecidedIn style) input text
        → IsExplanation style is_raw (input ++ more) ending fault whole → (rest : List ℕ) × (whole ≡ text ++ rest) }
{}

/// `hart explain` and `hart explain --json` write about the same sightings. If both read an input equally far, they return the same fault,
/// if any. Both have the same sightings in the same order, with the same dates. Each sighting has one text in the explanation, and one JSON
/// line. At any moment, the same sightings are decided for both.
pub fn json_has_the_sightings_of_explain()
    ensures whole { (is_raw : Bool) (input : List ℕ) (ending : Ending) (f g : Option CliFault) (text lines : List ℕ)
        → IsExplanation Words is_raw input ending f text → IsExplanation Objects is_raw input ending g lines
        → (f ≡ g) × AreOfSameSightings (decoding_of is_raw) input ending g text lines }
    ensures decided { (heard : List Heard) (text lines : List ℕ) → IsDecidedIn Words heard text → IsDecidedIn Objects heard lines
        → (seen : List Seen) × ComeFirst heard seen × (text ≡ explanation (date_of heard) [] seen)
        × (lines ≡ object_lines heard seen) }
{}

/// Let an input have no silences and no dates, and let `hart dump` and `hart explain` read it equally far. Both return the same fault, if
/// any, and write about the same messages at the same places. This also holds if one of the two left the input at bad hex, before its end,
/// and the other read on.
pub fn explanations_name_the_messages_of_dump()
    ensures whole { (input : List ℕ) (ending : Ending) (f g : Option CliFault) (lines text : List ℕ) → HasNoMark input
        → IsDump input ending f lines → IsExplanation Words false input ending g text
        → (f ≡ g) × AreOfSameMessages input ending g lines text }
    ensures dump_left { (input more : List ℕ) (ending : Ending) (f g : Option CliFault) (lines text : List ℕ)
        → HasNoMark (input ++ more) → IsDump input Left f lines → IsExplanation Words false (input ++ more) ending g text
        → (f ≡ g) × AreOfSameMessages (input ++ more) ending g lines text }
    ensures explain_left { (input more : List ℕ) (ending : Ending) (f g : Option CliFault) (lines text : List ℕ) → HasNoMark input
        → IsDump (input ++ more) ending f lines → IsExplanation Words false input Left g text
        → (f ≡ g) × AreOfSameMessages (input ++ more) ending f lines text }
{}
