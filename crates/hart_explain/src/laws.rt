//! Laws: facts about the definitions, not about code. They are for the crates that use this crate.
ghost use Rattle.std.specs.Prelude.{◌≡◌, ◌+◌, ◌≤◌, ◌++◌, [], ◌∷◌, List, Some, ℕ, length};
ghost use Rattle.hex.specs.Hex.{IsBytes, encode_upper};
ghost use Rattle.json.specs.Print.{escape};
ghost use Rattle.serde_json.specs.Written.{compact_text};
ghost use Rattle.hart_frame.specs.declared.heard.miss.Miss.{Miss};
ghost use Rattle.hart_frame.specs.heard.Sighting.{Seen};
ghost use Rattle.hart_frame.specs.wire.Header.{HeaderParts};
ghost use Rattle.hart_explain.specs.declared.before.Before.{Before};
ghost use Rattle.hart_explain.specs.Json.{Named, further_members, member_words, object_of};
ghost use Rattle.hart_explain.specs.Miss.{miss_line, seems_line};
ghost use Rattle.hart_explain.specs.Sighting.{json_line};
ghost use Rattle.hart_explain.specs.Text.{IsOneLine, extended};

/// A text with enough room keeps all that it is given.
#[tactic(auto, using(crate::proofs::lemmas::Laws::texts_keep_what_fits))]
pub fn texts_keep_what_fits()
    ensures { (text more : List ℕ) → length text + length more ≤ 32768 → extended text more ≡ text ++ more }
{}

/// JSON escapes no hex digit.
#[tactic(auto, using(crate::proofs::lemmas::Laws::hex_digits_are_not_escaped))]
pub fn hex_digits_are_not_escaped()
    ensures { (bytes : List ℕ) → IsBytes bytes → escape (encode_upper bytes) ≡ encode_upper bytes }
{}

/// The text of an object is a brace, its first member, the further members with a comma before each, and a brace.
#[tactic(auto, using(crate::proofs::lemmas::Laws::objects_are_their_members))]
pub fn objects_are_their_members()
    ensures { (first : Named) (others : List Named)
        → compact_text (object_of (first ∷ others)) ≡ 123 ∷ member_words first ++ further_members others ++ 125 ∷ [] }
{}

/// Each object of JSON is one line: its text ends with a line feed and has no other.
#[tactic(auto, using(crate::proofs::lemmas::OneLine::json_objects_are_lines))]
pub fn json_objects_are_lines()
    ensures { (date : List ℕ) (before : Before) (seen : Seen) → IsOneLine (json_line date before seen) }
{}

/// What words say of a place with a miss is one line, and one more line if a header is heard there.
pub fn misses_are_lines()
    ensures one { (place : ℕ) (miss : Miss) → IsOneLine (miss_line place miss) }
    ensures second { (header : HeaderParts) → IsOneLine (seems_line (Some header)) }
{}
