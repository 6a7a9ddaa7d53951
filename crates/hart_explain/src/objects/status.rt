//! The two status bytes of a reply as members of an object.
#![tactic(auto, using(crate::proofs::lemmas::Json::said), unfolding(json::specs::Print::escape_byte, crate::specs::Json::further_member))]

ghost use Rattle.std.specs.Prelude.{◌≡◌, ◌++◌, ◌∷◌, [], codes};
ghost use Rattle.std.specs.List.{flat_map};
ghost use Rattle.json.specs.Print.{quoted};
ghost use Rattle.serde_json.specs.Written.{compact_text};
ghost use Rattle.hart_explain.specs.Json.{further_members};
ghost use Rattle.hart_explain.specs.Status.{names_value, status_members};
ghost use Rattle.hart_explain.specs.Text.{extended};

use crate::objects::{push_name, push_quoted, push_quoted_hex};
use crate::pairs::Pairs;
use crate::status::SetNames;
use crate::text::{Text, push_number, push_text};
use hart_commands::{COMM_FAULTS, DEVICE_STATES, code_name};

/// Adds the members of the two status bytes of a reply to a command.
pub(crate) fn push_status(text: &mut Text, pairs: &Pairs, command: u8, first: u8, second: u8)
    ensures { text.new ≡ extended text.old (further_members (status_members command first second)) }
{
    push_text(text, ",\"status\":");
    push_quoted_hex(text, pairs, &[first, second]);
    if first < 0x80 {
        push_text(text, ",\"response_code\":");
        push_number(text, u64::from(first));
        push_text(text, ",\"response\":");
        push_name(text, code_name(command, first));
        push_text(text, ",\"device_status\":");
        push_names(text, SetNames::new(DEVICE_STATES, second));
        push_text(text, ",\"communication_faults\":null");
    } else {
        push_text(
            text,
            ",\"response_code\":null,\"response\":null,\"device_status\":null,\"communication_faults\":",
        );
        push_names(text, SetNames::new(COMM_FAULTS, first));
    }
}

/// Adds names as a list of strings.
fn push_names(text: &mut Text, names: SetNames<'_>)
    ensures { text.new ≡ extended text.old (compact_text (names_value names.entry)) }
{
    let mut names = names;
    let Some(first) = names.next() else {
        push_text(text, "[]");
        return;
    };
    push_text(text, "[");
    push_quoted(text, first.as_bytes());
    push_further_names(text, names);
    push_text(text, "]");
}

/// Adds further names as strings, each after a comma.
fn push_further_names(text: &mut Text, names: SetNames<'_>)
    ensures { text.new ≡ extended text.old (flat_map (λ name. 44 ∷ quoted name) names.entry) }
{
    let mut names = names;
    while let Some(name) = names.next() {
        push_text(text, ",");
        push_quoted(text, name.as_bytes());
    }
}
