//! The two status bytes of a reply, in words.
#![tactic(auto, using(crate::proofs::lemmas::Extended::extending))]

ghost use Rattle.std.specs.Prelude.{◌≡◌, ◌++◌, codes};
ghost use Rattle.std.specs.List.{flat_map};
ghost use Rattle.hart_explain.specs.Status.{names_words, status_lines};
ghost use Rattle.hart_explain.specs.Text.{extended};

use crate::status::SetNames;
use crate::text::{Text, push_byte, push_text};
use crate::words::header::push_named_number;
use crate::words::push_name;
use hart_commands::{COMM_FAULTS, DEVICE_STATES, code_name};

/// Adds the lines of the two status bytes of a reply to a command.
pub(crate) fn push_status(text: &mut Text, command: u8, first: u8, second: u8)
    ensures { text.new ≡ extended text.old (status_lines command first second) }
{
    if first < 0x80 {
        push_name(text, "response code");
        push_named_number(text, first, code_name(command, first));
        push_text(text, "\n    device status: ");
        push_names(text, SetNames::new(DEVICE_STATES, second));
        push_byte(text, b'\n');
    } else {
        push_name(text, "communication faults");
        push_names(text, SetNames::new(COMM_FAULTS, first));
        push_byte(text, b'\n');
    }
}

/// Adds names, or `none`.
fn push_names(text: &mut Text, names: SetNames<'_>)
    ensures { text.new ≡ extended text.old (names_words names.entry) }
{
    let mut names = names;
    let Some(first) = names.next() else {
        push_text(text, "none");
        return;
    };
    push_text(text, first);
    push_further_names(text, names);
}

/// Adds further names, each after a comma and a space.
fn push_further_names(text: &mut Text, names: SetNames<'_>)
    ensures { text.new ≡ extended text.old (flat_map (λ name. codes ", " ++ name) names.entry) }
{
    let mut names = names;
    while let Some(name) = names.next() {
        push_text(text, ", ");
        push_text(text, name);
    }
}
