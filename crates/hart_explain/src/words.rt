//! What data mean, in words.
#![tactic(auto, using(crate::proofs::lemmas::Extended::extending))]

ghost use Rattle.std.specs.Prelude.{◌≡◌, ◌++◌, ◌+◌, [], IfSome, codes, decimal, length, option_map};
ghost use Rattle.std.specs.List.{flat_map, join_by};
ghost use Rattle.std.specs.Option.{option_map_or};
ghost use Rattle.hart_explain.specs.Text.{extended};
ghost use Rattle.hart_explain.specs.Reading.{seen_field, seen_reading};
ghost use Rattle.hart_explain.specs.Values.{seen_value};
ghost use Rattle.hart_explain.specs.Words.{bytes_line, bytes_or_none, field_line, hex_value, in_parentheses};
ghost use Rattle.hart_explain.specs.Words.{name_words, problem_lines, said_line, reading_lines, unit_words, value_words, variable_words};

use crate::field::Field;
use crate::fields::Fields;
use crate::pairs::Pairs;
use crate::reading::{Problem, Reading};
use crate::text::{Text, push_byte, push_bytes, push_hex, push_number, push_text};
use crate::value::Value;
use hart_commands::{code_name, unit_name};

mod header;
mod sighting;
mod status;

pub use sighting::push_sighting;

/// Adds the lines of a reading of the data of a command.
#[tactic(auto, using(crate::proofs::lemmas::Extended::extending), unfolding(crate::specs::Words::reading_lines))]
pub fn push_reading(text: &mut Text, pairs: &Pairs, command: u8, bytes: &[u8], reading: Reading<'_>)
    ensures { text.new ≡ extended text.old (reading_lines command bytes.now (seen_reading reading.entry)) }
{
    push_fields(text, pairs, reading.fields);
    push_problem(text, pairs, command, bytes, reading.problem);
    push_bytes_line(text, pairs, "ignored", reading.ignored);
}

/// Adds the line of each field.
fn push_fields(text: &mut Text, pairs: &Pairs, fields: Fields<'_>)
    ensures { text.new ≡ extended text.old (flat_map field_line fields.entry) }
{
    let mut fields = fields;
    while let Some(field) = fields.next() {
        push_field(text, pairs, &field);
    }
}

/// Adds the line of a field.
#[tactic(auto, using(crate::proofs::lemmas::Extended::extending), unfolding(crate::specs::Words::field_line))]
fn push_field(text: &mut Text, pairs: &Pairs, field: &Field<'_>)
    ensures { text.new ≡ extended text.old (field_line (seen_field field.now)) }
{
    push_name(text, field.words);
    push_value(text, pairs, &field.value());
    push_byte(text, b'\n');
}

/// Adds the lines of what is wrong with the data of a command, if anything is.
fn push_problem(text: &mut Text, pairs: &Pairs, command: u8, bytes: &[u8], problem: Option<Problem>)
    ensures { text.new ≡ extended text.old (option_map_or (problem_lines command bytes.now) problem []) }
{
    if let Some(problem) = problem {
        push_lines_of(text, pairs, command, bytes, problem);
    }
}

/// Adds the lines of a problem with the data of a command.
fn push_lines_of(text: &mut Text, pairs: &Pairs, command: u8, bytes: &[u8], problem: Problem)
    ensures { text.new ≡ extended text.old (problem_lines command bytes.now problem) }
{
    match problem {
        Problem::UnknownCommand => push_bytes_line(text, pairs, "data", bytes),
        Problem::TooFew { needed } => {
            push_bytes_line(text, pairs, "data", bytes);
            push_name(text, "too few data");
            push_number(text, bytes.len() as u64);
            push_text(text, " of ");
            push_number(text, needed as u64);
            push_byte(text, b'\n');
        }
        Problem::Refused { code } => {
            push_name(text, "refused");
            push_number(text, u64::from(code));
            push_name_after(text, code_name(command, code));
            push_byte(text, b'\n');
        }
        Problem::NoReply => {
            push_text(text, "    data that are no reply to Command ");
            push_number(text, u64::from(command));
            push_text(text, " of Revision 7: ");
            push_bytes_or_none(text, pairs, bytes);
            push_byte(text, b'\n');
        }
        Problem::NotRead { code } => push_not_read(text, pairs, code, bytes),
    }
}

/// Adds the line of data that were not read, if there are any.
fn push_not_read(text: &mut Text, pairs: &Pairs, code: u8, bytes: &[u8])
    ensures { text.new ≡ extended text.old (bytes_line (codes "not read (code " ++ decimal code ++ codes ")") bytes.now) }
{
    if bytes.is_empty() {
        return;
    }
    push_text(text, "    not read (code ");
    push_number(text, u64::from(code));
    push_text(text, "): ");
    push_hex_value(text, pairs, bytes);
    push_byte(text, b'\n');
}

/// Adds the name at the start of a line.
#[inline(always)]
pub(crate) fn push_name(text: &mut Text, name: &str)
    ensures { text.new ≡ extended text.old (codes "    " ++ name.now ++ codes ": ") }
{
    push_text(text, "    ");
    push_text(text, name);
    push_text(text, ": ");
}

/// Adds the line of bytes, if there are any. Most messages have none, and then no function is called.
#[inline(always)]
pub(crate) fn push_bytes_line(text: &mut Text, pairs: &Pairs, name: &str, bytes: &[u8])
    ensures { text.new ≡ extended text.old (bytes_line name.now bytes.now) }
{
    if !bytes.is_empty() {
        push_hex_line(text, pairs, name, bytes);
    }
}

/// Adds the line of a name and of bytes in hex.
#[inline(never)]
fn push_hex_line(text: &mut Text, pairs: &Pairs, name: &str, bytes: &[u8])
    ensures { text.new ≡ extended text.old (said_line name.now (hex_value bytes.now)) }
{
    push_name(text, name);
    push_hex_value(text, pairs, bytes);
    push_byte(text, b'\n');
}

/// Adds bytes, or `none`.
fn push_bytes_or_none(text: &mut Text, pairs: &Pairs, bytes: &[u8])
    ensures { text.new ≡ extended text.old (bytes_or_none bytes.now) }
{
    if bytes.is_empty() {
        push_text(text, "none");
    } else {
        push_hex_value(text, pairs, bytes);
    }
}

/// Adds bytes in hex: `0x`, and two upper-case digits for each byte.
#[tactic(auto, using(crate::proofs::lemmas::Extended::extending), unfolding(crate::specs::Words::hex_value))]
pub(crate) fn push_hex_value(text: &mut Text, pairs: &Pairs, bytes: &[u8])
    ensures { text.new ≡ extended text.old (hex_value bytes.now) }
{
    push_text(text, "0x");
    push_hex(text, pairs, bytes);
}

/// Adds a comma, a space and a name, if there is a name.
pub(crate) fn push_name_after(text: &mut Text, name: Option<&str>)
    ensures { text.new ≡ extended text.old (name_words (option_map (λ name. name.now) name.entry)) }
{
    if let Some(name) = name {
        push_text(text, ", ");
        push_text(text, name);
    }
}

/// Adds the words of a value.
fn push_value(text: &mut Text, pairs: &Pairs, value: &Value<'_>)
    ensures { text.new ≡ extended text.old (value_words (seen_value value.now)) }
{
    match value {
        Value::Raw(bytes) => push_hex_value(text, pairs, bytes),
        Value::Number(number) => push_number(text, u64::from(*number)),
        Value::Unit(code) => push_unit(text, *code),
        Value::Text(characters) => {
            push_text(text, "\"");
            push_bytes(text, characters.as_slice());
            push_text(text, "\"");
        }
        Value::Day(day) => push_bytes(text, day.as_slice()),
        Value::NotSet => push_text(text, "not set"),
        Value::NoDate(bytes) => {
            push_hex_value(text, pairs, bytes);
            push_text(text, ", no date");
        }
        Value::Variables(variables) => push_variables(text, pairs, variables),
    }
}

/// Adds the code of a unit, and its name in parentheses, if it has one.
fn push_unit(text: &mut Text, code: u8)
    ensures { text.new ≡ extended text.old (unit_words code) }
{
    push_number(text, u64::from(code));
    push_in_parentheses(text, unit_name(code));
}

/// Adds a space and a name in parentheses, if there is a name.
fn push_in_parentheses(text: &mut Text, name: Option<&str>)
    ensures { text.new ≡ extended text.old (in_parentheses (option_map (λ name. name.now) name.entry)) }
{
    if let Some(name) = name {
        push_text(text, " (");
        push_text(text, name);
        push_text(text, ")");
    }
}

/// Adds device variables, with a semicolon and a space between two of them.
#[tactic(auto, using(std::proofs::lemmas::Grind::common_steps, crate::proofs::lemmas::Extended::extending))]
fn push_variables(text: &mut Text, pairs: &Pairs, variables: &[[u8; 8]])
    ensures { text.new ≡ extended text.old (join_by variable_words (codes "; ") variables.now) }
{
    let Some((first, others)) = variables.split_first() else {
        return;
    };
    push_variable(text, pairs, first);
    for variable in others {
        push_text(text, "; ");
        push_variable(text, pairs, variable);
    }
}

/// Adds a device variable.
#[tactic(auto, using(crate::proofs::lemmas::Extended::extending), unfolding(crate::specs::Words::variable_words))]
fn push_variable(text: &mut Text, pairs: &Pairs, variable: &[u8; 8])
    ensures { text.new ≡ extended text.old (variable_words variable.now) }
{
    let [code, classification, unit, .., status] = variable;
    push_text(text, "code ");
    push_number(text, u64::from(*code));
    push_text(text, ", classification ");
    push_number(text, u64::from(*classification));
    push_text(text, ", unit ");
    push_unit(text, *unit);
    push_text(text, ", value ");
    push_hex_value(text, pairs, &variable[3..7]);
    push_text(text, ", status ");
    push_hex_value(text, pairs, &[*status]);
}
