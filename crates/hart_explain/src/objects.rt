//! What data mean, as members of an object of JSON.
#![tactic(auto, using(crate::proofs::lemmas::Extended::extending))]

ghost use Rattle.std.specs.Prelude.{◌≡◌, ◌<◌, ◌/◌, ◌%◌, ◌++◌, ◌∷◌, [], length, map, option_map};
ghost use Rattle.std.specs.Bool.{OnTrue};
ghost use Rattle.std.specs.Char.{digit_char};
ghost use Rattle.std.specs.List.{flat_map, join_by};
ghost use Rattle.std.specs.Option.{option_map_or};
ghost use Rattle.hex.specs.Hex.{encode_upper};
ghost use Rattle.json.specs.Print.{escape, escape_byte, quoted};
ghost use Rattle.serde_json.specs.Data.{null};
ghost use Rattle.serde_json.specs.Written.{compact_text};
ghost use Rattle.hart_explain.specs.Json.{field_member, further_member, further_members, list_of, member_words, name_or_null, object_of};
ghost use Rattle.hart_explain.specs.Json.{problem_data, reading_members, value_data, variable_data};
ghost use Rattle.hart_explain.specs.Text.{extended};
ghost use Rattle.hart_explain.specs.Reading.{seen_field, seen_reading};
ghost use Rattle.hart_explain.specs.Values.{seen_value};

use crate::field::Field;
use crate::fields::Fields;
use crate::pairs::Pairs;
use crate::reading::{Problem, Reading};
use crate::text::{Text, push_byte, push_bytes, push_hex, push_number, push_text};
use crate::value::Value;
use hart_commands::code_name;

mod header;
mod sighting;
mod status;

pub use sighting::push_line;

/// Adds the members of a reading of the data of a command, with a comma before each.
pub fn push_reading(text: &mut Text, pairs: &Pairs, command: u8, bytes: &[u8], reading: Reading<'_>)
    ensures { text.new ≡ extended text.old (further_members (reading_members command bytes.now (seen_reading reading.entry))) }
{
    push_text(text, ",\"data\":");
    push_quoted_hex(text, pairs, bytes);
    push_text(text, ",\"fields\":");
    push_fields(text, pairs, reading.fields);
    push_text(text, ",\"ignored\":");
    push_quoted_hex(text, pairs, reading.ignored);
    push_text(text, ",\"problem\":");
    push_problem(text, command, reading.problem);
}

/// Adds what is wrong with the data of a command as an object, or null if nothing is wrong.
#[tactic(auto, using(crate::proofs::lemmas::Extended::extending), unfolding(json::specs::Print::escape_byte))]
fn push_problem(text: &mut Text, command: u8, problem: Option<Problem>)
    ensures { text.new ≡ extended text.old (compact_text (option_map_or (problem_data command) problem null)) }
{
    match problem {
        Some(problem) => push_object_of(text, command, problem),
        None => push_text(text, "null"),
    }
}

/// Adds a problem with the data of a command as an object. For an unknown command, adds null.
#[tactic(auto, using(crate::proofs::lemmas::Extended::extending), unfolding(json::specs::Print::escape_byte))]
fn push_object_of(text: &mut Text, command: u8, problem: Problem)
    ensures { text.new ≡ extended text.old (compact_text (problem_data command problem)) }
{
    match problem {
        Problem::UnknownCommand => push_text(text, "null"),
        Problem::TooFew { needed } => {
            push_text(text, "{\"reason\":\"too_few_data\",\"needed\":");
            push_number(text, needed as u64);
            push_text(text, "}");
        }
        Problem::Refused { code } => {
            push_text(text, "{\"reason\":\"refused\",\"code\":");
            push_number(text, u64::from(code));
            push_text(text, ",\"name\":");
            push_name(text, code_name(command, code));
            push_text(text, "}");
        }
        Problem::NoReply => push_text(text, "{\"reason\":\"no_reply\"}"),
        Problem::NotRead { code } => {
            push_text(text, "{\"reason\":\"not_read\",\"code\":");
            push_number(text, u64::from(code));
            push_text(text, "}");
        }
    }
}

/// Adds the object of fields: one member for each field.
#[tactic(auto, using(crate::proofs::lemmas::Json::said))]
fn push_fields(text: &mut Text, pairs: &Pairs, fields: Fields<'_>)
    ensures { text.new ≡ extended text.old (compact_text (object_of (map field_member fields.entry))) }
{
    let mut fields = fields;
    let Some(first) = fields.next() else {
        push_text(text, "{}");
        return;
    };
    push_text(text, "{");
    push_field(text, pairs, &first);
    push_further_fields(text, pairs, fields);
    push_text(text, "}");
}

/// Adds the members of further fields, each with a comma before it.
#[tactic(auto, using(crate::proofs::lemmas::Extended::extending), unfolding(crate::specs::Json::further_member))]
fn push_further_fields(text: &mut Text, pairs: &Pairs, fields: Fields<'_>)
    ensures { text.new ≡ extended text.old (further_members (map field_member fields.entry)) }
{
    let mut fields = fields;
    while let Some(field) = fields.next() {
        push_text(text, ",");
        push_field(text, pairs, &field);
    }
}

/// Adds the member of a field. JSON escapes no character of its name.
#[tactic(auto, using(crate::proofs::lemmas::Json::plain_names))]
fn push_field(text: &mut Text, pairs: &Pairs, field: &Field<'_>)
    ensures { text.new ≡ extended text.old (member_words (field_member (seen_field field.now))) }
{
    push_text(text, "\"");
    push_text(text, field.name);
    push_text(text, "\":");
    push_value(text, pairs, &field.value());
}

/// Adds a value.
fn push_value(text: &mut Text, pairs: &Pairs, value: &Value<'_>)
    ensures { text.new ≡ extended text.old (compact_text (value_data (seen_value value.now))) }
{
    match value {
        Value::Raw(bytes) | Value::NoDate(bytes) => push_quoted_hex(text, pairs, bytes),
        Value::Number(number) => push_number(text, u64::from(*number)),
        Value::Unit(code) => push_number(text, u64::from(*code)),
        Value::Text(characters) => push_quoted(text, characters.as_slice()),
        Value::Day(day) => push_quoted(text, day.as_slice()),
        Value::NotSet => push_text(text, "null"),
        Value::Variables(variables) => push_variables(text, pairs, variables),
    }
}

/// Adds device variables as a list.
#[tactic(auto, using(crate::proofs::lemmas::Json::said))]
fn push_variables(text: &mut Text, pairs: &Pairs, variables: &[[u8; 8]])
    ensures { text.new ≡ extended text.old (compact_text (list_of (map variable_data variables.now))) }
{
    let Some((first, others)) = variables.split_first() else {
        push_text(text, "[]");
        return;
    };
    push_text(text, "[");
    push_variable(text, pairs, first);
    push_further_variables(text, pairs, others);
    push_text(text, "]");
}

/// Adds further device variables, each with a comma before it.
fn push_further_variables(text: &mut Text, pairs: &Pairs, variables: &[[u8; 8]])
    ensures { text.new ≡ extended text.old (flat_map (λ variable. 44 ∷ compact_text (variable_data variable)) variables.now) }
{
    for variable in variables {
        push_text(text, ",");
        push_variable(text, pairs, variable);
    }
}

/// Adds a device variable as an object.
fn push_variable(text: &mut Text, pairs: &Pairs, variable: &[u8; 8])
    ensures { text.new ≡ extended text.old (compact_text (variable_data variable.now)) }
{
    let [code, classification, unit, .., status] = variable;
    push_text(text, "{\"code\":");
    push_number(text, u64::from(*code));
    push_text(text, ",\"classification\":");
    push_number(text, u64::from(*classification));
    push_text(text, ",\"unit\":");
    push_number(text, u64::from(*unit));
    push_text(text, ",\"value\":");
    push_quoted_hex(text, pairs, &variable[3..7]);
    push_text(text, ",\"status\":");
    push_quoted_hex(text, pairs, &[*status]);
    push_text(text, "}");
}

/// Adds a name as a string, or null if there is no name.
pub(crate) fn push_name(text: &mut Text, name: Option<&str>)
    ensures { text.new ≡ extended text.old (compact_text (name_or_null (option_map (λ name. name.now) name.entry))) }
{
    match name {
        Some(name) => push_quoted(text, name.as_bytes()),
        None => push_text(text, "null"),
    }
}

/// Adds bytes as a string of upper-case hex.
#[tactic(auto, using(crate::proofs::lemmas::Json::quoted_digits))]
pub(crate) fn push_quoted_hex(text: &mut Text, pairs: &Pairs, bytes: &[u8])
    ensures { text.new ≡ extended text.old (quoted (encode_upper bytes.now)) }
{
    push_text(text, "\"");
    push_hex(text, pairs, bytes);
    push_text(text, "\"");
}

/// Adds a string.
#[inline(always)]
pub(crate) fn push_quoted(text: &mut Text, bytes: &[u8])
    ensures { text.new ≡ extended text.old (quoted bytes.now) }
{
    push_text(text, "\"");
    push_escaped(text, bytes);
    push_text(text, "\"");
}

/// Adds the characters of a string, escaped where JSON requires it.
#[inline(always)]
pub(crate) fn push_escaped(text: &mut Text, bytes: &[u8])
    ensures { text.new ≡ extended text.old (escape bytes.now) }
{
    if are_plain(bytes) {
        push_bytes(text, bytes);
    } else {
        push_each_escaped(text, bytes);
    }
}

/// Adds the characters of a string one by one, escaped where JSON requires it.
#[tactic(auto, using(std::proofs::lemmas::Grind::common_steps, crate::proofs::lemmas::Extended::extending))]
fn push_each_escaped(text: &mut Text, bytes: &[u8])
    ensures { text.new ≡ extended text.old (escape bytes.now) }
{
    for byte in bytes {
        push_escaped_byte(text, *byte);
    }
}

/// Returns true only if no character of a string is escaped. This function has no early exit, so that the compiler can evaluate it for a
/// string literal.
#[tactic(auto, using(crate::proofs::lemmas::Json::part_by_part))]
#[inline(always)]
fn are_plain(bytes: &[u8]) -> bool
    ensures { OnTrue result (escape bytes.now ≡ bytes.now) }
{
    let mut plain = true;
    for byte in bytes {
        plain &= is_plain(*byte);
    }
    plain
}

/// Adds a byte of a string, escaped where JSON requires it.
#[inline(always)]
fn push_escaped_byte(text: &mut Text, byte: u8)
    ensures { text.new ≡ extended text.old (escape_byte byte) }
{
    if is_plain(byte) {
        push_byte(text, byte);
    } else {
        push_escape(text, byte);
    }
}

/// Returns true only if a byte of a string is not escaped.
#[tactic(auto, unfolding(json::specs::Print::escape_byte))]
#[inline(always)]
fn is_plain(byte: u8) -> bool
    ensures { OnTrue result (escape_byte byte ≡ byte ∷ []) }
{
    byte >= b' ' && byte != b'"' && byte != b'\\'
}

/// Adds a byte of a string that may have to be escaped.
#[tactic(auto, using(crate::proofs::lemmas::Extended::extending), unfolding(json::specs::Print::escape_byte))]
#[inline(never)]
fn push_escape(text: &mut Text, byte: u8)
    ensures { text.new ≡ extended text.old (escape_byte byte) }
{
    match byte {
        b'"' => push_text(text, "\\\""),
        b'\\' => push_text(text, "\\\\"),
        8 => push_text(text, "\\b"),
        12 => push_text(text, "\\f"),
        b'\n' => push_text(text, "\\n"),
        b'\r' => push_text(text, "\\r"),
        b'\t' => push_text(text, "\\t"),
        0..=31 => push_control(text, byte),
        _ => push_byte(text, byte),
    }
}

/// Adds a control character that has no short escape.
#[tactic(auto, using(crate::proofs::lemmas::Extended::extending), unfolding(json::specs::Print::escape_byte))]
fn push_control(text: &mut Text, byte: u8)
    requires control { byte < 32 }
    ensures { text.new ≡ extended text.old (92 ∷ 117 ∷ 48 ∷ 48 ∷ digit_char (byte / 16) ∷ digit_char (byte % 16) ∷ []) }
{
    let low = byte % 16;
    let digit = if low < 10 {
        b'0' + low
    } else {
        b'a' + (low - 10)
    };
    push_bytes(text, &[b'\\', b'u', b'0', b'0', b'0' + byte / 16, digit]);
}
