//! The data of a request, made from the words that give its fields.
ghost use Rattle.std.specs.Prelude.{◌≡◌, ◌<◌, ◌≤◌, ◌^◌, [], length, map, option_map, true};
ghost use Rattle.std.specs.List.{list_any};
ghost use Rattle.std.specs.Str.{bytes_eq};
ghost use Rattle.hart_commands.specs.Fields.{seen};
ghost use Rattle.hart_commands.specs.WellMade.{are_request_rows, is_well_made};
ghost use Rattle.hart_request.specs.Fields.{bad_at, data_of_fields, field_value, first_bad_name, has_name, is_for, name_fault, named};
ghost use Rattle.hart_request.specs.Fields.{payload_of, place_for, value_in};

use crate::fault::{BadField, FieldFault};
use crate::values::{FieldBytes, value_of};
use hart_commands::{FieldRow, Request, command_name, request_rows};
use hart_values::Payload;

/// The number of the word COMMAND.
const COMMAND: usize = 3;

/// The number of the first word that gives a field.
const FIRST_FIELD: usize = 4;

/// Returns the data of this command's request, from the words for its fields.
///
/// # Errors
///
/// [`BadField`] for the first of these faults: the command is not known; a word has a bad name; a field of the command is missing or has a
/// bad value; the command refuses the data.
#[tactic(auto, using(hart_commands::proofs::lemmas::WellMade::well_made))]
pub fn payload_of(command: u8, words: &[&str]) -> Result<Payload, BadField>
    ensures { result ≡ payload_of command (map (λ word. word.now) words.now) }
{
    if command_name(command).is_none() {
        return Err(BadField {
            number: COMMAND,
            fault: FieldFault::UnknownCommand,
        });
    }
    let rows = request_rows(command);
    if let Some(bad) = first_bad_name(rows, words) {
        return Err(bad);
    }
    let data = data_of_fields(command, rows, words)?;
    match Request::read(command, data.as_slice()) {
        Ok(_) => Ok(data),
        Err(code) => Err(BadField {
            number: COMMAND,
            fault: FieldFault::Refused { code: code.value() },
        }),
    }
}

/// Returns the first word that has a bad name, or `None` if no word has a bad name.
fn first_bad_name(rows: &[FieldRow], words: &[&str]) -> Option<BadField>
    ensures { result ≡ first_bad_name (map seen rows.now) [] (map (λ word. word.now) words.now) }
{
    for (place, word) in words.iter().enumerate() {
        if let Some(fault) = name_fault(rows, &words[..place], word) {
            return Some(bad_at(place, fault));
        }
    }
    None
}

/// Returns what is wrong with the name in a word, or `None` if nothing is wrong. The words `earlier` come before this word.
fn name_fault(rows: &[FieldRow], earlier: &[&str], word: &str) -> Option<FieldFault>
    ensures { result ≡ name_fault (map seen rows.now) (map (λ word. word.now) earlier.now) word.now }
{
    let Some((name, _)) = named(word) else {
        return Some(FieldFault::NotNamed);
    };
    if !is_field(rows, name) {
        return Some(FieldFault::UnknownField);
    }
    if is_given(earlier, name) {
        return Some(FieldFault::GivenTwice);
    }
    None
}

/// Returns true if a field has this name.
fn is_field(rows: &[FieldRow], name: &str) -> bool
    ensures { result ≡ list_any (λ row. bytes_eq name.now row.name) (map seen rows.now) }
{
    for row in rows {
        if name == row.name {
            return true;
        }
    }
    false
}

/// Returns true if any of the words gives a value to this name.
fn is_given(words: &[&str], name: &str) -> bool
    ensures { result ≡ list_any (has_name name.now) (map (λ word. word.now) words.now) }
{
    for word in words {
        if has_name(word, name) {
            return true;
        }
    }
    false
}

/// Returns true if a word gives a value to this name.
fn has_name(word: &str, name: &str) -> bool
    ensures { result ≡ has_name name.now word.now }
{
    match named(word) {
        Some((given, _)) => given == name,
        None => false,
    }
}

/// Returns the name and the value that a word gives, or `None` if the word has no `=`.
fn named(word: &str) -> Option<(&str, &str)>
    ensures { option_map (λ parts. (parts.0.now, parts.1.now)) result ≡ named word.now }
{
    word.split_once('=')
}

/// Returns the data that the words give for the fields of these rows, or the first fault of a field.
fn data_of_fields(command: u8, rows: &[FieldRow], words: &[&str]) -> Result<Payload, BadField>
    requires { are_request_rows (map seen rows.now) ≡ true }
    ensures { result ≡ data_of_fields command 0 (map (λ word. word.now) words.now) (map seen rows.now) }
{
    let mut data = Payload::new();
    for (field, row) in rows.iter().enumerate() {
        let bytes = field_value(command, field, row, words)?;
        data.extend_from_slice(bytes.as_slice());
    }
    Ok(data)
}

/// Returns the bytes that the words give for the field of a row, or the fault of the field.
fn field_value(
    command: u8,
    field: usize,
    row: &FieldRow,
    words: &[&str],
) -> Result<FieldBytes, BadField>
    requires { is_well_made (seen row.now) ≡ true }
    ensures { result ≡ field_value command field (map (λ word. word.now) words.now) (seen row.now) }
{
    let place = place_for(row, words);
    if place == words.len() {
        return Err(bad_at(place, FieldFault::Missing { command, field }));
    }
    match value_of(row, value_in(words[place])) {
        Ok(bytes) => Ok(bytes),
        Err(fault) => Err(bad_at(place, fault)),
    }
}

/// Returns the fault of the word at this place, with the number of the word. `place` is counted from 0 among the words for fields.
fn bad_at(place: usize, fault: FieldFault) -> BadField
    requires { place < 2 ^ 63 }
    ensures { result ≡ bad_at place fault }
{
    BadField {
        number: FIRST_FIELD + place,
        fault,
    }
}

/// Returns the place of the first word with a value for the field of a row, or the number of words if there is no such word.
fn place_for(row: &FieldRow, words: &[&str]) -> usize
    ensures place { result ≡ place_for (map (λ word. word.now) words.now) (seen row.now) }
    ensures within { result ≤ length words.now }
{
    for (place, word) in words.iter().enumerate() {
        if is_for(row, word) {
            return place;
        }
    }
    words.len()
}

/// Returns true if a word gives the field of a row a value.
fn is_for(row: &FieldRow, word: &str) -> bool
    ensures { result ≡ is_for (seen row.now) word.now }
{
    has_name(word, row.name)
}

/// Returns the value that a word gives.
fn value_in(word: &str) -> &str
    ensures { result.now ≡ value_in word.now }
{
    match named(word) {
        Some((_, value)) => value,
        None => "",
    }
}
