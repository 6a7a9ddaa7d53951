//! The device variables that Command 9 asks for by their codes (HCF_SPEC-127).
ghost use Rattle.std.specs.Prelude.{◌≡◌, map, slice_get};
ghost use Rattle.hart_device.specs.Process.{dynamic_variables};
ghost use Rattle.hart_device.specs.answer.Variables.{variable_of_code, variable_reading};

use crate::{Process, ProcessVariable};
use hart_commands::{CodeList, ShortList, VariableReading};
use hart_values::Bits32;

/// The code of the percent of range, and the code of its unit.
const PERCENT_OF_RANGE: u8 = 244;

const PERCENT: u8 = 57;

/// The code of the loop current, and the code of its unit.
const LOOP_CURRENT: u8 = 245;

const MILLIAMPERE: u8 = 39;

/// The code of the first dynamic variable.
const FIRST: u8 = 246;

/// The values that a reading has if the process lacks the variable.
const MISSING: ProcessVariable = ProcessVariable {
    classification: 0,
    unit: 250,
    value: Bits32([0x7F, 0xA0, 0x00, 0x00]),
    status: 0x30,
};

/// Returns the reading of each code: the code and its variable.
pub(crate) fn variable_readings(
    process: &Process,
    codes: &CodeList,
) -> ShortList<VariableReading, 8>
    ensures { result ≡ map (variable_reading process.now) codes.now }
{
    let mut readings = ShortList::new();
    for code in codes.as_slice() {
        readings.push(variable_reading(process, *code));
    }
    readings
}

/// Returns the reading of a code: the code, and its variable. If the process has no variable for this code, the reading has [`MISSING`].
fn variable_reading(process: &Process, code: u8) -> VariableReading
    ensures { result ≡ variable_reading process.now code }
{
    let variable = variable_of_code(process, code);
    VariableReading {
        code,
        classification: variable.classification,
        unit: variable.unit,
        value: variable.value,
        status: variable.status,
    }
}

/// Returns the variable of a code, or [`MISSING`] if the process has no variable for this code.
fn variable_of_code(process: &Process, code: u8) -> ProcessVariable
    ensures { result ≡ variable_of_code process.now code }
{
    match code {
        PERCENT_OF_RANGE => ProcessVariable {
            classification: 0,
            unit: PERCENT,
            value: process.percent_of_range,
            status: process.first.status,
        },
        LOOP_CURRENT => ProcessVariable {
            classification: 0,
            unit: MILLIAMPERE,
            value: process.loop_current,
            status: process.first.status,
        },
        0..=3 => dynamic_variable(process, code).unwrap_or(MISSING),
        FIRST..=249 => dynamic_variable(process, code - FIRST).unwrap_or(MISSING),
        _ => MISSING,
    }
}

/// Returns the dynamic variable at a place, counted from 0, or `None` if the process has no variable there.
pub(crate) fn dynamic_variable(process: &Process, place: u8) -> Option<ProcessVariable>
    ensures { result ≡ slice_get (dynamic_variables process.now) place }
{
    match place.checked_sub(1) {
        None => Some(process.first),
        Some(place) => process.others.as_slice().get(usize::from(place)).copied(),
    }
}
