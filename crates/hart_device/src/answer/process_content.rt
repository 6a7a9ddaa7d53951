//! The values of a `Process` in the form in which replies contain them (HCF_SPEC-127).
ghost use Rattle.std.specs.Prelude.{◌≡◌, [], ◌∷◌, map};
ghost use Rattle.hart_device.specs.answer.Content.{unit_value, class_at, output_content};
ghost use Rattle.hart_device.specs.Process.{dynamic_variables};

use crate::answer::variables::dynamic_variable;
use crate::{OutputValues, Process, ProcessVariable};
use hart_commands::{OutputContent, ShortList, UnitValue};
use hart_values::ByteList;

/// The byte of Command 15 that the standard reserves.
const RESERVED: u8 = 250;

/// Returns the unit and the value of a variable.
pub(crate) fn unit_value(variable: &ProcessVariable) -> UnitValue
    ensures { result ≡ unit_value variable.now }
{
    UnitValue {
        unit: variable.unit,
        value: variable.value,
    }
}

/// Returns the units and the values of the dynamic variables, one to four.
pub(crate) fn unit_values(process: &Process) -> ShortList<UnitValue, 4>
    ensures { result ≡ map unit_value (dynamic_variables process.now) }
{
    let mut values = ShortList::new();
    values.push(unit_value(&process.first));
    for variable in process.others.as_slice() {
        values.push(unit_value(variable));
    }
    values
}

/// Returns the classifications of the four dynamic variables.
pub(crate) fn classes(process: &Process) -> [u8; 4]
    ensures { result ≡ class_at process.now 0 ∷ class_at process.now 1 ∷ class_at process.now 2 ∷ class_at process.now 3 ∷ [] }
{
    [
        class_at(process, 0),
        class_at(process, 1),
        class_at(process, 2),
        class_at(process, 3),
    ]
}

/// Returns the classification of the dynamic variable at a place, or 0 if the process has no variable there.
fn class_at(process: &Process, place: u8) -> u8
    ensures { result ≡ class_at process.now place }
{
    dynamic_variable(process, place).map_or(0, |variable| variable.classification)
}

/// Returns the loop current output, with the write protect code.
pub(crate) fn output_content(output: &OutputValues, protected: bool) -> OutputContent
    ensures { result ≡ output_content output.now protected }
{
    OutputContent {
        alarm_code: output.alarm_code,
        transfer_function: output.transfer_function,
        unit: output.unit,
        upper_range_value: output.upper_range_value,
        lower_range_value: output.lower_range_value,
        damping: output.damping,
        write_protect_code: u8::from(protected),
        reserved: RESERVED,
        channel_flags: output.channel_flags,
    }
}

/// Returns the additional status bytes.
pub(crate) fn additional_status(process: &Process) -> ByteList<25>
    ensures { result ≡ process.now.additional_status }
{
    ByteList::from_slice(&process.additional_status).unwrap()
}
