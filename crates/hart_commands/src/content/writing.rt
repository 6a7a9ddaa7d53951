//! Helper functions of `ReplyContent::push_to`, for contents that take more than one line of code to write.
ghost use Rattle.std.specs.Prelude.{◌≡◌, ◌+◌, ◌*◌, ◌≤◌, ◌∷◌, ◌++◌, length};
ghost use Rattle.std.specs.List.{flat_map};
ghost use Rattle.hart_commands.specs.Values.{joined, unit_value_bytes, unit_value_parts, variable_bytes};

use crate::{UnitValue, VariableReading};
use hart_values::{Bits32, PackedText, Payload};

/// Adds a loop current and a percent of range at the end of a payload.
pub fn push_current(loop_current: Bits32, percent_of_range: Bits32, payload: &mut Payload)
    requires { length payload.old ≤ 2 }
    ensures { payload.new ≡ payload.old ++ loop_current.0 ++ percent_of_range.0 }
{
    payload.extend_from_slice(&loop_current.0);
    payload.extend_from_slice(&percent_of_range.0);
}

/// Adds a loop current, then values with their units, at the end of a payload.
#[tactic(auto, using(std::proofs::Common::append_assoc, crate::proofs::lemmas::Parts::joined_values))]
pub fn push_dynamic(loop_current: Bits32, values: &[UnitValue], payload: &mut Payload)
    requires few { length values.now ≤ 4 }
    requires room { length payload.old ≤ 2 }
    ensures { payload.new ≡ payload.old ++ joined (loop_current.0 ∷ flat_map unit_value_parts values.now) }
{
    payload.extend_from_slice(&loop_current.0);
    push_values(values, payload);
}

/// Adds an extended device status, then variables and their time stamp, at the end of a payload.
pub fn push_variables(
    extended_device_status: u8,
    variables: &[VariableReading],
    time_stamp: &[u8; 4],
    payload: &mut Payload,
)
    requires few { length variables.now ≤ 8 }
    requires room { length payload.old ≤ 2 }
    ensures { payload.new
        ≡ payload.old ++ (extended_device_status ∷ flat_map variable_bytes variables.now ++ time_stamp.now) }
{
    payload.push(extended_device_status);
    push_readings(variables, payload);
    payload.extend_from_slice(time_stamp);
}

/// Adds a tag, a descriptor and a date at the end of a payload.
pub fn push_tag(
    tag: &PackedText<6>,
    descriptor: &PackedText<12>,
    date: &[u8; 3],
    payload: &mut Payload,
)
    requires { length payload.old ≤ 2 }
    ensures { payload.new ≡ payload.old ++ tag.now ++ descriptor.now ++ date.now }
{
    payload.extend_from_slice(tag.as_bytes());
    payload.extend_from_slice(descriptor.as_bytes());
    payload.extend_from_slice(date);
}

/// Adds values with their units at the end of a payload.
fn push_values(values: &[UnitValue], payload: &mut Payload)
    requires few { length values.now ≤ 4 }
    requires room { length payload.old ≤ 200 }
    ensures { payload.new ≡ payload.old ++ flat_map unit_value_bytes values.now }
{
    for value in values {
        payload.extend_from_slice(&value.to_bytes());
    }
}

/// Adds variables at the end of a payload.
fn push_readings(variables: &[VariableReading], payload: &mut Payload)
    requires few { length variables.now ≤ 8 }
    requires room { length payload.old ≤ 100 }
    ensures pushed { payload.new ≡ payload.old ++ flat_map variable_bytes variables.now }
    ensures size { length payload.new ≡ length payload.old + 8 * length variables.now }
{
    for variable in variables {
        payload.extend_from_slice(&variable.to_bytes());
    }
}
