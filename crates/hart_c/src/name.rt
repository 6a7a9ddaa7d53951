//! The names of commands, of the fields of their data, of units, and of what the status bytes of a reply say.
ghost use Rattle.std.specs.Prelude.{◌≡◌, map, option_map};
ghost use Rattle.hart_commands.specs.Codes.{code_name};
ghost use Rattle.hart_commands.specs.Commands.{command_name};
ghost use Rattle.hart_commands.specs.Fields.{seen};
ghost use Rattle.hart_commands.specs.StatusBits.{comm_fault_name, device_state_name};
ghost use Rattle.hart_commands.specs.Units.{unit_name};
ghost use Rattle.hart_c.specs.Data.{NameOutcome, field_name, rows_for};

use crate::fault::{HART_UNKNOWN, HartOutcome};
use crate::output::{outcome_of, put};
use hart_commands::{
    FieldRow, code_name, comm_fault_name, command_name, device_state_name, reply_rows,
    request_rows, unit_name,
};

/// Writes the standard's name of a command to the front of `output`, without a final zero byte (HCF_SPEC-099).
///
/// # Errors
///
/// [`HART_UNKNOWN`] if the command is not known, [`HART_NO_ROOM`](crate::fault::HART_NO_ROOM) if the name does not fit. The output
/// is then unchanged.
#[unsafe(no_mangle)]
pub extern "C" fn hart_command_name(command: u8, output: &mut [u8]) -> HartOutcome
    ensures { NameOutcome (command_name command) output.old output.new result }
{
    write_name(command_name(command), output)
}

/// Writes the name in words of a field of a command to the front of `output`, without a final zero byte (HCF_SPEC-127). The field is
/// the one that `hart_read_request` or `hart_read_reply` writes at `index`, counted from 0.
///
/// # Errors
///
/// [`HART_UNKNOWN`] if the command is not known or has no such field, [`HART_NO_ROOM`](crate::fault::HART_NO_ROOM) if the name does
/// not fit. The output is then unchanged.
#[unsafe(no_mangle)]
pub extern "C" fn hart_field_name(
    is_reply: bool,
    command: u8,
    index: usize,
    output: &mut [u8],
) -> HartOutcome
    ensures { NameOutcome (field_name is_reply command index) output.old output.new result }
{
    let name = rows_for(is_reply, command).get(index).map(|row| row.words);
    write_name(name, output)
}

/// Writes the name of a unit code to the front of `output`, without a final zero byte (HCF_SPEC-183).
///
/// # Errors
///
/// [`HART_UNKNOWN`] if the code does not name the same unit in every class of device variables,
/// [`HART_NO_ROOM`](crate::fault::HART_NO_ROOM) if the name does not fit. The output is then unchanged.
#[unsafe(no_mangle)]
pub extern "C" fn hart_unit_name(unit: u8, output: &mut [u8]) -> HartOutcome
    ensures { NameOutcome (unit_name unit) output.old output.new result }
{
    write_name(unit_name(unit), output)
}

/// Writes the name of a command's response code to the front of `output`, without a final zero byte (HCF_SPEC-099). If the meaning of a
/// code depends on the command, the code has a name only for the commands for which this library defines its meaning.
///
/// # Errors
///
/// [`HART_UNKNOWN`] if the code has no name, [`HART_NO_ROOM`](crate::fault::HART_NO_ROOM) if the name does not fit. The output is then
/// unchanged.
#[unsafe(no_mangle)]
pub extern "C" fn hart_code_name(command: u8, code: u8, output: &mut [u8]) -> HartOutcome
    ensures { NameOutcome (code_name command code) output.old output.new result }
{
    write_name(code_name(command, code), output)
}

/// Writes the name of a bit of the device status to the front of `output`, without a final zero byte (HCF_SPEC-099).
///
/// # Errors
///
/// [`HART_UNKNOWN`] if `bit` is not the value of one bit, [`HART_NO_ROOM`](crate::fault::HART_NO_ROOM) if the name does not fit. The
/// output is then unchanged.
#[unsafe(no_mangle)]
pub extern "C" fn hart_status_name(bit: u8, output: &mut [u8]) -> HartOutcome
    ensures { NameOutcome (device_state_name bit) output.old output.new result }
{
    write_name(device_state_name(bit), output)
}

/// Writes the name of a communication fault to the front of `output`, without a final zero byte (HCF_SPEC-099).
///
/// # Errors
///
/// [`HART_UNKNOWN`] if `bit` is not the value of one bit, or if the bit has no name, [`HART_NO_ROOM`](crate::fault::HART_NO_ROOM) if the
/// name does not fit. The output is then unchanged.
#[unsafe(no_mangle)]
pub extern "C" fn hart_comm_fault_name(bit: u8, output: &mut [u8]) -> HartOutcome
    ensures { NameOutcome (comm_fault_name bit) output.old output.new result }
{
    write_name(comm_fault_name(bit), output)
}

/// Returns the rows of the fields of a command: the fields of its replies if `is_reply` is true, and otherwise the fields of its requests.
fn rows_for(is_reply: bool, command: u8) -> &'static [FieldRow]
    ensures { map seen result.now ≡ rows_for is_reply command }
{
    if is_reply {
        reply_rows(command)
    } else {
        request_rows(command)
    }
}

/// Writes a name to the front of `output`, and returns its length. Returns a fault if there is no name, or if the name does not fit.
fn write_name(name: Option<&'static str>, output: &mut [u8]) -> HartOutcome
    ensures { NameOutcome (option_map (λ text. text.now) name.entry) output.old output.new result }
{
    let Some(name) = name else {
        return HartOutcome {
            len: 0,
            fault: HART_UNKNOWN,
        };
    };
    outcome_of(put(name.as_bytes(), output))
}
