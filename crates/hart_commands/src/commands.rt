//! The table of commands (HCF_SPEC-099, HCF_SPEC-127). A proof uses the rows of the table only if its tactic says `unfolding`. Otherwise
//! every proof about a command would have a case for each row.
ghost use Rattle.std.specs.Prelude.{◌≡◌, ◌==◌, find, map, option_map};
ghost use Rattle.hart_commands.specs.Commands.{command_name, is_known, known, may_be_broadcast, reply_rows, request_rows, seen_command};
ghost use Rattle.hart_commands.specs.Fields.{seen};
ghost use Rattle.hart_commands.specs.RequestData.{needed_data};
ghost use Rattle.hart_commands.specs.RequestCode.{is_write};

use crate::FieldRow;
use crate::commands::table::{Command, TABLE};

mod table;

/// Returns true if a command is known.
#[tactic(auto, unfolding(crate::specs::Commands::known))]
pub fn is_known(command: u8) -> bool
    ensures { result ≡ is_known command }
{
    row_for(command).is_some()
}

/// Returns the standard's name of a command, or `None` if the command is not known (HCF_SPEC-099).
pub fn command_name(command: u8) -> Option<&'static str>
    ensures { option_map (λ name. name.now) result ≡ command_name command }
{
    Some(row_for(command)?.name)
}

/// Returns the fields of this command's request data, in order. An unknown command has no fields. The fields cover the first
/// [`Request::data_len`](crate::Request::data_len) bytes. The command ignores further bytes, so the caller has to cut them off before it
/// splits the data.
pub fn request_rows(command: u8) -> &'static [FieldRow]
    ensures { map seen result.now ≡ request_rows command }
{
    match row_for(command) {
        Some(row) => row.request,
        None => &[],
    }
}

/// Returns the fields of this command's reply data with response code 0, in order. An unknown command has no fields. The fields cover the
/// first [`Reply::data_len`](crate::Reply::data_len) data bytes. Further data are ignored, so the caller has to cut them off before it
/// splits the data.
pub fn reply_rows(command: u8) -> &'static [FieldRow]
    ensures { map seen result.now ≡ reply_rows command }
{
    match row_for(command) {
        Some(row) => row.reply,
        None => &[],
    }
}

/// Returns how many data bytes a request of this command needs, or 0 if the command is not known (HCF_SPEC-127). A request with
/// fewer data bytes is refused with code 5. As an exception, a request of Command 38 may have no data.
#[tactic(auto, unfolding(crate::specs::Commands::known))]
pub fn needed_data(command: u8) -> usize
    ensures { result ≡ needed_data command }
{
    match row_for(command) {
        Some(row) => usize::from(row.needed),
        None => 0,
    }
}

/// Returns true if the command is a configuration write: Command 6, 17, 18, 19 or 22. A configuration write sets registers.
#[tactic(auto, unfolding(crate::specs::Commands::known, crate::specs::Commands::written_by))]
pub fn is_write(command: u8) -> bool
    ensures { result ≡ is_write command }
{
    match row_for(command) {
        Some(row) => !row.writes.is_empty(),
        None => false,
    }
}

/// Returns true if a command may be sent by broadcast. Only Commands 11 and 21 may be broadcast, because they find a device by its
/// tag or its long tag (implementation choice).
pub fn may_be_broadcast(command: u8) -> bool
    ensures { result ≡ may_be_broadcast command }
{
    command == 11 || command == 21
}

/// Returns the row of a command, if it has one.
fn row_for(command: u8) -> Option<&'static Command>
    ensures { option_map (λ row. seen_command row.now) result ≡ known command }
{
    find_row(TABLE, command)
}

/// Returns the first row with this command number, or `None` if no row has this number. The rows are a parameter so that the proof can
/// name them.
fn find_row(rows: &'static [Command], command: u8) -> Option<&'static Command>
    ensures { option_map (λ row. seen_command row.now) result ≡ find (λ row. row.number == command) (map seen_command rows.now) }
{
    rows.iter().find(|row| row.number == command)
}
