//! The names of response codes.
ghost use Rattle.std.specs.Prelude.{◌≡◌, ◌≤◌, IfSome, length, option_map};
ghost use Rattle.hart_commands.specs.Codes.{code_name};

/// Returns the name of a command's response code, or `None` if the code has no name.
pub fn code_name(command: u8, code: u8) -> Option<&'static str>
    ensures name { option_map (λ name. name.now) result ≡ code_name command code }
    ensures short { IfSome result (λ name. length name.now ≤ 64) }
{
    match (code, command) {
        (0, _) => Some("success"),
        (2, _) => Some("invalid selection"),
        (5, _) => Some("too few data bytes"),
        (7, _) => Some("in write protect mode"),
        (9, 18) => Some("invalid date"),
        (9, 38) => Some("counter mismatch"),
        (12, 6) => Some("invalid mode"),
        (16, _) => Some("access restricted"),
        (32, _) => Some("busy"),
        (64, _) => Some("command not implemented"),
        _ => None,
    }
}
