//! The response code of a request (HCF_SPEC-127; implementation choice: the order of the codes).
ghost use Rattle.std.specs.Prelude.{◌≡◌};
ghost use Rattle.hart_commands.specs.RequestCode.{counter_code, data_code, request_code};

use crate::{Request, is_write};
use hart_values::ResponseCode;

/// Returns the response code of a request of this command. `reading` is the result of [`Request::read`]; `protected` and `counter` are the
/// device's write protection and configuration change counter. The result is the first of these codes that applies:
///
/// - code 64 or 5 of `reading`;
/// - code 7 for a write to a protected device;
/// - any other code of `reading`;
/// - code 9 for a wrong counter;
/// - code 0.
///
/// A protected device does not refuse Command 38, because this command sets no register.
pub fn request_code(
    command: u8,
    reading: &Result<Request, ResponseCode>,
    protected: bool,
    counter: u16,
) -> ResponseCode
    ensures { result ≡ request_code command reading.now protected counter }
{
    let code = data_code(reading, counter);
    if matches!(
        code,
        ResponseCode::COMMAND_NOT_IMPLEMENTED | ResponseCode::TOO_FEW_DATA_BYTES
    ) {
        code
    } else if protected && is_write(command) {
        ResponseCode::IN_WRITE_PROTECT_MODE
    } else {
        code
    }
}

/// Returns the code that refuses bad data. For good data, returns code 9 if the counter is wrong, and otherwise code 0.
fn data_code(reading: &Result<Request, ResponseCode>, counter: u16) -> ResponseCode
    ensures { result ≡ data_code reading.now counter }
{
    match reading {
        Ok(request) => counter_code(request, counter),
        Err(code) => *code,
    }
}

/// Returns code 9 if the request names a counter other than `counter`, and otherwise code 0.
fn counter_code(request: &Request, counter: u16) -> ResponseCode
    ensures { result ≡ counter_code request.now counter }
{
    match request {
        Request::ResetChanged(Some(given)) if *given != counter => ResponseCode::COUNTER_MISMATCH,
        _ => ResponseCode::SUCCESS,
    }
}
