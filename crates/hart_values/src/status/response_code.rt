ghost use Rattle.std.specs.Prelude.{◌≡◌, ◌<◌, ◌↔◌, IsOk, IfOk, IfErr};

use crate::ValueFault;
use std::marker::Model;
use thiserror::Error;

/// The response code of a reply, 0 to 127; 0 is success (HCF_SPEC-099).
#[derive(Clone, Copy, Debug, PartialEq, Eq, Error)]
#[error("response code {value}")]
pub struct ResponseCode {
    value: u8,
}

impl Model for ResponseCode {
    ghost use Rattle.std.specs.Prelude.{ℕ, ◌<◌};

    ghost Value = { ℕ };

    ghost view = { λ code. code.value };

    ghost invariant = { λ code. code.value < 128 };

    ghost inverse = { λ n. record { value = n } };
}

impl ResponseCode {
    /// The command was carried out.
    pub const SUCCESS: ResponseCode = ResponseCode { value: 0 };

    /// The data select a value that does not exist.
    pub const INVALID_SELECTION: ResponseCode = ResponseCode { value: 2 };

    /// The command needs more data bytes.
    pub const TOO_FEW_DATA_BYTES: ResponseCode = ResponseCode { value: 5 };

    /// The device is write protected, and the command is a configuration write.
    pub const IN_WRITE_PROTECT_MODE: ResponseCode = ResponseCode { value: 7 };

    /// The counter in a request of Command 38 is not the device's configuration change counter (implementation choice).
    pub const COUNTER_MISMATCH: ResponseCode = ResponseCode { value: 9 };

    /// The date of Command 18 is neither a day of the calendar nor "not set" (implementation choice).
    pub const INVALID_DATE: ResponseCode = ResponseCode { value: 9 };

    /// The loop current mode of Command 6 is neither 0 nor 1 (implementation choice).
    pub const INVALID_MODE: ResponseCode = ResponseCode { value: 12 };

    /// The device does not know the command.
    pub const COMMAND_NOT_IMPLEMENTED: ResponseCode = ResponseCode { value: 64 };

    /// Returns the response code with this number.
    ///
    /// # Errors
    ///
    /// [`ValueFault::OutOfRange`] if `value` is above 127.
    pub fn new(value: u8) -> Result<Self, ValueFault>
        ensures accepted { IsOk result ↔ (value < 128) }
        ensures kept { IfOk result (λ code. code ≡ value) }
        ensures refused { IfErr result (λ fault. fault ≡ ValueFault.OutOfRange) }
    {
        if value < 128 {
            Ok(ResponseCode { value })
        } else {
            Err(ValueFault::OutOfRange)
        }
    }

    /// Returns the number, 0 to 127.
    pub fn value(self) -> u8
        ensures same { result ≡ self }
        ensures in_range { result < 128 }
    {
        self.value
    }
}

// The prover checks that each name has the number given here. No clause can say this, because a clause cannot name a constant whose type
// implements `Model`.
const _: () = prove!(ResponseCode::SUCCESS.value == 0);

const _: () = prove!(ResponseCode::INVALID_SELECTION.value == 2);

const _: () = prove!(ResponseCode::TOO_FEW_DATA_BYTES.value == 5);

const _: () = prove!(ResponseCode::IN_WRITE_PROTECT_MODE.value == 7);

const _: () = prove!(ResponseCode::COUNTER_MISMATCH.value == 9);

const _: () = prove!(ResponseCode::INVALID_DATE.value == 9);

const _: () = prove!(ResponseCode::INVALID_MODE.value == 12);

const _: () = prove!(ResponseCode::COMMAND_NOT_IMPLEMENTED.value == 64);
