//! Output for a caller in C.
ghost use Rattle.std.specs.Prelude.{◌≡◌, ◌<◌, ◌++◌, IfErr, IfOk, OnErr, drop, length};
ghost use Rattle.hart_c.specs.Faults.{outcome_of};

use crate::fault::{Fault, HART_OK, HartOutcome};

/// Writes bytes to the front of `output`, and returns their number, or the fault `NoRoom` if `output` is too short.
pub(crate) fn put(bytes: &[u8], output: &mut [u8]) -> Result<usize, Fault>
    ensures written { IfOk result (λ len. (len ≡ length bytes.now) × (output.new ≡ bytes.now ++ drop len output.old)) }
    ensures refused { IfErr result (λ fault. (fault ≡ Fault.NoRoom) × (length output.old < length bytes.now)) }
    ensures unchanged { OnErr result (output.new ≡ output.old) }
{
    if output.len() < bytes.len() {
        return Err(Fault::NoRoom);
    }
    output[..bytes.len()].copy_from_slice(bytes);
    Ok(bytes.len())
}

/// Returns the result of a call as a `HartOutcome`: a number of bytes, or the fault.
pub(crate) fn outcome_of(written: Result<usize, Fault>) -> HartOutcome
    ensures { result ≡ outcome_of written }
{
    match written {
        Ok(len) => HartOutcome {
            len,
            fault: HART_OK,
        },
        Err(fault) => HartOutcome {
            len: 0,
            fault: fault.number(),
        },
    }
}
