//! Checks of results. The error of a failed check says which value it got, which value it wanted, and in which row.
ghost use Rattle.std.specs.Prelude.{◌↔◌, ◌≡◌, ◌≢◌, IfSome, IsNone, IsOk, IsSome, IsTrue, Ok, true};

use std::alloc::Global;
use std::fmt;
use std::fmt::{Debug, Display};
use std::process::Termination;
use std::test::Fail;

/// Fails unless `holds` is true. The failure names `word` and `number`, for example the name of a table and the number of a row.
pub fn hold(holds: bool, word: &str, number: usize) -> Result<(), Fail>
    ensures { IsOk result ↔ IsTrue holds }
{
    if holds {
        Ok(())
    } else {
        Err(Fail::new(format_args!("of {word} {number}")))
    }
}

/// Like `hold`, for a check that may end in an error. Such an error is printed, and fails the test too.
pub fn hold_ok(
    rt: &impl Eprint,
    holds: Result<bool, Fail>,
    word: &str,
    number: usize,
) -> Result<(), Fail>
    ensures { IsOk result ↔ (holds ≡ Ok true) }
{
    let holds = match holds {
        Ok(holds) => holds,
        Err(fail) => {
            let _status = Err::<(), Fail>(fail).report(rt);
            false
        }
    };
    hold(holds, word, number)
}

/// Fails unless `got` is `wanted`. The failure shows both values, and names `word` and `number`.
pub fn hold_same<T: PartialEq + Debug>(
    rt: &impl Eprint,
    got: &T,
    wanted: &T,
    word: &str,
    number: usize,
) -> Result<(), Fail>
    ensures { IsOk result ↔ IsTrue (T.eq got.now wanted.now) }
{
    hold_ok(rt, same(got, wanted), word, number)
}

/// Returns true if `holds` is true. Otherwise returns an error that shows `got`.
pub fn told<T: Debug>(holds: bool, got: &T) -> Result<bool, Fail>
    ensures { (result ≡ Ok true) ↔ IsTrue holds }
{
    if holds {
        Ok(true)
    } else {
        Err(Fail::new(format_args!("got {got:?}")))
    }
}

/// Returns true if `got` is `wanted`. Otherwise returns an error that shows both values.
pub fn same<T: PartialEq + Debug>(got: &T, wanted: &T) -> Result<bool, Fail>
    ensures { (result ≡ Ok true) ↔ IsTrue (T.eq got.now wanted.now) }
{
    if *got == *wanted {
        Ok(true)
    } else {
        Err(Fail::new(format_args!("got {got:?}, wanted {wanted:?}")))
    }
}

/// Bytes to display in hex, or `None` to display as `none`.
#[derive(Drop)]
struct Hex<'a>(Option<&'a [u8]>);

impl Display for Hex<'_> {
    fn fmt<W: fmt::Write>(&self, f: &mut fmt::Formatter<W>) -> fmt::Result {
        let Some(bytes) = self.0 else {
            return write!(f, "none");
        };
        write!(f, "'")?;
        for byte in bytes {
            write!(f, "{byte:02X}")?;
        }
        write!(f, "'")
    }
}

/// Like `same`, for bytes.
pub fn same_bytes(got: &[u8], wanted: &[u8]) -> Result<bool, Fail>
    ensures { (result ≡ Ok true) ↔ (got.now ≡ wanted.now) }
{
    if got == wanted {
        return Ok(true);
    }
    Err(differ(Some(got), Some(wanted)))
}

/// Like `same_bytes`, but `got` and `wanted` may each be missing. They are the same if both are missing.
pub fn same_if_any(got: Option<&[u8]>, wanted: Option<&[u8]>) -> Result<bool, Fail>
    ensures both { IfSome got.entry (λ got. IfSome wanted.entry (λ wanted. (result ≡ Ok true) ↔ (got.now ≡ wanted.now))) }
    ensures neither { IsNone got.entry → (result ≡ Ok true) ↔ IsNone wanted.entry }
    ensures one { IsSome got.entry → IsNone wanted.entry → result ≢ Ok true }
{
    match (got, wanted) {
        (Some(got), Some(wanted)) => same_bytes(got, wanted),
        (None, None) => Ok(true),
        _ => Err(differ(got, wanted)),
    }
}

/// Returns the failure that says which bytes were got and which were wanted.
fn differ(got: Option<&[u8]>, wanted: Option<&[u8]>) -> Fail {
    let got = Hex(got);
    let wanted = Hex(wanted);
    Fail::new(format_args!("got {got}, wanted {wanted}"))
}

/// Returns true if a value is displayed as this text. Otherwise returns an error that shows both texts.
pub fn has_text(alloc: Global, value: &impl Display, text: &str) -> Result<bool, Fail> {
    let written = format!(in alloc; "{value}")?;
    same(&written.as_str(), &text)
}
