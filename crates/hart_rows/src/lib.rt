//! What the tests share: checks that say which row of a table fails and what was got, and tables that the tests of several crates use.
//!
//! The tests are in `hart_tests_values` to `hart_tests_cli`, a crate for each layer. They use only the public items of the tested crates.
//! They test what no contract promises: worked messages, texts, failing readers and writers, and refused allocations.
//! `tools/runs.py` runs the built program, and `tools/library_calls.c` tests the calls of hart_c from C.
#![tactic(auto)]

mod checks;
pub mod scripts;
pub mod worked;

pub use checks::{has_text, hold, hold_ok, hold_same, same, same_bytes, same_if_any, told};
use std::alloc::{AllocError, Global};
use std::test::Fail;

/// Returns the exclusive or of bytes, taken one after another.
pub fn exclusive_or(bytes: &[u8]) -> u8 {
    let mut all = 0;
    for byte in bytes {
        all ^= *byte;
    }
    all
}

/// Returns the bytes of a text: two hex digits for each byte, with spaces between the bytes.
pub fn bytes_of_text(alloc: Global, text: &str) -> Result<Vec<u8>, Fail> {
    let mut bytes = Vec::new(alloc);
    for word in text.split_ascii_whitespace() {
        bytes.push(u8::from_str_radix(word, 16)?)?;
    }
    Ok(bytes)
}

/// Appends a part to a text `times` times.
fn push_often(text: &mut String, part: &str, times: usize) -> Result<(), AllocError> {
    for _ in 0..times {
        text.push_str(part)?;
    }
    Ok(())
}

/// Returns the text of `prefix`, then `part` repeated `times` times, then `suffix`.
pub fn text_of(
    alloc: Global,
    prefix: &str,
    part: &str,
    times: usize,
    suffix: &str,
) -> Result<String, AllocError> {
    let mut text = String::new(alloc);
    text.push_str(prefix)?;
    push_often(&mut text, part, times)?;
    text.push_str(suffix)?;
    Ok(text)
}
