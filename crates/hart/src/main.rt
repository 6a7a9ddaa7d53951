//! `hart`, HART messages on the command line.
//!
//! The crate `hart_cli` does all of the program's work. This crate has only the program's arguments, the standard streams and the exit
//! status.
#![tactic(auto)]

use hart_cli::{NO_CALL, Plain, program};
use std::process::ExitCode;
use std::{env, io};

fn main(rt: HostRuntime) -> ExitCode {
    let words = match words_after_name(&rt) {
        Ok(words) => words,
        Err(error) => {
            let _ = eprintln!(rt; "error: the words cannot be read: {error}");
            return ExitCode::from(NO_CALL);
        }
    };
    let mut reader = Plain::new(rt.stdin());
    let mut writer = Plain::new(rt.stdout());
    let mut errors = Plain::new(rt.stderr());
    let status = program(
        rt.alloc(),
        words.as_slice(),
        &mut reader,
        &mut writer,
        &mut errors,
    );
    ExitCode::from(status)
}

/// Returns the arguments after the program's name.
///
/// # Errors
///
/// An error if an argument is not UTF-8, or if memory is refused.
fn words_after_name(rt: &HostRuntime) -> io::Result<Vec<String>> {
    let words = env::args(rt)?.skip(1).collect(rt.alloc())?;
    Ok(words)
}
