//! Readers and writers of the standard library.

ghost use Rattle.std.specs.Prelude.{◌≡◌, IfOk};

use super::streams::{WRITTEN, Written};
use hart_calls::Call;
use hart_cli::{DONE, Failed, Plain, Sink, Source, program};
use hart_rows::{hold_ok, same};
use std::alloc::Global;
use std::io;
use std::io::{ErrorKind, Read, Write};
use std::test::Fail;

/// Whether a call made by its function, on a reader and a writer of the standard library, succeeds and writes exactly this text.
fn serves_by_name(alloc: Global, call: Call, input: &str, text: &str) -> Result<bool, Fail> {
    let mut output = Plain::new(Vec::new(alloc));
    let result = call.make(alloc, &mut Plain::new(input.as_bytes()), &mut output)?;
    let output = output.into_inner();
    Ok(result.is_ok() && same(&str::from_utf8(output.as_slice())?, &text)?)
}

/// Whether `program`, on readers and writers of the standard library, succeeds, writes exactly this text, and writes nothing to `errors`.
fn serves_by_words(alloc: Global, words: &[String], input: &str, text: &str) -> Result<bool, Fail> {
    let mut reader = Plain::new(input.as_bytes());
    let mut output = Plain::new(Vec::new(alloc));
    let mut errors = Plain::new(Vec::new(alloc));
    let status = program(alloc, words, &mut reader, &mut output, &mut errors);
    let output = output.into_inner();
    let errors = errors.into_inner();
    Ok(
        same(&status, &DONE)?
            && same(&str::from_utf8(output.as_slice())?, &text)?
            && same(&str::from_utf8(errors.as_slice())?, &"")?,
    )
}

/// Whether a call on a reader and a writer of the standard library writes its text, both by its function and by running `program` on its
/// words.
fn serves(alloc: Global, (call, input, text): &Written) -> Result<bool, Fail> {
    let words = call.words(alloc)?;
    let is_run = serves_by_words(alloc, words.as_slice(), input, text)?;
    Ok(is_run && serves_by_name(alloc, *call, input, text)?)
}

/// Whether a call that writes to a slice fills it with the beginning of its text, and then ends with a write fault. A full slice takes no
/// more bytes.
fn fills_a_slice(alloc: Global, (call, input, text): &Written) -> Result<bool, Fail> {
    let mut room = [0; 25];
    let mut output = Plain::new(&mut room[..]);
    let result = call.make(alloc, &mut Plain::new(input.as_bytes()), &mut output)?;
    let fault = result.err().ok_or("a fault")?;
    let begun = text.get(..room.len()).ok_or("too short a text")?;
    Ok(same(&fault.number(), &2)? && same(&str::from_utf8(room.as_slice())?, &begun)?)
}

#[test]
fn readers_and_writers_of_the_standard_library_serve(rt: HostRuntime) -> Result<(), Fail> {
    for (row, written) in WRITTEN.iter().enumerate() {
        hold_ok(&rt, serves(rt.alloc(), written), "row", row)?;
        hold_ok(&rt, fills_a_slice(rt.alloc(), written), "slice of row", row)?;
    }
    Ok(())
}

/// A reader and writer that counts its calls. If `fails` is true, each call is interrupted. Otherwise each call reads or writes all that it
/// can.
#[derive(Drop)]
struct Counted {
    calls: u64,
    fails: bool,
}

impl Counted {
    fn call(&mut self, all: usize) -> io::Result<usize>
        ensures { IfOk result (λ n. n ≡ all) }
    {
        self.calls = self.calls.saturating_add(1);
        if self.fails {
            return Err(ErrorKind::Interrupted.into());
        }
        Ok(all)
    }
}

impl Read for Counted {
    fn read(&mut self, buf: &mut [u8]) -> io::Result<usize> {
        self.call(buf.len())
    }
}

impl Write for Counted {
    fn write(&mut self, buf: &[u8]) -> io::Result<usize> {
        self.call(buf.len())
    }

    fn flush(&mut self) -> io::Result<()> {
        Ok(())
    }
}

/// Whether a read into a buffer returns `want`, and calls the inner reader once.
fn reads_once(buffer: &mut [u8], fails: bool, want: Result<usize, Failed>) -> Result<bool, Fail> {
    let mut reader = Plain::new(Counted { calls: 0, fails });
    let read = reader.read(buffer);
    Ok(same(&read, &want)? && same(&reader.into_inner().calls, &1)?)
}

/// Whether a write of bytes returns `want`, and calls the inner writer once.
fn writes_once(bytes: &[u8], fails: bool, want: Result<usize, Failed>) -> Result<bool, Fail> {
    let mut writer = Plain::new(Counted { calls: 0, fails });
    let written = writer.write(bytes);
    Ok(same(&written, &want)? && same(&writer.into_inner().calls, &1)?)
}

/// Whether a read and a write of `size` bytes make one inner call each. If `fails` is true, the inner call is interrupted, and the read and
/// the write fail.
fn makes_one_call(alloc: Global, size: usize, fails: bool) -> Result<bool, Fail> {
    let want = if fails { Err(Failed) } else { Ok(size) };
    let mut bytes = vec![in alloc; 0; size]?;
    Ok(
        reads_once(bytes.as_mut_slice(), fails, want)?
            && writes_once(bytes.as_slice(), fails, want)?,
    )
}

#[test]
fn each_call_is_one_call_of_what_is_inside(rt: HostRuntime) -> Result<(), Fail> {
    for size in [0, 1, 4096] {
        hold_ok(&rt, makes_one_call(rt.alloc(), size, false), "size", size)?;
        hold_ok(
            &rt,
            makes_one_call(rt.alloc(), size, true),
            "failing size",
            size,
        )?;
    }
    Ok(())
}

#[test]
fn a_write_that_takes_no_byte_is_a_failure(rt: HostRuntime) {
    let mut room = [0; 2];
    let mut writer = Plain::new(&mut room[..]);
    assert!(rt; writer.write(b"hart") == Ok(2));
    assert!(rt; writer.write(b"rt") == Err(Failed));
    assert!(rt; writer.write(b"") == Ok(0));
}
