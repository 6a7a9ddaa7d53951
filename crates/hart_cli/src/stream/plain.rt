//! Any reader or writer of the standard library as a `Source` or a `Sink`.

ghost use Rattle.std.specs.Prelude.{◌≡◌};
ghost use Rattle.hart_cli.specs.stream.Stream.{count_after_failure};

use crate::stream::{Failed, Sink, Source};
use std::io::{Read, Write};

/// A reader or writer of the standard library, with a count of its failures.
///
/// Each error counts as a failure, even an interruption. A write of 1 or more bytes that takes none of them also counts as a failure.
/// No read and no write is tried again.
///
/// No contract can say that a reader or writer of the standard library succeeds. So a `Plain` that always fails would meet its clauses, and
/// only a test would find this.
#[derive(Drop)]
pub struct Plain<T> {
    inner: T,
    failures: u64,
}

impl<T> Plain<T> {
    ghost use Rattle.hart_cli.specs.stream.Plain.{plain_failures, plain_inner};

    /// Returns a reader or writer that has not failed so far.
    pub fn new(inner: T) -> Plain<T>
        ensures inner { plain_inner result ≡ inner }
        ensures failures { plain_failures result ≡ 0 }
    {
        Plain { inner, failures: 0 }
    }

    /// Returns the reader or writer that the `Plain` holds.
    pub fn into_inner(self) -> T
        ensures { result ≡ plain_inner self }
    {
        self.inner
    }

    /// Counts a failure.
    fn fail(&mut self) -> Failed
        ensures inner { plain_inner self.new ≡ plain_inner self.old }
        ensures failures { plain_failures self.new ≡ count_after_failure (plain_failures self.old) }
    {
        self.failures = self.failures.saturating_add(1);
        Failed
    }
}

impl<R: Read> Source for Plain<R> {
    ghost use Rattle.hart_cli.specs.stream.Plain.{plain_failures, plain_inner};

    ghost stream = { λ plain. record { bytes = R.remaining (plain_inner plain); failures = plain_failures plain } };

    fn read(&mut self, buffer: &mut [u8]) -> Result<usize, Failed> {
        match self.inner.read(buffer) {
            Ok(given) => Ok(given),
            Err(_) => Err(self.fail()),
        }
    }
}

impl<W: Write> Sink for Plain<W> {
    ghost use Rattle.hart_cli.specs.stream.Plain.{plain_failures, plain_inner};

    ghost stream = { λ plain. record { bytes = W.contents (plain_inner plain); failures = plain_failures plain } };

    fn write(&mut self, bytes: &[u8]) -> Result<usize, Failed> {
        match self.inner.write(bytes) {
            Ok(0) if !bytes.is_empty() => Err(self.fail()),
            Ok(taken) => Ok(taken),
            Err(_) => Err(self.fail()),
        }
    }
}
