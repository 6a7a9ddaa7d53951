//! Readers and writers as the calls use them: which bytes they give or take, and when they fail. No contract says how often a call reads
//! from a file or pipe, or in which order it reads and writes.

ghost use Rattle.std.specs.Prelude.{◌<◌, IfOk, length};
ghost use Rattle.std.specs.Io.{ReadsAtMost, WritesAtMost};
ghost use Rattle.std.specs.Io.KnownBytes.{ReadConsumes, WriteAppends};
ghost use Rattle.hart_cli.specs.stream.Stream.{CountsFailure, Stream};

pub mod plain;

/// A read or a write failed.
#[derive(Clone, Copy, Debug, PartialEq, Eq)]
pub struct Failed;

/// Something that bytes are read from.
pub trait Source {
    // The bytes that are left to read, if they are known, and how often a read has failed.
    ghost stream: { Self → Stream };

    /// Puts the next bytes at the beginning of the buffer, and returns their number. If the buffer has at least one byte, 0 means that no
    /// bytes are left.
    ///
    /// # Errors
    ///
    /// `Failed` if the read failed. A failed read loses no byte and raises the count of failures by one, up to 2^64 - 1. Any other read
    /// leaves this count as it was.
    fn read(&mut self, buffer: &mut [u8]) -> Result<usize, Failed>
        ensures bound { ReadsAtMost result buffer.new }
        ensures bytes { ReadConsumes (stream self.old).bytes (stream self.new).bytes result buffer.new }
        ensures count { CountsFailure (stream self.old) (stream self.new) result };
}

/// Something that bytes are written to.
pub trait Sink {
    // The bytes that were written, if they are known, and how often a write has failed.
    ghost stream: { Self → Stream };

    /// Writes a prefix of the bytes, and returns the length of the prefix. This length is at least 1, unless there are no bytes.
    ///
    /// # Errors
    ///
    /// `Failed` if the write failed. A failed write writes no byte and raises the count of failures by one, up to 2^64 - 1. Any other write
    /// leaves this count as it was.
    fn write(&mut self, bytes: &[u8]) -> Result<usize, Failed>
        ensures bound { WritesAtMost result bytes.now }
        ensures progress { IfOk result (λ taken. 0 < length bytes.now → 0 < taken) }
        ensures bytes { WriteAppends (stream self.old).bytes (stream self.new).bytes result bytes.now }
        ensures count { CountsFailure (stream self.old) (stream self.new) result };
}
