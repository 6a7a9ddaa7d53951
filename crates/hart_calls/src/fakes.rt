//! Readers and writers that misbehave.

ghost use Rattle.std.specs.Prelude.{Some, None};

use hart_cli::{Failed, Sink, Source};
use std::alloc::Global;

/// No limit on the bytes of one call.
pub const ALL: usize = usize::MAX;

/// What comes after the bytes of a [`Tape`].
#[derive(Clone, Copy)]
pub enum After {
    /// The end of the input.
    End,
    /// A read that fails.
    Failure,
    /// Spaces without end.
    Spaces,
}

/// A reader that returns spaces, then its bytes, and then what comes after them.
#[derive(Drop)]
pub struct Tape<'a> {
    spaces: usize,
    bytes: &'a [u8],
    after: After,
    most: usize,
    reads: usize,
    failures: u64,
}

impl<'a> Tape<'a> {
    /// Returns a reader that returns at most `most` bytes per read.
    pub fn new(spaces: usize, bytes: &'a [u8], after: After, most: usize) -> Tape<'a> {
        Tape {
            spaces,
            bytes,
            after,
            most,
            reads: 0,
            failures: 0,
        }
    }

    /// Returns the number of reads so far, failed ones included.
    pub fn reads(&self) -> usize {
        self.reads
    }
}

impl Source for Tape<'_> {
    ghost stream = { λ tape. record { bytes = None; failures = tape.failures } };

    fn read(&mut self, buffer: &mut [u8]) -> Result<usize, Failed> {
        self.reads = self.reads.saturating_add(1);
        let room = buffer.len().min(self.most);
        if 0 < self.spaces {
            let next = room.min(self.spaces);
            buffer[..next].fill(b' ');
            self.spaces -= next;
            return Ok(next);
        }
        if !self.bytes.is_empty() {
            let (next, rest) = self.bytes.split_at(room.min(self.bytes.len()));
            buffer[..next.len()].copy_from_slice(next);
            self.bytes = rest;
            return Ok(next.len());
        }
        match self.after {
            After::End => Ok(0),
            After::Failure => {
                self.failures = self.failures.saturating_add(1);
                Err(Failed)
            }
            After::Spaces => {
                buffer[..room].fill(b' ');
                Ok(room)
            }
        }
    }
}

/// A writer that keeps what it takes. It can fail at one of its writes.
#[derive(Drop)]
pub struct Trickle {
    taken: Vec<u8>,
    fails_at: Option<usize>,
    most: usize,
    writes: usize,
    failures: u64,
}

impl Trickle {
    /// Returns a writer that takes at least one and at most `most` bytes per write. The write with the number `fails_at`, counted from 0,
    /// fails; with `None` no write fails.
    pub fn new(alloc: Global, fails_at: Option<usize>, most: usize) -> Trickle {
        Trickle {
            taken: Vec::new(alloc),
            fails_at,
            most,
            writes: 0,
            failures: 0,
        }
    }

    /// Returns the bytes that were written.
    pub fn taken(&self) -> &[u8] {
        self.taken.as_slice()
    }

    /// Returns the number of writes so far, failed ones included.
    pub fn writes(&self) -> usize {
        self.writes
    }
}

impl Sink for Trickle {
    ghost stream = { λ trickle. record { bytes = Some trickle.taken.items; failures = trickle.failures } };

    fn write(&mut self, bytes: &[u8]) -> Result<usize, Failed> {
        let fails = self.fails_at == Some(self.writes);
        self.writes = self.writes.saturating_add(1);
        let next = &bytes[..bytes.len().min(self.most.max(1))];
        if fails || self.taken.extend_from_slice(next).is_err() {
            self.failures = self.failures.saturating_add(1);
            return Err(Failed);
        }
        Ok(next.len())
    }
}
