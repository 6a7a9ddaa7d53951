//! Makes a call on fake streams, by its function or by running `program` on the words of the command line.

use crate::call::Call;
use crate::fakes::{ALL, After, Tape, Trickle};
use hart_cli::{Sink, program};
use hart_rows::hold_ok;
use std::alloc::Global;
use std::test::Fail;

/// The streams of a call. The reader returns spaces, then an input, and then what `after` says. A read returns at most `most_read` bytes,
/// and a write takes at most `most_written` bytes. The write with the number `fails_at`, counted from 0, fails.
#[derive(Clone, Copy)]
pub struct Given<'a> {
    pub spaces: usize,
    pub input: &'a str,
    pub after: After,
    pub most_read: usize,
    pub most_written: usize,
    pub fails_at: Option<usize>,
}

/// An empty input, and streams that read and write everything at once and do not fail.
pub const EMPTY: Given = Given {
    spaces: 0,
    input: "",
    after: After::End,
    most_read: ALL,
    most_written: ALL,
    fails_at: None,
};

impl<'a> Given<'a> {
    fn reader(&self) -> Tape<'a> {
        Tape::new(
            self.spaces,
            self.input.as_bytes(),
            self.after,
            self.most_read,
        )
    }

    fn writer(&self, alloc: Global) -> Trickle {
        Trickle::new(alloc, self.fails_at, self.most_written)
    }

    /// Returns how many reads the whole input takes, including the read that finds the end of the input.
    fn reads(&self) -> usize {
        self.input
            .len()
            .div_ceil(self.most_read.max(1))
            .saturating_add(1)
    }
}

/// The number and the text of a fault.
pub type Fault<'a> = (u8, &'a str);

/// No fault.
pub const NONE: Fault = (0, "");

pub const READ: Fault = (1, "read fault");

pub const WRITE: Fault = (2, "write fault");

pub const TOO_LONG: Fault = (3, "input too long");

/// The wanted result of a call: its fault, its text, and how often it reads and writes. `None` stands for any number of reads or writes.
#[derive(Clone, Copy)]
pub struct Wanted<'a> {
    pub fault: Fault<'a>,
    pub text: &'a str,
    pub reads: Option<usize>,
    pub writes: Option<usize>,
}

/// What a call did. `number` is the number of its fault, or the exit status of `program`. `said` is the line of the fault, or all that
/// `program` wrote to `errors`.
#[derive(Drop)]
pub struct Outcome {
    pub number: u8,
    pub said: Trickle,
    pub reads: usize,
    pub output: Trickle,
}

impl Outcome {
    /// Whether the outcome has this number, and otherwise equals the wanted result. If not, prints the outcome.
    fn is(&self, rt: &impl Eprint, number: u8, wanted: &Wanted) -> bool {
        let is_wanted = self.number == number
            && is_line(self.said.taken(), wanted.fault.1)
            && self.output.taken() == wanted.text.as_bytes()
            && wanted.reads.unwrap_or(self.reads) == self.reads
            && wanted.writes.unwrap_or(self.output.writes()) == self.output.writes();
        if !is_wanted {
            self.tell(rt);
        }
        is_wanted
    }

    /// Prints what the call did.
    pub fn tell(&self, rt: &impl Eprint) {
        let number = self.number;
        let reads = self.reads;
        let writes = self.output.writes();
        let said = str::from_utf8(self.said.taken()).unwrap_or("no text");
        let written = str::from_utf8(self.output.taken()).unwrap_or("no text");
        let _ = eprintln!(rt;
            "got {number} '{said}' after {reads} reads and {writes} writes of '{written}'"
        );
    }
}

/// Whether a line is this text and a line feed, or is empty if the text is empty.
fn is_line(line: &[u8], text: &str) -> bool {
    match line.split_last() {
        Some((last, line)) => *last == b'\n' && line == text.as_bytes(),
        None => text.is_empty(),
    }
}

/// Makes a call by its function.
fn by_name(alloc: Global, call: Call, given: &Given) -> Result<Outcome, Fail> {
    let mut reader = given.reader();
    let mut output = given.writer(alloc);
    let mut said = Trickle::new(alloc, None, ALL);
    let mut number = 0;
    if let Err(fault) = call.make(alloc, &mut reader, &mut output)? {
        number = fault.number();
        let _ = said.write(fault.text_line().as_str().as_bytes());
    }
    Ok(Outcome {
        number,
        said,
        reads: reader.reads(),
        output,
    })
}

/// Runs `program` on these words, with `said` as the writer for errors.
pub fn by_words(alloc: Global, words: &[String], given: &Given, mut said: Trickle) -> Outcome {
    let mut reader = given.reader();
    let mut output = given.writer(alloc);
    let number = program(alloc, words, &mut reader, &mut output, &mut said);
    Outcome {
        number,
        said,
        reads: reader.reads(),
        output,
    }
}

/// Whether a call on these streams, made by its function, does what is wanted.
pub fn does_by_name(
    rt: &impl Eprint,
    alloc: Global,
    call: Call,
    given: &Given,
    wanted: &Wanted,
) -> Result<bool, Fail> {
    let outcome = by_name(alloc, call, given)?;
    Ok(outcome.is(rt, wanted.fault.0, wanted))
}

/// Whether a call on these streams does what is wanted, both by its function and by running `program` on its words.
pub fn does(
    rt: &impl Eprint,
    alloc: Global,
    call: Call,
    given: &Given,
    wanted: &Wanted,
) -> Result<bool, Fail> {
    let words = call.words(alloc)?;
    let outcome = by_words(
        alloc,
        words.as_slice(),
        given,
        Trickle::new(alloc, None, ALL),
    );
    let is_run = outcome.is(rt, wanted.fault.0.min(1), wanted);
    Ok(is_run && does_by_name(rt, alloc, call, given, wanted)?)
}

/// An input, the text that a call writes for it, and the fault of the call.
pub type Row<'a> = (&'a str, &'a str, Fault<'a>);

/// The sizes of a read: the maximum number of bytes that each read returns. The sizes 4 to 8 each end the first read of `FF FF!40` after
/// a different byte of the second item.
const PORTIONS: &[usize] = &[1, 2, 3, 4, 5, 6, 7, 8, 100, ALL];

/// Whether a call does what a row says, with each size of a read in `PORTIONS`. `after` says what follows the input of the row. A call that
/// succeeds makes one read more than the input needs, and so finds the end of the input.
pub fn does_as(
    rt: &impl Eprint,
    alloc: Global,
    call: Call,
    (input, text, fault): Row,
    after: After,
) -> Result<bool, Fail> {
    for most_read in PORTIONS {
        let given = Given {
            input,
            after,
            most_read: *most_read,
            ..EMPTY
        };
        let reads = (fault.0 == 0).then_some(given.reads());
        let wanted = Wanted {
            fault,
            text,
            reads,
            writes: None,
        };
        if !does(rt, alloc, call, &given, &wanted)? {
            return Ok(false);
        }
    }
    Ok(true)
}

/// Fails the test unless a call does what each row of a table says. `after` says what follows each input.
pub fn hold_rows(
    rt: &impl Eprint,
    alloc: Global,
    call: Call,
    after: After,
    word: &str,
    rows: &[Row],
) -> Result<(), Fail> {
    for (number, row) in rows.iter().enumerate() {
        hold_ok(rt, does_as(rt, alloc, call, *row, after), word, number)?;
    }
    Ok(())
}
