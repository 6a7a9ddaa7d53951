//! Calls of hart_cli on readers and writers that misbehave, for the tests of `hart_tests_cli` and `hart_tests_station`.
//!
//! They make each call in two ways: by its function, and by running `program` on the words of the command line.
#![tactic(auto)]

mod call;
mod calls;
mod fakes;

pub use call::{Asker, Call, NEW, Named, USUAL, Words, strings_of};
pub use calls::{
    EMPTY, Fault, Given, NONE, Outcome, READ, Row, TOO_LONG, WRITE, Wanted, by_words, does,
    does_as, does_by_name, hold_rows,
};
pub use fakes::{ALL, After, Tape, Trickle};
