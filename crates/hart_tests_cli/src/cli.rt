//! Tests of `dump`, `explain` and `answer`, and of what all calls do alike.
mod growths;
mod heard;
mod json;
mod limits;
mod plain;
mod program;
mod streams;
