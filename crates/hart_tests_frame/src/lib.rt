//! The tests of hart_frame.
#![tactic(auto)]

#[cfg(test)]
mod chars;
#[cfg(test)]
mod examples;
#[cfg(test)]
mod frame;
