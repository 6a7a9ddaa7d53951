//! The tests of hart_line.
#![tactic(auto)]

#[cfg(test)]
mod examples;
#[cfg(test)]
mod line;
