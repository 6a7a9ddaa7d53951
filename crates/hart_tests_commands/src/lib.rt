//! The tests of hart_commands and hart_explain.
#![tactic(auto)]

#[cfg(test)]
mod commands;
#[cfg(test)]
mod examples;
