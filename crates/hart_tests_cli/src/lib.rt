//! The tests of hart_cli and hart_listen. Some tests of hart_cli are in `hart_tests_station`.
#![tactic(auto)]

#[cfg(test)]
mod cli;
#[cfg(test)]
mod examples;
