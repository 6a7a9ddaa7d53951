//! The tests of hart_request and hart_station, and of the calls of hart_cli that make requests, serve lines or carry out scripts.
#![tactic(auto)]

#[cfg(test)]
mod examples;
#[cfg(test)]
mod station;
