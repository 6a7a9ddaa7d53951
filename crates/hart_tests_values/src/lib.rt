//! The tests of hart_values and hart_text.
#![tactic(auto)]

#[cfg(test)]
mod examples;
#[cfg(test)]
mod text;
#[cfg(test)]
mod values;
