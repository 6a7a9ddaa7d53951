//! The tests of hart_device and hart_master.
#![tactic(auto)]

#[cfg(test)]
mod chars;
#[cfg(test)]
mod device;
#[cfg(test)]
mod examples;
#[cfg(test)]
mod frame_master;
#[cfg(test)]
mod master;
