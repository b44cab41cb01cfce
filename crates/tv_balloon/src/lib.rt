//! The balloon device (VIRTIO 1.2, section 5.5): a driver lends pages of its memory to the machine, and tells statistics.
#![tactic(auto)]

mod balloon;
mod moves;
mod statistics;

pub use balloon::Balloon;

#[cfg(test)]
mod tests;
