//! Small devices: an entropy device, and the probe, which is a plain one for tests and diagnosis.
#![tactic(auto)]

mod entropy;
mod probe;
mod random_bytes;

pub use entropy::EntropyDevice;
pub use probe::Probe;

#[cfg(test)]
mod entropy_tests;
#[cfg(test)]
mod probe_tests;
