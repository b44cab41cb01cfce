//! A guest: harts, memory and local ports, which move by the events of harts. The monitor and the core have it in common. It knows
//! of devices only how many there are: an access to one is what its event showed.
#![tactic(auto)]

mod burst;
mod guest;
mod local;
mod peek;
mod reservations;

pub use guest::Guest;

#[cfg(test)]
mod tests;
