//! The proxied machine: harts with their memory and ports, and, for each device, the monitor's side of a worker that serves it.
//! Each call makes one entry of a legal history of the in-process monitor, or none.
#![tactic(auto)]

mod copies;
mod parts;
mod proxied;

pub use proxied::{Proxied, Turn};
