//! What passes between a device and the machine: the items on which it acts, the actions that it asks for, what it hears
//! of them, and the verdicts that it tells. Bytes and statistics lie in fixed buffers, so nothing here takes memory.
#![tactic(auto)]

mod action;
mod bytes;
mod item;
mod stats;

pub use action::{Action, Heard, Way};
pub use bytes::Bytes;
pub use item::{Item, Verdict};
pub use stats::{STATS, Stats};

#[cfg(test)]
mod tests;
