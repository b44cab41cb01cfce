//! The in-process monitor: it makes the entries of a journal one after the other, and refuses what has no step.
#![tactic(auto)]

mod fault;
mod fits;
mod monitor;
mod parts;
mod replays;
mod slot;

pub use fault::StepFault;
pub use monitor::{Monitor, exit_status};
pub use replays::{Replayed, no_legal_run_is_refused, replay};

#[cfg(test)]
mod tests;
