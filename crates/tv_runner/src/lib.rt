//! Runs on one thread: the engine over a core that carries out the schedule of rounds.
#![tactic(auto)]

mod engine;
mod line;
mod run;

pub use engine::new_probes;
pub use run::{Ran, solo};

#[cfg(test)]
mod tests;
