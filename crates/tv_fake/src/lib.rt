//! The objects outside the program, in memory.
//!
//! Each tells all of itself: what it holds, its count of faults, and beforehand which of its calls will fail. So
//! programs can be run over them with every fault at every place, and what they did can be read afterwards.
#![tactic(auto)]

mod copy;
mod counter;
mod disk;
mod entropy;
pub mod first_run;
mod shelf;
mod sink;
mod source;
mod store;
mod tally;

pub use counter::Counter;
pub use disk::MemoryDisk;
pub use entropy::MemoryEntropy;
pub use shelf::Named;
pub use sink::MemorySink;
pub use source::MemorySource;
pub use store::{MemoryStore, Objects};

#[cfg(test)]
mod tests;
