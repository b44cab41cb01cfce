//! The objects outside the program, as the system has them: files, streams and random bytes.
//!
//! Each counts its faults, and tells nothing of what it holds but a disk's number of sectors.
#![tactic(auto)]

mod disk;
mod entropy;
mod read;
mod sink;
mod source;
mod store;
mod streams;

pub use disk::FileDisk;
pub use entropy::SystemEntropy;
pub use sink::WriterSink;
pub use source::FileSource;
pub use store::FileStore;
pub use streams::{Streams, hold_streams};

/// How often a read is tried, and how much more often a put is than it has bytes: tries that were interrupted count.
const RETRIES: usize = 64;

#[cfg(test)]
mod tests;
