//! Machine files: the TOML documents that say what a machine is made of, and how one is read.
#![tactic(auto)]

mod control;
mod device;
mod fault;
mod keys;
mod range;
mod reader;
#[cfg(test)]
mod tests;

pub use fault::FileFault;
pub use reader::read;
