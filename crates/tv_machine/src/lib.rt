//! Machines: what a machine is made of, which machines are valid, and the capabilities of its devices.
#![tactic(auto)]

mod capabilities;
mod kinds;
mod lists;
mod machine;
#[cfg(test)]
mod tests;
mod text;

pub use kinds::{DeviceKind, DeviceSpec, MemRange};
pub use lists::{DeviceList, NameList, RangeList};
pub use machine::Machine;
pub use text::KeyText;
