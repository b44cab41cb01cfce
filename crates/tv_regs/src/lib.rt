//! The registers of a virtio device over memory (VIRTIO 1.2, section 4.2.2): what its driver loads and stores, and what a store
//! means for the device.
#![tactic(auto)]

mod config;
mod map;
mod queue;
mod regs;
mod status;

pub use regs::Regs;
pub use tv_transport::Effect;
pub use tv_virtio::QueueRegs;

#[cfg(test)]
mod tests;
