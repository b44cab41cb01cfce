//! The split virtqueue (VIRTIO 1.2, section 2.7) over any port: a device takes the next chain that the driver made available,
//! answers it, and gives it back. What it asks for is exactly what the definitions of a queue say, whatever the driver wrote
//! into its memory.
#![tactic(auto)]

mod available;
mod buffers;
mod chain;
mod memory;
mod ring;
mod used;
mod walk;

pub use ring::{QUEUES, Taken, Vring};
pub use tv_virtio::{QueueFault, QueueRegs, QueueStop};

#[cfg(test)]
mod guest;
#[cfg(test)]
mod tests;
