//! The block device (VIRTIO 1.2, section 5.2) over any port: a driver reads and writes the sectors of a disk through one
//! queue.
#![tactic(auto)]

mod block;
mod content;
mod request;
mod sectors;

pub use block::Block;

#[cfg(test)]
mod tests;
