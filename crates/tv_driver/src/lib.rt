//! For the tests of devices: guest memory in which a driver sets queues up, what lies outside, and what a device asked for.
#![tactic(auto)]

mod guest;
mod outside;
mod registers;

pub use guest::{
    AVAILABLE, Asked, BUFFERS, DESCRIPTORS, Guest, MEMORY, NEXT, RING_BYTES, Told, USED, WRITE,
};
pub use outside::{INPUT_STEP, OUTPUT, Outside, RANDOM, SECTOR, SECTORS};
pub use registers::{DRIVER_OK, INTERRUPT_STATUS, NOTIFY, STATUS, load, set_up, store};
