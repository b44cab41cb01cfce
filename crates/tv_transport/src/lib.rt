//! The registers of virtio's memory-mapped transport (VIRTIO 1.2, section 4.2.2), as definitions, with the plain types that they
//! name. The crate has no code of its own beside these types.
//!
//! Definitions of devices cite `specs/Registers.antt`, and so don't depend on the code that keeps the registers.
#![tactic(auto)]

mod registers;

pub use registers::{Effect, QueueState, Register, VERSION_1};
