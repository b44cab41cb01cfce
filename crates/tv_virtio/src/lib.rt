//! Virtio over memory-mapped registers, as definitions: the split queue's steps as scripts of actions, and the plain types
//! that they name. The crate has no code of its own beside these types.
//!
//! Definitions of devices cite `specs/Queue.antt`, and so don't depend on the code that serves a queue.
#![tactic(auto)]

mod queue;

pub use queue::{Descriptor, QueueFault, QueueRegs, QueueStop, Span};
