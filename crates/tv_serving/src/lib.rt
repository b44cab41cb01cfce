//! How a device serves a queue, whatever kind of device it is: a chain is taken, answered and given back; the driver learns so by
//! an interrupt where it wants one; and a service that breaks leaves a device that needs a reset (VIRTIO 1.2, sections 2.1 and
//! 2.7).
#![tactic(auto)]

mod queued;
mod serving;
mod status;

pub use queued::{Answers, Gives, Queued};
pub use serving::{break_off, finish, hand, serve_chain, stopped};
pub use status::{is_ready, is_served, notified};
