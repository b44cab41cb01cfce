//! The bus side of a device that a worker serves: what harts and control lines ask of it goes out as messages with tags,
//! and each answer reaches the one that waits for it.
//!
//! A device has a list of items: the accesses of harts to its registers, and the commands of control lines. The tag of an
//! item is its place in that list.
#![tactic(auto)]

mod messages;
mod proxy;
mod requests;

pub use messages::{heard_in, item_in, item_message, verdict_message};
pub use proxy::{Landed, Proxy};
pub use requests::Requests;

#[cfg(test)]
mod tests;
