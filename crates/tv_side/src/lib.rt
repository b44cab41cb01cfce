//! What the monitor keeps of one device that a worker serves.
//!
//! Between the two lie a tube of commands, with the items on which the device is to act, a tube of replies, with the values
//! and the answers to them, and a lane to each of the two services, with at most one request and one reply. What lies there
//! lies as bytes; contracts see the messages that these spell.
#![tactic(auto)]

mod lane;
mod messages;
mod side;
mod slot;

use lane::Lane;
use messages::Messages;
pub use side::Side;
use slot::Slot;

/// Places of a tube of replies.
pub const REPLIES: u16 = 16;
