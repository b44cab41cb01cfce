//! Devices, and the ports through which they reach the machine: the trait of a device, and a port that answers from a list
//! of replies, by which a service is repeated. The types of items, actions and services, and the trait of a port, are
//! passed on from the crates below.
#![tactic(auto)]

mod device;
mod replay;

pub use device::{Acted, Device};
pub use replay::{Replay, next_after, repeat};
pub use tv_items::{Action, Bytes, Heard, Item, STATS, Stats, Verdict, Way};
pub use tv_script::{Ended, Port, Rounds, Served, Turned, serve_rounds};
