//! What each kind of device does, as definitions: its state, what it makes of an item, and what it asks for and tells.
//! The crate has no code of its own.
//!
//! Other crates cite `specs/Devices.antt`, which has the kinds, and never look inside its functions: so a new kind of
//! device changes no definition above. Each kind has a file of its own. `proofs/Replies.antt` has the law that a further
//! reply decides further verdicts and changes none.
#![tactic(auto)]
