//! The frames of control: what is asked over a connection, and what it is answered.
//!
//! A frame is `len u32, version u8, code u8, id u64, body`, all numbers little-endian, where `len` counts the bytes after
//! itself and the version is 1. The code of a request is its operation, that of a reply its status.
//!
//! | Operation | Body |
//! |---|---|
//! | 1, 2, 3 | none |
//! | 4 | device u8, pages u32 |
//! | 5 | device u8 |
//! | 6 | device u8, bytes u64 |
//! | others | up to 4086 bytes, which say nothing |
//!
//! | Status | Body |
//! |---|---|
//! | 0 | none; or for statistics count u8, at most 32, then count times tag u16, value u64 |
//! | 6 | the id u64 of the request that waits |
//! | 1 to 5, 7 to 9 | none |
#![tactic(auto)]

mod laws;
mod reader;
mod writer;

pub use reader::{read_reply, read_request};
pub use writer::{write_reply, write_request};

/// Bytes of a frame at most.
pub const FRAME_BYTES: usize = 4100;

/// Bytes before a frame's body: its length, its version, its code and its id.
const HEAD_BYTES: usize = 14;

/// The version of all frames.
const VERSION: u8 = 1;

/// What bytes begin with.
#[derive(Drop)]
pub enum Cut<T> {
    /// A frame that says this, and how many bytes it has.
    Whole(T, usize),
    /// No frame: neither are these bytes the front of one.
    Bad,
    /// The front of a frame, which goes on.
    More,
}

#[cfg(test)]
mod tests;
