//! The messages between a device's worker and the monitor, and the bytes that spell them.
//!
//! A message is spelt by `len u16, kind u8, tag u32, body`, all numbers little-endian, where `len` counts the bytes after
//! itself. It has exactly these bytes, at most [`TUBE_MESSAGE_BYTES`](tv_base::TUBE_MESSAGE_BYTES).
//!
//! | Kind | Message | Body |
//! |---|---|---|
//! | 1 | `Load` | width u8, offset u16 |
//! | 2 | `Store` | width u8, offset u16, value u64 |
//! | 3 | `Value` | value u64 |
//! | 4 | `Target` | pages u32 |
//! | 5 | `Stats` | none |
//! | 6 | `Resize` | sectors u32 |
//! | 7 | `Answer` | status u8, other u32, count u8, then count times tag u16, value u64 |
//! | 8 | `Read` | address u64, length u16 |
//! | 9 | `Bytes` | length u16, then the bytes |
//! | 10 | `Write` | address u64, length u16, then the bytes |
//! | 11 | `Release` | page u32, hold u8 |
//! | 12 | `Regain` | page u32 |
//! | 13 to 17 | `MemDone`, `MemRefused`, `Raise`, `IrqDone`, `IrqRefused` | none |
#![tactic(auto)]

mod laws;
mod reader;
mod writer;

pub use laws::{no_spelling_begins_another, one_reading, one_spelling};
pub use reader::{decode, read_pairs};
use tv_base::Width;
use tv_items::{Bytes, Stats};
pub use writer::{encode, write_stats};

/// Bytes before a message's body: its length, its kind and its tag.
const HEAD_BYTES: usize = 7;

/// A message. Its tag says what it belongs to; a reply carries that of its request. What a variant says of its parts, beyond
/// their types, is `IsMessage` of `specs/Spelling.antt`; no bytes spell a message of which it is not true.
#[derive(Drop)]
pub enum Msg {
    /// Asks for a load of `width` bytes at `off`, an offset in bytes from the device's first address. It is a multiple of
    /// the width, and the access ends within the 4096 bytes of the device.
    Load {
        tag: u32,
        width: Width,
        off: u16,
    },
    /// Tells of a store of the low `width` bytes of `value` at such an offset; the bits of `value` above them are 0.
    Store {
        tag: u32,
        width: Width,
        off: u16,
        value: u64,
    },
    /// The value of a load.
    Value {
        tag: u32,
        value: u64,
    },
    /// The command that sets how many pages a balloon is to hold.
    Target {
        tag: u32,
        pages: u32,
    },
    /// The command that asks a balloon for the guest's statistics.
    Stats {
        tag: u32,
    },
    /// The command that gives a disk so many sectors of 512 bytes, from 1 to [`DISK_SECTORS`](tv_base::DISK_SECTORS).
    Resize {
        tag: u32,
        sectors: u32,
    },
    /// What was decided of a command: the status, 0, 5, 6 or 7; the tag of the request that waits, where the status is 6,
    /// else 0; and the numbers of a statistics request, where the status is 0, else none.
    Answer {
        tag: u32,
        status: u8,
        other: u32,
        stats: Stats,
    },
    /// Asks for `len` bytes of guest memory at an address, from 1 to [`PIECE_BYTES`](tv_base::PIECE_BYTES).
    Read {
        tag: u32,
        addr: u64,
        len: u16,
    },
    /// The bytes that were read, at least 1.
    Bytes {
        tag: u32,
        bytes: Bytes,
    },
    /// Asks for bytes to be written to guest memory at an address, at least 1.
    Write {
        tag: u32,
        addr: u64,
        bytes: Bytes,
    },
    /// Asks for a page of guest memory to be filled with zeros, and to be withdrawn where `hold` is set. A page's number
    /// is its address divided by [`PAGE_BYTES`](tv_base::PAGE_BYTES).
    Release {
        tag: u32,
        page: u32,
        hold: bool,
    },
    /// Asks for a withdrawn page to be given back.
    Regain {
        tag: u32,
        page: u32,
    },
    /// What was asked of memory is done.
    MemDone {
        tag: u32,
    },
    /// What was asked of memory is not allowed.
    MemRefused {
        tag: u32,
    },
    /// Asks for the device's interrupt.
    Raise {
        tag: u32,
    },
    /// The interrupt is raised.
    IrqDone {
        tag: u32,
    },
    /// The interrupt is not allowed.
    IrqRefused {
        tag: u32,
    },
}

#[cfg(test)]
mod tests;
