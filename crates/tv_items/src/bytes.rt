//! Bytes in a fixed buffer.

ghost use Rattle.std.specs.Prelude.{◌≡◌, ◌≤◌, ◌+◌, ◌++◌, [], length};
ghost use Rattle.tv_items.specs.Buffers.{pushed_below};

use arrayvec::ArrayVec;
use std::marker::Model;
use tv_base::PIECE_BYTES;

/// A list of at most [`PIECE_BYTES`] bytes.
#[derive(Drop)]
pub struct Bytes {
    bytes: ArrayVec<u8, PIECE_BYTES>,
}

impl Model for Bytes {
    ghost use Rattle.std.specs.Prelude.{ℕ, List, length, ◌≤◌};
    ghost use Rattle.tv_base.specs.declared.limits.TheConstants.{PIECE_BYTES};

    ghost Value = { List ℕ };

    ghost view = { λ b. b.bytes.items };

    ghost invariant = { λ b. length b.bytes.items ≤ PIECE_BYTES };
}

impl Bytes {
    /// No bytes.
    pub fn new() -> Bytes
        ensures { result ≡ [] }
    {
        Bytes {
            bytes: ArrayVec::new(),
        }
    }

    /// Adds a byte; `false` exactly where [`PIECE_BYTES`] are there, and nothing is changed then.
    pub fn push(&mut self, byte: u8) -> bool
        ensures { (result, self.new) ≡ pushed_below PIECE_BYTES self.old byte }
    {
        if self.bytes.len() >= PIECE_BYTES {
            return false;
        }
        self.bytes.push(byte);
        true
    }

    /// Adds bytes for which there is room.
    pub fn append(&mut self, bytes: &[u8])
        requires { length self.old + length bytes.now ≤ PIECE_BYTES }
        ensures { self.new ≡ self.old ++ bytes.now }
    {
        match self.bytes.try_extend_from_slice(bytes) {
            Ok(()) => {}
            Err(_) => unreachable!(),
        }
    }

    /// These bytes, of which there are at most [`PIECE_BYTES`].
    pub fn of(bytes: &[u8]) -> Bytes
        requires { length bytes.now ≤ PIECE_BYTES }
        ensures { result ≡ bytes.now }
    {
        let mut copy = Bytes::new();
        copy.append(bytes);
        copy
    }

    /// The same bytes again. It takes no memory.
    pub fn copy(&self) -> Bytes
        ensures { result ≡ self.now }
    {
        Bytes::of(&self.bytes)
    }

    /// The bytes, at most [`PIECE_BYTES`].
    pub fn as_slice(&self) -> &[u8]
        ensures bytes { result.now ≡ self.now }
        ensures few { length result.now ≤ PIECE_BYTES }
    {
        &self.bytes
    }
}
