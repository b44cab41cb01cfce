//! The bytes of a field, as they come.

ghost use Rattle.std.specs.Prelude.{◌≡◌, ◌<◌, ◌++◌, ◌∷◌, [], length};
ghost use Rattle.std.specs.Int.{w16, w32, from_le_bytes};

use arrayvec::ArrayVec;
use std::marker::Model;
use tv_base::PIECE_BYTES;

/// Up to [`PIECE_BYTES`] bytes.
#[derive(Drop)]
pub struct Field {
    bytes: ArrayVec<u8, PIECE_BYTES>,
}

impl Model for Field {
    ghost use Rattle.std.specs.Prelude.{ℕ, List};

    ghost Value = { List ℕ };

    ghost view = { λ field. field.bytes.items };
}

impl Field {
    /// No byte.
    pub fn new() -> Field
        ensures { result ≡ [] }
    {
        Field {
            bytes: ArrayVec::new(),
        }
    }

    /// The number of bytes.
    pub fn len(&self) -> usize
        ensures { result ≡ length self.now }
    {
        self.bytes.len()
    }

    /// Adds a byte.
    pub fn push(&mut self, byte: u8)
        requires { length self.old < 4096 }
        ensures { self.new ≡ self.old ++ byte ∷ [] }
    {
        self.bytes.push(byte);
    }

    /// Takes all bytes away.
    pub fn clear(&mut self)
        ensures { self.new ≡ [] }
    {
        self.bytes.clear();
    }

    /// The little-endian number of two bytes.
    pub fn short(&self) -> u16
        requires { length self.now ≡ 2 }
        ensures { result ≡ from_le_bytes w16 self.now }
    {
        u16::from_le_bytes([self.bytes[0], self.bytes[1]])
    }

    /// The little-endian number of four bytes.
    pub fn number(&self) -> u32
        requires { length self.now ≡ 4 }
        ensures { result ≡ from_le_bytes w32 self.now }
    {
        u32::from_le_bytes([self.bytes[0], self.bytes[1], self.bytes[2], self.bytes[3]])
    }

    /// The bytes.
    pub fn as_slice(&self) -> &[u8]
        ensures { result.now ≡ self.now }
    {
        &self.bytes
    }
}
