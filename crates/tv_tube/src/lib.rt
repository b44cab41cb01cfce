//! Bounded queues of messages of bytes, between a worker and the monitor.
#![tactic(auto)]

ghost use Rattle.std.specs.Prelude.{◌≡◌, ◌≤◌, [], IfOk, IfSome, IfNone, length, take};
ghost use Rattle.tv_tube.specs.Messages.{pushed, with_first};
ghost use Rattle.tv_tube.specs.declared.TheConstants.{PLACES, PLACE_BYTES};

use circular_buffer::HeapCircularBuffer;
use std::alloc::Global;
use std::marker::Model;
use tv_base::Memory;

/// The most places of a tube.
pub const PLACES: u16 = 260;
/// Bytes of a place: the most that a message can have, and those of the array that it's copied into.
pub const PLACE_BYTES: usize = 4160;

/// A queue of messages with a number of places, which is fixed when it is made. Contracts see it as the list of its
/// messages, the first one first, and that number.
///
/// Its memory is taken when it is made. A push and a pop copy the bytes of one message, and take none.
#[derive(Drop)]
pub struct Tube {
    /// The bytes of all messages, one after the other.
    bytes: HeapCircularBuffer<u8>,
    /// The number of bytes of each message.
    lengths: HeapCircularBuffer<u16>,
}

impl Model for Tube {
    ghost use Rattle.tv_tube.specs.Messages.{TubeState, messages_of, IsTube};

    ghost Value = { TubeState };

    ghost view = { λ tube. record { messages = messages_of tube.lengths.items tube.bytes.items; places = tube.lengths.capacity } };

    ghost invariant = { λ tube. IsTube tube.lengths tube.bytes };
}

impl Tube {
    /// An empty tube with so many places, from 1 to [`PLACES`].
    ///
    /// # Errors
    /// Out of memory.
    pub fn new(alloc: Global, items: u16) -> Result<Tube, Memory>
        requires some { 1 ≤ items }
        requires most { items ≤ PLACES }
        ensures { IfOk result (λ tube. tube ≡ record { messages = []; places = items }) }
    {
        let places = usize::from(items);
        Ok(Tube {
            bytes: HeapCircularBuffer::with_capacity(alloc, places * PLACE_BYTES).map_err(
                |_| Memory,
            )?,
            lengths: HeapCircularBuffer::with_capacity(alloc, places).map_err(|_| Memory)?,
        })
    }

    /// Adds a message of at most [`PLACE_BYTES`] behind the others. False exactly where a message lies in every place:
    /// nothing changes then.
    pub fn push(&mut self, bytes: &[u8]) -> bool
        requires { length bytes.now ≤ PLACE_BYTES }
        ensures { (result, self.new) ≡ pushed self.old bytes.now }
    {
        match self.lengths.try_push_back(bytes.len() as u16) {
            Ok(()) => {
                self.bytes.fill_from_slice(bytes);
                true
            }
            Err(_) => false,
        }
    }

    /// Takes the first message out and copies it to the start of `out`; the answer is its number of bytes. `None`
    /// exactly where there is no message: nothing changes then.
    pub fn pop(&mut self, out: &mut [u8; PLACE_BYTES]) -> Option<usize>
        ensures first { IfSome result (λ n. self.old ≡ with_first (take n out.new) self.new) }
        ensures size { IfSome result (λ n. n ≤ PLACE_BYTES) }
        ensures empty { IfNone result (self.old.messages ≡ []) }
        ensures unchanged { IfNone result ((self.new ≡ self.old) × (out.new ≡ out.old)) }
    {
        match self.lengths.pop_front() {
            Some(length) => {
                let n = usize::from(length);
                self.bytes.read_into(&mut out[..n]);
                Some(n)
            }
            None => None,
        }
    }

    /// The number of messages.
    pub fn len(&self) -> u16
        ensures len { result ≡ length self.now.messages }
        ensures within { result ≤ self.now.places }
    {
        self.lengths.len() as u16
    }
}

#[cfg(test)]
mod tests;
