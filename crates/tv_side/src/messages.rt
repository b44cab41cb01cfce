//! A tube whose bytes are messages.

ghost use Rattle.std.specs.Prelude.{◌≡◌, ◌≤◌, ◌<◌, [], IfOk, IfSome, IfNone, length};
ghost use Rattle.tv_tube.specs.declared.TheConstants.{PLACES};
ghost use Rattle.tv_side.specs.Messages.{no_messages, with_first, with_last};
ghost use Rattle.tv_wire.specs.Spelling.{IsMessage};

use std::alloc::Global;
use std::marker::Model;
use tv_base::Memory;
use tv_tube::{PLACE_BYTES, Tube};
use tv_wire::{Msg, decode, encode};

/// A queue of messages with a number of places. They lie in it as the bytes that spell them. Contracts see it as the list
/// of its messages, the first one first, and that number.
///
/// A push and a pop work in a buffer that is handed in, and take no memory.
#[derive(Drop)]
pub struct Messages {
    tube: Tube,
}

impl Model for Messages {
    ghost use Rattle.std.specs.Prelude.{map};
    ghost use Rattle.tv_side.specs.Messages.{AreMessages, MessagesState, message_in};

    ghost Value = { MessagesState };

    ghost view = { λ m. record { messages = map message_in m.tube.messages; places = m.tube.places } };

    ghost invariant = { λ m. AreMessages m.tube };
}

impl Messages {
    /// No message, and so many places, from 1 to [`PLACES`](tv_tube::PLACES).
    ///
    /// # Errors
    /// Out of memory.
    pub fn new(alloc: Global, places: u16) -> Result<Messages, Memory>
        requires some { 1 ≤ places }
        requires most { places ≤ PLACES }
        ensures { IfOk result (λ tube. tube ≡ no_messages places) }
    {
        Ok(Messages {
            tube: Tube::new(alloc, places)?,
        })
    }

    /// Adds a message behind the others, for which there is a place.
    pub fn push(&mut self, msg: &Msg, buffer: &mut [u8; PLACE_BYTES])
        requires legal { IsMessage msg.now }
        requires room { length self.old.messages < self.old.places }
        ensures { self.new ≡ with_last self.old msg.now }
    {
        let n = encode(msg, buffer);
        let _added = self.tube.push(&buffer[..n]);
    }

    /// Takes the first message out. `None` exactly where there is no message: nothing changes then.
    pub fn pop(&mut self, buffer: &mut [u8; PLACE_BYTES]) -> Option<Msg>
        ensures first { IfSome result (λ m. self.old ≡ with_first m self.new) }
        ensures legal { IfSome result IsMessage }
        ensures empty { IfNone result (self.old.messages ≡ []) }
        ensures unchanged { IfNone result (self.new ≡ self.old) }
    {
        let n = self.tube.pop(buffer)?;
        decode(&buffer[..n])
    }

    /// The number of messages.
    pub fn len(&self) -> u16
        ensures len { result ≡ length self.now.messages }
        ensures within { result ≤ self.now.places }
    {
        self.tube.len()
    }
}
