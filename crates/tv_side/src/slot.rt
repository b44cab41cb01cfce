//! A place for one message.

ghost use Rattle.std.specs.Prelude.{◌≡◌, ◌↔◌, true, IfOk, IfSome, None, Some};
ghost use Rattle.tv_wire.specs.Spelling.{IsMessage};

use crate::Messages;
use std::alloc::Global;
use std::marker::Model;
use tv_base::Memory;
use tv_tube::PLACE_BYTES;
use tv_wire::Msg;

/// A queue with one place. Contracts see the message that lies there, if one does.
#[derive(Drop)]
pub struct Slot {
    messages: Messages,
}

impl Model for Slot {
    ghost use Rattle.std.specs.Prelude.{Option};
    ghost use Rattle.tv_side.specs.Messages.{IsSlot, first_of};
    ghost use Rattle.tv_wire.specs.declared.Msg.{Msg};

    ghost Value = { Option Msg };

    ghost view = { λ s. first_of s.messages.messages };

    ghost invariant = { λ s. IsSlot s.messages };
}

impl Slot {
    /// An empty place.
    ///
    /// # Errors
    /// Out of memory.
    pub fn new(alloc: Global) -> Result<Slot, Memory>
        ensures { IfOk result (λ slot. slot ≡ None) }
    {
        Ok(Slot {
            messages: Messages::new(alloc, 1)?,
        })
    }

    /// Whether no message lies there.
    pub fn is_empty(&self) -> bool
        ensures { (result ≡ true) ↔ (self.now ≡ None) }
    {
        self.messages.len() == 0
    }

    /// Puts a message into the empty place.
    pub fn put(&mut self, msg: &Msg, buffer: &mut [u8; PLACE_BYTES])
        requires legal { IsMessage msg.now }
        requires empty { self.old ≡ None }
        ensures { self.new ≡ Some msg.now }
    {
        self.messages.push(msg, buffer);
    }

    /// Takes the message out, if there is one.
    pub fn take(&mut self, buffer: &mut [u8; PLACE_BYTES]) -> Option<Msg>
        ensures message { result ≡ self.old }
        ensures legal { IfSome result IsMessage }
        ensures empty { self.new ≡ None }
    {
        self.messages.pop(buffer)
    }
}
