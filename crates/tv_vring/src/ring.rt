//! The queues of a device.

ghost use Rattle.std.specs.Prelude.{◌≡◌, ◌≤◌, ◌<◌, ◌+◌, [], ◌++◌, length, take, is_ok, IfOk, OnOk};
ghost use Rattle.tv_script.specs.Scripts.{AwaitsAll};
ghost use Rattle.tv_virtio.specs.Spans.{total};
ghost use Rattle.tv_virtio.specs.Queue.{RanSo, IsServable, take_chain, give_chain};
ghost use Rattle.tv_vring.specs.Rings.{first_ring, with_answered, with_fresh, with_kept, last_of, used_of, taken_by, TookSo, GaveSo, CopiedSo};

use crate::available::take_chain;
use crate::buffers::append;
use crate::chain::Chain;
use crate::used::{UsedElement, give_chain};
use std::alloc::Global;
use std::marker::Model;
use tv_base::{CHAIN_BYTES, Memory};
use tv_script::Port;
use tv_virtio::{QueueRegs, QueueStop};

/// Queues of a device at most.
pub const QUEUES: usize = 3;

/// A chain that was taken.
#[derive(Clone, Copy, Debug, PartialEq, Eq)]
pub struct Taken {
    /// The number of its first descriptor.
    pub head: u16,
    /// How many bytes of it the device may write, at most [`CHAIN_BYTES`].
    pub writable: u32,
}

/// The queues of a device: how far each one is, the chain that was taken last, and the bytes that are to be written to it.
///
/// A device takes a chain, answers with bytes, and gives the chain back. Whatever the driver wrote into its memory, the
/// actions are those of the standard's steps, and their number is bounded by the queue's size and [`CHAIN_BYTES`].
#[derive(Drop)]
pub struct Vring {
    /// The available index that was seen last, of each queue.
    last: [u16; QUEUES],
    /// The used index of each queue.
    used: [u16; QUEUES],
    /// The queue of the last take, where it can be undone.
    taken: Option<u16>,
    chain: Chain,
    readable: Vec<u8>,
    answered: Vec<u8>,
}

impl Model for Vring {
    ghost use Rattle.std.specs.Prelude.{vec_len, vec_capacity, ◌<◌, IfSome};
    ghost use Rattle.tv_vring.specs.Rings.{Ring, IsRoomy};

    ghost Value = { Ring };

    ghost view = { λ r. record { last = r.last; used = r.used; taken = r.taken; chain = r.chain; readable = r.readable.items; answered = r.answered.items } };

    ghost invariant = { λ r. IsRoomy (vec_capacity r.readable) (vec_capacity r.answered) (vec_len r.answered) × IfSome r.taken (λ n. n < 3) };
}

impl Vring {
    /// Queues at their start, with two buffers of [`CHAIN_BYTES`] bytes. No other call takes memory.
    ///
    /// # Errors
    /// [`Memory`] where there is no memory for the buffers.
    pub fn new(alloc: Global) -> Result<Vring, Memory>
        ensures { IfOk result (λ ring. ring ≡ first_ring) }
    {
        let Ok(readable) = Vec::with_capacity(alloc, CHAIN_BYTES as usize) else {
            return Err(Memory);
        };
        let Ok(answered) = Vec::with_capacity(alloc, CHAIN_BYTES as usize) else {
            return Err(Memory);
        };
        Ok(Vring {
            last: [0; QUEUES],
            used: [0; QUEUES],
            taken: None,
            chain: Chain::new(),
            readable,
            answered,
        })
    }

    /// Queues that are as far as these, with nothing in their buffers.
    ///
    /// # Errors
    /// [`Memory`] where there is no memory for the buffers.
    pub fn copy(&self, alloc: Global) -> Result<Vring, Memory>
        ensures { IfOk result (λ ring. CopiedSo self.now ring) }
    {
        let (last, used) = (self.last, self.used);
        let mut copy = Vring::new(alloc)?;
        copy.last = last;
        copy.used = used;
        Ok(copy)
    }

    /// Makes both indices of a queue 0. A device does so where the driver makes the queue ready.
    pub fn fresh(&mut self, number: u16)
        requires number { number < QUEUES }
        ensures { self.new ≡ with_fresh self.old number }
    {
        self.last[number as usize] = 0;
        self.used[number as usize] = 0;
        self.taken = None;
    }

    /// The readable bytes of the last take.
    pub fn readable(&self) -> &[u8]
        ensures { result.now ≡ self.now.readable }
    {
        self.readable.as_slice()
    }

    /// Appends to the bytes that are to be written, which stay at most [`CHAIN_BYTES`].
    pub fn answer(&mut self, bytes: &[u8])
        requires room { length self.old.answered + length bytes.now ≤ CHAIN_BYTES }
        ensures { self.new ≡ with_answered self.old (self.old.answered ++ bytes.now) }
    {
        append(&mut self.answered, bytes);
    }

    /// Drops the bytes that are to be written. A take does so too.
    pub fn answer_none(&mut self)
        ensures { self.new ≡ with_answered self.old [] }
    {
        self.answered.clear();
    }

    /// Undoes the last take, so that its chain is the next one again. It does nothing where no take gave a chain, or where
    /// that was undone before, a chain was given back since, or a queue began anew.
    pub fn keep(&mut self)
        ensures { self.new ≡ with_kept self.old self.old.taken }
    {
        if let Some(number) = self.taken {
            let number = number as usize;
            self.last[number] = self.last[number].wrapping_sub(1);
            self.taken = None;
        }
    }

    /// Takes the next chain, and reads its readable bytes.
    ///
    /// # Errors
    /// By the reply that shows it: [`QueueStop::Empty`] where no chain is available, [`QueueStop::Malformed`] at the first
    /// fault, [`QueueStop::Refused`] where an action was refused, and [`QueueStop::Ended`] where the port answered none. The
    /// queue is then as far as before.
    pub fn take<P: Port>(&mut self, queue: &QueueRegs, port: &mut P) -> Result<Taken, QueueStop>
        requires ring { IsServable queue.now }
        requires awaits { AwaitsAll (P.awaits port.old) (take_chain queue.now (last_of self.old queue.now)) }
        ensures ran { RanSo P.moved P.over P.stopped port.old (take_chain queue.now (last_of self.old queue.now)) port.new (taken_by self.new result) }
        ensures ring { TookSo self.old self.new queue.now (is_ok result) }
        ensures writable { IfOk result (λ taken. taken.writable ≡ total self.new.chain.writable) }
        ensures within { IfOk result (λ taken. taken.writable ≤ CHAIN_BYTES) }
        ensures lower { OnOk result (P.left port.new < P.left port.old) }
        ensures left { P.left port.new ≤ P.left port.old }
    {
        let number = queue.number as usize;
        let last = self.last[number];
        self.taken = None;
        self.answered.clear();
        let head = take_chain(queue, last, &mut self.chain, &mut self.readable, port)?;
        self.last[number] = last.wrapping_add(1);
        self.taken = Some(queue.number);
        Ok(Taken {
            head,
            writable: self.chain.writable_bytes(),
        })
    }

    /// Writes the first `len` answered bytes to the chain that was taken last, and puts the chain with this head into the
    /// used ring. It is `true` exactly where the driver wants an interrupt.
    ///
    /// # Errors
    /// [`QueueStop::Refused`] where an action was refused, and [`QueueStop::Ended`] where the port answered none. The used
    /// index is then as before.
    pub fn give<P: Port>(
        &mut self,
        queue: &QueueRegs,
        port: &mut P,
        head: u16,
        len: u32,
    ) -> Result<bool, QueueStop>
        requires ring { IsServable queue.now }
        requires answered { len ≤ length self.old.answered }
        requires writable { len ≤ total self.old.chain.writable }
        requires awaits { AwaitsAll (P.awaits port.old) (give_chain queue.now (used_of self.old queue.now) head self.old.chain.writable (take len self.old.answered)) }
        ensures ran { RanSo P.moved P.over P.stopped port.old (give_chain queue.now (used_of self.old queue.now) head self.old.chain.writable (take len self.old.answered)) port.new result }
        ensures ring { GaveSo self.old self.new queue.now (is_ok result) }
        ensures left { P.left port.new ≤ P.left port.old }
    {
        let number = queue.number as usize;
        let used = self.used[number];
        self.taken = None;
        let element = UsedElement {
            index: used,
            id: head,
            len,
        };
        let bytes = &self.answered[..len as usize];
        let wanted = give_chain(queue, element, self.chain.writable(), bytes, port)?;
        self.used[number] = used.wrapping_add(1);
        Ok(wanted)
    }
}
