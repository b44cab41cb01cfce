//! The descriptors of a chain.

ghost use Rattle.std.specs.Prelude.{◌≡◌, ◌≤◌, ◌<◌, ◌+◌, None, length, if◌then◌else◌};
ghost use Rattle.tv_virtio.specs.Queue.{descriptor, goes_on, writes, is_indirect, fault_at, added, no_chain};
ghost use Rattle.tv_virtio.specs.Spans.{total};

use arrayvec::ArrayVec;
use byteorder::{ByteOrder, LittleEndian};
use std::marker::Model;
use tv_base::{CHAIN_BYTES, QUEUE_SIZE};
use tv_virtio::{Descriptor, QueueFault, QueueRegs, Span};

/// Buffers of a chain at most: as many as a queue has descriptors.
const BUFFERS: usize = QUEUE_SIZE as usize;

/// The descriptor that 16 bytes spell.
pub fn descriptor_of(bytes: &[u8]) -> Descriptor
    requires { length bytes.now ≡ 16 }
    ensures { result ≡ descriptor bytes.now }
{
    Descriptor {
        addr: LittleEndian::read_u64(bytes),
        len: LittleEndian::read_u32(&bytes[8..]),
        flags: LittleEndian::read_u16(&bytes[12..]),
        next: LittleEndian::read_u16(&bytes[14..]),
    }
}

/// Whether another descriptor follows.
pub fn goes_on(descriptor: &Descriptor) -> bool
    ensures { result ≡ goes_on descriptor.now }
{
    descriptor.flags % 2 == 1
}

/// Whether the device writes the buffer.
fn writes(descriptor: &Descriptor) -> bool
    ensures { result ≡ writes descriptor.now }
{
    descriptor.flags / 2 % 2 == 1
}

/// Whether the buffer is a table of descriptors.
fn is_indirect(descriptor: &Descriptor) -> bool
    ensures { result ≡ is_indirect descriptor.now }
{
    descriptor.flags / 4 % 2 == 1
}

/// The buffers of a chain: first those that the device reads, then those that it writes, with the bytes of each direction
/// counted. There are at most [`CHAIN_BYTES`] in a direction.
#[derive(Drop)]
pub struct Chain {
    readable: ArrayVec<Span, BUFFERS>,
    writable: ArrayVec<Span, BUFFERS>,
    readable_bytes: u32,
    writable_bytes: u32,
}

impl Model for Chain {
    ghost use Rattle.tv_vring.specs.Rings.{IsCounted};
    ghost use Rattle.tv_virtio.specs.Spans.{Spans};

    ghost Value = { Spans };

    ghost view = { λ c. record { readable = c.readable.items; writable = c.writable.items } };

    ghost invariant = { λ c. IsCounted c.readable.items c.readable_bytes × IsCounted c.writable.items c.writable_bytes };
}

impl Chain {
    /// No descriptor.
    pub fn new() -> Chain
        ensures { result ≡ no_chain }
    {
        Chain {
            readable: ArrayVec::new(),
            writable: ArrayVec::new(),
            readable_bytes: 0,
            writable_bytes: 0,
        }
    }

    /// Forgets all descriptors.
    pub fn clear(&mut self)
        ensures { self.new ≡ no_chain }
    {
        self.readable.clear();
        self.writable.clear();
        self.readable_bytes = 0;
        self.writable_bytes = 0;
    }

    /// The buffers that the device reads.
    pub fn readable(&self) -> &[Span]
        ensures spans { result.now ≡ self.now.readable }
        ensures within { total result.now ≤ CHAIN_BYTES }
    {
        self.readable.as_slice()
    }

    /// The buffers that the device writes.
    pub fn writable(&self) -> &[Span]
        ensures spans { result.now ≡ self.now.writable }
        ensures within { total result.now ≤ CHAIN_BYTES }
    {
        self.writable.as_slice()
    }

    /// How many bytes the device may write.
    pub fn writable_bytes(&self) -> u32
        ensures total { result ≡ total self.now.writable }
        ensures within { result ≤ CHAIN_BYTES }
    {
        self.writable_bytes
    }

    /// How many bytes there are in a direction.
    fn bytes(&self, writes: bool) -> u32
        ensures total { result ≡ total (if writes then self.now.writable else self.now.readable) }
        ensures within { result ≤ CHAIN_BYTES }
    {
        if writes {
            self.writable_bytes
        } else {
            self.readable_bytes
        }
    }

    /// The first fault of one more descriptor, where `left` may follow it.
    pub fn fault(&self, queue: &QueueRegs, left: u16, descriptor: &Descriptor) -> Option<QueueFault>
        ensures { result ≡ fault_at queue.now left self.now descriptor.now }
    {
        let writes = writes(descriptor);
        let goes_on = goes_on(descriptor);
        if is_indirect(descriptor) {
            Some(QueueFault::Indirect)
        } else if !writes && !self.writable.is_empty() {
            Some(QueueFault::Order)
        } else if descriptor.len > CHAIN_BYTES - self.bytes(writes) {
            Some(QueueFault::Long)
        } else if goes_on && left == 0 {
            Some(QueueFault::Loop)
        } else if goes_on && descriptor.next >= queue.size {
            Some(QueueFault::Next)
        } else {
            None
        }
    }

    /// Adds a descriptor, in which [`Chain::fault`] found nothing wrong.
    #[tactic(auto, using(crate::proofs::Spans::total_more))]
    pub fn add(&mut self, queue: &QueueRegs, left: u16, descriptor: &Descriptor)
        requires sound { fault_at queue.now left self.old descriptor.now ≡ None }
        requires room { length self.old.readable + length self.old.writable < QUEUE_SIZE }
        ensures { self.new ≡ added self.old descriptor.now }
    {
        let span = Span {
            addr: descriptor.addr,
            len: descriptor.len,
        };
        if writes(descriptor) {
            self.writable.push(span);
            self.writable_bytes += descriptor.len;
        } else {
            self.readable.push(span);
            self.readable_bytes += descriptor.len;
        }
    }
}
