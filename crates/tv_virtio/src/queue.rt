//! The plain types of a split virtqueue (VIRTIO 1.2, section 2.7).

/// Where a queue lies in guest memory: its number, and what the driver stored for it.
#[derive(Clone, Copy, Debug, PartialEq, Eq)]
pub struct QueueRegs {
    /// The queue's number.
    pub number: u16,
    /// How many descriptors it has.
    pub size: u16,
    /// The address of the descriptor area.
    pub desc: u64,
    /// The address of the driver area, which is the available ring.
    pub driver: u64,
    /// The address of the device area, which is the used ring.
    pub device: u64,
}

/// Why a call on a queue gave nothing.
#[derive(Clone, Copy, Debug, PartialEq, Eq)]
pub enum QueueStop {
    /// The machine is ending, and an action was not answered.
    Ended,
    /// The driver has made no further chain available.
    Empty,
    /// An action was refused.
    Refused,
    /// The driver broke the queue. The number is the index for [`QueueFault::Ahead`], the head for [`QueueFault::Head`], and
    /// that of the descriptor for the others.
    Malformed(QueueFault, u16),
}

/// What is wrong with a queue. A descriptor has the first fault of those that apply to it, in the order of this list.
#[derive(Clone, Copy, Debug, PartialEq, Eq)]
pub enum QueueFault {
    /// The available index is further ahead than the queue's size.
    Ahead,
    /// The head of a chain is no descriptor.
    Head,
    /// A descriptor names a table of further ones, which was not negotiated.
    Indirect,
    /// A descriptor that the device reads follows one that it writes.
    Order,
    /// The chain is longer than [`CHAIN_BYTES`](tv_base::CHAIN_BYTES) in one direction.
    Long,
    /// The chain goes on after as many descriptors as the queue has.
    Loop,
    /// The next descriptor is none.
    Next,
}

/// A descriptor: a buffer in guest memory, and how the chain goes on after it.
#[derive(Clone, Copy)]
pub struct Descriptor {
    /// The buffer's address.
    pub addr: u64,
    /// The buffer's length in bytes.
    pub len: u32,
    /// Bit 0: another descriptor follows. Bit 1: the device writes the buffer. Bit 2: the buffer is a table of descriptors.
    pub flags: u16,
    /// The number of the descriptor that follows.
    pub next: u16,
}

/// Bytes of guest memory.
#[derive(Clone, Copy, Default)]
pub struct Span {
    /// The address of the first.
    pub addr: u64,
    /// How many there are.
    pub len: u32,
}
