//! Devices and their memory ranges.

use crate::lists::RangeList;
use crate::text::KeyText;
use tv_base::Rights;

/// What a device is.
#[derive(Clone, Copy)]
pub enum DeviceKind {
    /// A disk of sectors.
    Block,
    /// A stream of bytes out, and one in where it has an input.
    Console,
    /// A source of random bytes.
    Entropy,
    /// A device that takes pages of guest memory and gives them back.
    Balloon,
    /// A device of plain registers, for tests of guests.
    Probe,
}

/// A range of guest memory that a device is granted.
#[derive(Clone, Copy)]
pub struct MemRange {
    /// The address of its first byte.
    pub base: u64,
    /// How many bytes it has.
    pub len: u32,
    /// What the device may do with them.
    pub rights: Rights,
}

/// A device of a machine. What doesn't belong to its kind is `None`, `false` or 0.
#[derive(Drop)]
pub struct DeviceSpec {
    /// What it is.
    pub kind: DeviceKind,
    /// The guest memory that it is granted.
    pub mem: RangeList,
    /// Whether it has an interrupt source.
    pub irq: bool,
    /// The file of a block device.
    pub disk: Option<KeyText>,
    /// Whether a block device refuses writes.
    pub readonly: bool,
    /// The file that a console writes.
    pub output: Option<KeyText>,
    /// The file that a console reads, where it has one.
    pub input: Option<KeyText>,
    /// How many sectors of 512 bytes the disk had as it was opened; 0 before that.
    pub sectors: u32,
}
