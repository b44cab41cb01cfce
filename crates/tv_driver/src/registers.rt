//! How a driver reaches the registers of a device, and sets it up (VIRTIO 1.2, sections 3.1 and 4.2.3).

use crate::guest::{AVAILABLE, DESCRIPTORS, RING_BYTES, USED};
use tv_base::Width;
use tv_items::Item;
use tv_port::Device;

/// The offset of Status.
pub const STATUS: u16 = 0x70;
/// The offset of InterruptStatus.
pub const INTERRUPT_STATUS: u16 = 0x60;
/// The offset of QueueNotify.
pub const NOTIFY: u16 = 0x50;
/// The bit of Status by which a driver says that it is ready.
pub const DRIVER_OK: u64 = 4;

/// Loads 4 bytes from a register.
pub fn load<D: Device>(device: &mut D, off: u16) -> u64 {
    let width = Width::B4;
    device.act(0, &Item::Load { width, off }).value
}

/// Stores 4 bytes to a register.
pub fn store<D: Device>(device: &mut D, off: u16, value: u64) {
    let width = Width::B4;
    let _acted = device.act(0, &Item::Store { width, off, value });
}

/// Accepts VERSION_1 with these features below bit 32, and makes so many queues ready, each of 8 descriptors with its areas
/// at [`DESCRIPTORS`], [`AVAILABLE`] and [`USED`], [`RING_BYTES`] behind those of the queue before. The driver isn't ready yet.
pub fn set_up<D: Device>(device: &mut D, features: u64, queues: u64) {
    for (off, value) in [
        (STATUS, 1),
        (STATUS, 2),
        (0x24, 0),
        (0x20, features),
        (0x24, 1),
        (0x20, 1),
        (STATUS, 8),
    ] {
        store(device, off, value);
    }
    let mut behind = 0;
    for queue in 0..queues {
        for (off, value) in [
            (0x30, queue),
            (0x38, 8),
            (0x80, DESCRIPTORS.wrapping_add(behind)),
            (0x90, AVAILABLE.wrapping_add(behind)),
            (0xa0, USED.wrapping_add(behind)),
            (0x44, 1),
        ] {
            store(device, off, value);
        }
        behind = RING_BYTES.wrapping_add(behind);
    }
}
