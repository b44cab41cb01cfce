//! When a device is served, by the bits of its status.

ghost use Rattle.std.specs.Prelude.{◌≡◌, ◌≤◌, if◌then◌else◌, length, None, IfSome};
ghost use Rattle.tv_plan.specs.Serving.{is_served};
ghost use Rattle.tv_transport.specs.Registers.{has, queue_regs};
ghost use Rattle.tv_virtio.specs.Queue.{IsServable};

use tv_regs::{QueueRegs, Regs};

/// The bit of the status by which a driver says that it is ready.
const DRIVER_OK: u8 = 4;
/// The bit of the status by which a device says that it needs a reset.
const DEVICE_NEEDS_RESET: u8 = 64;

/// Whether the driver is ready.
#[inline(always)]
pub fn is_ready(regs: &Regs) -> bool
    ensures { result ≡ has regs.now.status DRIVER_OK }
{
    regs.status() & DRIVER_OK == DRIVER_OK
}

/// Whether notifications are served: the driver is ready, and the device needs no reset.
#[inline(always)]
pub fn is_served(regs: &Regs) -> bool
    ensures { result ≡ is_served regs.now }
{
    is_ready(regs) && regs.status() & DEVICE_NEEDS_RESET != DEVICE_NEEDS_RESET
}

/// The queue that a notification of this number has served, where there is such a queue and the device may serve it.
pub fn notified(regs: &Regs, number: u16) -> Option<QueueRegs>
    ensures queue { result ≡ (if is_served regs.now then queue_regs regs.now number else None) }
    ensures servable { length regs.now.queues ≤ 3 → IfSome result IsServable }
{
    if is_served(regs) {
        regs.queue(number)
    } else {
        None
    }
}
