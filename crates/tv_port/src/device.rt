//! The trait of a device.

ghost use Rattle.std.specs.Prelude.{◌≡◌, IfOk};
ghost use Rattle.tv_script.specs.Services.{AwaitsService, ServedSo};
ghost use Rattle.tv_plan.specs.Devices.{act, next, told};
ghost use Rattle.tv_port.specs.Acting.{ActedSo, CanAct};

use std::alloc::Global;
use tv_base::Memory;
use tv_items::{Item, Verdict};
use tv_script::{Port, Served};

/// What a device made of an item.
#[derive(Drop)]
pub struct Acted {
    /// The value that a load gives; 0 for other items.
    pub value: u64,
    /// What it decided of a command, if it did so at once.
    pub verdict: Option<Verdict>,
}

/// A device, whatever its kind: it acts on items, one at a time, and then serves what these began.
pub trait Device {
    ghost use Rattle.tv_plan.specs.Devices.{DeviceState};

    // Its state. What lies in its buffers between two services is no part of it.
    ghost state: { Self → DeviceState };

    /// Acts on the item with this tag. A disk may be asked for at most [`DISK_SECTORS`](tv_base::DISK_SECTORS) sectors.
    fn act(&mut self, tag: u32, item: &Item) -> Acted
        requires can { CanAct item.now }
        ensures acted { ActedSo (act (state self.old) tag item.now) (state self.new) result };

    /// Serves until no action is left, the port ends, or bytes are lost: it asks each time for the action that the replies
    /// so far make the next, and tells each verdict as soon as it is decided.
    fn serve<P: Port>(&mut self, port: &mut P) -> Served
        requires awaits { AwaitsService (P.awaits port.old) (next (state self.old)) (told (state self.old)) }
        ensures served { ServedSo P.moved P.over P.stopped port.old (next (state self.old)) (told (state self.old)) port.new (state self.new) result };

    /// A device with the same state.
    ///
    /// # Errors
    /// Out of memory.
    fn copy(&self, alloc: Global) -> Result<Self, Memory>
        ensures state { IfOk result (λ other. state other ≡ state self.now) };
}
