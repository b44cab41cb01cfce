//! A device of any kind, and the devices of a machine.
#![tactic(auto)]

ghost use Rattle.std.specs.Prelude.{◌≡◌, ◌<◌, ◌≤◌, IfOk, IfSome, length};
ghost use Rattle.std.specs.List.{slice_get};
ghost use Rattle.tv_base.specs.declared.limits.TheConstants.{DISK_SECTORS};
ghost use Rattle.tv_spec.specs.Setup.{first_device};
ghost use Rattle.tv_spec.specs.State.{first_in};
ghost use Rattle.tv_devices.specs.Any.{any_state};

use std::alloc::Global;
use tv_balloon::Balloon;
use tv_base::{DevNo, Memory};
use tv_blk::Block;
use tv_console::Console;
use tv_machine::{DeviceKind, DeviceSpec, Machine};
use tv_port::{Acted, Device, Item, Port, Served};
use tv_small::{EntropyDevice, Probe};

/// A device of any kind.
#[derive(Drop)]
pub enum AnyDevice {
    /// A disk of sectors.
    Block(Block),
    /// A stream of bytes out, and one in.
    Console(Console),
    /// A source of random bytes.
    Entropy(EntropyDevice),
    /// A device that takes pages of guest memory and gives them back.
    Balloon(Balloon),
    /// A device of plain registers, for tests of guests.
    Probe(Probe),
}

impl Device for AnyDevice {
    ghost use Rattle.tv_devices.specs.Any.{any_state};

    ghost state = { any_state };

    fn act(&mut self, tag: u32, item: &Item) -> Acted {
        match self {
            AnyDevice::Block(device) => device.act(tag, item),
            AnyDevice::Console(device) => device.act(tag, item),
            AnyDevice::Entropy(device) => device.act(tag, item),
            AnyDevice::Balloon(device) => device.act(tag, item),
            AnyDevice::Probe(device) => device.act(tag, item),
        }
    }

    fn serve<P: Port>(&mut self, port: &mut P) -> Served {
        match self {
            AnyDevice::Block(device) => device.serve(port),
            AnyDevice::Console(device) => device.serve(port),
            AnyDevice::Entropy(device) => device.serve(port),
            AnyDevice::Balloon(device) => device.serve(port),
            AnyDevice::Probe(device) => device.serve(port),
        }
    }

    fn copy(&self, alloc: Global) -> Result<Self, Memory> {
        match self {
            AnyDevice::Block(device) => Ok(AnyDevice::Block(device.copy(alloc)?)),
            AnyDevice::Console(device) => Ok(AnyDevice::Console(device.copy(alloc)?)),
            AnyDevice::Entropy(device) => Ok(AnyDevice::Entropy(device.copy(alloc)?)),
            AnyDevice::Balloon(device) => Ok(AnyDevice::Balloon(device.copy(alloc)?)),
            AnyDevice::Probe(device) => Ok(AnyDevice::Probe(device.copy(alloc)?)),
        }
    }
}

/// A device of a slot as a run begins, by what the machine says of it.
fn device_of(slot: DevNo, spec: &DeviceSpec, alloc: Global) -> Result<AnyDevice, Memory>
    requires few { spec.now.sectors ≤ DISK_SECTORS }
    ensures { IfOk result (λ device. any_state device ≡ first_device slot spec.now) }
{
    match spec.kind {
        DeviceKind::Block => {
            let device = Block::new(slot, spec.sectors, spec.readonly, alloc)?;
            Ok(AnyDevice::Block(device))
        }
        DeviceKind::Console => Ok(AnyDevice::Console(Console::new(alloc)?)),
        DeviceKind::Entropy => Ok(AnyDevice::Entropy(EntropyDevice::new(alloc)?)),
        DeviceKind::Balloon => Ok(AnyDevice::Balloon(Balloon::new(alloc)?)),
        DeviceKind::Probe => Ok(AnyDevice::Probe(Probe::new(alloc)?)),
    }
}

/// The device in a slot of a machine, as a run begins. A disk has as many sectors as the machine says, at most
/// [`DISK_SECTORS`](tv_base::DISK_SECTORS).
///
/// # Errors
/// Out of memory.
#[tactic(auto, using(crate::proofs::Slots::few_there, crate::proofs::Slots::first_there))]
pub fn make(machine: &Machine, slot: DevNo, alloc: Global) -> Result<AnyDevice, Memory>
    requires there { slot < length machine.now.device }
    requires few { IfSome (slice_get machine.now.device slot) (λ spec. spec.sectors ≤ DISK_SECTORS) }
    ensures { IfOk result (λ device. any_state device ≡ first_in slot (slice_get machine.now.device slot)) }
{
    let spec = &machine.device.as_slice()[usize::from(slot.get())];
    device_of(slot, spec, alloc)
}

#[cfg(test)]
mod tests;
