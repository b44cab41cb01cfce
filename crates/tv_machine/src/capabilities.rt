//! The numbers of a machine's capabilities.

ghost use Rattle.std.specs.Prelude.{◌≡◌, ◌<◌, ℕ, length, IfSome, slice_get, option_and_then, option_to_list};
ghost use Rattle.tv_machine.specs.Capabilities.{capabilities_from, device_capabilities, slot_of_disk, source_capability, spot_at};

use crate::kinds::DeviceSpec;
use crate::text::KeyText;

/// What a place points to, counted in a device's capabilities and those after them.
pub enum Spot {
    /// The device's disk.
    Disk,
    /// Another of the device's capabilities.
    Other,
    /// One after the device's, at this place.
    After(usize),
}

/// The slot of the device whose disk has this capability number, if it is a disk's.
pub fn disk_slot(devices: &[DeviceSpec], cap: usize) -> Option<usize>
    ensures slot { result ≡ option_and_then slot_of_disk (slice_get (capabilities_from 0 devices.now) cap) }
    ensures bound { IfSome result (λ slot. slot < length devices.now) }
{
    let mut at = cap;
    for slot in 0..devices.len() {
        match spot_in(&devices[slot], at) {
            Spot::Disk => return Some(slot),
            Spot::Other => return None,
            Spot::After(past) => at = past,
        }
    }
    None
}

/// What a place points to.
fn spot_in(device: &DeviceSpec, at: usize) -> Spot
    ensures { (slot : ℕ) → result ≡ spot_at (device_capabilities slot device.now) at }
{
    let ranges = device.mem.as_slice().len();
    if at < ranges {
        return Spot::Other;
    }
    let at_disk = at - ranges;
    let disks = files(&device.disk);
    if at_disk < disks {
        return Spot::Disk;
    }
    let at_output = at_disk - disks;
    let outputs = files(&device.output);
    if at_output < outputs {
        return Spot::Other;
    }
    let at_input = at_output - outputs;
    let inputs = files(&device.input);
    if at_input < inputs {
        return Spot::Other;
    }
    source_spot(device.irq, at_input - inputs)
}

/// What a place points to, counted from where the interrupt source stands if there is one.
fn source_spot(irq: bool, at: usize) -> Spot
    ensures { (slot : ℕ) → result ≡ spot_at (source_capability slot irq) at }
{
    if irq {
        if at == 0 {
            Spot::Other
        } else {
            Spot::After(at - 1)
        }
    } else {
        Spot::After(at)
    }
}

/// How many files these are: one or none.
fn files(file: &Option<KeyText>) -> usize
    ensures { result ≡ length (option_to_list file.now) }
{
    match file {
        Some(_) => 1,
        None => 0,
    }
}
