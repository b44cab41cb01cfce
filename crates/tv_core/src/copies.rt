//! Copies of a machine and its parts.

ghost use Rattle.std.specs.Prelude.{◌≡◌, IfOk};

use std::alloc::Global;
use tv_base::Memory;
use tv_machine::{DeviceList, DeviceSpec, KeyText, Machine, NameList, RangeList};

/// A copy of a machine.
///
/// # Errors
/// Out of memory.
pub fn copy_machine(alloc: Global, machine: &Machine) -> Result<Machine, Memory>
    ensures { IfOk result (λ copy. copy ≡ machine.now) }
{
    Ok(Machine {
        image: KeyText::new(alloc, machine.image.as_str())?,
        ram: machine.ram,
        harts: machine.harts,
        steps: machine.steps,
        journal_entries: machine.journal_entries,
        journal_bytes: machine.journal_bytes,
        tube: machine.tube,
        control: copy_names(alloc, &machine.control)?,
        device: copy_devices(alloc, &machine.device)?,
    })
}

/// A copy of bytes.
///
/// # Errors
/// Out of memory.
pub fn copy_bytes(alloc: Global, bytes: &[u8]) -> Result<Vec<u8>, Memory>
    ensures { IfOk result (λ copy. copy.items ≡ bytes.now) }
{
    bytes.to_vec(alloc).map_err(|_| Memory)
}

/// A copy of names.
fn copy_names(alloc: Global, names: &NameList) -> Result<NameList, Memory>
    ensures { IfOk result (λ copy. copy ≡ names.now) }
{
    let mut copy = NameList::new();
    for name in names.as_slice() {
        match KeyText::new(alloc, name.as_str()) {
            Ok(name) => match copy.push(alloc, name) {
                Ok(()) => {}
                Err(Memory) => return Err(Memory),
            },
            Err(Memory) => return Err(Memory),
        }
    }
    Ok(copy)
}

/// A copy of devices.
fn copy_devices(alloc: Global, devices: &DeviceList) -> Result<DeviceList, Memory>
    ensures { IfOk result (λ copy. copy ≡ devices.now) }
{
    let mut copy = DeviceList::new();
    for device in devices.as_slice() {
        match copy_device(alloc, device) {
            Ok(device) => match copy.push(alloc, device) {
                Ok(()) => {}
                Err(Memory) => return Err(Memory),
            },
            Err(Memory) => return Err(Memory),
        }
    }
    Ok(copy)
}

/// A copy of a device.
fn copy_device(alloc: Global, device: &DeviceSpec) -> Result<DeviceSpec, Memory>
    ensures { IfOk result (λ copy. copy ≡ device.now) }
{
    Ok(DeviceSpec {
        kind: device.kind,
        mem: copy_ranges(alloc, &device.mem)?,
        irq: device.irq,
        disk: copy_text(alloc, &device.disk)?,
        readonly: device.readonly,
        output: copy_text(alloc, &device.output)?,
        input: copy_text(alloc, &device.input)?,
        sectors: device.sectors,
    })
}

/// A copy of ranges.
fn copy_ranges(alloc: Global, ranges: &RangeList) -> Result<RangeList, Memory>
    ensures { IfOk result (λ copy. copy ≡ ranges.now) }
{
    let mut copy = RangeList::new();
    for range in ranges.as_slice() {
        match copy.push(alloc, *range) {
            Ok(()) => {}
            Err(Memory) => return Err(Memory),
        }
    }
    Ok(copy)
}

/// A copy of a text, if there is one.
fn copy_text(alloc: Global, text: &Option<KeyText>) -> Result<Option<KeyText>, Memory>
    ensures { IfOk result (λ copy. copy ≡ text.now) }
{
    match text {
        Some(text) => Ok(Some(KeyText::new(alloc, text.as_str())?)),
        None => Ok(None),
    }
}
