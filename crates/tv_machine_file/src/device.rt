//! The devices of a machine file. Probes are built; each other kind is out of range.

ghost use Rattle.std.specs.Prelude.{◌≡◌, [], Some, ◌∷◌, true, IfOk, IfErr, codes};
ghost use Rattle.toml.specs.Data.{as_table};
ghost use Rattle.toml.specs.View.{items_view, table_view, view};
ghost use Rattle.tv_machine_file.specs.DeviceFiles.{device_faults, device_list, device_of, device_table_faults, devices_faults, devices_in, devices_of, flag_faults, flag_of, kind_at, kind_faults, kind_named, slot_faults, slots_faults, table_of};
ghost use Rattle.tv_machine_file.specs.Keys.{Tells, held, key_path, member_path};

use crate::fault::FileFault;
use crate::keys::{Rule, TableKind, broken, check_known, find, path_text};
use crate::range::read_mem;
use itoa::Buffer;
use std::alloc::Global;
use toml::{Table, Value};
use tv_base::DEVICES;
use tv_machine::{DeviceKind, DeviceList, DeviceSpec};

/// The devices of a machine with `ram` bytes of guest memory.
pub fn read_devices(alloc: Global, table: &Table, ram: u32) -> Result<DeviceList, FileFault>
    ensures ok { IfOk result (λ _. devices_faults (codes "device") ram (held table.now (codes "device")) ≡ []) }
    ensures value { IfOk result (λ devices. devices ≡ devices_of ram (held table.now (codes "device"))) }
    ensures fault { IfErr result (Tells (devices_faults (codes "device") ram (held table.now (codes "device")))) }
{
    match find(table, "device") {
        Some(value) => match value.as_array() {
            Some(items) => read_slots(alloc, items.as_slice(), ram),
            None => Err(broken(alloc, Rule::Kind, "", "device")),
        },
        None => Ok(DeviceList::new()),
    }
}

/// The devices in an array.
#[tactic(auto, using(crate::proofs::Tables::item_count_view))]
fn read_slots(alloc: Global, items: &[Value], ram: u32) -> Result<DeviceList, FileFault>
    ensures ok { IfOk result (λ _. slots_faults (codes "device") ram (Some (items_view items.now)) ≡ []) }
    ensures value { IfOk result (λ devices. devices ≡ devices_in ram (items_view items.now)) }
    ensures fault { IfErr result (Tells (slots_faults (codes "device") ram (Some (items_view items.now)))) }
{
    if items.len() > usize::from(DEVICES) {
        return Err(broken(alloc, Rule::Range, "", "device"));
    }
    read_each(alloc, items, ram)
}

/// The devices in an array of any length.
fn read_each(alloc: Global, items: &[Value], ram: u32) -> Result<DeviceList, FileFault>
    ensures ok { IfOk result (λ _. slot_faults (codes "device") ram 0 (items_view items.now) ≡ []) }
    ensures value { IfOk result (λ devices. devices ≡ devices_in ram (items_view items.now)) }
    ensures fault { IfErr result (Tells (slot_faults (codes "device") ram 0 (items_view items.now))) }
{
    let mut devices = DeviceList::new();
    for slot in 0..items.len() {
        let device = read_device(alloc, &items[slot], slot, ram)?;
        match devices.push(alloc, device) {
            Ok(()) => {}
            Err(_) => return Err(FileFault::Memory),
        }
    }
    Ok(devices)
}

/// The device in a slot.
fn read_device(alloc: Global, value: &Value, slot: usize, ram: u32) -> Result<DeviceSpec, FileFault>
    ensures ok { IfOk result (λ _. device_faults (member_path (codes "device") slot) ram (as_table (view value.now)) ≡ []) }
    ensures value { IfOk result (λ device. device_list ram (as_table (view value.now)) ≡ device ∷ []) }
    ensures fault { IfErr result (Tells (device_faults (member_path (codes "device") slot) ram (as_table (view value.now)))) }
{
    let Some(table) = value.as_table() else {
        return Err(broken(alloc, Rule::Kind, "device", Buffer::new().format(slot)));
    };
    let mut buffer = Buffer::new();
    match path_text(alloc, "device", buffer.format(slot)) {
        Ok(path) => read_table(alloc, table, path.as_str(), ram),
        Err(_) => Err(FileFault::Memory),
    }
}

/// The device that a table tells.
fn read_table(alloc: Global, table: &Table, path: &str, ram: u32) -> Result<DeviceSpec, FileFault>
    ensures ok { IfOk result (λ _. device_table_faults path.now ram (table_view table.now) ≡ []) }
    ensures value { IfOk result (λ device. device ≡ device_of ram (table_view table.now)) }
    ensures fault { IfErr result (Tells (device_table_faults path.now ram (table_view table.now))) }
{
    check_known(alloc, table, table_kind(find_kind(table)), path)?;
    let kind = read_kind(alloc, table, path)?;
    let mem = read_mem(alloc, table, path, ram)?;
    let irq = read_irq(alloc, table, path)?;
    Ok(DeviceSpec {
        kind,
        mem,
        irq,
        disk: None,
        readonly: false,
        output: None,
        input: None,
        sectors: 0,
    })
}

/// The kind with this name, of those that are built.
fn kind_of(name: &str) -> Option<DeviceKind>
    ensures { result ≡ kind_named name.now }
{
    if name == "probe" {
        Some(DeviceKind::Probe)
    } else {
        None
    }
}

/// The kind of a device, where it is one that is built.
fn find_kind(table: &Table) -> Option<DeviceKind>
    ensures { result ≡ kind_at (held table.now (codes "kind")) }
{
    match find(table, "kind") {
        Some(value) => match value.as_str() {
            Some(name) => kind_of(name),
            None => None,
        },
        None => None,
    }
}

/// The keys that a device has by its kind.
fn table_kind(kind: Option<DeviceKind>) -> TableKind
    ensures { result ≡ table_of kind }
{
    match kind {
        Some(_) => TableKind::Probe,
        None => TableKind::Device,
    }
}

/// The kind of a device.
fn read_kind(alloc: Global, table: &Table, path: &str) -> Result<DeviceKind, FileFault>
    ensures ok { IfOk result (λ _. kind_faults (key_path path.now (codes "kind")) (held table.now (codes "kind")) ≡ []) }
    ensures value { IfOk result (λ kind. kind_at (held table.now (codes "kind")) ≡ Some kind) }
    ensures fault { IfErr result (Tells (kind_faults (key_path path.now (codes "kind")) (held table.now (codes "kind")))) }
{
    match find(table, "kind") {
        Some(value) => match value.as_str() {
            Some(name) => match kind_of(name) {
                Some(kind) => Ok(kind),
                None => Err(broken(alloc, Rule::Range, path, "kind")),
            },
            None => Err(broken(alloc, Rule::Kind, path, "kind")),
        },
        None => Err(broken(alloc, Rule::Missing, path, "kind")),
    }
}

/// Whether a device has an interrupt source, which it has where it doesn't say.
fn read_irq(alloc: Global, table: &Table, path: &str) -> Result<bool, FileFault>
    ensures ok { IfOk result (λ _. flag_faults (key_path path.now (codes "irq")) (held table.now (codes "irq")) ≡ []) }
    ensures value { IfOk result (λ irq. irq ≡ flag_of true (held table.now (codes "irq"))) }
    ensures fault { IfErr result (Tells (flag_faults (key_path path.now (codes "irq")) (held table.now (codes "irq")))) }
{
    match find(table, "irq") {
        Some(value) => match value.as_bool() {
            Some(irq) => Ok(irq),
            None => Err(broken(alloc, Rule::Kind, path, "irq")),
        },
        None => Ok(true),
    }
}
