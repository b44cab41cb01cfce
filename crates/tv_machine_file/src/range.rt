//! The memory ranges that a device is granted.

ghost use Rattle.std.specs.Prelude.{◌≡◌, [], ◌∷◌, Some, IfOk, IfErr, IfSome, IfNone, IsTrue, false, codes, option_map, ◌≤◌};
ghost use Rattle.toml.specs.Data.{as_table};
ghost use Rattle.toml.specs.View.{items_view, table_view, view};
ghost use Rattle.tv_machine_file.specs.DeviceFiles.{all_ram, each_range_faults, lies_in, mem_faults, mem_of, meets, meets_any, natural, natural_at, overlaps, range_faults, range_list, range_of, range_table_faults, ranges_faults, ranges_in, rights_faults, rights_named, rights_of, whole_faults};
ghost use Rattle.tv_machine_file.specs.Keys.{Tells, held, key_path, member_path};

use crate::fault::FileFault;
use crate::keys::{Rule, TableKind, broken, check_known, find, path_text};
use bitflags::Flags;
use itoa::Buffer;
use std::alloc::Global;
use toml::{Table, Value};
use tv_base::{DEVICE_GRANTS, RAM_BASE, Rights};
use tv_machine::{KeyText, MemRange, RangeList};

/// The ranges of a device in `ram` bytes of guest memory: all of it where the device doesn't say.
pub fn read_mem(alloc: Global, table: &Table, path: &str, ram: u32) -> Result<RangeList, FileFault>
    ensures ok { IfOk result (λ _. mem_faults (key_path path.now (codes "mem")) ram (held table.now (codes "mem")) ≡ []) }
    ensures value { IfOk result (λ ranges. ranges ≡ mem_of ram (held table.now (codes "mem"))) }
    ensures fault { IfErr result (Tells (mem_faults (key_path path.now (codes "mem")) ram (held table.now (codes "mem")))) }
{
    let Some(value) = find(table, "mem") else {
        return whole_ram(alloc, ram);
    };
    let Some(items) = value.as_array() else {
        return Err(broken(alloc, Rule::Kind, path, "mem"));
    };
    match path_text(alloc, path, "mem") {
        Ok(path) => read_ranges(alloc, items.as_slice(), path.as_str(), ram),
        Err(_) => Err(FileFault::Memory),
    }
}

/// One range of all guest memory.
fn whole_ram(alloc: Global, ram: u32) -> Result<RangeList, FileFault>
    ensures value { IfOk result (λ ranges. ranges ≡ all_ram ram ∷ []) }
    ensures fault { IfErr result (λ fault. fault ≡ FileFault.Memory) }
{
    let range = MemRange {
        base: RAM_BASE,
        len: ram,
        rights: both_rights(),
    };
    let mut ranges = RangeList::new();
    match ranges.push(alloc, range) {
        Ok(()) => Ok(ranges),
        Err(_) => Err(FileFault::Memory),
    }
}

/// The ranges in the array at a path.
#[tactic(auto, using(crate::proofs::Tables::item_count_view))]
fn read_ranges(alloc: Global, items: &[Value], path: &str, ram: u32) -> Result<RangeList, FileFault>
    ensures ok { IfOk result (λ _. ranges_faults path.now ram (Some (items_view items.now)) ≡ []) }
    ensures value { IfOk result (λ ranges. ranges ≡ ranges_in (items_view items.now)) }
    ensures fault { IfErr result (Tells (ranges_faults path.now ram (Some (items_view items.now)))) }
{
    if items.len() > DEVICE_GRANTS {
        return Err(broken(alloc, Rule::Range, "", path));
    }
    read_each(alloc, items, path, ram)
}

/// The ranges in an array of any length.
fn read_each(alloc: Global, items: &[Value], path: &str, ram: u32) -> Result<RangeList, FileFault>
    ensures ok { IfOk result (λ _. each_range_faults path.now ram 0 [] (items_view items.now) ≡ []) }
    ensures value { IfOk result (λ ranges. ranges ≡ ranges_in (items_view items.now)) }
    ensures fault { IfErr result (Tells (each_range_faults path.now ram 0 [] (items_view items.now))) }
{
    let mut ranges = RangeList::new();
    for place in 0..items.len() {
        let path = member_text(alloc, path, place)?;
        let range = read_range(alloc, &items[place], path.as_str(), ram, &ranges)?;
        match ranges.push(alloc, range) {
            Ok(()) => {}
            Err(_) => return Err(FileFault::Memory),
        }
    }
    Ok(ranges)
}

/// The path of the member at a place in the array at a path.
fn member_text(alloc: Global, path: &str, place: usize) -> Result<KeyText, FileFault>
    ensures value { IfOk result (λ text. text ≡ member_path path.now place) }
    ensures fault { IfErr result (λ fault. fault ≡ FileFault.Memory) }
{
    let mut buffer = Buffer::new();
    match path_text(alloc, path, buffer.format(place)) {
        Ok(text) => Ok(text),
        Err(_) => Err(FileFault::Memory),
    }
}

/// The range at a path, after these.
fn read_range(
    alloc: Global,
    value: &Value,
    path: &str,
    ram: u32,
    earlier: &RangeList,
) -> Result<MemRange, FileFault>
    ensures ok { IfOk result (λ _. range_faults path.now ram earlier.now (as_table (view value.now)) ≡ []) }
    ensures value { IfOk result (λ range. range_list (as_table (view value.now)) ≡ range ∷ []) }
    ensures fault { IfErr result (Tells (range_faults path.now ram earlier.now (as_table (view value.now)))) }
{
    match value.as_table() {
        Some(table) => read_table(alloc, table, path, ram, earlier),
        None => Err(broken(alloc, Rule::Kind, "", path)),
    }
}

/// The range that a table tells, after these.
fn read_table(
    alloc: Global,
    table: &Table,
    path: &str,
    ram: u32,
    earlier: &RangeList,
) -> Result<MemRange, FileFault>
    ensures ok { IfOk result (λ _. range_table_faults path.now ram earlier.now (table_view table.now) ≡ []) }
    ensures value { IfOk result (λ range. range ≡ range_of (table_view table.now)) }
    ensures fault { IfErr result (Tells (range_table_faults path.now ram earlier.now (table_view table.now))) }
{
    let base = natural(table, "base");
    let len = natural(table, "len");
    if is_overlap(base, len, earlier.as_slice()) {
        return Err(broken(alloc, Rule::Overlap, "", path));
    }
    check_known(alloc, table, TableKind::Range, path)?;
    check_whole(alloc, table, path, "base")?;
    check_whole(alloc, table, path, "len")?;
    let Some(bytes) = bytes_in(ram, base, len) else {
        return Err(broken(alloc, Rule::Range, path, "len"));
    };
    let rights = read_rights(alloc, table, path)?;
    Ok(MemRange {
        base: bytes.base,
        len: bytes.len,
        rights,
    })
}

/// The whole number at a key, if it is one from 0 on.
fn natural(table: &Table, key: &str) -> Option<u64>
    ensures { result ≡ natural_at (held table.now key.now) }
{
    match find(table, key) {
        Some(value) => match value.as_integer() {
            Some(number) => from_zero(number),
            None => None,
        },
        None => None,
    }
}

/// A number as an unsigned one, if it is one from 0 on.
fn from_zero(number: i64) -> Option<u64>
    ensures { result ≡ natural (Some number) }
{
    if number < 0 {
        None
    } else {
        Some(number as u64)
    }
}

/// Whether the bytes of this address and number share one with an earlier range.
fn is_overlap(base: Option<u64>, len: Option<u64>, earlier: &[MemRange]) -> bool
    ensures { result ≡ overlaps base len earlier.now }
{
    match (base, len) {
        (Some(base), Some(len)) => len >= 1 && is_met(base, len, earlier),
        _ => false,
    }
}

/// Whether `len` bytes from an address on share one with one of these ranges.
fn is_met(base: u64, len: u64, earlier: &[MemRange]) -> bool
    requires { 1 ≤ len }
    ensures { result ≡ meets_any base len earlier.now }
{
    for range in earlier {
        if meets_range(base, len, range) {
            return true;
        }
    }
    false
}

/// Whether `len` bytes from an address on share one with a range.
fn meets_range(base: u64, len: u64, range: &MemRange) -> bool
    requires { 1 ≤ len }
    ensures { result ≡ meets base len range.now }
{
    if base < range.base {
        range.base - base < len
    } else {
        base - range.base < u64::from(range.len)
    }
}

/// A whole number has to be at a key.
fn check_whole(alloc: Global, table: &Table, path: &str, key: &str) -> Result<(), FileFault>
    ensures ok { IfOk result (λ _. whole_faults (key_path path.now key.now) (held table.now key.now) ≡ []) }
    ensures fault { IfErr result (Tells (whole_faults (key_path path.now key.now) (held table.now key.now))) }
{
    match find(table, key) {
        Some(value) => match value.as_integer() {
            Some(_) => Ok(()),
            None => Err(broken(alloc, Rule::Kind, path, key)),
        },
        None => Err(broken(alloc, Rule::Missing, path, key)),
    }
}

/// Bytes of guest memory.
#[derive(Clone, Copy)]
struct Bytes {
    /// The address of the first one.
    base: u64,
    /// How many they are.
    len: u32,
}

/// The bytes of this address and number, at least one, where they lie in `ram` bytes of guest memory.
fn bytes_in(ram: u32, base: Option<u64>, len: Option<u64>) -> Option<Bytes>
    ensures some { IfSome result (λ bytes. (base ≡ Some bytes.base) × (len ≡ Some bytes.len) × IsTrue (lies_in ram base len)) }
    ensures none { IfNone result (lies_in ram base len ≡ false) }
{
    let (Some(base), Some(len)) = (base, len) else {
        return None;
    };
    if len < 1 || base < RAM_BASE || base - RAM_BASE > u64::from(ram) {
        return None;
    }
    if len > u64::from(ram) - (base - RAM_BASE) {
        return None;
    }
    Some(Bytes {
        base,
        len: len as u32,
    })
}

/// To read and to write.
fn both_rights() -> Rights
    ensures { result.0 ≡ 3 }
{
    Rights::from_bits_retain(Rights::READ.bits() | Rights::WRITE.bits())
}

/// The rights with this name.
fn rights_of_name(name: &str) -> Option<Rights>
    ensures { option_map (λ rights. rights.0) result ≡ rights_named name.now }
{
    if name == "r" {
        Some(Rights::READ)
    } else if name == "w" {
        Some(Rights::WRITE)
    } else if name == "rw" {
        Some(both_rights())
    } else {
        None
    }
}

/// What a device may do with the bytes of a range: both where the range doesn't say.
fn read_rights(alloc: Global, table: &Table, path: &str) -> Result<Rights, FileFault>
    ensures ok { IfOk result (λ _. rights_faults (key_path path.now (codes "rights")) (held table.now (codes "rights")) ≡ []) }
    ensures value { IfOk result (λ rights. rights.0 ≡ rights_of (held table.now (codes "rights"))) }
    ensures fault { IfErr result (Tells (rights_faults (key_path path.now (codes "rights")) (held table.now (codes "rights")))) }
{
    let Some(value) = find(table, "rights") else {
        return Ok(both_rights());
    };
    let Some(name) = value.as_str() else {
        return Err(broken(alloc, Rule::Kind, path, "rights"));
    };
    match rights_of_name(name) {
        Some(rights) => Ok(rights),
        None => Err(broken(alloc, Rule::Range, path, "rights")),
    }
}
