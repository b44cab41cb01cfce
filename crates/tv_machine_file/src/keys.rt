//! The keys of a machine file and their values.

ghost use Rattle.std.specs.Prelude.{◌≡◌, ◌≢◌, ◌<◌, ◌≤◌, [], IfOk, IfErr, IfSome, IfNone, IsTrue, false, option_map, pos, map};
ghost use Rattle.toml.specs.View.{table_view, view};
ghost use Rattle.tv_machine_file.specs.Keys.{Tells, fault_of, held, is_among, is_in, key_path, known_keys, name_faults, name_or_none, number_faults, number_or, unknown_faults};

use crate::fault::FileFault;
use std::alloc::Global;
use toml::{Table, Value};
use tv_base::Memory;
use tv_machine::KeyText;

/// What a number of a machine file may be.
#[derive(Clone, Copy)]
pub struct Bounds {
    /// The least that it may be.
    pub least: u32,
    /// The most.
    pub most: u32,
    /// What it is a multiple of, at least 1.
    pub step: u32,
    /// What it is where the key is missing.
    pub usual: u32,
}

/// A table of a machine file.
#[derive(Clone, Copy)]
pub enum TableKind {
    /// The file itself.
    File,
    /// A device whose kind is missing or none that is built.
    Device,
    /// A probe.
    Probe,
    /// A memory range of a device.
    Range,
}

/// A rule of a machine file.
#[derive(Clone, Copy)]
pub enum Rule {
    /// Only keys that the table knows.
    Unknown,
    /// A key that has to be there.
    Missing,
    /// The kind of a value.
    Kind,
    /// The range of a value.
    Range,
    /// A value that isn't given again.
    Twice,
    /// Ranges of a device that share no byte.
    Overlap,
}

/// The path of a key in the table at a path; the file itself has the empty one.
pub fn path_text(alloc: Global, path: &str, key: &str) -> Result<KeyText, Memory>
    ensures { IfOk result (λ text. text ≡ key_path path.now key.now) }
{
    if path.is_empty() {
        KeyText::new(alloc, key)
    } else {
        KeyText::joined(alloc, path, ".", key)
    }
}

/// The fault of a key that breaks a rule, or want of memory.
pub fn broken(alloc: Global, rule: Rule, path: &str, key: &str) -> FileFault
    ensures key { result ≢ FileFault.NotToml }
    ensures fault { result ≢ FileFault.Memory → result ≡ fault_of rule (key_path path.now key.now) }
{
    match path_text(alloc, path, key) {
        Ok(text) => match rule {
            Rule::Unknown => FileFault::Unknown(text),
            Rule::Missing => FileFault::Missing(text),
            Rule::Kind => FileFault::Kind(text),
            Rule::Range => FileFault::Range(text),
            Rule::Twice => FileFault::Twice(text),
            Rule::Overlap => FileFault::Overlap(text),
        },
        Err(_) => FileFault::Memory,
    }
}

/// The value at a key.
pub fn find<'a>(table: &'a Table, key: &str) -> Option<&'a Value>
    ensures { option_map (λ value. view value.now) result ≡ held table.now key.now }
{
    table.get(key)
}

/// The keys of the file itself.
const FILE_KEYS: [&str; 9] = [
    "image",
    "ram",
    "harts",
    "steps",
    "journal_entries",
    "journal_bytes",
    "tube",
    "control",
    "device",
];

/// The keys of a device of any kind.
const DEVICE_KEYS: [&str; 7] = ["kind", "mem", "irq", "disk", "readonly", "output", "input"];

/// The keys of a probe.
const PROBE_KEYS: [&str; 3] = ["kind", "mem", "irq"];

/// The keys of a memory range.
const RANGE_KEYS: [&str; 3] = ["base", "len", "rights"];

/// Whether a table knows this key.
fn is_known(kind: TableKind, key: &str) -> bool
    ensures { result ≡ is_among key.now (known_keys kind) }
{
    match kind {
        TableKind::File => {
            let keys: [&str; 9] = FILE_KEYS;
            is_listed(key, keys.as_slice())
        }
        TableKind::Device => {
            let keys: [&str; 7] = DEVICE_KEYS;
            is_listed(key, keys.as_slice())
        }
        TableKind::Probe => {
            let keys: [&str; 3] = PROBE_KEYS;
            is_listed(key, keys.as_slice())
        }
        TableKind::Range => {
            let keys: [&str; 3] = RANGE_KEYS;
            is_listed(key, keys.as_slice())
        }
    }
}

/// Whether a text is one of these names.
fn is_listed(text: &str, names: &[&str]) -> bool
    ensures { result ≡ is_among text.now (map (λ name. name.now) names.now) }
{
    for name in names {
        if text == *name {
            return true;
        }
    }
    false
}

/// The first key that a table doesn't know.
#[tactic(auto, using(crate::proofs::Tables::keys_in_view))]
pub fn check_known(
    alloc: Global,
    table: &Table,
    kind: TableKind,
    path: &str,
) -> Result<(), FileFault>
    ensures ok { IfOk result (λ _. unknown_faults kind path.now (table_view table.now) ≡ []) }
    ensures fault { IfErr result (Tells (unknown_faults kind path.now (table_view table.now))) }
{
    for key in table.keys() {
        if !is_known(kind, key.as_str()) {
            return Err(broken(alloc, Rule::Unknown, path, key.as_str()));
        }
    }
    Ok(())
}

/// A number as an unsigned one, where it is in these bounds.
#[tactic(auto, using(crate::proofs::Numbers::is_in_negative))]
fn bounded(bounds: &Bounds, number: i64) -> Option<u32>
    requires { 0 < bounds.now.step }
    ensures some { IfSome result (λ n. (number ≡ pos n) × IsTrue (is_in bounds.now number)) }
    ensures none { IfNone result (is_in bounds.now number ≡ false) }
{
    if number < 0 {
        return None;
    }
    let number = number as u64;
    let is_between = u64::from(bounds.least) <= number && number <= u64::from(bounds.most);
    if is_between && number % u64::from(bounds.step) == 0 {
        Some(number as u32)
    } else {
        None
    }
}

/// The number at a key, or the usual one.
pub fn number(
    alloc: Global,
    table: &Table,
    path: &str,
    key: &str,
    bounds: &Bounds,
) -> Result<u32, FileFault>
    requires { 0 < bounds.now.step }
    ensures ok { IfOk result (λ n. number_faults bounds.now (key_path path.now key.now) (held table.now key.now) ≡ []) }
    ensures value { IfOk result (λ n. n ≡ number_or bounds.now (held table.now key.now)) }
    ensures most { IfOk result (λ n. bounds.now.usual ≤ bounds.now.most → n ≤ bounds.now.most) }
    ensures fault { IfErr result (Tells (number_faults bounds.now (key_path path.now key.now) (held table.now key.now))) }
{
    match find(table, key) {
        Some(value) => match value.as_integer() {
            Some(number) => match bounded(bounds, number) {
                Some(number) => Ok(number),
                None => Err(broken(alloc, Rule::Range, path, key)),
            },
            None => Err(broken(alloc, Rule::Kind, path, key)),
        },
        None => Ok(bounds.usual),
    }
}

/// The name of 1 to `most` bytes at a key.
pub fn name(
    alloc: Global,
    table: &Table,
    path: &str,
    key: &str,
    most: usize,
) -> Result<KeyText, FileFault>
    ensures ok { IfOk result (λ _. name_faults most (key_path path.now key.now) (held table.now key.now) ≡ []) }
    ensures value { IfOk result (λ text. text ≡ name_or_none (held table.now key.now)) }
    ensures fault { IfErr result (Tells (name_faults most (key_path path.now key.now) (held table.now key.now))) }
{
    match find(table, key) {
        Some(value) => match value.as_str() {
            Some(text) => {
                if text.is_empty() || text.len() > most {
                    return Err(broken(alloc, Rule::Range, path, key));
                }
                match KeyText::new(alloc, text) {
                    Ok(text) => Ok(text),
                    Err(_) => Err(FileFault::Memory),
                }
            }
            None => Err(broken(alloc, Rule::Kind, path, key)),
        },
        None => Err(broken(alloc, Rule::Missing, path, key)),
    }
}
