//! The control lines of a machine file.

ghost use Rattle.std.specs.Prelude.{◌≡◌, [], Some, IfOk, IfErr, codes};
ghost use Rattle.toml.specs.Data.{as_str};
ghost use Rattle.toml.specs.View.{items_view, view};
ghost use Rattle.tv_machine_file.specs.Keys.{Tells, held, is_among};
ghost use Rattle.tv_machine_file.specs.MachineFiles.{control_faults, control_of, socket_fault, socket_faults, sockets_faults, texts_in};

use crate::fault::FileFault;
use crate::keys::{Rule, broken, find};
use itoa::Buffer;
use std::alloc::Global;
use toml::{Table, Value};
use tv_base::{LINES, SOCKET_NAME_BYTES};
use tv_machine::{KeyText, NameList};

/// The sockets of the control lines.
pub fn read_control(alloc: Global, table: &Table) -> Result<NameList, FileFault>
    ensures ok { IfOk result (λ _. control_faults (codes "control") (held table.now (codes "control")) ≡ []) }
    ensures value { IfOk result (λ names. names ≡ control_of (held table.now (codes "control"))) }
    ensures fault { IfErr result (Tells (control_faults (codes "control") (held table.now (codes "control")))) }
{
    match find(table, "control") {
        Some(value) => match value.as_array() {
            Some(items) => read_sockets(alloc, items.as_slice()),
            None => Err(broken(alloc, Rule::Kind, "", "control")),
        },
        None => Ok(NameList::new()),
    }
}

/// The sockets in an array.
#[tactic(auto, using(crate::proofs::Tables::item_count_view))]
fn read_sockets(alloc: Global, items: &[Value]) -> Result<NameList, FileFault>
    ensures ok { IfOk result (λ _. sockets_faults (codes "control") (Some (items_view items.now)) ≡ []) }
    ensures value { IfOk result (λ names. names ≡ texts_in (items_view items.now)) }
    ensures fault { IfErr result (Tells (sockets_faults (codes "control") (Some (items_view items.now)))) }
{
    if items.len() > usize::from(LINES) {
        return Err(broken(alloc, Rule::Range, "", "control"));
    }
    read_each(alloc, items)
}

/// The sockets in an array of any length.
fn read_each(alloc: Global, items: &[Value]) -> Result<NameList, FileFault>
    ensures ok { IfOk result (λ _. socket_faults (codes "control") 0 [] (items_view items.now) ≡ []) }
    ensures value { IfOk result (λ names. names ≡ texts_in (items_view items.now)) }
    ensures fault { IfErr result (Tells (socket_faults (codes "control") 0 [] (items_view items.now))) }
{
    let mut names = NameList::new();
    for place in 0..items.len() {
        let name = read_socket(alloc, &items[place], place, &names)?;
        match names.push(alloc, name) {
            Ok(()) => {}
            Err(_) => return Err(FileFault::Memory),
        }
    }
    Ok(names)
}

/// The socket at a place in the array, after these names.
fn read_socket(
    alloc: Global,
    value: &Value,
    place: usize,
    earlier: &NameList,
) -> Result<KeyText, FileFault>
    ensures ok { IfOk result (λ _. socket_fault (codes "control") place earlier.now (as_str (view value.now)) ≡ []) }
    ensures value { IfOk result (λ name. Some name ≡ as_str (view value.now)) }
    ensures fault { IfErr result (Tells (socket_fault (codes "control") place earlier.now (as_str (view value.now)))) }
{
    let Some(text) = value.as_str() else {
        return Err(broken(alloc, Rule::Kind, "control", Buffer::new().format(place)));
    };
    if text.is_empty() || text.len() > SOCKET_NAME_BYTES {
        return Err(broken(alloc, Rule::Range, "control", Buffer::new().format(place)));
    }
    if is_in_names(text, earlier.as_slice()) {
        return Err(broken(alloc, Rule::Twice, "control", Buffer::new().format(place)));
    }
    match KeyText::new(alloc, text) {
        Ok(name) => Ok(name),
        Err(_) => Err(FileFault::Memory),
    }
}

/// Whether a text is one of these names.
fn is_in_names(text: &str, names: &[KeyText]) -> bool
    ensures { result ≡ is_among text.now names.now }
{
    for name in names {
        if text == name.as_str() {
            return true;
        }
    }
    false
}
