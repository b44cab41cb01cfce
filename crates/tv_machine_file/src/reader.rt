//! Reading a machine file.

ghost use Rattle.std.specs.Prelude.{◌≡◌, [], IfOk, IfErr};
ghost use Rattle.toml.specs.View.{table_view};
ghost use Rattle.tv_machine_file.specs.DeviceFiles.{AreProbes};
ghost use Rattle.tv_machine_file.specs.Keys.{Tells};
ghost use Rattle.tv_machine_file.specs.MachineFiles.{IsAnswer, file_faults, machine_of};
ghost use Rattle.tv_machine.specs.Valid.{IsValid};

use crate::control::read_control;
use crate::device::read_devices;
use crate::fault::FileFault;
use crate::keys::{Bounds, TableKind, check_known, name, number};
use std::alloc::Global;
use toml::Table;
use tv_base::{
    FILE_NAME_BYTES, HART_EVENTS, HART_EVENTS_DEFAULT, HARTS, JOURNAL_PAYLOAD_BYTES,
    JOURNAL_PAYLOAD_BYTES_DEFAULT, JOURNAL_RECORDS, JOURNAL_RECORDS_DEFAULT, PAGE_BYTES, RAM_BYTES,
    RAM_BYTES_DEFAULT, RAM_BYTES_LEAST, TUBE_MESSAGES, TUBE_MESSAGES_DEFAULT,
};
use tv_machine::Machine;

/// Bytes of guest memory.
const RAM_BOUNDS: Bounds = Bounds {
    least: RAM_BYTES_LEAST,
    most: RAM_BYTES,
    step: PAGE_BYTES,
    usual: RAM_BYTES_DEFAULT,
};
/// Harts.
const HARTS_BOUNDS: Bounds = Bounds {
    least: 1,
    most: HARTS as u32,
    step: 1,
    usual: 1,
};
/// Hart events of a run.
const STEPS_BOUNDS: Bounds = Bounds {
    least: 1,
    most: HART_EVENTS,
    step: 1,
    usual: HART_EVENTS_DEFAULT,
};
/// Records of the journal.
const JOURNAL_ENTRIES_BOUNDS: Bounds = Bounds {
    least: 1,
    most: JOURNAL_RECORDS,
    step: 1,
    usual: JOURNAL_RECORDS_DEFAULT,
};
/// Payload bytes of the journal.
const JOURNAL_BYTES_BOUNDS: Bounds = Bounds {
    least: 0,
    most: JOURNAL_PAYLOAD_BYTES,
    step: 1,
    usual: JOURNAL_PAYLOAD_BYTES_DEFAULT,
};
/// Messages in a device's command tube.
const TUBE_BOUNDS: Bounds = Bounds {
    least: 1,
    most: TUBE_MESSAGES as u32,
    step: 1,
    usual: TUBE_MESSAGES_DEFAULT as u32,
};

/// Reads a machine file.
///
/// # Errors
/// The bytes are no TOML; else the first fault of the file, with the path of its key; or want of memory.
pub fn read(alloc: Global, bytes: &[u8]) -> Result<Machine, FileFault>
    ensures answer { IsAnswer bytes.now result }
    ensures valid { IfOk result IsValid }
    ensures probes { IfOk result (λ machine. AreProbes machine.device) }
{
    match toml::table_from_slice(alloc, bytes) {
        Ok(table) => read_table(alloc, &table),
        Err(error) => {
            if error.is_memory() {
                Err(FileFault::Memory)
            } else {
                Err(FileFault::NotToml)
            }
        }
    }
}

/// The machine that a table says.
fn read_table(alloc: Global, table: &Table) -> Result<Machine, FileFault>
    ensures ok { IfOk result (λ _. file_faults (table_view table.now) ≡ []) }
    ensures value { IfOk result (λ machine. machine ≡ machine_of (table_view table.now)) }
    ensures fault { IfErr result (Tells (file_faults (table_view table.now))) }
{
    check_known(alloc, table, TableKind::File, "")?;
    let image = name(alloc, table, "", "image", FILE_NAME_BYTES)?;
    let ram = number(alloc, table, "", "ram", &RAM_BOUNDS)?;
    let harts = number(alloc, table, "", "harts", &HARTS_BOUNDS)? as u8;
    let steps = number(alloc, table, "", "steps", &STEPS_BOUNDS)?;
    let journal_entries = number(alloc, table, "", "journal_entries", &JOURNAL_ENTRIES_BOUNDS)?;
    let journal_bytes = number(alloc, table, "", "journal_bytes", &JOURNAL_BYTES_BOUNDS)?;
    let tube = number(alloc, table, "", "tube", &TUBE_BOUNDS)? as u16;
    let control = read_control(alloc, table)?;
    let device = read_devices(alloc, table, ram)?;
    Ok(Machine {
        image,
        ram,
        harts,
        steps,
        journal_entries,
        journal_bytes,
        tube,
        control,
        device,
    })
}
