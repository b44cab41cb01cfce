//! The files that a command asks for.

ghost use Rattle.std.specs.Prelude.{◌≡◌, ◌≤◌, IfOk, length};
ghost use Rattle.std.specs.Option.{option_map};
ghost use Rattle.std.specs.Result.{result_map_both};
ghost use Rattle.tv_machine.specs.Valid.{IsValid};
ghost use Rattle.tv_runner.specs.Engines.{AreProbes};
ghost use Rattle.tv_top.specs.Refusals.{refused_by};
ghost use Rattle.tv_top.specs.Steps.{Creates, Loads, LoadsImage, LoadsJournal, TakesMachine, IsMachineIn, flat_with, long_of, most_of};
ghost use Rattle.tv_words.specs.CommandLine.{HasSteps, machine_by};

use crate::refusal::Refusal;
use std::alloc::Global;
use tv_base::{HART_EVENTS, JOURNAL_FILE_BYTES, MACHINE_FILE_BYTES, Memory};
use tv_journal::Journal;
use tv_machine::Machine;
use tv_machine_file::read;
use tv_out::{LoadFault, Store};
use tv_words::Origin;

/// What a file is loaded as.
#[derive(Clone, Copy)]
enum Role {
    /// A machine file.
    Machine,
    /// An image, for so many bytes of memory.
    Image(u32),
    /// A journal.
    Journal,
}

impl Role {
    /// How many bytes the file has at most.
    fn most(self) -> usize
        ensures { result ≡ most_of self }
    {
        match self {
            Role::Machine => MACHINE_FILE_BYTES as usize,
            Role::Image(ram) => ram as usize,
            Role::Journal => JOURNAL_FILE_BYTES as usize,
        }
    }

    /// Why a longer file is refused.
    fn too_long<'a>(self) -> Refusal<'a>
        ensures { refused_by result ≡ long_of self }
    {
        match self {
            Role::Machine => Refusal::TooLong,
            Role::Image(_) => Refusal::Misfit,
            Role::Journal => Refusal::NoJournal(JOURNAL_FILE_BYTES as u64),
        }
    }
}

/// The machine that a command is given. Its devices are probes.
pub fn take_machine<'a, S: Store>(
    alloc: Global,
    origin: Origin<'a>,
    store: &mut S,
) -> Result<Machine, Refusal<'a>>
    requires { HasSteps (machine_by origin) }
    ensures takes { TakesMachine (machine_by origin.entry) (S.told store.old) (S.told store.new) (result_map_both (λ machine. machine) refused_by result) }
    ensures valid { IfOk result IsValid }
    ensures probes { IfOk result (λ machine. AreProbes machine.device) }
{
    match origin {
        Origin::Flat { steps, .. } => Ok(flat_machine(alloc, steps)?),
        Origin::File { name } => {
            let bytes = load(alloc, name, Role::Machine, store)?;
            read_machine(alloc, &bytes)
        }
    }
}

/// The flat machine with a limit of events.
fn flat_machine(alloc: Global, steps: u32) -> Result<Machine, Memory>
    requires some { 1 ≤ steps }
    requires few { steps ≤ HART_EVENTS }
    ensures machine { IfOk result (λ machine. machine ≡ flat_with steps) }
    ensures valid { IfOk result IsValid }
    ensures probes { IfOk result (λ machine. AreProbes machine.device) }
{
    let mut machine = Machine::flat(alloc)?;
    machine.steps = steps;
    Ok(machine)
}

/// The machine that the bytes of a machine file say.
fn read_machine<'a>(alloc: Global, bytes: &[u8]) -> Result<Machine, Refusal<'a>>
    ensures machine { IsMachineIn bytes.now (result_map_both (λ machine. machine) refused_by result) }
    ensures valid { IfOk result IsValid }
    ensures probes { IfOk result (λ machine. AreProbes machine.device) }
{
    Ok(read(alloc, bytes)?)
}

/// The image in a file, of 1 to `ram` bytes.
pub fn load_image<'a, S: Store>(
    alloc: Global,
    name: &'a str,
    ram: u32,
    store: &mut S,
) -> Result<Vec<u8>, Refusal<'a>>
    ensures loads { LoadsImage name.now ram (S.told store.old) (S.told store.new) (result_map_both (λ image. image.items) refused_by result) }
    ensures fits { IfOk result (λ image. length image.items ≤ ram) }
{
    let image = load(alloc, name, Role::Image(ram), store)?;
    if image.is_empty() {
        return Err(Refusal::Misfit);
    }
    Ok(image)
}

/// The journal in a file of up to [`JOURNAL_FILE_BYTES`] bytes.
pub fn load_journal<'a, S: Store>(
    alloc: Global,
    name: &'a str,
    store: &mut S,
) -> Result<Journal, Refusal<'a>>
    ensures { LoadsJournal name.now (S.told store.old) (S.told store.new) (result_map_both (λ journal. journal) refused_by result) }
{
    let bytes = load(alloc, name, Role::Journal, store)?;
    Ok(Journal::read_file(alloc, &bytes)?)
}

/// The bytes of a file.
fn load<'a, S: Store>(
    alloc: Global,
    name: &'a str,
    role: Role,
    store: &mut S,
) -> Result<Vec<u8>, Refusal<'a>>
    ensures loads { Loads name.now role (S.told store.old) (S.told store.new) (result_map_both (λ bytes. bytes.items) refused_by result) }
    ensures few { IfOk result (λ bytes. length bytes.items ≤ most_of role) }
{
    match store.load(alloc, name, role.most()) {
        Ok(bytes) => Ok(bytes),
        Err(LoadFault::TooLong) => Err(role.too_long()),
        Err(LoadFault::Failed) => Err(Refusal::Unreadable(name)),
        Err(LoadFault::Memory) => Err(Refusal::OutOfMemory),
    }
}

/// The file that a journal is to go to, if one is named.
pub fn create_file<'a, S: Store>(
    name: Option<&str>,
    store: &mut S,
) -> Result<Option<S::Sink>, Refusal<'a>>
    ensures { Creates (option_map (λ file. file.now) name.entry) (S.told store.old) (S.told store.new) (result_map_both (option_map S.Sink.told) refused_by result) }
{
    let Some(name) = name else {
        return Ok(None);
    };
    Ok(Some(store.create(name)?))
}
