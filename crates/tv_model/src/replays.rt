//! The replay of a journal: whether it is a legal run of a machine with an image.

ghost use Rattle.std.specs.Prelude.{◌≡◌, ◌≤◌, ◌<◌, ℕ, List, Option, IfOk, length, map};
ghost use Rattle.tv_base.specs.declared.Why.{Why};
ghost use Rattle.tv_journal.specs.declared.Entry.{Entry};
ghost use Rattle.tv_journal.specs.Entries.{records_of};
ghost use Rattle.tv_machine.specs.declared.machine.Machine.{Machine};
ghost use Rattle.tv_machine.specs.Valid.{IsValid};
ghost use Rattle.tv_spec.specs.Legal.{IsLegalRun};
ghost use Rattle.tv_model.specs.Monitor.{AreDevices};
ghost use Rattle.tv_model.specs.Replay.{IsFirstIllegal, ReplaysSo};
ghost use Rattle.tv_model.specs.Replaying.{StepsNext, StepsOften, EndsDue, HasCause, HasLeft, closer};

use crate::fault::StepFault;
use crate::monitor::Monitor;
use std::alloc::Global;
use tv_base::{HartNo, Memory, Why};
use tv_journal::{Cursor, Entry, Journal};
use tv_machine::Machine;
use tv_port::Device;

/// What a replay found.
#[derive(Clone, Copy, Debug, PartialEq, Eq)]
pub enum Replayed {
    /// The journal is a legal run, with this exit status; `None` where the run goes on.
    Legal(Option<u8>),
    /// The journal is no legal run. The number, from 0, is that of the first record with an entry that may not stand where
    /// it stands; where the end that no event made may not stand, it is the number of records before that end.
    Illegal(u32),
}

/// Makes the entries of a journal one after the other, with the end that no event made at its place, on a machine with an
/// image of up to `ram` bytes. The devices are those of the machine's slots, in their order, each as a run begins.
///
/// # Errors
/// Out of memory.
pub fn replay<D: Device + Drop>(
    alloc: Global,
    machine: &Machine,
    devices: &[D],
    image: &[u8],
    journal: &Journal,
) -> Result<Replayed, Memory>
    requires valid { IsValid machine.now }
    requires devices { AreDevices machine.now (map D.state devices.now) }
    requires fits { length image.now ≤ machine.now.ram }
    ensures { IfOk result (λ replayed. ReplaysSo machine.now image.now journal.now replayed) }
{
    let mut monitor = Monitor::new(alloc, machine, devices, image)?;
    let mut outer = journal.outer();
    let mut cursor = journal.cursor();
    let records = journal.records();
    for record in 0..records {
        if !end_if_due(&mut monitor, &mut outer) {
            return Ok(Replayed::Illegal(record));
        }
        match step_next(&mut monitor, journal, &mut cursor) {
            Ok(count) => outer = come_closer(outer, count),
            Err(StepFault::Illegal) => return Ok(Replayed::Illegal(record)),
            Err(StepFault::Memory) => return Err(Memory),
        }
    }
    if !end_if_due(&mut monitor, &mut outer) {
        return Ok(Replayed::Illegal(records));
    }
    Ok(Replayed::Legal(monitor.status()))
}

/// Makes the entries of the record behind the cursor, and answers how many they are. It asks for a run of events first, and
/// then for a tick: most records are these, and an entry of any kind is as large as its longest payload.
#[inline(always)]
fn step_next<D: Device + Drop>(
    monitor: &mut Monitor<D>,
    journal: &Journal,
    cursor: &mut Cursor,
) -> Result<u32, StepFault>
    requires { cursor.old < length (records_of journal.now.entries) }
    ensures { StepsNext (records_of journal.now.entries) cursor.old cursor.new monitor.old monitor.new result }
{
    match journal.next_events(cursor) {
        Some((hart, count)) => {
            step_events(monitor, hart, count)?;
            Ok(count)
        }
        None => step_other(monitor, journal, cursor),
    }
}

/// The same, by a tick first.
#[inline(always)]
fn step_other<D: Device + Drop>(
    monitor: &mut Monitor<D>,
    journal: &Journal,
    cursor: &mut Cursor,
) -> Result<u32, StepFault>
    requires { cursor.old < length (records_of journal.now.entries) }
    ensures { StepsNext (records_of journal.now.entries) cursor.old cursor.new monitor.old monitor.new result }
{
    match journal.next_tick(cursor) {
        Some(n) => {
            step_each(monitor, &Entry::Tick(n), 1)?;
            Ok(1)
        }
        None => step_any(monitor, journal, cursor),
    }
}

/// The same, by an entry of any kind.
fn step_any<D: Device + Drop>(
    monitor: &mut Monitor<D>,
    journal: &Journal,
    cursor: &mut Cursor,
) -> Result<u32, StepFault>
    requires { cursor.old < length (records_of journal.now.entries) }
    ensures { StepsNext (records_of journal.now.entries) cursor.old cursor.new monitor.old monitor.new result }
{
    let Some((entry, count)) = journal.next(cursor) else {
        unreachable!();
    };
    step_each(monitor, &entry, count)?;
    Ok(count)
}

/// Makes so many events of a hart.
fn step_events<D: Device + Drop>(
    monitor: &mut Monitor<D>,
    hart: HartNo,
    count: u32,
) -> Result<(), StepFault>
    ensures { StepsOften monitor.old monitor.new (Entry.Hart hart) count result }
{
    let mut left = count;
    while left > 0 {
        let made = monitor.burst(hart, left)?;
        left -= made;
    }
    Ok(())
}

/// Makes an entry so often, each time by itself.
fn step_each<D: Device + Drop>(
    monitor: &mut Monitor<D>,
    entry: &Entry,
    count: u32,
) -> Result<(), StepFault>
    ensures { StepsOften monitor.old monitor.new entry.now count result }
{
    for _time in 0..count {
        monitor.step(entry)?;
    }
    Ok(())
}

/// Makes the outer end where no entry is left before it; false where it may not stand there.
fn end_if_due<D: Device + Drop>(monitor: &mut Monitor<D>, outer: &mut Option<(u64, Why)>) -> bool
    requires { HasCause outer.old }
    ensures { EndsDue monitor.old monitor.new outer.old outer.new result }
{
    match *outer {
        Some((0, why)) => {
            *outer = None;
            monitor.end(why)
        }
        Some(_) | None => true,
    }
}

/// The outer end with so many entries less before it.
fn come_closer(outer: Option<(u64, Why)>, count: u32) -> Option<(u64, Why)>
    requires { HasLeft count outer }
    ensures { result ≡ closer count outer }
{
    match outer {
        Some((left, why)) => Some((left - u64::from(count), why)),
        None => None,
    }
}

/// A run with a first entry or end that may not stand is no legal run: a replay never refuses one that is.
pub fn no_legal_run_is_refused()
    ensures { (machine : Machine) (image : List ℕ) (entries : List Entry) (outer : Option (ℕ × Why)) (n : ℕ)
        → IsFirstIllegal machine image entries outer n → ¬ IsLegalRun machine image entries outer }
{}
