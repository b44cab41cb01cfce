//! The in-process monitor, which makes the entries of a run one after the other.

ghost use Rattle.std.specs.Prelude.{◌≡◌, ◌≢◌, ◌<◌, ◌≤◌, None, IfOk, length, map};
ghost use Rattle.tv_journal.specs.Grammar.{cause_byte};
ghost use Rattle.tv_machine.specs.Valid.{IsValid};
ghost use Rattle.tv_spec.specs.Shows.{exit_status};
ghost use Rattle.tv_spec.specs.State.{first_run};
ghost use Rattle.tv_model.specs.Monitor.{AreDevices, BurstsSo, EndsSo, IsFirst, IsMonitor, StepsSo, status_of};
ghost use Rattle.tv_model.specs.Parts.{run_of, seen};

use crate::fault::StepFault;
use crate::parts::Parts;
use crate::slot::Slot;
use std::alloc::Global;
use std::marker::Model;
use tv_base::{HartNo, Memory, Why};
use tv_grants::Grants;
use tv_guest::Guest;
use tv_items::Way;
use tv_journal::Entry;
use tv_machine::Machine;
use tv_port::Device;
use tv_spec::Mode;

/// The in-process monitor of a machine whose devices are of one type.
#[derive(Drop)]
pub struct Monitor<D: Device + Drop> {
    alloc: Global,
    parts: Parts<D>,
}

impl<D: Device + Drop> Model for Monitor<D> {
    ghost use Rattle.tv_model.specs.Monitor.{IsMonitor};
    ghost use Rattle.tv_model.specs.MonitorState.{MonitorState};
    ghost use Rattle.tv_model.specs.Parts.{seen};

    ghost Value = { MonitorState };

    ghost view = { λ m. seen m.parts };

    ghost invariant = { λ m. IsMonitor (seen m.parts) };
}

impl<D: Device + Drop> Monitor<D> {
    /// The monitor of a machine with an image of up to `ram` bytes, as a run begins. The devices are those of the machine's
    /// slots, in their order, each as a run begins; they are copied.
    ///
    /// # Errors
    /// Out of memory.
    pub fn new(
        alloc: Global,
        machine: &Machine,
        devices: &[D],
        image: &[u8],
    ) -> Result<Monitor<D>, Memory>
        requires valid { IsValid machine.now }
        requires devices { AreDevices machine.now (map D.state devices.now) }
        requires fits { length image.now ≤ machine.now.ram }
        ensures { IfOk result (λ monitor. IsFirst monitor machine.now image.now) }
    {
        let guest = Guest::new(alloc, machine, image)?;
        let grants = Grants::of_machine(alloc, machine)?;
        let slots = slots_of(alloc, devices)?;
        let parts = Parts {
            guest,
            grants,
            slots,
            pending: [None; 8],
            ticked: false,
            console: Vec::new(alloc),
        };
        Ok(Monitor { alloc, parts })
    }

    /// Makes an entry.
    ///
    /// # Errors
    /// `Illegal` exactly where the monitor has no such step, or out of memory. Nothing is changed then.
    pub fn step(&mut self, entry: &Entry) -> Result<(), StepFault>
        ensures { StepsSo self.old self.new entry.now result }
    {
        step(&mut self.parts, entry, self.alloc)
    }

    /// Makes a burst of up to `most` events of a hart, and answers how many they are, at least 1. They are fewer than `most`
    /// only where the last one showed something, or the run ended.
    ///
    /// # Errors
    /// `Illegal` exactly where the monitor has no such step, or out of memory. Nothing is changed then.
    pub fn burst(&mut self, hart: HartNo, most: u32) -> Result<u32, StepFault>
        requires { 0 < most }
        ensures { BurstsSo self.old self.new hart most result }
    {
        self.parts.burst(hart, most)
    }

    /// Makes an end that no entry made. False exactly where the run ended before; nothing is changed then.
    pub fn end(&mut self, why: Why) -> bool
        requires { cause_byte why ≢ None }
        ensures { EndsSo self.old self.new why result }
    {
        self.parts.end(why)
    }

    /// The bytes at the debug port so far.
    pub fn console(&self) -> &[u8]
        ensures { result.now ≡ self.now.console }
    {
        &self.parts.console
    }

    /// The run's exit status; `None` exactly where it goes on.
    pub fn status(&self) -> Option<u8>
        ensures { result ≡ status_of self.now.guest.mode }
    {
        match self.parts.guest.mode() {
            Mode::Running => None,
            Mode::Ending(why) => Some(exit_status(why)),
        }
    }
}

/// Makes an entry, by its kind.
fn step<D: Device + Drop>(
    parts: &mut Parts<D>,
    entry: &Entry,
    alloc: Global,
) -> Result<(), StepFault>
    requires monitor { IsMonitor (seen parts.old) }
    ensures { StepsSo (seen parts.old) (seen parts.new) entry.now result }
{
    match entry {
        Entry::Hart(hart) => match parts.burst(*hart, 1) {
            Ok(_) => Ok(()),
            Err(fault) => Err(fault),
        },
        Entry::Take(dev) => parts.take(*dev, alloc),
        Entry::Send(dev) => parts.send(*dev, alloc),
        Entry::ServeMem(dev) => parts.serve(*dev, Way::Memory, alloc),
        Entry::ServeIrq(dev) => parts.serve(*dev, Way::Interrupt, alloc),
        Entry::Got(dev) => parts.get(*dev),
        Entry::Reply(dev) => parts.reply(*dev),
        Entry::Deliver(dev) => parts.deliver(*dev),
        Entry::Intend(dev) => parts.intend(*dev, alloc),
        Entry::Did(dev, heard) => parts.hear(*dev, heard, alloc),
        Entry::Tick(n) => parts.tick(*n),
    }
}

/// These devices before their first items.
fn slots_of<D: Device + Drop>(alloc: Global, devices: &[D]) -> Result<Vec<Slot<D>>, Memory>
    ensures { IfOk result (λ slots. map run_of slots.items ≡ map first_run (map D.state devices.now)) }
{
    let mut slots = Vec::new(alloc);
    for device in devices {
        let copy = device.copy(alloc)?;
        slots.push(Slot::new(alloc, copy)).map_err(|_| Memory)?;
    }
    Ok(slots)
}

/// The exit status of a run by the cause of its end.
pub fn exit_status(why: Why) -> u8
    ensures { result ≡ exit_status why }
{
    match why {
        Why::PowerOff | Why::Stopped => 0,
        Why::Failed(_) => 1,
        Why::Lost(_) | Why::DebugLost => 5,
        Why::Steps => 6,
        Why::Full => 7,
        Why::ListenFailed => 10,
        Why::CrewRefused => 11,
    }
}
