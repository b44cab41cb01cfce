//! The monitor's parts, and the entries that they make.

ghost use Rattle.std.specs.Prelude.{◌≡◌, ◌≢◌, ◌<◌, ◌≤◌, ◌+◌, ◌^◌, ◌++◌, ◌↔◌, ℕ, All, None, OnOk, IfOk, IfErr, IsTrue, length, map, vec_len, vec_capacity};
ghost use Rattle.tv_journal.specs.declared.Entry.TheVariants as entry;
ghost use Rattle.tv_journal.specs.Grammar.{cause_byte};
ghost use Rattle.tv_port.specs.Acting.{CanAct};
ghost use Rattle.tv_spec.specs.Devices.{item_of};
ghost use Rattle.tv_spec.specs.Shows.{byte_shown};
ghost use Rattle.tv_spec.specs.Step.{mode_after, pending_by};
ghost use Rattle.tv_spec.proofs.Memory.{IsToDevice};
ghost use Rattle.tv_model.specs.MonitorState.{run_at};
ghost use Rattle.tv_model.specs.Monitor.{BurstsSo, EndsSo, IsMonitor, StepsSo};
ghost use Rattle.tv_model.specs.Parts.{HasRoom, IssuesSo, ServesSo, finished_in, freed_in, noted_in, run_of, seen};
ghost use Rattle.tv_model.specs.Monitor.{gates_open};

use crate::fault::StepFault;
use crate::slot::Slot;
use std::alloc::Global;
use tv_base::{Access, DevNo, HartNo, Memory, Why};
use tv_grants::Grants;
use tv_guest::Guest;
use tv_items::{Heard, Item, Way};
use tv_port::Device;
use tv_spec::{Closed, Maker, Mode, Pending, Shown};

/// Harts, memory and local ports; what the devices were granted; the devices; and what is under way between them.
#[derive(Drop)]
pub struct Parts<D: Device + Drop> {
    pub guest: Guest,
    pub grants: Grants,
    pub slots: Vec<Slot<D>>,
    /// By the number of a hart, the load that was not delivered to it.
    pub pending: [Option<Pending>; 8],
    /// Whether the last entry was a tick.
    pub ticked: bool,
    /// The bytes at the debug port so far.
    pub console: Vec<u8>,
}

impl<D: Device + Drop> Parts<D> {
    /// Makes a burst of up to `most` events of a hart, and answers how many they are.
    pub fn burst(&mut self, hart: HartNo, most: u32) -> Result<u32, StepFault>
        requires monitor { IsMonitor (seen self.old) }
        requires some { 0 < most }
        ensures { BurstsSo (seen self.old) (seen self.new) hart most result }
    {
        if hart.get() >= self.guest.harts() || self.pending[usize::from(hart.get())].is_some() {
            return Err(StepFault::Illegal);
        }
        // The byte or the item that the last event may show gets its place first.
        if self.console.reserve(1).is_err() {
            return Err(StepFault::Memory);
        }
        if take_room(&mut self.slots).is_err() {
            return Err(StepFault::Memory);
        }
        let open = all_open();
        let (made, shown) = self.guest.burst(hart, most, &open);
        if made == 0 {
            return Err(StepFault::Illegal);
        }
        show(&mut self.console, &shown);
        issue(&mut self.slots, &mut self.pending, hart, &shown);
        self.ticked = false;
        Ok(made)
    }

    /// A device acts on its next item, and the value of a load reaches its hart.
    pub fn take(&mut self, dev: DevNo, alloc: Global) -> Result<(), StepFault>
        requires monitor { IsMonitor (seen self.old) }
        ensures { StepsSo (seen self.old) (seen self.new) (entry.Take dev) result }
    {
        let number = self.open(dev)?;
        let reached = self.slots[number].take(alloc)?;
        finish(&mut self.guest, reached);
        self.ticked = false;
        Ok(())
    }

    /// The next action of a device is sent to a service.
    pub fn send(&mut self, dev: DevNo, alloc: Global) -> Result<(), StepFault>
        requires monitor { IsMonitor (seen self.old) }
        ensures { StepsSo (seen self.old) (seen self.new) (entry.Send dev) result }
    {
        let number = self.open(dev)?;
        self.slots[number].send(alloc)?;
        self.ticked = false;
        Ok(())
    }

    /// The next action of a device is intended outside the machine.
    pub fn intend(&mut self, dev: DevNo, alloc: Global) -> Result<(), StepFault>
        requires monitor { IsMonitor (seen self.old) }
        ensures { StepsSo (seen self.old) (seen self.new) (entry.Intend dev) result }
    {
        let number = self.open(dev)?;
        self.slots[number].intend(alloc)?;
        self.ticked = false;
        Ok(())
    }

    /// A service of this way does the action that a device sent, by its grants.
    pub fn serve(&mut self, dev: DevNo, way: Way, alloc: Global) -> Result<(), StepFault>
        requires monitor { IsMonitor (seen self.old) }
        requires way { way ≢ Way.Outside }
        ensures { ServesSo (seen self.old) (seen self.new) dev way result }
    {
        let number = self.open(dev)?;
        let action = self.slots[number].sent(way, alloc)?;
        let heard = self.guest.act(&mut self.grants, dev, &action);
        self.slots[number].served(heard);
        self.ticked = false;
        Ok(())
    }

    /// A device gets the reply of a service.
    pub fn get(&mut self, dev: DevNo) -> Result<(), StepFault>
        requires monitor { IsMonitor (seen self.old) }
        ensures { StepsSo (seen self.old) (seen self.new) (entry.Got dev) result }
    {
        let number = self.find(dev)?;
        self.slots[number].get()?;
        self.ticked = false;
        Ok(())
    }

    /// The oldest answer of a device without a Reply has it, which is noted with the hart that waits for it.
    pub fn reply(&mut self, dev: DevNo) -> Result<(), StepFault>
        requires monitor { IsMonitor (seen self.old) }
        ensures { StepsSo (seen self.old) (seen self.new) (entry.Reply dev) result }
    {
        let number = self.find(dev)?;
        let (tag, maker) = self.slots[number].reply()?;
        note(&mut self.pending, dev, tag, &maker);
        self.ticked = false;
        Ok(())
    }

    /// The oldest answer of a device with its Reply comes to its maker.
    pub fn deliver(&mut self, dev: DevNo) -> Result<(), StepFault>
        requires monitor { IsMonitor (seen self.old) }
        ensures { StepsSo (seen self.old) (seen self.new) (entry.Deliver dev) result }
    {
        let number = self.find(dev)?;
        let maker = self.slots[number].deliver()?;
        free(&mut self.pending, &maker);
        self.ticked = false;
        Ok(())
    }

    /// A device hears this of its action outside the machine. Where bytes of a put are lost, a run that goes on ends.
    pub fn hear(&mut self, dev: DevNo, heard: &Heard, alloc: Global) -> Result<(), StepFault>
        requires monitor { IsMonitor (seen self.old) }
        ensures { StepsSo (seen self.old) (seen self.new) (entry.Did dev heard.now) result }
    {
        let number = self.find(dev)?;
        self.slots[number].hear(heard, alloc)?;
        lose(&mut self.guest, dev, heard);
        self.ticked = false;
        Ok(())
    }

    /// Time goes on.
    pub fn tick(&mut self, n: u32) -> Result<(), StepFault>
        requires monitor { IsMonitor (seen self.old) }
        ensures { StepsSo (seen self.old) (seen self.new) (entry.Tick n) result }
    {
        if n == 0 || self.ticked || !self.is_open() {
            return Err(StepFault::Illegal);
        }
        self.guest.tick(n);
        self.ticked = true;
        Ok(())
    }

    /// An end that no entry made. False where the run ended before.
    pub fn end(&mut self, why: Why) -> bool
        requires monitor { IsMonitor (seen self.old) }
        requires cause { cause_byte why ≢ None }
        ensures { EndsSo (seen self.old) (seen self.new) why result }
    {
        if !self.is_open() {
            return false;
        }
        self.guest.end(why);
        true
    }

    /// Whether the run goes on.
    fn is_open(&self) -> bool
        ensures { IsTrue result ↔ (self.now.guest.mode ≡ Mode.Running) }
    {
        match self.guest.mode() {
            Mode::Running => true,
            Mode::Ending(_) => false,
        }
    }

    /// The place of a device.
    fn find(&self, dev: DevNo) -> Result<usize, StepFault>
        ensures ok { IfOk result (λ number. (number ≡ dev) × (number < length self.now.slots.items)) }
        ensures fault { IfErr result (λ fault. (fault ≡ StepFault.Illegal) × (length self.now.slots.items ≤ dev)) }
    {
        let number = usize::from(dev.get());
        if number < self.slots.len() {
            Ok(number)
        } else {
            Err(StepFault::Illegal)
        }
    }

    /// The place of a device while the run goes on.
    fn open(&self, dev: DevNo) -> Result<usize, StepFault>
        ensures ok { IfOk result (λ number. (number ≡ dev) × (number < length self.now.slots.items) × (self.now.guest.mode ≡ Mode.Running)) }
        ensures fault { IfErr result (λ fault. (fault ≡ StepFault.Illegal) × (dev < length self.now.slots.items → self.now.guest.mode ≡ Mode.Running → ⊥)) }
    {
        if self.is_open() {
            self.find(dev)
        } else {
            Err(StepFault::Illegal)
        }
    }
}

/// Takes the room that an item more needs at any device.
fn take_room<D: Device + Drop>(slots: &mut Vec<Slot<D>>) -> Result<(), Memory>
    ensures runs { map run_of slots.new.items ≡ map run_of slots.old.items }
    ensures room { OnOk result (All HasRoom slots.new.items) }
{
    for i in 0..slots.len() {
        match slots[i].take_room() {
            Ok(()) => {}
            Err(_) => return Err(Memory),
        }
    }
    Ok(())
}

/// Puts the byte that an event showed, if it showed one.
fn show(console: &mut Vec<u8>, shown: &Shown)
    requires { vec_len console.old + 1 ≤ vec_capacity console.old }
    ensures { console.new.items ≡ console.old.items ++ byte_shown shown.now }
{
    match shown {
        Shown::Byte(byte) => console.push_reserved(*byte),
        Shown::Nothing | Shown::Finish(_) | Shown::Access(_, _) => {}
    }
}

/// The access that an event showed, if it showed one, becomes the last item of its device, and the hart waits for a load.
fn issue<D: Device + Drop>(
    slots: &mut Vec<Slot<D>>,
    pending: &mut [Option<Pending>; 8],
    hart: HartNo,
    shown: &Shown,
)
    requires device { IsToDevice (length slots.old.items) shown.now }
    requires room { All HasRoom slots.old.items }
    requires tags { (slot : ℕ) → length (run_at slots.old.items slot).made < 2 ^ 32 }
    ensures lanes { length pending.old ≡ 8 }
    ensures issued { IssuesSo hart shown.now slots.old.items slots.new.items pending.old pending.new }
{
    match shown {
        Shown::Access(dev, access) => {
            let number = usize::from(dev.get());
            let tag = slots[number].items() as u32;
            slots[number].add(item_of(access), hart);
            pending[usize::from(hart.get())] = pending_by(*dev, tag, access);
        }
        Shown::Nothing | Shown::Byte(_) | Shown::Finish(_) => {}
    }
}

/// The item that an access of a hart is.
fn item_of(access: &Access) -> Item
    ensures item { result ≡ item_of access.now }
    ensures can { CanAct result }
{
    match *access {
        Access::Load { width, off } => Item::Load { width, off },
        Access::Store { width, off, value } => Item::Store { width, off, value },
    }
}

/// What a hart waits for after an access with this tag.
fn pending_by(dev: DevNo, tag: u32, access: &Access) -> Option<Pending>
    ensures { result ≡ pending_by dev tag access.now }
{
    match access {
        Access::Load { .. } => Some(Pending {
            dev,
            tag,
            replied: false,
        }),
        Access::Store { .. } => None,
    }
}

/// The Reply to the load of a hart is noted with it.
fn note(pending: &mut [Option<Pending>; 8], dev: DevNo, tag: u32, maker: &Maker)
    ensures lanes { length pending.old ≡ 8 }
    ensures noted { pending.new ≡ noted_in pending.old dev tag maker.now }
{
    match maker {
        Maker::Hart(hart) => {
            pending[usize::from(hart.get())] = Some(Pending {
                dev,
                tag,
                replied: true,
            });
        }
        Maker::Line(_) => {}
    }
}

/// The hart whose load was delivered waits no more.
fn free(pending: &mut [Option<Pending>; 8], maker: &Maker)
    ensures lanes { length pending.old ≡ 8 }
    ensures freed { pending.new ≡ freed_in pending.old maker.now }
{
    match maker {
        Maker::Hart(hart) => pending[usize::from(hart.get())] = None,
        Maker::Line(_) => {}
    }
}

/// The value of a load reaches its hart.
fn finish(guest: &mut Guest, reached: Option<(HartNo, u64)>)
    ensures { guest.new ≡ finished_in guest.old reached }
{
    match reached {
        Some((hart, value)) => guest.finish(hart, value),
        None => {}
    }
}

/// A run that goes on ends where bytes of a put were lost.
fn lose(guest: &mut Guest, dev: DevNo, heard: &Heard)
    ensures { guest.new ≡ record guest.old { mode = mode_after guest.old.mode dev heard.now } }
{
    match heard {
        Heard::Taken(_) => match guest.mode() {
            Mode::Running => guest.end(Why::Lost(dev)),
            Mode::Ending(_) => {}
        },
        Heard::Bytes(_) | Heard::Done | Heard::Refused | Heard::Failed => {}
    }
}

/// Nothing is closed.
fn all_open() -> Closed
    ensures { result ≡ gates_open }
{
    Closed {
        debug: false,
        loads: [false; 8],
        stores: [false; 8],
    }
}
