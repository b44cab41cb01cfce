//! What a hart reaches: guest memory, the local ports, and the registers of devices.

ghost use Rattle.std.specs.Prelude.{ℕ, ◌≢◌, ◌≡◌, ◌<◌, ◌≤◌, ◌+◌, ◌*◌, ◌%◌, ◌^◌, ◌++◌, ◌∷◌, [], IfOk, OnOk, length};
ghost use Rattle.std.specs.Bool.{OnTrue, OnFalse};
ghost use Rattle.std.specs.Prelude.{if◌then◌else◌};
ghost use Rattle.tv_grants.specs.Direct.{direct_action, heard_of};
ghost use Rattle.tv_grants.specs.Grants.{owns_source, ram_bytes};
ghost use Rattle.tv_items.specs.Fits.{IsAction, way_of};
ghost use Rattle.tv_intc.specs.Controller.{raise_of};
ghost use Rattle.tv_spec.specs.Direct.{direct};
ghost use Rattle.tv_guest.specs.Direct.{granted_to, reservations_after};
ghost use Rattle.tv_base.specs.Width.{width_bytes};
ghost use Rattle.tv_bus.specs.Ranges.{range_at};
ghost use Rattle.tv_hart.specs.Place.{OnNoStore};
ghost use Rattle.tv_ram.specs.Memory.{is_inside, loaded as number_in};
ghost use Rattle.tv_guest.specs.Looks.{port_at};
ghost use Rattle.tv_intc.specs.Controller.{lines_of as external_line};
ghost use Rattle.tv_intc.specs.Timer.{lines_of as timer_lines};
ghost use Rattle.tv_spec.specs.Local.{device_ranges, finish_by, load_from, port_ranges, store_to};
ghost use Rattle.tv_spec.specs.LocalState.{after_tick, first_local, lines_of, written_by};

use crate::reservations::Reservations;
use std::alloc::Global;
use std::marker::Model;
use tv_base::{Access, DEVICES, DevNo, HARTS, HartNo, Memory, PAGE_BYTES, Width};
use tv_bus::{Bus, Target};
use tv_exec::{AmoOp, amo};
use tv_grants::Grants;
use tv_hart::{Loaded, Place, Stored};
use tv_intc::{Finish, Intc, Timer, finish};
use tv_items::{Action, Heard, Way};
use tv_ram::Ram;
use tv_spec::{Closed, Shown};

/// Guest memory, the local ports and how many devices there are; what of that takes no access now; and what the event under way
/// showed outside.
#[derive(Drop)]
pub struct Local {
    ram: Ram,
    reservations: Reservations,
    // The local ports and the devices.
    bus: Bus,
    timer: Timer,
    intc: Intc,
    devices: u8,
    closed: Closed,
    shown: Shown,
    // The hart whose lines were last asked for, and its lines as they are now.
    hart: HartNo,
    lines: u64,
}

impl Model for Local {
    ghost use Rattle.std.specs.Prelude.{◌≡◌, ◌≤◌, ◌++◌};
    ghost use Rattle.tv_spec.specs.Local.{device_ranges, port_ranges};
    ghost use Rattle.tv_spec.specs.Reach.{Reach};
    ghost use Rattle.tv_spec.specs.LocalState.{lines_of};

    ghost Value = { Reach };

    ghost view = { λ local. record {
      local = record {
        ram = local.ram;
        reservations = local.reservations;
        timer = local.timer;
        intc = local.intc;
        devices = local.devices;
      };
      closed = local.closed;
      shown = local.shown;
    } };

    ghost invariant = { λ local. (local.bus ≡ port_ranges ++ device_ranges local.devices) × (local.lines ≡ lines_of (record {
      ram = local.ram;
      reservations = local.reservations;
      timer = local.timer;
      intc = local.intc;
      devices = local.devices;
    }) local.hart) };
}

impl Local {
    /// This memory and the ports of a machine with this many harts and devices, as a run begins. Nothing is closed.
    ///
    /// # Errors
    /// Want of memory.
    pub fn new(alloc: Global, ram: Ram, harts: u8, devices: u8) -> Result<Local, Memory>
        requires some { 1 ≤ harts }
        requires most { harts ≤ HARTS }
        requires slots { devices ≤ DEVICES }
        ensures local { IfOk result (λ place. place.local ≡ first_local harts devices ram) }
        ensures quiet { IfOk result (λ place. place.shown ≡ Shown.Nothing) }
    {
        let timer = Timer::new(harts);
        let intc = Intc::new(harts);
        let hart = HartNo::FIRST;
        Ok(Local {
            ram,
            reservations: Reservations::new(),
            bus: local_bus(alloc, devices)?,
            timer,
            intc,
            devices,
            closed: ALL_OPEN,
            shown: Shown::Nothing,
            hart,
            lines: lines_at(&timer, &intc, hart),
        })
    }

    /// The interrupt lines of a hart, as bits of `mip`.
    #[inline(always)]
    pub fn lines(&mut self, hart: HartNo) -> u64
        ensures lines { result ≡ lines_of self.old.local hart }
        ensures unchanged { self.new ≡ self.old }
    {
        if self.hart.get() != hart.get() {
            self.hart = hart;
            self.lines = lines_at(&self.timer, &self.intc, hart);
        }
        self.lines
    }

    /// The same, of what isn't changed.
    pub fn lines_now(&self, hart: HartNo) -> u64
        ensures { result ≡ lines_of self.now.local hart }
    {
        lines_at(&self.timer, &self.intc, hart)
    }

    /// The word of 4 bytes at an address of memory; `None` where a byte of it lies elsewhere.
    pub fn word(&self, addr: u64) -> Option<u32>
        ensures { result ≡ number_in self.now.local.ram addr 4 }
    {
        self.ram.word(addr)
    }

    /// Where an access past memory leads, with its offset there; `None` where it leads to memory or nowhere.
    pub fn port(&self, width: Width, addr: u64) -> Option<(Target, u32)>
        ensures { result ≡ port_at (length self.now.local.ram) self.now.local.devices addr (width_bytes width) }
    {
        match self.ram.load(addr, width) {
            Some(_) => None,
            None => self.bus.find(addr, width),
        }
    }

    /// Closes this from now on, and nothing else.
    pub fn close(&mut self, closed: &Closed)
        ensures { self.new ≡ record self.old { closed = closed.now } }
    {
        self.closed = *closed;
    }

    /// Time goes on by `n`.
    pub fn tick(&mut self, n: u32)
        ensures { self.new ≡ record self.old { local = after_tick self.old.local n } }
    {
        self.timer.tick(n);
        self.lines = lines_at(&self.timer, &self.intc, self.hart);
    }

    /// What the event under way showed, which is then taken as seen. Nothing is written where nothing was shown.
    #[inline(always)]
    pub fn take_shown(&mut self) -> Shown
        ensures shown { result ≡ self.old.shown }
        ensures taken { self.new ≡ record self.old { shown = Shown.Nothing } }
    {
        match self.shown {
            Shown::Nothing => Shown::Nothing,
            shown => {
                self.shown = Shown::Nothing;
                shown
            }
        }
    }

    /// A device's action on memory or interrupts: it is done where the device's grants allow it, and otherwise refused, which changes
    /// nothing.
    pub fn act(&mut self, grants: &mut Grants, dev: DevNo, action: &Action) -> Heard
        requires memory { ram_bytes grants.old ≡ length self.old.local.ram }
        requires action { IsAction action.now }
        requires way { way_of action.now ≢ Way.Outside }
        ensures direct { direct (granted_to grants.old dev) dev self.old.local grants.old.withdrawn action.now ≡ record { heard = result; local = self.new.local; withdrawn = grants.new.withdrawn } }
        ensures grants { grants.new ≡ record grants.old { withdrawn = grants.new.withdrawn } }
        ensures place { self.new ≡ record self.old { local = self.new.local } }
    {
        if action.way() == Way::Interrupt {
            let heard = raise(&mut self.intc, grants, dev);
            self.lines = lines_at(&self.timer, &self.intc, self.hart);
            return heard;
        }
        act_on_memory(&mut self.ram, &mut self.reservations, grants, dev, action)
    }

    /// Writes the low `width` bytes of a value to memory for a hart, which ends reservations of others. False where some
    /// byte lies elsewhere; nothing is changed then.
    #[inline(always)]
    fn write(&mut self, hart: HartNo, width: Width, addr: u64, value: u64) -> bool
        ensures inside { result ≡ is_inside (length self.old.local.ram) addr (width_bytes width) }
        ensures written { OnTrue result (self.new ≡ record self.old { local = written_by self.old.local hart addr (width_bytes width) value }) }
        ensures unchanged { OnFalse result (self.new ≡ self.old) }
    {
        if !self.ram.store(addr, width, value) {
            return false;
        }
        self.reservations.write_by(hart, addr, width.bytes());
        true
    }

    /// A load from a port or a device.
    fn load_port(&mut self, width: Width, addr: u64) -> Loaded
        ensures { (result, self.new) ≡ load_from self.old width addr (range_at (port_ranges ++ device_ranges self.old.local.devices) addr (width_bytes width)) }
    {
        match self.bus.find(addr, width) {
            Some((target, off)) => self.load_target(target, width, off),
            None => Loaded::Nothing,
        }
    }

    /// The same, by where it leads.
    fn load_target(&mut self, target: Target, width: Width, off: u32) -> Loaded
        requires off { (slot : ℕ) → target ≡ Target.Device slot → off < 2 ^ 16 }
        requires port { target ≢ Target.Ram }
        ensures { (result, self.new) ≡ load_from self.old width 0 (Some (target, off)) }
    {
        match target {
            Target::Timer => Loaded::Value(self.timer.read(off, width)),
            Target::Intc => {
                let value = self.intc.read(off, width);
                self.lines = lines_at(&self.timer, &self.intc, self.hart);
                Loaded::Value(value)
            }
            Target::Finisher | Target::Debug => Loaded::Value(0),
            Target::Device(slot) => self.load_device(slot, width, off),
            Target::Ram => Loaded::Nothing,
        }
    }

    /// A load of a device: it is issued, and its value comes later.
    fn load_device(&mut self, slot: DevNo, width: Width, off: u32) -> Loaded
        requires off { off < 2 ^ 16 }
        ensures { (result, self.new) ≡ load_from self.old width 0 (Some (Target.Device slot, off)) }
    {
        if self.closed.loads[usize::from(slot.get())] {
            return Loaded::Full;
        }
        let off = off as u16;
        self.shown = Shown::Access(slot, Access::Load { width, off });
        Loaded::Held
    }

    /// A store to a port or a device.
    fn store_port(&mut self, width: Width, addr: u64, value: u64) -> Stored
        ensures unchanged { OnNoStore result (self.new ≡ self.old) }
        ensures meaning { (hart : ℕ) → (result, self.new) ≡ store_to self.old hart width addr value (range_at (port_ranges ++ device_ranges self.old.local.devices) addr (width_bytes width)) }
    {
        match self.bus.find(addr, width) {
            Some((target, off)) => self.store_target(target, width, off, value),
            None => Stored::Nothing,
        }
    }

    /// The same, by where it leads.
    fn store_target(&mut self, target: Target, width: Width, off: u32, value: u64) -> Stored
        requires off { (slot : ℕ) → target ≡ Target.Device slot → off < 2 ^ 16 }
        requires port { target ≢ Target.Ram }
        ensures unchanged { OnNoStore result (self.new ≡ self.old) }
        ensures meaning { (result, self.new) ≡ store_to self.old 0 width 0 value (Some (target, off)) }
    {
        match target {
            Target::Timer => {
                self.timer.write(off, width, value);
                self.lines = lines_at(&self.timer, &self.intc, self.hart);
                Stored::Done
            }
            Target::Intc => {
                self.intc.write(off, width, value);
                self.lines = lines_at(&self.timer, &self.intc, self.hart);
                Stored::Done
            }
            Target::Debug => self.store_debug((value & 0xff) as u8),
            Target::Finisher => {
                match finish_of_width(width, value) {
                    Some(finish) => self.shown = Shown::Finish(finish),
                    None => {}
                }
                Stored::Done
            }
            Target::Device(slot) => self.store_device(slot, width, off, value),
            Target::Ram => Stored::Nothing,
        }
    }

    /// A store to the debug port.
    fn store_debug(&mut self, byte: u8) -> Stored
        ensures unchanged { OnNoStore result (self.new ≡ self.old) }
        ensures meaning { (result, self.new) ≡ store_to self.old 0 Width.B1 0 byte (Some (Target.Debug, 0)) }
    {
        if self.closed.debug {
            return Stored::Full;
        }
        self.shown = Shown::Byte(byte);
        Stored::Done
    }

    /// A store to a device: it is issued, and the hart goes on.
    fn store_device(&mut self, slot: DevNo, width: Width, off: u32, value: u64) -> Stored
        requires off { off < 2 ^ 16 }
        ensures unchanged { OnNoStore result (self.new ≡ self.old) }
        ensures meaning { (result, self.new) ≡ store_to self.old 0 width 0 value (Some (Target.Device slot, off)) }
    {
        if self.closed.stores[usize::from(slot.get())] {
            return Stored::Full;
        }
        let off = off as u16;
        let value = low_bytes(width, value);
        self.shown = Shown::Access(slot, Access::Store { width, off, value });
        Stored::Done
    }
}

impl Place for Local {
    ghost use Rattle.tv_spec.specs.Local.{local_meaning};
    ghost use Rattle.tv_guest.specs.Row.{IsCalm};
    ghost use Rattle.std.proofs.Common.{refl};

    ghost meaning = { local_meaning };

    ghost calm = { IsCalm };

    #[inline(always)]
    fn fetch(&mut self, addr: u64) -> Option<u32> {
        self.ram.word(addr)
    }

    #[inline(always)]
    fn load(&mut self, _hart: HartNo, width: Width, addr: u64) -> Loaded {
        match self.ram.load(addr, width) {
            Some(value) => Loaded::Value(value),
            None => self.load_port(width, addr),
        }
    }

    #[inline(always)]
    fn store(&mut self, hart: HartNo, width: Width, addr: u64, value: u64) -> Stored {
        if self.write(hart, width, addr, value) {
            return Stored::Done;
        }
        self.store_port(width, addr, value)
    }

    #[inline(always)]
    fn number(&self, width: Width, addr: u64) -> Option<u64> {
        self.ram.load(addr, width)
    }

    #[inline(always)]
    fn put_number(&mut self, hart: HartNo, width: Width, addr: u64, value: u64) -> bool {
        self.write(hart, width, addr, value)
    }

    fn amo(&mut self, hart: HartNo, width: Width, addr: u64, op: AmoOp, value: u64) -> Option<u64> {
        let old = self.ram.load(addr, width)?;
        let _stored = self.write(hart, width, addr, amo(op, width, old, value));
        Some(old)
    }

    fn reserve(&mut self, hart: HartNo, width: Width, addr: u64) -> Option<u64> {
        let value = self.ram.load(addr, width)?;
        self.reservations.reserve(hart, addr);
        Some(value)
    }

    fn conditional(&mut self, hart: HartNo, width: Width, addr: u64, value: u64) -> Option<bool> {
        let _old = self.ram.load(addr, width)?;
        if !self.reservations.release(hart, addr) {
            return Some(false);
        }
        let _stored = self.write(hart, width, addr, value);
        Some(true)
    }

    ghost stays = { λ p. refl };
}

/// A device's action on memory, which ends reservations where it writes.
fn act_on_memory(
    ram: &mut Ram,
    reservations: &mut Reservations,
    grants: &mut Grants,
    dev: DevNo,
    action: &Action,
) -> Heard
    requires memory { ram_bytes grants.old ≡ length ram.old }
    requires action { IsAction action.now }
    requires way { way_of action.now ≡ Way.Memory }
    ensures direct { direct_action dev ram.old grants.old action.now ≡ record { heard = result; ram = ram.new; grants = grants.new } }
    ensures reservations { reservations.new ≡ reservations_after action.now result reservations.old }
{
    let heard = grants.act(ram, dev, action);
    end_written(reservations, action, &heard);
    heard
}

/// Ends the reservations that an action with this reply ends.
fn end_written(reservations: &mut Reservations, action: &Action, heard: &Heard)
    ensures { reservations.new ≡ reservations_after action.now heard.now reservations.old }
{
    match heard {
        Heard::Done => match action {
            Action::Write { addr, bytes } => {
                reservations.write_by_other(*addr, bytes.as_slice().len() as u32);
            }
            Action::Release { page, .. } => {
                let base = u64::from(*page) * u64::from(PAGE_BYTES);
                reservations.write_by_other(base, PAGE_BYTES);
            }
            _ => {}
        },
        Heard::Bytes(_) | Heard::Refused | Heard::Failed | Heard::Taken(_) => {}
    }
}

/// A device's raise of its interrupt, if it has one.
fn raise(intc: &mut Intc, grants: &Grants, dev: DevNo) -> Heard
    ensures heard { result ≡ heard_of (owns_source grants.now dev) }
    ensures raised { intc.new ≡ (if owns_source grants.now dev then raise_of intc.old (dev + 1) else intc.old) }
{
    if grants.owns_irq(dev) && intc.raise(dev.get() + 1) {
        Heard::Done
    } else {
        Heard::Refused
    }
}

/// The interrupt lines of a hart, as bits of `mip`.
fn lines_at(timer: &Timer, intc: &Intc, hart: HartNo) -> u64
    ensures { result ≡ timer_lines timer.now hart + external_line intc.now hart }
{
    timer.lines(hart) + intc.lines(hart)
}

/// Nothing is closed.
const ALL_OPEN: Closed = Closed {
    debug: false,
    loads: [false; 8],
    stores: [false; 8],
};

/// The bus of the local ports and of so many devices.
fn local_bus(alloc: Global, devices: u8) -> Result<Bus, Memory>
    requires { devices ≤ DEVICES }
    ensures { IfOk result (λ bus. bus ≡ port_ranges ++ device_ranges devices) }
{
    let mut bus = port_bus(alloc)?;
    for number in 0..devices {
        let Some(slot) = DevNo::new(number) else {
            unreachable!();
        };
        let base = 0x1000_1000 + 0x1000 * u64::from(number);
        add_port(&mut bus, alloc, base, 0x1000, Target::Device(slot))?;
    }
    Ok(bus)
}

/// The bus of the local ports.
fn port_bus(alloc: Global) -> Result<Bus, Memory>
    ensures { IfOk result (λ bus. bus ≡ port_ranges) }
{
    let mut bus = Bus::new();
    add_port(&mut bus, alloc, 0x0010_0000, 4, Target::Finisher)?;
    add_port(&mut bus, alloc, 0x0200_0000, 0xC000, Target::Timer)?;
    add_port(&mut bus, alloc, 0x0C00_0000, 0x40_0000, Target::Intc)?;
    add_port(&mut bus, alloc, 0x1000_0000, 1, Target::Debug)?;
    Ok(bus)
}

/// Adds a port to the bus, which has no other range there.
fn add_port(bus: &mut Bus, alloc: Global, base: u64, len: u32, target: Target) -> Result<(), Memory>
    requires { base + len ≤ 2 ^ 64 }
    ensures { OnOk result (bus.new ≡ bus.old ++ record { base = base; len = len; target = target } ∷ []) }
{
    match bus.add(alloc, base, len, target) {
        Ok(()) => Ok(()),
        Err(_) => Err(Memory),
    }
}

/// The low bytes of a value.
pub fn low_bytes(width: Width, value: u64) -> u64
    ensures { result ≡ value % 256 ^ width_bytes width }
{
    match width {
        Width::B1 => value & 0xff,
        Width::B2 => value & 0xffff,
        Width::B4 => value & 0xffff_ffff,
        Width::B8 => value,
    }
}

/// What a store to the finisher asks for.
pub fn finish_of_width(width: Width, value: u64) -> Option<Finish>
    ensures { result ≡ finish_by width value }
{
    match width {
        Width::B4 => finish((value & 0xffff_ffff) as u32),
        Width::B1 | Width::B2 | Width::B8 => None,
    }
}
