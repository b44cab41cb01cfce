//! Harts, memory and local ports, which move by the events of harts.

ghost use Rattle.std.specs.Prelude.{◌≡◌, ◌≢◌, ◌<◌, ◌≤◌, ◌↔◌, IsTrue, IfOk, length, slice_index_or, slice_set};
ghost use Rattle.tv_hart.specs.Hart.{finished, first_hart};
ghost use Rattle.tv_machine.specs.Valid.{IsValid};
ghost use Rattle.tv_spec.specs.LocalState.{after_tick};
ghost use Rattle.tv_grants.specs.Grants.{ram_bytes};
ghost use Rattle.tv_items.specs.Fits.{IsAction, way_of};
ghost use Rattle.tv_spec.specs.Direct.{direct};
ghost use Rattle.tv_guest.specs.Direct.{granted_to};
ghost use Rattle.tv_spec.specs.Step.{mode_by, end_at, end_shown};
ghost use Rattle.tv_guest.specs.Burst.{IsBurstOf};
ghost use Rattle.tv_guest.specs.Guest.{IsFirst, AreFirst};
ghost use Rattle.tv_guest.specs.Looks.{LooksSo};

use crate::burst::run_events;
use crate::local::Local;
use crate::peek::look;
use std::alloc::Global;
use std::marker::Model;
use tv_base::{DevNo, HartNo, Memory, RAM_BASE, Why};
use tv_grants::Grants;
use tv_hart::Hart;
use tv_intc::Finish;
use tv_items::{Action, Heard, Way};
use tv_machine::Machine;
use tv_ram::Ram;
use tv_spec::{Closed, Mode, Shown};

/// Harts, and what they reach.
#[derive(Drop)]
pub struct Guest {
    harts: Vec<Hart>,
    local: Local,
    mode: Mode,
    events: u32,
    steps: u32,
}

impl Model for Guest {
    ghost use Rattle.tv_guest.specs.GuestState.{GuestState};

    ghost Value = { GuestState };

    ghost use Rattle.tv_guest.specs.Guest.{IsGuest};

    ghost view = { λ g. record { steps = g.steps; harts = g.harts.items; local = g.local.local; mode = g.mode; events = g.events } };

    ghost invariant = { λ g. IsGuest g.harts.items g.local.shown g.mode g.events g.steps };
}

impl Guest {
    /// The guest of a machine with an image of up to `ram` bytes, as a run begins.
    ///
    /// # Errors
    /// Want of memory.
    pub fn new(alloc: Global, machine: &Machine, image: &[u8]) -> Result<Guest, Memory>
        requires valid { IsValid machine.now }
        requires fits { length image.now ≤ machine.now.ram }
        ensures { IfOk result (λ guest. IsFirst guest machine.now image.now) }
    {
        let mut ram = match Ram::new(alloc, machine.ram) {
            Ok(ram) => ram,
            Err(_) => return Err(Memory),
        };
        let _loaded = ram.write(RAM_BASE, image);
        let devices = machine.device.as_slice().len() as u8;
        let local = Local::new(alloc, ram, machine.harts, devices)?;
        let harts = first_harts(alloc, machine.harts)?;
        Ok(Guest {
            harts,
            local,
            mode: Mode::Running,
            events: 0,
            steps: machine.steps,
        })
    }

    /// Whether the run goes on. It does so below its limit of events alone.
    pub fn mode(&self) -> Mode
        ensures mode { result ≡ self.now.mode }
        ensures within { result ≡ Mode.Running → self.now.events < self.now.steps }
    {
        self.mode
    }

    /// How many harts there are.
    pub fn harts(&self) -> u8
        ensures count { result ≡ length self.now.harts }
        ensures few { result ≤ 8 }
    {
        self.harts.len() as u8
    }

    /// A burst: up to `most` events of a hart, while this is closed, and what the last one showed. None is made where there is no
    /// such hart, the hart waits for a load, or the run doesn't go on. The burst is shorter than asked for where the last event
    /// showed something, the run ended, or one more event needs what is closed.
    #[tactic(auto, using(crate::proofs::Guests::none_there, crate::proofs::Guests::none_running, crate::proofs::Guests::none_ready))]
    pub fn burst(&mut self, hart: HartNo, most: u32, closed: &Closed) -> (u32, Shown)
        ensures { IsBurstOf self.old self.new hart most closed.now result.0 result.1 }
    {
        let number = usize::from(hart.get());
        if number >= self.harts.len() {
            return (0, Shown::Nothing);
        }
        if !is_running(self.mode) {
            return (0, Shown::Nothing);
        }
        if self.harts[number].waits() {
            return (0, Shown::Nothing);
        }
        self.local.close(closed);
        let left = self.steps - self.events;
        let made = run_events(
            &mut self.harts[number],
            &mut self.local,
            hart,
            most.min(left),
        );
        if made.0 == 0 {
            return made;
        }
        self.events += made.0;
        self.mode = mode_after(made.1, self.events == self.steps);
        made
    }

    /// What the next event of a hart would show where nothing is closed. No event is made. It is nothing where the hart would make
    /// none, since it isn't there, waits for a load, or the run doesn't go on.
    #[cold]
    pub fn looks(&self, hart: HartNo) -> Shown
        ensures { LooksSo self.now hart result }
    {
        let number = usize::from(hart.get());
        if number >= self.harts.len() {
            return Shown::Nothing;
        }
        if !is_running(self.mode) {
            return Shown::Nothing;
        }
        if self.harts[number].waits() {
            return Shown::Nothing;
        }
        look(&self.harts[number], &self.local, hart)
    }

    /// The value of the load that a hart waits for reaches it; of the value the low bytes of the load's width count. Nothing is
    /// changed where there is no such hart or it waits for none.
    pub fn finish(&mut self, hart: HartNo, value: u64)
        ensures { self.new ≡ record self.old { harts = slice_set self.old.harts hart (finished (slice_index_or self.old.harts hart (first_hart hart)) value) } }
    {
        let number = usize::from(hart.get());
        if number < self.harts.len() && self.harts[number].waits() {
            self.harts[number].finish_load(value);
        }
    }

    /// A device's action on memory or interrupts: it is done where the device's grants allow it, and otherwise refused, which changes
    /// nothing. The grants are those of this guest's memory.
    pub fn act(&mut self, grants: &mut Grants, dev: DevNo, action: &Action) -> Heard
        requires memory { ram_bytes grants.old ≡ length self.old.local.ram }
        requires action { IsAction action.now }
        requires way { way_of action.now ≢ Way.Outside }
        ensures direct { direct (granted_to grants.old dev) dev self.old.local grants.old.withdrawn action.now ≡ record { heard = result; local = self.new.local; withdrawn = grants.new.withdrawn } }
        ensures grants { grants.new ≡ record grants.old { withdrawn = grants.new.withdrawn } }
        ensures guest { self.new ≡ record self.old { local = self.new.local } }
    {
        self.local.act(grants, dev, action)
    }

    /// Time goes on by `n`.
    pub fn tick(&mut self, n: u32)
        ensures { self.new ≡ record self.old { local = after_tick self.old.local n } }
    {
        self.local.tick(n);
    }

    /// The run ends, for this cause.
    pub fn end(&mut self, why: Why)
        ensures { self.new ≡ record self.old { mode = Mode.Ending why } }
    {
        self.mode = Mode::Ending(why);
    }
}

/// Harts at their start.
fn first_harts(alloc: Global, count: u8) -> Result<Vec<Hart>, Memory>
    requires { count ≤ 8 }
    ensures { IfOk result (λ harts. AreFirst harts.items count) }
{
    let mut harts = Vec::new(alloc);
    for number in 0..count {
        let Some(hart) = HartNo::new(number) else {
            unreachable!();
        };
        match harts.push(Hart::new(hart)) {
            Ok(()) => {}
            Err(_) => return Err(Memory),
        }
    }
    Ok(harts)
}

/// Whether a run goes on.
fn is_running(mode: Mode) -> bool
    ensures { IsTrue result ↔ (mode ≡ Mode.Running) }
{
    matches!(mode, Mode::Running)
}

/// The mode after an event, which may be the last one that a run may have.
fn mode_after(shown: Shown, last: bool) -> Mode
    ensures { result ≡ mode_by (end_at last (end_shown shown)) }
{
    match shown {
        Shown::Finish(Finish::Off) => Mode::Ending(Why::PowerOff),
        Shown::Finish(Finish::Failed(code)) => Mode::Ending(Why::Failed(code)),
        Shown::Nothing | Shown::Byte(_) | Shown::Access(_, _) if last => Mode::Ending(Why::Steps),
        Shown::Nothing | Shown::Byte(_) | Shown::Access(_, _) => Mode::Running,
    }
}
