//! The machine with the worker of one device.

ghost use Rattle.std.specs.Prelude.{◌≡◌, ◌≤◌, ◌<◌, length, slice_get};
ghost use Rattle.tv_machine.specs.Valid.{IsValid};
ghost use Rattle.tv_plan.specs.Devices.{DeviceState, act};
ghost use Rattle.tv_plan.specs.Probe.{new_probe};
ghost use Rattle.tv_port.specs.Acting.{ActedSo};
ghost use Rattle.tv_spec.specs.State.{first_in};
ghost use Rattle.tv_probed.specs.Keeping.{value_due};

use crate::calls;
use std::alloc::Global;
use std::marker::Model;
use tv_base::{DevNo, HartNo, Memory, Why};
use tv_core::{Proxied, Turn};
use tv_items::{Heard, Item, Way};
use tv_journal::Journal;
use tv_machine::Machine;
use tv_port::{Acted, Device, next_after, repeat};
use tv_small::Probe;

/// A proxied machine and the worker of one device of it, a probe. A call of the worker does nothing where the worker may not make it.
#[derive(Drop)]
pub struct Probed {
    core: Proxied,
    dev: DevNo,
    /// How many harts the machine has.
    harts: u8,
    /// The device where it last acted.
    probe: Probe,
    /// The replies that the worker got since then.
    heard: Vec<Heard>,
    /// Whether an action is under way.
    busy: bool,
    /// The value that the worker owes, after the tag of its load.
    due: Option<(u32, u64)>,
}

impl Model for Probed {
    ghost use Rattle.tv_core.specs.Seen.{Seen};
    ghost use Rattle.tv_plan.specs.Devices.{DeviceState};
    ghost use Rattle.tv_probed.specs.Keeping.{Keeps};

    ghost Value = { Seen };

    ghost view = { λ p. p.core };

    ghost invariant = { λ p. Keeps p.core p.dev p.harts (DeviceState.Probe p.probe) p.heard.items p.busy p.due };
}

impl Probed {
    /// A machine with an image as a run begins, and the worker of the probe in a slot.
    ///
    /// # Errors
    /// Out of memory.
    pub fn new(alloc: Global, machine: &Machine, image: &[u8], dev: DevNo) -> Result<Probed, Memory>
        requires valid { IsValid machine.now }
        requires fits { length image.now ≤ machine.now.ram }
        requires device { dev < length machine.now.device }
        requires probe { first_in dev (slice_get machine.now.device dev) ≡ DeviceState.Probe new_probe }
    {
        Ok(Probed {
            core: Proxied::new(alloc, machine, image)?,
            dev,
            harts: machine.harts,
            probe: Probe::new(alloc)?,
            heard: Vec::new(alloc),
            busy: false,
            due: None,
        })
    }

    /// The device takes its next item and acts on it; `false` where it may not, or there is none.
    pub fn take(&mut self) -> bool {
        if self.busy || self.due.is_some() {
            return false;
        }
        let mut probe = self.probe;
        if repeat(&mut probe, self.heard.as_slice()).is_some() {
            return false;
        }
        let Some((tag, item)) = calls::take(&mut self.core, self.dev) else {
            return false;
        };
        let acted = act_on(&mut probe, tag, &item);
        self.probe = probe;
        self.heard.clear();
        self.due = due_for(tag, &item, acted.value);
        true
    }

    /// The worker asks for the device's next action; `false` where it asks for none, or the run has ended.
    pub fn send(&mut self) -> bool {
        if self.busy {
            return false;
        }
        let mut probe = self.probe;
        let Some(action) = repeat(&mut probe, self.heard.as_slice()) else {
            return false;
        };
        if action.way() == Way::Outside {
            return false;
        }
        self.busy = calls::send(&mut self.core, self.dev, &action);
        self.busy
    }

    /// The worker gets the reply to its action; `false` where there is none.
    ///
    /// # Errors
    /// Out of memory.
    pub fn got(&mut self) -> Result<bool, Memory> {
        self.heard.reserve(1).map_err(|_| Memory)?;
        let Some(heard) = calls::got(&mut self.core, self.dev) else {
            return Ok(false);
        };
        self.heard.push_reserved(heard);
        self.busy = false;
        Ok(true)
    }

    /// The worker replies to the load that its device acted on; `false` where there is none.
    pub fn reply(&mut self) -> bool {
        let Some((tag, value)) = self.due else {
            return false;
        };
        calls::reply(&mut self.core, self.dev, tag, value);
        self.due = None;
        true
    }

    /// The memory service serves the device.
    pub fn serve_mem(&mut self) -> bool {
        calls::serve_mem(&mut self.core, self.dev)
    }

    /// The interrupt service serves the device.
    pub fn serve_irq(&mut self) -> bool {
        calls::serve_irq(&mut self.core, self.dev)
    }

    /// The oldest reply of the device is delivered.
    pub fn deliver(&mut self) -> bool {
        calls::deliver(&mut self.core, self.dev)
    }

    /// A turn of a hart; `None` where the machine has no such hart, the turn has no event, or an outer end was made before.
    pub fn turn(&mut self, hart: HartNo, most: u16) -> Option<Turn> {
        if most == 0 || hart.get() >= self.harts || self.core.outer().is_some() {
            return None;
        }
        Some(calls::hart_turn(&mut self.core, self.dev, hart, most))
    }

    /// Time goes on by 64.
    pub fn tick(&mut self) -> bool {
        calls::tick(&mut self.core, self.dev, 64)
    }

    /// The output of the debug port failed.
    pub fn lose(&mut self) {
        calls::end(&mut self.core, self.dev, Why::DebugLost, 0);
    }

    /// A listener failed.
    pub fn cut_off(&mut self) {
        calls::end(&mut self.core, self.dev, Why::ListenFailed, 0);
    }

    /// The debug bytes that were not handed out, as many as fit; how many there are.
    pub fn debug_take(&mut self, out: &mut [u8]) -> usize
        ensures { result ≤ length out.old }
    {
        calls::debug_take(&mut self.core, self.dev, out)
    }

    /// The cause for which the run ended; `None` where it goes on.
    pub fn why(&self) -> Option<Why> {
        self.core.why()
    }

    /// The exit status of the run; `None` where it goes on.
    pub fn status(&self) -> Option<u8> {
        self.core.status()
    }

    /// A turn of a hart for one event, also where an outer end was made, and the journal of the run after it; `None` where the machine
    /// has no such hart.
    pub fn last_turn(self, hart: HartNo) -> Option<(Turn, Journal)> {
        if hart.get() >= self.harts {
            return None;
        }
        let mut core = self.core;
        let turn = core.hart_turn(hart, 1);
        Some((turn, core.into_journal()))
    }
}

/// A probe acts on an item; it makes nothing of a resize, as of a request for statistics.
#[tactic(auto, unfolding(tv_plan::specs::Devices::act))]
fn act_on(probe: &mut Probe, tag: u32, item: &Item) -> Acted
    ensures { ActedSo (act (DeviceState.Probe probe.old) tag item.now) (DeviceState.Probe probe.new) result }
{
    match item {
        Item::Resize { .. } => probe.act(tag, &Item::Stats),
        _ => probe.act(tag, item),
    }
}

/// The value that is owed for an item: that of a load.
fn due_for(tag: u32, item: &Item, value: u64) -> Option<(u32, u64)>
    ensures { result ≡ value_due tag item.now value }
{
    match item {
        Item::Load { .. } => Some((tag, value)),
        _ => None,
    }
}
