//! The engine of a run on one thread: a core whose harts and devices have their turns, in rounds until the run comes to its end.

ghost use Rattle.std.specs.Prelude.{◌≡◌, ◌≤◌, ◌+◌, [], None, Some, IfOk, length, replicate};
ghost use Rattle.tv_machine.specs.Valid.{IsValid};
ghost use Rattle.tv_plan.specs.Probe.{new_probe};
ghost use Rattle.tv_spec.specs.Legal.{IsLegalRun, with_outer};
ghost use Rattle.tv_spec.specs.Shows.{cause_of_end};
ghost use Rattle.tv_spec.specs.Solo.{round};
ghost use Rattle.tv_core.specs.Calls.{why_of};
ghost use Rattle.tv_core.specs.Seen.{debug_of, first_by, first_seen, setup_by};
ghost use Rattle.tv_runner.specs.Cores.{EndsBy, IsPartOf, stop_of};
ghost use Rattle.tv_runner.specs.Engines.{AreAtRest, AreDevicesDone, AreProbes, AreRounds, AreTurnsDone, IsReady, IsRoundDone, all_devices};
ghost use Rattle.tv_runner.specs.Lines.{IsGoing};
ghost use Rattle.tv_runner.specs.Parts.{all_turns};
ghost use Rattle.tv_runner.specs.Runs.{cause_by, outer_by};

use crate::line::Line;
use std::alloc::Global;
use tv_base::{DevNo, HartNo, Memory, Why};
use tv_core::Proxied;
use tv_journal::Journal;
use tv_machine::Machine;
use tv_out::{Sink, put_all};
use tv_small::Probe;
use tv_spec::Stop;

/// Events of a turn at most, and by how much time goes on in a round.
const TURN: u16 = 64;

/// A machine whose devices are probes, on one thread.
#[derive(Drop)]
pub struct Engine {
    line: Line,
    /// The devices, by slot.
    devices: Vec<Probe>,
    harts: u8,
    /// The seat of the debug port.
    seat: u16,
}

impl Engine {
    /// The engine of a machine with an image of up to `ram` bytes, before its first event.
    ///
    /// # Errors
    /// Out of memory.
    pub fn new(alloc: Global, machine: &Machine, image: &[u8]) -> Result<Engine, Memory>
        requires valid { IsValid machine.now }
        requires probes { AreProbes machine.now.device }
        requires fits { length image.now ≤ machine.now.ram }
        ensures core { IfOk result (λ engine. engine.line.core ≡ first_seen machine.now image.now) }
        ensures ready { IfOk result (λ engine. IsReady engine.line.core engine.devices.items engine.harts) }
    {
        let Some(at) = DevNo::new(0) else {
            unreachable!();
        };
        let core = Proxied::new(alloc, machine, image)?;
        let devices = new_probes(alloc, machine)?;
        let seat = u16::from(machine.harts) + machine.device.as_slice().len() as u16 + 3;
        Ok(Engine {
            line: Line { core, at },
            devices,
            harts: machine.harts,
            seat,
        })
    }

    /// Rounds until the run stops or bytes are lost. After each round its bytes are put. Whether bytes were lost, which is in the
    /// last round.
    pub fn rounds<O: Sink>(&mut self, out: &mut O) -> bool
        requires ready { IsReady self.old.line.core self.old.devices.items self.old.harts }
        requires silent { debug_of self.old.line.core ≡ [] }
        ensures rounds { AreRounds self.old.line.core self.new.line.core result (O.told out.old) (O.told out.new) }
        ensures later { (O.told out.old).faults ≤ (O.told out.new).faults }
    {
        let mut bytes = [0; 512];
        loop {
            self.line.core.is_legal();
            self.round();
            let count = self.line.core.debug_take(&mut bytes);
            let lost = put_all(out, &bytes[..count]).is_err();
            if lost || self.line.core.why().is_some() {
                return lost;
            }
        }
    }

    /// A round: the turns of all harts and of all devices, and a tick after them. It ends early where the run does.
    fn round(&mut self)
        requires ready { IsReady self.old.line.core self.old.devices.items self.old.harts }
        ensures part { IsPartOf round self.old.line.core self.new.line.core }
        ensures bytes { length (debug_of self.new.line.core) ≤ length (debug_of self.old.line.core) + 512 }
        ensures next { why_of self.new.line.core ≡ None → IsRoundDone self.old.line.core self.new.line.core self.new.devices.items }
        ensures harts { self.new.harts ≡ self.old.harts }
    {
        self.turns();
        if self.line.core.why().is_some() {
            return;
        }
        self.serve();
        if self.line.core.why().is_some() {
            return;
        }
        let _ticked = self.line.core.tick(u32::from(TURN));
        self.line.core.is_legal();
    }

    /// The turns of all harts, in the order of their numbers, until the run ends.
    fn turns(&mut self)
        requires ready { IsReady self.old.line.core self.old.devices.items self.old.harts }
        ensures part { IsPartOf all_turns self.old.line.core self.new.line.core }
        ensures bytes { length (debug_of self.new.line.core) ≤ length (debug_of self.old.line.core) + 512 }
        ensures next { why_of self.new.line.core ≡ None → AreTurnsDone self.old.line.core self.new.line.core self.new.devices.items }
        ensures harts { self.new.harts ≡ self.old.harts }
    {
        self.line.core.is_legal();
        for number in 0..self.harts {
            let Some(hart) = HartNo::new(number) else {
                unreachable!();
            };
            let _turn = self.line.core.hart_turn(hart, TURN);
            self.line.core.is_legal();
            if self.line.core.why().is_some() {
                return;
            }
        }
    }

    /// The turns of all devices, in the order of their slots, until the run ends.
    fn serve(&mut self)
        requires valid { IsValid self.old.line.core.machine }
        requires going { IsGoing self.old.line.core }
        requires rest { AreAtRest self.old.line.core self.old.devices.items }
        ensures part { IsPartOf all_devices self.old.line.core self.new.line.core }
        ensures next { why_of self.new.line.core ≡ None → AreDevicesDone self.new.line.core self.new.devices.items }
        ensures harts { self.new.harts ≡ self.old.harts }
    {
        for slot in 0..self.devices.len() {
            let Some(at) = DevNo::new(slot as u8) else {
                unreachable!();
            };
            self.line.at = at;
            self.line.turn(&mut self.devices[slot]);
            self.line.core.is_legal();
            if self.line.core.why().is_some() {
                return;
            }
        }
    }

    /// Why the run stopped; `None` exactly where it goes on.
    pub fn stop(&self) -> Option<Stop>
        ensures { result ≡ stop_of self.now.line.core }
    {
        match self.line.core.why() {
            Some(Why::Full) => Some(Stop::Full),
            Some(why) => Some(Stop::Ended(why)),
            None => None,
        }
    }

    /// The journal. A run that goes on ends now, since bytes were lost.
    pub fn into_journal(self) -> Journal
        requires ends { EndsBy (stop_of self.line.core) self.line.core }
        ensures entries { result.entries ≡ self.line.core.entries }
        ensures outer { result.outer ≡ outer_by self.line.core.entries (stop_of self.line.core) }
        ensures legal { IsLegalRun self.line.core.machine self.line.core.image result.entries result.outer }
        ensures cause { cause_of_end (setup_by self.line.core) (first_by self.line.core) (with_outer result.entries result.outer) ≡ Some (cause_by (stop_of self.line.core)) }
    {
        let Engine { line, seat, .. } = self;
        let Line { mut core, .. } = line;
        core.end(Why::DebugLost, seat);
        core.is_legal();
        core.into_journal()
    }
}

/// The probes of a machine, by slot, as a run begins.
///
/// # Errors
/// Out of memory.
pub fn new_probes(alloc: Global, machine: &Machine) -> Result<Vec<Probe>, Memory>
    ensures { IfOk result (λ probes. probes.items ≡ replicate (length machine.now.device) new_probe) }
{
    let mut probes = Vec::new(alloc);
    for _device in machine.device.as_slice() {
        let probe = Probe::new(alloc)?;
        match probes.push(probe) {
            Ok(()) => {}
            Err(_) => return Err(Memory),
        }
    }
    Ok(probes)
}
