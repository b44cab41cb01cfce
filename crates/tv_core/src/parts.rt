//! What calls do to parts of a proxied machine.

ghost use Rattle.std.specs.Prelude.{◌≡◌, ◌≢◌, ◌↔◌, ◌<◌, ◌≤◌, ◌+◌, ℕ, [], IsTrue, IfOk, None, Some, length, replicate};
ghost use Rattle.circular_buffer.specs.Buffer.{buffer};
ghost use Rattle.tv_journal.specs.declared.Entry.TheVariants as entry;
ghost use Rattle.tv_journal.specs.Grammar.{cause_byte};
ghost use Rattle.tv_machine.specs.Valid.{IsValid};
ghost use Rattle.tv_side.specs.Sides.{new_side};
ghost use Rattle.tv_spec.specs.declared.Mode.TheVariants as mode;
ghost use Rattle.tv_spec.specs.Step.{IsOpen};
ghost use Rattle.tv_spec.specs.Shows.{exit_status};
ghost use Rattle.tv_core.specs.Seen.{seat_of, worker_seat};

use circular_buffer::HeapCircularBuffer;
use std::alloc::Global;
use tv_base::{DEBUG_RING_BYTES, DevNo, Memory, Why};
use tv_guest::Guest;
use tv_journal::Journal;
use tv_machine::Machine;
use tv_side::Side;
use tv_spec::Mode;

/// Whether the run has ended.
pub fn has_ended(guest: &Guest) -> bool
    ensures { IsTrue result ↔ (IsOpen guest.now.mode → ⊥) }
{
    matches!(guest.mode(), Mode::Ending(_))
}

/// The run ends for want of room in its journal.
pub fn fill(guest: &mut Guest, journal: &mut Journal)
    requires { journal.old.outer ≡ None }
    ensures guest { guest.new ≡ record guest.old { mode = Mode.Ending Why.Full } }
    ensures journal { journal.new ≡ record journal.old { outer = Some (length journal.old.entries, Why.Full) } }
{
    guest.end(Why::Full);
    journal.end(Why::Full);
}

/// The run ends, for a cause that no entry has.
pub fn stop(guest: &mut Guest, journal: &mut Journal, why: &Why)
    requires none { journal.old.outer ≡ None }
    requires cause { cause_byte why.now ≢ None }
    ensures guest { guest.new ≡ record guest.old { mode = Mode.Ending why.now } }
    ensures journal { journal.new ≡ record journal.old { outer = Some (length journal.old.entries, why.now) } }
{
    guest.end(*why);
    journal.end(*why);
}

/// The exit status of a run that ended for this cause.
pub fn exit_status(why: Why) -> u8
    ensures { result ≡ exit_status why }
{
    match why {
        Why::PowerOff | Why::Stopped => 0,
        Why::Failed(_) => 1,
        Why::Lost(_) | Why::DebugLost => 5,
        Why::Steps => 6,
        Why::Full => 7,
        Why::ListenFailed => 10,
        Why::CrewRefused => 11,
    }
}

/// The seat of a device's worker.
pub fn worker_seat(machine: &Machine, dev: DevNo) -> u16
    ensures { result ≡ worker_seat machine.now dev }
{
    u16::from(machine.harts) + u16::from(dev.get()) + 1
}

/// The seat of the clock.
pub fn clock_seat(machine: &Machine) -> u16
    requires { length machine.now.device ≤ 8 }
    ensures { (n : ℕ) → result ≡ seat_of machine.now (entry.Tick n) }
{
    u16::from(machine.harts) + machine.device.as_slice().len() as u16 + 4
}

/// The sides of a machine's devices, at which nothing was made.
///
/// # Errors
/// Out of memory.
pub fn new_sides(alloc: Global, machine: &Machine) -> Result<Vec<Side>, Memory>
    requires { IsValid machine.now }
    ensures { IfOk result (λ sides. sides.items ≡ replicate (length machine.now.device) (new_side machine.now.tube)) }
{
    let mut sides = Vec::new(alloc);
    for _device in machine.device.as_slice() {
        match Side::new(alloc, machine.tube) {
            Ok(side) => match sides.push(side) {
                Ok(()) => {}
                Err(_) => return Err(Memory),
            },
            Err(Memory) => return Err(Memory),
        }
    }
    Ok(sides)
}

/// A ring of debug bytes, with none in it.
///
/// # Errors
/// Out of memory.
pub fn new_ring(alloc: Global) -> Result<HeapCircularBuffer<u8>, Memory>
    ensures { IfOk result (λ ring. ring ≡ buffer [] DEBUG_RING_BYTES) }
{
    HeapCircularBuffer::with_capacity(alloc, DEBUG_RING_BYTES).map_err(|_| Memory)
}
