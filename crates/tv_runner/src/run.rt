//! A run on one thread, from its first round to its end.

ghost use Rattle.std.specs.Prelude.{◌≡◌, ◌≤◌, IfOk, OnErr, length};
ghost use Rattle.tv_machine.specs.Valid.{IsValid};
ghost use Rattle.tv_runner.specs.Engines.{AreProbes};
ghost use Rattle.tv_runner.specs.Runs.{IsRun};

use crate::engine::Engine;
use std::alloc::Global;
use tv_base::Memory;
use tv_journal::Journal;
use tv_machine::Machine;
use tv_out::Sink;
use tv_spec::Stop;

/// What a run came to.
#[derive(Drop)]
pub struct Ran {
    /// Its entries, with the end that no entry made.
    pub journal: Journal,
    /// Why it stopped; `None` where it was cut short since bytes were lost.
    pub stop: Option<Stop>,
    /// Whether a put of its bytes failed. That was in its last round.
    pub lost: bool,
}

/// Runs a machine whose devices are probes, with an image of up to `ram` bytes, on one thread, in rounds: up to 64 events of each
/// hart in the order of their numbers, then all that each device can do in the order of their slots, then a tick of 64. After each
/// round the bytes that it showed at the debug port are put.
///
/// The run stops where an event ends it, which comes after at most `steps` events, or where an entry finds no room in the
/// journal. A round whose bytes could not be put is its last.
///
/// # Errors
/// Out of memory. Nothing was put then.
pub fn solo<O: Sink>(
    alloc: Global,
    machine: &Machine,
    image: &[u8],
    out: &mut O,
) -> Result<Ran, Memory>
    requires valid { IsValid machine.now }
    requires probes { AreProbes machine.now.device }
    requires fits { length image.now ≤ machine.now.ram }
    ensures ran { IfOk result (λ ran. IsRun machine.now image.now ran (O.told out.old) (O.told out.new)) }
    ensures unchanged { OnErr result (O.told out.new ≡ O.told out.old) }
    ensures later { (O.told out.old).faults ≤ (O.told out.new).faults }
{
    let mut engine = Engine::new(alloc, machine, image)?;
    let lost = engine.rounds(out);
    let stop = engine.stop();
    Ok(Ran {
        journal: engine.into_journal(),
        stop,
        lost,
    })
}
