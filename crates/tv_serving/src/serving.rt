//! How a queue is served.

ghost use Rattle.std.specs.Prelude.{◌≤◌, length, take};
ghost use Rattle.tv_script.specs.Scripts.{AwaitsAll};
ghost use Rattle.tv_script.specs.Services.{TurnedSo, IsLower, IsEnd};
ghost use Rattle.tv_serving.specs.Steps.{took_of, break_off, stopped, finish, hand, round};
ghost use Rattle.tv_serving.specs.Stops.{AwaitsStop, StoppedSo};
ghost use Rattle.tv_virtio.specs.Queue.{IsServable};
ghost use Rattle.tv_virtio.specs.Spans.{total};

use crate::queued::{Answers, Gives, Queued};
use tv_items::{Action, Heard};
use tv_regs::QueueRegs;
use tv_script::{Ended, Port, Turned};
use tv_vring::QueueStop;

/// The device needs a reset, and tells a driver that is ready so by an interrupt.
#[tactic(auto, using(tv_script::proofs::Scripts::awaits_now, tv_script::proofs::Scripts::cut_here, tv_script::proofs::Scripts::reached_here), unfolding(tv_script::specs::Scripts::Follows))]
pub fn break_off<D: Queued, P: Port>(device: &mut D, port: &mut P) -> Turned
    requires awaits { AwaitsAll (P.awaits port.old) (break_off D.steps (D.state device.old)) }
    ensures turned { TurnedSo P.moved P.over P.stopped port.old (break_off D.steps (D.state device.old)) port.new (D.state device.new) result }
    ensures end { IsEnd result }
    ensures left { P.left port.new ≤ P.left port.old }
{
    let is_ready = device.is_ready();
    device.fail();
    if !is_ready {
        return Turned::Idle;
    }
    match port.ask(&Action::Raise) {
        Ok(_) => Turned::Idle,
        Err(Ended) => Turned::Ended,
    }
}

/// What a call of a queue means that gave no value: where no chain is left the service ends, and any other stop breaks it.
#[tactic(auto, using(tv_script::proofs::Scripts::reached_here))]
pub fn stopped<D: Gives, P: Port>(device: &mut D, why: QueueStop, port: &mut P) -> Turned
    requires awaits { AwaitsStop (P.awaits port.old) why (stopped D.steps (D.state device.old) why) }
    ensures turned { StoppedSo P.moved P.over P.stopped port.old why (stopped D.steps (D.state device.old) why) port.new (D.state device.new) result }
    ensures end { IsEnd result }
    ensures left { P.left port.new ≤ P.left port.old }
{
    match why {
        QueueStop::Ended => Turned::Ended,
        QueueStop::Empty => {
            device.rest();
            Turned::Idle
        }
        QueueStop::Refused => device.broken(port),
        QueueStop::Malformed(_, _) => device.broken(port),
    }
}

/// The end of a round whose chain was given back: the driver learns so by an interrupt, where it wants one.
#[tactic(auto, using(tv_script::proofs::Scripts::awaits_now, tv_script::proofs::Scripts::cut_here, tv_script::proofs::Scripts::reached_here), unfolding(tv_script::specs::Scripts::Follows))]
pub fn finish<D: Gives, P: Port>(device: &mut D, wanted: bool, port: &mut P) -> Turned
    requires awaits { AwaitsAll (P.awaits port.old) (finish D.steps (D.state device.old) wanted) }
    ensures turned { TurnedSo P.moved P.over P.stopped port.old (finish D.steps (D.state device.old) wanted) port.new (D.state device.new) result }
    ensures left { P.left port.new ≤ P.left port.old }
{
    device.use_buffer();
    if wanted {
        match port.ask(&Action::Raise) {
            Ok(Heard::Done) => Turned::Again,
            Ok(_) => device.refused(port),
            Err(Ended) => Turned::Ended,
        }
    } else {
        Turned::Again
    }
}

/// Gives the chain that was taken last back, with the first `len` answered bytes.
#[tactic(auto, using(tv_script::proofs::Scripts::caught_awaits, tv_script::proofs::Scripts::awaits_value, tv_script::proofs::Turns::turned_value, crate::proofs::Caught::stop_awaited, crate::proofs::Caught::stop_turned))]
pub fn hand<D: Gives, P: Port>(
    device: &mut D,
    queue: &QueueRegs,
    head: u16,
    len: u32,
    port: &mut P,
) -> Turned
    requires ring { IsServable queue.now }
    requires answered { len ≤ length (D.ring device.old).answered }
    requires writable { len ≤ total (D.ring device.old).chain.writable }
    requires awaits { AwaitsAll (P.awaits port.old) (hand D.steps (D.state device.old) queue.now (took_of (D.ring device.old) head) (take len (D.ring device.old).answered)) }
    ensures turned { TurnedSo P.moved P.over P.stopped port.old (hand D.steps (D.state device.old) queue.now (took_of (D.ring device.old) head) (take len (D.ring device.old).answered)) port.new (D.state device.new) result }
    ensures left { P.left port.new ≤ P.left port.old }
{
    match device.give(queue, port, head, len) {
        Ok(wanted) => finish(device, wanted, port),
        Err(why) => stopped(device, why, port),
    }
}

/// Takes the next chain, and does what it asks for.
#[tactic(auto, using(tv_script::proofs::Scripts::caught_awaits, tv_script::proofs::Scripts::awaits_value, tv_script::proofs::Turns::turned_value, tv_script::proofs::Turns::lower_end, crate::proofs::Caught::stop_awaited, crate::proofs::Caught::stop_turned))]
pub fn serve_chain<D: Answers, P: Port>(device: &mut D, queue: &QueueRegs, port: &mut P) -> Turned
    requires ring { IsServable queue.now }
    requires awaits { AwaitsAll (P.awaits port.old) (round D.steps (D.state device.old) queue.now) }
    ensures turned { TurnedSo P.moved P.over P.stopped port.old (round D.steps (D.state device.old) queue.now) port.new (D.state device.new) result }
    ensures lower { IsLower (P.left port.old) (P.left port.new) result }
{
    match device.take(queue, port) {
        Ok(taken) => device.answer(queue, taken, port),
        Err(why) => stopped(device, why, port),
    }
}
