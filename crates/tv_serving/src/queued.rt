//! What a device gives so that its queues can be served.

ghost use Rattle.std.specs.Prelude.{◌≡◌, ◌≤◌, ◌<◌, [], length, take, slice_index, IfOk, OnOk, OnErr};
ghost use Rattle.tv_base.specs.declared.limits.TheConstants.{CHAIN_BYTES};
ghost use Rattle.tv_plan.specs.Serving.{index_raised};
ghost use Rattle.tv_script.specs.Scripts.{AwaitsAll};
ghost use Rattle.tv_script.specs.Services.{TurnedSo, IsEnd};
ghost use Rattle.tv_serving.specs.Steps.{took_of};
ghost use Rattle.tv_transport.specs.Registers.{has, DRIVER_OK};
ghost use Rattle.tv_virtio.specs.Queue.{RanSo, IsServable, take_chain, give_chain};
ghost use Rattle.tv_virtio.specs.Spans.{total};
ghost use Rattle.tv_vring.specs.Rings.{taken_by};

use tv_regs::QueueRegs;
use tv_script::{Port, Turned};
use tv_vring::{QueueStop, Taken};

/// A device with queues: how its state changes as they are served, and how a service rests and fails.
pub trait Queued {
    ghost use Rattle.tv_serving.specs.Steps.{Steps};
    ghost use Rattle.tv_vring.specs.Rings.{Ring};

    ghost State: { Type 0 };

    // Its state. What lies in the buffers of its queues is no part of it.
    ghost state: { Self → State };

    ghost steps: { Steps State };

    // Its queues, with what lies in their buffers.
    ghost ring: { Self → Ring };

    // Its state before the last take, as far as it matters what that was.
    ghost before: { Self → State };

    /// Whether the driver is ready.
    fn is_ready(&self) -> bool
        ensures { result ≡ has (steps.registers (state self.now)).status DRIVER_OK };

    /// Nothing is due.
    fn rest(&mut self)
        ensures { state self.new ≡ steps.rested (state self.old) };

    /// Needs a reset, and ends the service.
    fn fail(&mut self)
        ensures { state self.new ≡ steps.broke (state self.old) };
}

/// A device that takes chains from its queues and gives them back.
pub trait Gives: Queued {
    /// Says that a buffer was used.
    fn use_buffer(&mut self)
        ensures { Self.state self.new ≡ Self.steps.told (Self.state self.old) };

    /// A broken service: the device needs a reset, and tells a driver that is ready so by an interrupt.
    fn broken<P: Port>(&mut self, port: &mut P) -> Turned
        requires awaits { AwaitsAll (P.awaits port.old) (Self.steps.broken (Self.state self.old)) }
        ensures turned { TurnedSo P.moved P.over P.stopped port.old (Self.steps.broken (Self.state self.old)) port.new (Self.state self.new) result }
        ensures end { IsEnd result }
        ensures left { P.left port.new ≤ P.left port.old };

    /// The end of a service whose interrupt was refused: no further one is raised.
    fn refused<P: Port>(&mut self, port: &mut P) -> Turned
        requires awaits { AwaitsAll (P.awaits port.old) (Self.steps.refused (Self.state self.old)) }
        ensures turned { TurnedSo P.moved P.over P.stopped port.old (Self.steps.refused (Self.state self.old)) port.new (Self.state self.new) result }
        ensures end { IsEnd result }
        ensures left { P.left port.new ≤ P.left port.old };

    /// Takes the next chain, as [`Vring::take`](tv_vring::Vring::take) does.
    ///
    /// # Errors
    /// Those of the queue. The device is then as before.
    fn take<P: Port>(&mut self, queue: &QueueRegs, port: &mut P) -> Result<Taken, QueueStop>
        requires ring { IsServable queue.now }
        requires awaits { AwaitsAll (P.awaits port.old) (take_chain queue.now (slice_index (Self.steps.last (Self.state self.old)) queue.now.number)) }
        ensures ran { RanSo P.moved P.over P.stopped port.old (take_chain queue.now (slice_index (Self.steps.last (Self.state self.old)) queue.now.number)) port.new (taken_by (Self.ring self.new) result) }
        ensures took { OnOk result (Self.state self.new ≡ Self.steps.took (Self.state self.old) (index_raised (Self.steps.last (Self.state self.old)) queue.now.number)) }
        ensures before { OnOk result (Self.steps.part (Self.before self.new) ≡ Self.steps.part (Self.state self.old)) }
        ensures same { OnErr result (Self.state self.new ≡ Self.state self.old) }
        ensures none { (Self.ring self.new).answered ≡ [] }
        ensures writable { IfOk result (λ taken. taken.writable ≡ total (Self.ring self.new).chain.writable) }
        ensures within { IfOk result (λ taken. taken.writable ≤ CHAIN_BYTES) }
        ensures lower { OnOk result (P.left port.new < P.left port.old) }
        ensures left { P.left port.new ≤ P.left port.old };

    /// Gives the chain that was taken last back, as [`Vring::give`](tv_vring::Vring::give) does.
    ///
    /// # Errors
    /// Those of the queue. The device is then as before.
    fn give<P: Port>(
        &mut self,
        queue: &QueueRegs,
        port: &mut P,
        head: u16,
        len: u32,
    ) -> Result<bool, QueueStop>
        requires ring { IsServable queue.now }
        requires answered { len ≤ length (Self.ring self.old).answered }
        requires writable { len ≤ total (Self.ring self.old).chain.writable }
        requires awaits { AwaitsAll (P.awaits port.old) (give_chain queue.now (slice_index (Self.steps.used (Self.state self.old)) queue.now.number) head (Self.ring self.old).chain.writable (take len (Self.ring self.old).answered)) }
        ensures ran { RanSo P.moved P.over P.stopped port.old (give_chain queue.now (slice_index (Self.steps.used (Self.state self.old)) queue.now.number) head (Self.ring self.old).chain.writable (take len (Self.ring self.old).answered)) port.new result }
        ensures gave { OnOk result (Self.state self.new ≡ Self.steps.gave (Self.state self.old) (index_raised (Self.steps.used (Self.state self.old)) queue.now.number)) }
        ensures same { OnErr result (Self.state self.new ≡ Self.state self.old) }
        ensures left { P.left port.new ≤ P.left port.old };
}

/// A device that does what chains ask for.
pub trait Answers: Gives {
    /// Does what the chain that was taken last asks for.
    fn answer<P: Port>(&mut self, queue: &QueueRegs, taken: Taken, port: &mut P) -> Turned
        requires ring { IsServable queue.now }
        requires none { (Self.ring self.old).answered ≡ [] }
        requires writable { taken.writable ≡ total (Self.ring self.old).chain.writable }
        requires within { taken.writable ≤ CHAIN_BYTES }
        requires awaits { AwaitsAll (P.awaits port.old) (Self.steps.part (Self.before self.old) (Self.state self.old) queue.now (took_of (Self.ring self.old) taken.head) taken.writable) }
        ensures turned { TurnedSo P.moved P.over P.stopped port.old (Self.steps.part (Self.before self.old) (Self.state self.old) queue.now (took_of (Self.ring self.old) taken.head) taken.writable) port.new (Self.state self.new) result }
        ensures left { P.left port.new ≤ P.left port.old };
}
