//! The console (VIRTIO 1.2, section 5.3): the bytes of each chain of its queue 1 go out, and bytes that come in go to the
//! chains of its queue 0.

ghost use Rattle.std.specs.Prelude.{◌≡◌, ◌≤◌, true, [], length, take, IfOk};
ghost use Rattle.tv_base.specs.declared.limits.TheConstants.{PIECE_BYTES};
ghost use Rattle.tv_script.specs.Scripts.{AwaitsAll};
ghost use Rattle.tv_script.specs.Services.{TurnedSo};
ghost use Rattle.tv_script.specs.declared.service.Turned.{Turned};
ghost use Rattle.tv_virtio.specs.Spans.{total};
ghost use Rattle.tv_virtio.specs.Queue.{IsServable};
ghost use Rattle.tv_transport.specs.declared.registers.Effect.TheVariants as effect;
ghost use Rattle.tv_regs.specs.Effects.{IsOfQueue};
ghost use Rattle.tv_plan.specs.Console.{new_console, console_effect, console_acted, console_loaded, console_rested, received, receive, sent, transmit};
ghost use Rattle.tv_serving.specs.Steps.{took_of};
ghost use Rattle.tv_console.specs.Parts.{state_of, kept_of};

use crate::streams::{input, put_all};
use std::alloc::Global;
use std::marker::Model;
use tv_base::{Memory, PIECE_BYTES};
use tv_port::{Acted, Bytes, Device, Item, Port, Rounds, Served, Turned, serve_rounds};
use tv_regs::{Effect, QueueRegs, Regs};
use tv_serving::{
    Answers, Gives, Queued, break_off, hand, is_ready, notified, serve_chain, stopped,
};
use tv_transport::VERSION_1;
use tv_vring::{QueueStop, Taken, Vring};

/// The device type of a console (VIRTIO 1.2, section 5).
const CONSOLE: u32 = 3;
/// The number of the queue whose chains take what comes in. The other one's hold what goes out.
const RECEIVE: u16 = 0;

/// A console with one port. A chain of its queue 0 takes up to [`PIECE_BYTES`] bytes of the input; where the input is at its
/// end the chain stays with the driver, and queue 0 is served no more. The readable bytes of a chain of its queue 1 go out.
#[derive(Drop)]
pub struct Console {
    regs: Regs,
    ring: Vring,
    /// Whether the input was found to be at its end. A reset does not change it.
    ended: bool,
    /// The queue whose service is due or under way.
    serving: Option<QueueRegs>,
}

impl Model for Console {
    ghost use Rattle.std.specs.Prelude.{◌≤◌, All, length, IfSome};
    ghost use Rattle.tv_virtio.specs.Queue.{IsServable};
    ghost use Rattle.tv_console.specs.Parts.{Parts, IsIndex};

    ghost Value = { Parts };

    ghost view = { λ c. record { registers = c.regs; ring = c.ring; ended = c.ended; serving = c.serving } };

    ghost invariant = { λ c. (length c.regs.queues ≤ 3) × IfSome c.serving IsServable × All IsIndex c.ring.last };
}

impl Console {
    /// A console that no driver has set up, with the buffers of its queues. No other call but [`Device::copy`] takes memory.
    ///
    /// # Errors
    /// [`Memory`] where there is no memory for the buffers.
    pub fn new(alloc: Global) -> Result<Console, Memory>
        ensures { IfOk result (λ c. state_of c ≡ new_console) }
    {
        Ok(Console {
            regs: Regs::new(CONSOLE, VERSION_1, 2),
            ring: Vring::new(alloc)?,
            ended: false,
            serving: None,
        })
    }

    /// Acts on an item, and gives the value of a load; 0 for other items.
    fn item(&mut self, item: &Item) -> u64
        ensures state { state_of self.new ≡ console_acted (state_of self.old) item.now }
        ensures value { result ≡ console_loaded (state_of self.old) item.now }
    {
        self.rest();
        match *item {
            Item::Load { width, off } => self.regs.read(off, width, &[]),
            Item::Store { width, off, value } => {
                let effect = self.regs.write(off, width, value);
                self.follow(effect);
                0
            }
            Item::Target { .. } | Item::Stats | Item::Resize { .. } => 0,
        }
    }

    /// Does what a store means for the device.
    #[tactic(auto, using(crate::proofs::States::indices_fresh))]
    fn follow(&mut self, effect: Effect)
        requires there { IsOfQueue (length self.old.registers.queues) effect }
        ensures { state_of self.new ≡ console_effect (state_of self.old) effect }
    {
        match effect {
            Effect::Ready(number) => self.ring.fresh(number),
            Effect::Notify(number) => self.notify(number),
            Effect::None | Effect::Reset | Effect::Config => {}
        }
    }

    /// A notification begins a service of the queue with a number, where there is such a queue and the device may serve it.
    fn notify(&mut self, number: u16)
        ensures { state_of self.new ≡ console_effect (state_of self.old) (effect.Notify number) }
    {
        if self.ended && number == RECEIVE {
            self.serving = None;
        } else {
            self.serving = notified(&self.regs, number);
        }
    }

    /// The input is at its end: the chain that was taken last is kept, and the service ends.
    #[tactic(auto, using(crate::proofs::States::indices_kept))]
    fn end_input(&mut self) -> Turned
        ensures idle { result ≡ Turned.Idle }
        ensures state { state_of self.new ≡ (record (console_rested (kept_of self.old)) { ended = true }) }
    {
        self.ring.keep();
        self.ended = true;
        self.rest();
        Turned::Idle
    }

    /// Answers the chain that was taken last with what came in.
    fn received<P: Port>(
        &mut self,
        queue: &QueueRegs,
        head: u16,
        bytes: &Bytes,
        port: &mut P,
    ) -> Turned
        requires ring { IsServable queue.now }
        requires none { self.old.ring.answered ≡ [] }
        requires writable { length bytes.now ≤ total self.old.ring.chain.writable }
        requires awaits { AwaitsAll (P.awaits port.old) (received (kept_of self.old) (state_of self.old) queue.now (took_of self.old.ring head) bytes.now) }
        ensures turned { TurnedSo P.moved P.over P.stopped port.old (received (kept_of self.old) (state_of self.old) queue.now (took_of self.old.ring head) bytes.now) port.new (state_of self.new) result }
        ensures left { P.left port.new ≤ P.left port.old }
    {
        let bytes = bytes.as_slice();
        if bytes.is_empty() {
            return self.end_input();
        }
        self.ring.answer(bytes);
        hand(self, queue, head, bytes.len() as u32, port)
    }

    /// Takes at most `most` bytes of the input for the chain that was taken last; a chain that may be written no byte goes
    /// back at once.
    #[tactic(auto, using(tv_script::proofs::Scripts::caught_awaits, tv_script::proofs::Scripts::awaits_value, tv_script::proofs::Turns::turned_value, tv_serving::proofs::Caught::stop_awaited, tv_serving::proofs::Caught::stop_turned))]
    fn receive<P: Port>(&mut self, queue: &QueueRegs, head: u16, most: u16, port: &mut P) -> Turned
        requires ring { IsServable queue.now }
        requires none { self.old.ring.answered ≡ [] }
        requires writable { most ≤ total self.old.ring.chain.writable }
        requires piece { most ≤ PIECE_BYTES }
        requires awaits { AwaitsAll (P.awaits port.old) (receive (kept_of self.old) (state_of self.old) queue.now (took_of self.old.ring head) most) }
        ensures turned { TurnedSo P.moved P.over P.stopped port.old (receive (kept_of self.old) (state_of self.old) queue.now (took_of self.old.ring head) most) port.new (state_of self.new) result }
        ensures left { P.left port.new ≤ P.left port.old }
    {
        if most == 0 {
            return hand(self, queue, head, 0, port);
        }
        match input(port, most) {
            Ok(bytes) => self.received(queue, head, &bytes, port),
            Err(why) => stopped(self, why, port),
        }
    }

    /// Gives the chain that was taken last back with nothing written, where all its bytes went out.
    #[tactic(auto, using(tv_script::proofs::Scripts::reached_here))]
    fn sent<P: Port>(&mut self, queue: &QueueRegs, head: u16, is_done: bool, port: &mut P) -> Turned
        requires ring { IsServable queue.now }
        requires awaits { AwaitsAll (P.awaits port.old) (sent (state_of self.old) queue.now (took_of self.old.ring head) is_done) }
        ensures turned { TurnedSo P.moved P.over P.stopped port.old (sent (state_of self.old) queue.now (took_of self.old.ring head) is_done) port.new (state_of self.new) result }
        ensures left { P.left port.new ≤ P.left port.old }
    {
        if is_done {
            hand(self, queue, head, 0, port)
        } else {
            self.rest();
            Turned::Lost
        }
    }

    /// Puts out the readable bytes of the chain that was taken last.
    #[tactic(auto, using(tv_script::proofs::Scripts::caught_awaits, tv_script::proofs::Scripts::awaits_value, tv_script::proofs::Turns::turned_value, tv_serving::proofs::Caught::stop_awaited, tv_serving::proofs::Caught::stop_turned))]
    fn transmit<P: Port>(&mut self, queue: &QueueRegs, head: u16, port: &mut P) -> Turned
        requires ring { IsServable queue.now }
        requires awaits { AwaitsAll (P.awaits port.old) (transmit (state_of self.old) queue.now (took_of self.old.ring head)) }
        ensures turned { TurnedSo P.moved P.over P.stopped port.old (transmit (state_of self.old) queue.now (took_of self.old.ring head)) port.new (state_of self.new) result }
        ensures left { P.left port.new ≤ P.left port.old }
    {
        match put_all(self.ring.readable(), port) {
            Ok(is_done) => self.sent(queue, head, is_done, port),
            Err(why) => stopped(self, why, port),
        }
    }
}

impl Queued for Console {
    ghost use Rattle.tv_console.specs.Parts.{state_of, kept_of, console_steps};
    ghost use Rattle.tv_plan.specs.Console.{ConsoleState};

    ghost State = { ConsoleState };

    ghost state = { state_of };

    ghost steps = { console_steps };

    ghost ring = { λ c. c.ring };

    ghost before = { kept_of };

    fn is_ready(&self) -> bool {
        is_ready(&self.regs)
    }

    fn rest(&mut self) {
        self.serving = None;
    }

    fn fail(&mut self) {
        self.regs.broken();
        self.rest();
    }
}

impl Gives for Console {
    fn use_buffer(&mut self) {
        self.regs.used();
    }

    fn broken<P: Port>(&mut self, port: &mut P) -> Turned {
        break_off(self, port)
    }

    #[tactic(auto, using(tv_script::proofs::Scripts::reached_here))]
    fn refused<P: Port>(&mut self, _port: &mut P) -> Turned {
        self.fail();
        Turned::Idle
    }

    #[tactic(auto, using(crate::proofs::States::indices_taken, crate::proofs::States::kept_part))]
    fn take<P: Port>(&mut self, queue: &QueueRegs, port: &mut P) -> Result<Taken, QueueStop> {
        self.ring.take(queue, port)
    }

    fn give<P: Port>(
        &mut self,
        queue: &QueueRegs,
        port: &mut P,
        head: u16,
        len: u32,
    ) -> Result<bool, QueueStop> {
        self.ring.give(queue, port, head, len)
    }
}

impl Answers for Console {
    fn answer<P: Port>(&mut self, queue: &QueueRegs, taken: Taken, port: &mut P) -> Turned {
        if queue.number == RECEIVE {
            let most = taken.writable.min(PIECE_BYTES as u32) as u16;
            self.receive(queue, taken.head, most, port)
        } else {
            self.transmit(queue, taken.head, port)
        }
    }
}

impl Rounds for Console {
    ghost use Rattle.tv_plan.specs.Console.{ConsoleState, console_plan};
    ghost use Rattle.tv_console.specs.Parts.{state_of};

    ghost State = { ConsoleState };

    ghost state = { state_of };

    ghost plan = { console_plan };

    #[tactic(auto, using(tv_script::proofs::Scripts::reached_here))]
    fn begin<P: Port>(&mut self, _port: &mut P) -> Turned {
        match self.serving {
            Some(_) => Turned::Again,
            None => Turned::Idle,
        }
    }

    #[tactic(auto, using(tv_script::proofs::Scripts::reached_here))]
    fn round<P: Port>(&mut self, port: &mut P) -> Turned {
        match self.serving {
            Some(queue) => serve_chain(self, &queue, port),
            None => Turned::Idle,
        }
    }

    ghost use Rattle.tv_plan.specs.Console.{console_opens};

    ghost opens = { console_opens };
}

impl Device for Console {
    ghost use Rattle.tv_plan.specs.Devices.{DeviceState};
    ghost use Rattle.tv_console.specs.Parts.{state_of};

    ghost state = { λ c. DeviceState.Console (state_of c) };

    #[tactic(auto, unfolding(tv_plan::specs::Devices::act))]
    fn act(&mut self, _tag: u32, item: &Item) -> Acted {
        Acted {
            value: self.item(item),
            verdict: None,
        }
    }

    fn serve<P: Port>(&mut self, port: &mut P) -> Served {
        serve_rounds(self, port)
    }

    fn copy(&self, alloc: Global) -> Result<Self, Memory> {
        let ring = self.ring.copy(alloc)?;
        Ok(Console {
            regs: self.regs.copy(),
            ring,
            ended: self.ended,
            serving: self.serving,
        })
    }
}
