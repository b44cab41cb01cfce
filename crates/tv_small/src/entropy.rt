//! The entropy device (VIRTIO 1.2, section 5.4): each chain of its one queue is filled with random bytes.

ghost use Rattle.std.specs.Prelude.{◌≡◌, ◌≤◌, [], length, take, IfOk};
ghost use Rattle.tv_plan.specs.Entropy.{new_entropy, entropy_effect, entropy_acted, entropy_loaded};
ghost use Rattle.tv_regs.specs.Effects.{IsOfQueue};
ghost use Rattle.tv_small.specs.Parts.{state_of};

use crate::random_bytes::fill;
use std::alloc::Global;
use std::marker::Model;
use tv_base::Memory;
use tv_port::{Acted, Device, Item, Port, Rounds, Served, Turned, serve_rounds};
use tv_regs::{Effect, QueueRegs, Regs};
use tv_serving::{
    Answers, Gives, Queued, break_off, hand, is_ready, notified, serve_chain, stopped,
};
use tv_transport::VERSION_1;
use tv_vring::{QueueStop, Taken, Vring};

/// The device type of an entropy device (VIRTIO 1.2, section 5).
const ENTROPY: u32 = 4;

/// An entropy device. Where its driver notifies it, the writable bytes of each chain are filled with random ones.
#[derive(Drop)]
pub struct EntropyDevice {
    regs: Regs,
    ring: Vring,
    /// The queue whose service is due or under way.
    serving: Option<QueueRegs>,
}

impl Model for EntropyDevice {
    ghost use Rattle.std.specs.Prelude.{◌≤◌, length, IfSome};
    ghost use Rattle.tv_virtio.specs.Queue.{IsServable};
    ghost use Rattle.tv_small.specs.Parts.{Parts};

    ghost Value = { Parts };

    ghost view = { λ e. record { registers = e.regs; ring = e.ring; serving = e.serving } };

    ghost invariant = { λ e. (length e.regs.queues ≤ 3) × IfSome e.serving IsServable };
}

impl EntropyDevice {
    /// A device that no driver has set up, with the buffers of its queue. No other call but [`Device::copy`] takes memory.
    ///
    /// # Errors
    /// [`Memory`] where there is no memory for the buffers.
    pub fn new(alloc: Global) -> Result<EntropyDevice, Memory>
        ensures { IfOk result (λ e. state_of e ≡ new_entropy) }
    {
        Ok(EntropyDevice {
            regs: Regs::new(ENTROPY, VERSION_1, 1),
            ring: Vring::new(alloc)?,
            serving: None,
        })
    }

    /// Acts on an item, and gives the value of a load; 0 for other items.
    fn item(&mut self, item: &Item) -> u64
        ensures state { state_of self.new ≡ entropy_acted (state_of self.old) item.now }
        ensures value { result ≡ entropy_loaded (state_of self.old) item.now }
    {
        self.rest();
        match *item {
            Item::Load { width, off } => self.regs.read(off, width, &[]),
            Item::Store { width, off, value } => {
                let effect = self.regs.write(off, width, value);
                self.follow(effect);
                0
            }
            Item::Target { .. } | Item::Stats | Item::Resize { .. } => 0,
        }
    }

    /// Does what a store means for the device.
    fn follow(&mut self, effect: Effect)
        requires there { IsOfQueue (length self.old.registers.queues) effect }
        ensures { state_of self.new ≡ entropy_effect (state_of self.old) effect }
    {
        match effect {
            Effect::Ready(number) => self.ring.fresh(number),
            Effect::Notify(number) => self.serving = notified(&self.regs, number),
            Effect::None | Effect::Reset | Effect::Config => {}
        }
    }
}

impl Queued for EntropyDevice {
    ghost use Rattle.tv_plan.specs.Entropy.{EntropyState};
    ghost use Rattle.tv_small.specs.Parts.{state_of, entropy_steps};

    ghost State = { EntropyState };

    ghost state = { state_of };

    ghost steps = { entropy_steps };

    ghost ring = { λ e. e.ring };

    ghost before = { state_of };

    fn is_ready(&self) -> bool {
        is_ready(&self.regs)
    }

    fn rest(&mut self) {
        self.serving = None;
    }

    fn fail(&mut self) {
        self.regs.broken();
        self.rest();
    }
}

impl Gives for EntropyDevice {
    fn use_buffer(&mut self) {
        self.regs.used();
    }

    fn broken<P: Port>(&mut self, port: &mut P) -> Turned {
        break_off(self, port)
    }

    #[tactic(auto, using(tv_script::proofs::Scripts::reached_here))]
    fn refused<P: Port>(&mut self, _port: &mut P) -> Turned {
        self.fail();
        Turned::Idle
    }

    fn take<P: Port>(&mut self, queue: &QueueRegs, port: &mut P) -> Result<Taken, QueueStop> {
        self.ring.take(queue, port)
    }

    fn give<P: Port>(
        &mut self,
        queue: &QueueRegs,
        port: &mut P,
        head: u16,
        len: u32,
    ) -> Result<bool, QueueStop> {
        self.ring.give(queue, port, head, len)
    }
}

impl Answers for EntropyDevice {
    /// All its writable bytes are random ones.
    #[tactic(auto, using(tv_script::proofs::Scripts::caught_awaits, tv_serving::proofs::Caught::stop_awaited, tv_serving::proofs::Caught::stop_turned))]
    fn answer<P: Port>(&mut self, queue: &QueueRegs, taken: Taken, port: &mut P) -> Turned {
        match fill(&mut self.ring, taken.writable, port) {
            Ok(()) => hand(self, queue, taken.head, taken.writable, port),
            Err(why) => stopped(self, why, port),
        }
    }
}

impl Rounds for EntropyDevice {
    ghost use Rattle.tv_plan.specs.Entropy.{EntropyState, entropy_plan};
    ghost use Rattle.tv_small.specs.Parts.{state_of};

    ghost State = { EntropyState };

    ghost state = { state_of };

    ghost plan = { entropy_plan };

    #[tactic(auto, using(tv_script::proofs::Scripts::reached_here))]
    fn begin<P: Port>(&mut self, _port: &mut P) -> Turned {
        match self.serving {
            Some(_) => Turned::Again,
            None => Turned::Idle,
        }
    }

    #[tactic(auto, using(tv_script::proofs::Scripts::reached_here))]
    fn round<P: Port>(&mut self, port: &mut P) -> Turned {
        match self.serving {
            Some(queue) => serve_chain(self, &queue, port),
            None => Turned::Idle,
        }
    }

    ghost use Rattle.tv_plan.specs.Entropy.{entropy_opens};

    ghost opens = { entropy_opens };
}

impl Device for EntropyDevice {
    ghost use Rattle.tv_plan.specs.Devices.{DeviceState};
    ghost use Rattle.tv_small.specs.Parts.{state_of};

    ghost state = { λ e. DeviceState.Entropy (state_of e) };

    #[tactic(auto, unfolding(tv_plan::specs::Devices::act))]
    fn act(&mut self, _tag: u32, item: &Item) -> Acted {
        Acted {
            value: self.item(item),
            verdict: None,
        }
    }

    fn serve<P: Port>(&mut self, port: &mut P) -> Served {
        serve_rounds(self, port)
    }

    fn copy(&self, alloc: Global) -> Result<Self, Memory> {
        let ring = self.ring.copy(alloc)?;
        Ok(EntropyDevice {
            regs: self.regs.copy(),
            ring,
            serving: self.serving,
        })
    }
}
