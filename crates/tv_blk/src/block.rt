//! The device.

ghost use Rattle.std.specs.Prelude.{◌≡◌, ◌≤◌, ◌<◌, [], length, IfOk};
ghost use Rattle.tv_base.specs.declared.limits.TheConstants.{CHAIN_BYTES, DISK_SECTORS};
ghost use Rattle.tv_blk.specs.Parts.{state_of};
ghost use Rattle.tv_blk.specs.Requests.{response_of};
ghost use Rattle.tv_blk.specs.declared.request.Outcome.TheVariants as came;
ghost use Rattle.tv_plan.specs.Block.{new_block, block_effect, block_acted, block_loaded, block_hand, block_answer, block_resized, resized, resize_told, resize_verdict, response_bytes};
ghost use Rattle.tv_port.specs.Acting.{CanAct};
ghost use Rattle.tv_regs.specs.Effects.{IsOfQueue};
ghost use Rattle.tv_script.specs.Scripts.{AwaitsAll, Ask};
ghost use Rattle.tv_script.specs.Services.{TurnedSo};
ghost use Rattle.tv_serving.specs.Steps.{took_of};
ghost use Rattle.tv_items.specs.declared.action.Action.TheVariants as action;
ghost use Rattle.tv_items.specs.declared.action.Heard.TheVariants as heard;
ghost use Rattle.tv_virtio.specs.Queue.{IsServable};
ghost use Rattle.tv_virtio.specs.Spans.{total};

use crate::content::complete;
use crate::request::{Disk, HEAD_BYTES, Outcome, respond};
use std::alloc::Global;
use std::marker::Model;
use tv_base::{DevNo, Memory};
use tv_port::{
    Acted, Action, Device, Ended, Heard, Item, Port, Rounds, Served, Stats, Turned, Verdict,
    serve_rounds,
};
use tv_regs::{Effect, QueueRegs, Regs};
use tv_serving::{
    Answers, Gives, Queued, break_off, hand, is_ready, notified, serve_chain, stopped,
};
use tv_transport::VERSION_1;
use tv_vring::{QueueStop, Taken, Vring};

/// The device type of a block device (VIRTIO 1.2, section 5).
const BLOCK: u32 = 2;
/// The feature of a disk that can only be read, VIRTIO_BLK_F_RO (section 5.2.3).
const READ_ONLY: u64 = 0x20;
/// The feature of a device that takes requests to flush, VIRTIO_BLK_F_FLUSH.
const FLUSH: u64 = 0x200;
/// The status of a resize that was done.
const RESIZED: u8 = 0;
/// The status of a resize that failed.
const NOT_RESIZED: u8 = 7;

/// A command that gives the disk so many sectors.
#[derive(Clone, Copy, Debug, PartialEq, Eq)]
struct Resize {
    tag: u32,
    sectors: u32,
}

/// A block device. Where its driver notifies it, each chain is a request on the sectors of its disk.
#[derive(Drop)]
pub struct Block {
    disk: Disk,
    regs: Regs,
    ring: Vring,
    /// The queue whose service is due or under way.
    serving: Option<QueueRegs>,
    /// The resize that is due.
    resizing: Option<Resize>,
}

impl Model for Block {
    ghost use Rattle.std.specs.Prelude.{◌≤◌, length, IfSome};
    ghost use Rattle.tv_base.specs.declared.limits.TheConstants.{DISK_SECTORS};
    ghost use Rattle.tv_blk.specs.Parts.{Parts};
    ghost use Rattle.tv_virtio.specs.Queue.{IsServable};

    ghost Value = { Parts };

    ghost view = { λ b. record { disk = b.disk; registers = b.regs; ring = b.ring; serving = b.serving; resizing = b.resizing } };

    ghost invariant = { λ b. (length b.regs.queues ≤ 3) × IfSome b.serving IsServable × IfSome b.resizing (λ r. r.sectors ≤ DISK_SECTORS) };
}

impl Block {
    /// A device that no driver has set up, on a disk with so many sectors, at most
    /// [`DISK_SECTORS`](tv_base::DISK_SECTORS), with the buffers of its queue. No other call but [`Device::copy`] takes
    /// memory.
    ///
    /// # Errors
    /// [`Memory`] where there is no memory for the buffers.
    pub fn new(slot: DevNo, sectors: u32, readonly: bool, alloc: Global) -> Result<Block, Memory>
        requires few { sectors ≤ DISK_SECTORS }
        ensures { IfOk result (λ b. state_of b ≡ new_block slot sectors readonly) }
    {
        let ring = Vring::new(alloc)?;
        let read_only = if readonly { READ_ONLY } else { 0 };
        Ok(Block {
            disk: Disk::new(slot, sectors, readonly),
            regs: Regs::new(BLOCK, VERSION_1 + FLUSH + read_only, 1),
            ring,
            serving: None,
            resizing: None,
        })
    }

    /// Acts on the item with this tag, and gives the value of a load; 0 for other items.
    fn item(&mut self, tag: u32, item: &Item) -> u64
        requires can { CanAct item.now }
        ensures state { state_of self.new ≡ block_acted (state_of self.old) tag item.now }
        ensures value { result ≡ block_loaded (state_of self.old) item.now }
    {
        self.rest();
        match *item {
            Item::Load { width, off } => self.regs.read(off, width, &self.disk.config()),
            Item::Store { width, off, value } => {
                let effect = self.regs.write(off, width, value);
                self.follow(effect);
                0
            }
            Item::Resize { sectors } => {
                self.resizing = Some(Resize { tag, sectors });
                0
            }
            Item::Target { .. } | Item::Stats => 0,
        }
    }

    /// Does what a store means for the device.
    fn follow(&mut self, effect: Effect)
        requires there { IsOfQueue (length self.old.registers.queues) effect }
        ensures { state_of self.new ≡ block_effect (state_of self.old) effect }
    {
        match effect {
            Effect::Ready(number) => self.ring.fresh(number),
            Effect::Notify(number) => self.serving = notified(&self.regs, number),
            Effect::None | Effect::Reset | Effect::Config => {}
        }
    }

    /// Gives the chain that was taken last back, with `len` bytes of content and the status.
    fn reply<P: Port>(
        &mut self,
        queue: &QueueRegs,
        head: u16,
        len: u32,
        outcome: Outcome,
        port: &mut P,
    ) -> Turned
        requires ring { IsServable queue.now }
        requires room { len < CHAIN_BYTES }
        requires writable { len < total self.old.ring.chain.writable }
        requires read { outcome ≡ came.Read → length self.old.ring.answered ≡ len }
        requires awaits { AwaitsAll (P.awaits port.old) (block_hand (state_of self.old) queue.now (took_of self.old.ring head) (response_bytes len (response_of self.old.ring.answered outcome))) }
        ensures turned { TurnedSo P.moved P.over P.stopped port.old (block_hand (state_of self.old) queue.now (took_of self.old.ring head) (response_bytes len (response_of self.old.ring.answered outcome))) port.new (state_of self.new) result }
        ensures left { P.left port.new ≤ P.left port.old }
    {
        complete(&mut self.ring, len, outcome);
        hand(self, queue, head, len + 1, port)
    }

    /// Does the request of the chain that was taken last, which has room for `len` bytes of content.
    #[tactic(auto, using(tv_script::proofs::Scripts::caught_awaits, tv_serving::proofs::Caught::stop_awaited, tv_serving::proofs::Caught::stop_turned))]
    fn serve_request<P: Port>(
        &mut self,
        queue: &QueueRegs,
        head: u16,
        len: u32,
        port: &mut P,
    ) -> Turned
        requires ring { IsServable queue.now }
        requires head { 16 ≤ length self.old.ring.readable }
        requires none { self.old.ring.answered ≡ [] }
        requires room { len < CHAIN_BYTES }
        requires writable { len < total self.old.ring.chain.writable }
        requires awaits { AwaitsAll (P.awaits port.old) (block_answer (state_of self.old) queue.now (took_of self.old.ring head) len) }
        ensures turned { TurnedSo P.moved P.over P.stopped port.old (block_answer (state_of self.old) queue.now (took_of self.old.ring head) len) port.new (state_of self.new) result }
        ensures left { P.left port.new ≤ P.left port.old }
    {
        match respond(&self.disk, &mut self.ring, len, port) {
            Ok(outcome) => self.reply(queue, head, len, outcome, port),
            Err(why) => stopped(self, why, port),
        }
    }

    /// Gives the disk another length, as a command asked.
    #[tactic(auto, using(tv_script::proofs::Scripts::awaits_now, tv_script::proofs::Scripts::awaits_reply, tv_script::proofs::Scripts::cut_here, tv_script::proofs::Turns::turned_reply), unfolding(tv_script::specs::Scripts::Follows))]
    fn resize<P: Port>(&mut self, resize: Resize, port: &mut P) -> Turned
        requires few { resize.sectors ≤ DISK_SECTORS }
        requires awaits { AwaitsAll (P.awaits port.old) (Ask (action.SetLen resize.sectors) (resized (state_of self.old) resize.tag resize.sectors)) }
        ensures turned { TurnedSo P.moved P.over P.stopped port.old (Ask (action.SetLen resize.sectors) (resized (state_of self.old) resize.tag resize.sectors)) port.new (state_of self.new) result }
    {
        let Resize { tag, sectors } = resize;
        match port.ask(&Action::SetLen { sectors }) {
            Ok(Heard::Done) => self.resized(tag, sectors, port),
            Ok(_) => self.not_resized(tag, port),
            Err(Ended) => Turned::Ended,
        }
    }

    /// The disk has so many sectors now: the capacity changes, and the command is answered.
    #[tactic(auto, using(tv_script::proofs::Scripts::awaits_tell, tv_script::proofs::Scripts::awaits_told, tv_script::proofs::Turns::turned_told))]
    fn resized<P: Port>(&mut self, tag: u32, sectors: u32, port: &mut P) -> Turned
        requires few { sectors ≤ DISK_SECTORS }
        requires awaits { AwaitsAll (P.awaits port.old) (resized (state_of self.old) tag sectors heard.Done) }
        ensures turned { TurnedSo P.moved P.over P.stopped port.old (resized (state_of self.old) tag sectors heard.Done) port.new (state_of self.new) result }
    {
        self.change_sectors(sectors);
        port.tell(&verdict(tag, RESIZED));
        self.tell_driver(port)
    }

    /// The disk stays as it is, and the command is answered.
    #[tactic(auto, using(tv_script::proofs::Scripts::awaits_tell, tv_script::proofs::Scripts::reached_told))]
    fn not_resized<P: Port>(&mut self, tag: u32, port: &mut P) -> Turned
        requires awaits { AwaitsAll (P.awaits port.old) (resized (state_of self.old) tag 0 heard.Failed) }
        ensures turned { TurnedSo P.moved P.over P.stopped port.old (resized (state_of self.old) tag 0 heard.Failed) port.new (state_of self.new) result }
    {
        port.tell(&verdict(tag, NOT_RESIZED));
        self.rest();
        Turned::Idle
    }

    /// Another capacity, which the configuration shows.
    fn change_sectors(&mut self, sectors: u32)
        requires few { sectors ≤ DISK_SECTORS }
        ensures { state_of self.new ≡ block_resized (state_of self.old) sectors }
    {
        self.disk.set_sectors(sectors);
        self.regs.changed();
        self.rest();
    }

    /// Tells a driver that is ready, by an interrupt, that the configuration changed.
    #[tactic(auto, using(tv_script::proofs::Scripts::awaits_now, tv_script::proofs::Scripts::cut_here, tv_script::proofs::Scripts::reached_here), unfolding(tv_script::specs::Scripts::Follows))]
    fn tell_driver<P: Port>(&mut self, port: &mut P) -> Turned
        requires awaits { AwaitsAll (P.awaits port.old) (resize_told (state_of self.old)) }
        ensures turned { TurnedSo P.moved P.over P.stopped port.old (resize_told (state_of self.old)) port.new (state_of self.new) result }
    {
        if !is_ready(&self.regs) {
            return Turned::Idle;
        }
        match port.ask(&Action::Raise) {
            Ok(Heard::Done) => Turned::Idle,
            Ok(_) => {
                self.fail();
                Turned::Idle
            }
            Err(Ended) => Turned::Ended,
        }
    }
}

/// The verdict on a resize.
fn verdict(tag: u32, status: u8) -> Verdict
    ensures { result ≡ resize_verdict tag status }
{
    Verdict {
        tag,
        status,
        other: 0,
        stats: Stats::new(),
    }
}

impl Queued for Block {
    ghost use Rattle.tv_blk.specs.Parts.{state_of, block_steps};
    ghost use Rattle.tv_plan.specs.Block.{BlockState};

    ghost State = { BlockState };

    ghost state = { state_of };

    ghost steps = { block_steps };

    ghost ring = { λ b. b.ring };

    ghost before = { state_of };

    fn is_ready(&self) -> bool {
        is_ready(&self.regs)
    }

    fn rest(&mut self) {
        self.serving = None;
        self.resizing = None;
    }

    fn fail(&mut self) {
        self.regs.broken();
        self.rest();
    }
}

impl Gives for Block {
    fn use_buffer(&mut self) {
        self.regs.used();
    }

    fn broken<P: Port>(&mut self, port: &mut P) -> Turned {
        break_off(self, port)
    }

    #[tactic(auto, using(tv_script::proofs::Scripts::reached_here))]
    fn refused<P: Port>(&mut self, _port: &mut P) -> Turned {
        self.fail();
        Turned::Idle
    }

    fn take<P: Port>(&mut self, queue: &QueueRegs, port: &mut P) -> Result<Taken, QueueStop> {
        self.ring.take(queue, port)
    }

    fn give<P: Port>(
        &mut self,
        queue: &QueueRegs,
        port: &mut P,
        head: u16,
        len: u32,
    ) -> Result<bool, QueueStop> {
        self.ring.give(queue, port, head, len)
    }
}

impl Answers for Block {
    /// A chain without a whole head, or without room for a status, breaks the device.
    fn answer<P: Port>(&mut self, queue: &QueueRegs, taken: Taken, port: &mut P) -> Turned {
        if self.ring.readable().len() < HEAD_BYTES || taken.writable == 0 {
            self.broken(port)
        } else {
            self.serve_request(queue, taken.head, taken.writable - 1, port)
        }
    }
}

impl Rounds for Block {
    ghost use Rattle.tv_blk.specs.Parts.{state_of};
    ghost use Rattle.tv_plan.specs.Block.{BlockState, block_plan};

    ghost State = { BlockState };

    ghost state = { state_of };

    ghost plan = { block_plan };

    #[tactic(auto, using(tv_script::proofs::Scripts::reached_here))]
    fn begin<P: Port>(&mut self, port: &mut P) -> Turned {
        match (self.resizing, self.serving) {
            (Some(resize), _) => self.resize(resize, port),
            (None, Some(_)) => Turned::Again,
            (None, None) => Turned::Idle,
        }
    }

    #[tactic(auto, using(tv_script::proofs::Scripts::reached_here))]
    fn round<P: Port>(&mut self, port: &mut P) -> Turned {
        match self.serving {
            Some(queue) => serve_chain(self, &queue, port),
            None => Turned::Idle,
        }
    }

    ghost use Rattle.tv_plan.specs.Block.{block_opens};

    ghost opens = { block_opens };
}

impl Device for Block {
    ghost use Rattle.tv_blk.specs.Parts.{state_of};
    ghost use Rattle.tv_plan.specs.Devices.{DeviceState};

    ghost state = { λ b. DeviceState.Block (state_of b) };

    #[tactic(auto, unfolding(tv_plan::specs::Devices::act))]
    fn act(&mut self, tag: u32, item: &Item) -> Acted {
        Acted {
            value: self.item(tag, item),
            verdict: None,
        }
    }

    fn serve<P: Port>(&mut self, port: &mut P) -> Served {
        serve_rounds(self, port)
    }

    fn copy(&self, alloc: Global) -> Result<Self, Memory> {
        let ring = self.ring.copy(alloc)?;
        Ok(Block {
            disk: self.disk.copy(),
            regs: self.regs.copy(),
            ring,
            serving: self.serving,
            resizing: self.resizing,
        })
    }
}
