//! The balloon (VIRTIO 1.2, section 5.5).

ghost use Rattle.std.specs.Prelude.{◌≡◌, ◌≤◌, ◌++◌, ◌||◌, not, is_ok, length, Some, None, IfOk, IfSome};
ghost use Rattle.byteorder.specs.Endian.{little_bytes};
ghost use Rattle.tv_script.specs.Scripts.{AwaitsAll, Stop, Ask};
ghost use Rattle.tv_script.specs.Services.{TurnedSo, IsEnd, Idle};
ghost use Rattle.tv_script.specs.declared.service.Turned.{Turned};
ghost use Rattle.tv_items.specs.declared.item.Item.TheVariants as item;
ghost use Rattle.tv_items.specs.declared.action.Action.TheVariants as action;
ghost use Rattle.tv_virtio.specs.Queue.{IsServable, RanSo, hand_back};
ghost use Rattle.tv_vring.specs.Rings.{used_of, GaveSo};
ghost use Rattle.tv_transport.specs.declared.registers.Effect.TheVariants as effect;
ghost use Rattle.tv_transport.specs.Registers.{has};
ghost use Rattle.tv_regs.specs.Effects.{IsOfQueue};
ghost use Rattle.tv_serving.specs.Steps.{took_of};
ghost use Rattle.tv_plan.specs.Serving.{interrupted};
ghost use Rattle.tv_plan.specs.Balloon.{STATS_VQ, new_balloon, balloon_rested, verdict, is_some, balloon_effect, balloon_configured, has_stats, stats_waits, balloon_acted, refused_by, reset_decides, balloon_decides, balloon_loaded, balloon_refused, balloon_finish, page_action, move_pages, balloon_holds, tell_stats, returned};
ghost use Rattle.tv_balloon.specs.Moving.{moving};
ghost use Rattle.tv_balloon.specs.Parts.{state_of};

use crate::moves::{Move, move_pages};
use crate::statistics::statistics;
use byteorder::{ByteOrder, LittleEndian};
use std::alloc::Global;
use std::marker::Model;
use tv_base::{Memory, Width};
use tv_port::{
    Acted, Action, Device, Ended, Heard, Item, Port, Rounds, Served, Stats, Turned, Verdict,
    serve_rounds,
};
use tv_regs::{Effect, QueueRegs, Regs};
use tv_serving::{
    Answers, Gives, Queued, break_off, finish, hand, is_ready, is_served, notified, serve_chain,
    stopped,
};
use tv_transport::VERSION_1;
use tv_vring::{QueueStop, Taken, Vring};

/// The device type of a balloon (VIRTIO 1.2, section 5).
const BALLOON: u32 = 5;
/// The feature that a driver tells the device before it uses a page again.
const MUST_TELL_HOST: u64 = 1;
/// The feature that there is a queue for statistics.
const STATS_VQ: u64 = 2;
/// The number of the queue by which a driver gives pages to the balloon.
const INFLATE: u16 = 0;
/// The number of the queue for statistics.
const STATISTICS: u16 = 2;
/// The offset at which a driver stores how many pages the balloon holds.
const ACTUAL: u16 = 0x104;
/// The status of a command that was done.
const DONE: u8 = 0;
/// The status of a request for statistics that the guest can't answer.
const UNANSWERED: u8 = 5;
/// The status of a request for statistics where another one waits.
const BUSY: u8 = 6;

/// A balloon. Its driver gives it pages by queue 0, which are then zeros, and takes them back by queue 1. By queue 2 it tells
/// statistics: a request for them waits until a chain comes, and the chain is held until the next request.
#[derive(Drop)]
pub struct Balloon {
    regs: Regs,
    ring: Vring,
    /// How many pages it is to hold.
    pages: u32,
    /// How many pages its driver says that it holds.
    actual: u32,
    /// The tag of the request for statistics that waits.
    waiting: Option<u32>,
    /// The head of the chain of statistics that is held.
    held: Option<u16>,
    /// The queue whose service is due or under way.
    serving: Option<QueueRegs>,
    /// The head of the chain that goes back before that service.
    returning: Option<u16>,
    /// Whether an interrupt is due that no queue caused.
    interrupting: bool,
}

impl Model for Balloon {
    ghost use Rattle.std.specs.Prelude.{◌≤◌, length, IfSome};
    ghost use Rattle.tv_virtio.specs.Queue.{IsServable};
    ghost use Rattle.tv_balloon.specs.Parts.{Parts};

    ghost Value = { Parts };

    ghost view = { λ b. record { registers = b.regs; ring = b.ring; pages = b.pages; actual = b.actual; waiting = b.waiting; held = b.held; serving = b.serving; returning = b.returning; interrupting = b.interrupting } };

    ghost invariant = { λ b. (length b.regs.queues ≤ 3) × IfSome b.serving IsServable };
}

/// A verdict without statistics.
fn plain_verdict(tag: u32, status: u8, other: u32) -> Verdict
    ensures { result ≡ verdict tag status other }
{
    Verdict {
        tag,
        status,
        other,
        stats: Stats::new(),
    }
}

/// The refusal of a request that waits, if there is one.
fn refusal(waiting: Option<u32>) -> Option<Verdict>
    ensures { result ≡ refused_by waiting }
{
    match waiting {
        Some(tag) => Some(plain_verdict(tag, UNANSWERED, 0)),
        None => None,
    }
}

/// Puts a chain that was taken long ago into the used ring, with no byte written to it. It is `true` exactly where the driver
/// wants an interrupt.
///
/// # Errors
/// [`QueueStop::Refused`] where an action was refused, and [`QueueStop::Ended`] where the port answered none.
fn give_nothing<P: Port>(
    ring: &mut Vring,
    queue: &QueueRegs,
    head: u16,
    port: &mut P,
) -> Result<bool, QueueStop>
    requires ring { IsServable queue.now }
    requires awaits { AwaitsAll (P.awaits port.old) (hand_back queue.now (used_of ring.old queue.now) head 0) }
    ensures ran { RanSo P.moved P.over P.stopped port.old (hand_back queue.now (used_of ring.old queue.now) head 0) port.new result }
    ensures ring { GaveSo ring.old ring.new queue.now (is_ok result) }
    ensures left { P.left port.new ≤ P.left port.old }
{
    ring.give(queue, port, head, 0)
}

impl Balloon {
    /// A device that no driver has set up, with the buffers of its queues. No other call but [`Device::copy`] takes memory.
    ///
    /// # Errors
    /// [`Memory`] where there is no memory for the buffers.
    pub fn new(alloc: Global) -> Result<Balloon, Memory>
        ensures { IfOk result (λ b. state_of b ≡ new_balloon) }
    {
        Ok(Balloon {
            regs: Regs::new(BALLOON, VERSION_1 | STATS_VQ | MUST_TELL_HOST, 3),
            ring: Vring::new(alloc)?,
            pages: 0,
            actual: 0,
            waiting: None,
            held: None,
            serving: None,
            returning: None,
            interrupting: false,
        })
    }

    /// Acts on an item with a tag.
    fn item(&mut self, tag: u32, item: &Item) -> Acted
        ensures state { state_of self.new ≡ balloon_acted (state_of self.old) tag item.now }
        ensures value { result.value ≡ balloon_loaded (state_of self.old) item.now }
        ensures verdict { result.verdict ≡ balloon_decides (state_of self.old) tag item.now }
    {
        self.rest();
        match *item {
            Item::Load { width, off } => Acted {
                value: self.load(width, off),
                verdict: None,
            },
            Item::Store { width, off, value } => Acted {
                value: 0,
                verdict: self.store(width, off, value),
            },
            Item::Target { pages } => {
                self.target(pages);
                Acted {
                    value: 0,
                    verdict: Some(plain_verdict(tag, DONE, 0)),
                }
            }
            Item::Stats => Acted {
                value: 0,
                verdict: self.ask_stats(tag),
            },
            Item::Resize { .. } => Acted {
                value: 0,
                verdict: None,
            },
        }
    }

    /// The value of a load of `width` bytes at an offset.
    fn load(&self, width: Width, off: u16) -> u64
        ensures { result ≡ balloon_loaded (state_of self.now) (item.Load width off) }
    {
        self.regs.read(off, width, &self.config())
    }

    /// The configuration (VIRTIO 1.2, section 5.5.4).
    fn config(&self) -> [u8; 8]
        ensures { result ≡ little_bytes 4 self.now.pages ++ little_bytes 4 self.now.actual }
    {
        let mut config = [0; 8];
        LittleEndian::write_u32(&mut config, self.pages);
        LittleEndian::write_u32(&mut config[4..], self.actual);
        config
    }

    /// Stores the low `width` bytes of a value at an offset. A reset refuses the request that waits.
    fn store(&mut self, width: Width, off: u16, value: u64) -> Option<Verdict>
        requires rested { state_of self.old ≡ balloon_rested (state_of self.old) }
        ensures state { state_of self.new ≡ balloon_acted (state_of self.old) 0 (item.Store width off value) }
        ensures verdict { result ≡ balloon_decides (state_of self.old) 0 (item.Store width off value) }
    {
        let effect = self.regs.write(off, width, value);
        self.configure(width, off, value);
        self.follow(effect)
    }

    /// Stores to the configuration.
    fn configure(&mut self, width: Width, off: u16, value: u64)
        ensures { state_of self.new ≡ balloon_configured (state_of self.old) width off value }
    {
        if width == Width::B4 && off == ACTUAL {
            self.actual = (value % (1 << 32)) as u32;
        }
    }

    /// Does what a store means for the device.
    fn follow(&mut self, effect: Effect) -> Option<Verdict>
        requires there { IsOfQueue (length self.old.registers.queues) effect }
        ensures state { state_of self.new ≡ balloon_effect (state_of self.old) effect }
        ensures verdict { result ≡ reset_decides (state_of self.old) effect }
    {
        match effect {
            Effect::Reset => {
                let waiting = self.waiting;
                self.forget();
                return refusal(waiting);
            }
            Effect::Ready(number) => self.ring.fresh(number),
            Effect::Notify(number) => self.notify(number),
            Effect::None | Effect::Config => {}
        }
        None
    }

    /// Forgets what the driver told, and who waits.
    fn forget(&mut self)
        ensures { state_of self.new ≡ balloon_effect (state_of self.old) effect.Reset }
    {
        self.actual = 0;
        self.waiting = None;
        self.held = None;
    }

    /// A notification begins a service of the queue with a number, where there is such a queue and the device may serve it.
    fn notify(&mut self, number: u16)
        ensures { state_of self.new ≡ balloon_effect (state_of self.old) (effect.Notify number) }
    {
        if number == STATISTICS && self.has_enough() {
            self.serving = None;
        } else {
            self.serving = notified(&self.regs, number);
        }
    }

    /// Whether no chain of statistics is served: one is held, or the driver accepted none.
    fn has_enough(&self) -> bool
        ensures { result ≡ (is_some self.now.held || not (has self.now.registers.accepted STATS_VQ)) }
    {
        self.held.is_some() || self.regs.accepted() & STATS_VQ != STATS_VQ
    }

    /// Is to hold so many pages from now on, and tells a driver that is ready so by an interrupt.
    fn target(&mut self, pages: u32)
        requires rested { state_of self.old ≡ balloon_rested (state_of self.old) }
        ensures { state_of self.new ≡ balloon_acted (state_of self.old) 0 (item.Target pages) }
    {
        self.pages = pages;
        self.regs.changed();
        self.interrupting = is_ready(&self.regs);
    }

    /// A request for statistics waits; or it is refused, since the driver isn't there or another request waits.
    fn ask_stats(&mut self, tag: u32) -> Option<Verdict>
        requires rested { state_of self.old ≡ balloon_rested (state_of self.old) }
        ensures state { state_of self.new ≡ balloon_acted (state_of self.old) tag item.Stats }
        ensures verdict { result ≡ balloon_decides (state_of self.old) tag item.Stats }
    {
        let queue = self.regs.queue(STATISTICS);
        if !self.has_stats(queue) {
            return Some(plain_verdict(tag, UNANSWERED, 0));
        }
        if let Some(other) = self.waiting {
            return Some(plain_verdict(tag, BUSY, other));
        }
        self.wait(tag, queue);
        None
    }

    /// Whether the driver can tell statistics by this queue.
    fn has_stats(&self, queue: Option<QueueRegs>) -> bool
        ensures { result ≡ has_stats (state_of self.now) queue }
    {
        queue.is_some() && is_served(&self.regs) && self.regs.accepted() & STATS_VQ == STATS_VQ
    }

    /// A request waits, and the chain that is held goes back to its queue.
    fn wait(&mut self, tag: u32, queue: Option<QueueRegs>)
        requires servable { IfSome queue IsServable }
        ensures { state_of self.new ≡ stats_waits (state_of self.old) tag None queue }
    {
        self.waiting = Some(tag);
        if let Some(head) = self.held.take() {
            self.returning = Some(head);
            self.serving = queue;
        }
    }

    /// Where the pages of a chain of a queue go.
    fn direction(&self, queue: u16) -> Move
        ensures { moving result ≡ page_action self.now.registers queue }
    {
        if queue == INFLATE {
            let hold = self.regs.accepted() & MUST_TELL_HOST == MUST_TELL_HOST;
            Move::Release { hold }
        } else {
            Move::Regain
        }
    }

    /// Moves the pages of the chain that was taken last, and gives it back.
    #[tactic(auto, using(tv_script::proofs::Scripts::caught_awaits, tv_script::proofs::Scripts::awaits_value, tv_script::proofs::Turns::turned_value, tv_serving::proofs::Caught::stop_awaited, tv_serving::proofs::Caught::stop_turned))]
    fn serve_pages<P: Port>(&mut self, queue: &QueueRegs, head: u16, port: &mut P) -> Turned
        requires ring { IsServable queue.now }
        requires awaits { AwaitsAll (P.awaits port.old) (move_pages (state_of self.old) queue.now (took_of self.old.ring head)) }
        ensures turned { TurnedSo P.moved P.over P.stopped port.old (move_pages (state_of self.old) queue.now (took_of self.old.ring head)) port.new (state_of self.new) result }
        ensures left { P.left port.new ≤ P.left port.old }
    {
        match move_pages(self.direction(queue.number), self.ring.readable(), port) {
            Ok(()) => hand(self, queue, head, 0, port),
            Err(why) => stopped(self, why, port),
        }
    }

    /// Answers the request that waits, if there is one, by the chain that was taken last, and holds the chain.
    #[tactic(auto, using(tv_script::proofs::Scripts::reached_here))]
    fn serve_stats<P: Port>(&mut self, head: u16, port: &mut P) -> Turned
        requires awaits { AwaitsAll (P.awaits port.old) (tell_stats (state_of self.old) (took_of self.old.ring head) self.old.waiting) }
        ensures turned { TurnedSo P.moved P.over P.stopped port.old (tell_stats (state_of self.old) (took_of self.old.ring head) self.old.waiting) port.new (state_of self.new) result }
        ensures end { IsEnd result }
        ensures left { P.left port.new ≤ P.left port.old }
    {
        match self.waiting {
            Some(tag) => self.answer_request(tag, head, port),
            None => self.hold(head),
        }
    }

    /// Answers the request with a tag by the statistics of the chain that was taken last, and holds the chain.
    #[tactic(auto, using(tv_script::proofs::Scripts::awaits_tell, tv_script::proofs::Scripts::reached_told))]
    fn answer_request<P: Port>(&mut self, tag: u32, head: u16, port: &mut P) -> Turned
        requires awaits { AwaitsAll (P.awaits port.old) (tell_stats (state_of self.old) (took_of self.old.ring head) (Some tag)) }
        ensures turned { TurnedSo P.moved P.over P.stopped port.old (tell_stats (state_of self.old) (took_of self.old.ring head) (Some tag)) port.new (state_of self.new) result }
        ensures end { IsEnd result }
        ensures left { P.left port.new ≤ P.left port.old }
    {
        port.tell(&Verdict {
            tag,
            status: DONE,
            other: 0,
            stats: statistics(self.ring.readable()),
        });
        self.hold(head)
    }

    /// Holds a chain, and ends the service.
    fn hold(&mut self, head: u16) -> Turned
        ensures idle { result ≡ Turned.Idle }
        ensures state { state_of self.new ≡ balloon_holds (state_of self.old) head }
    {
        self.waiting = None;
        self.held = Some(head);
        self.rest();
        Turned::Idle
    }

    /// Gives the chain that was held back.
    #[tactic(auto, using(tv_script::proofs::Scripts::caught_awaits, tv_script::proofs::Scripts::awaits_value, tv_script::proofs::Turns::turned_value, tv_serving::proofs::Caught::stop_awaited, tv_serving::proofs::Caught::stop_turned))]
    fn give_held<P: Port>(&mut self, queue: &QueueRegs, head: u16, port: &mut P) -> Turned
        requires ring { IsServable queue.now }
        requires awaits { AwaitsAll (P.awaits port.old) (returned (state_of self.old) queue.now head) }
        ensures turned { TurnedSo P.moved P.over P.stopped port.old (returned (state_of self.old) queue.now head) port.new (state_of self.new) result }
    {
        match give_nothing(&mut self.ring, queue, head, port) {
            Ok(wanted) => self.go_on(wanted, port),
            Err(why) => stopped(self, why, port),
        }
    }

    /// The end of a held chain's return: the service of its queue goes on.
    fn go_on<P: Port>(&mut self, wanted: bool, port: &mut P) -> Turned
        requires awaits { AwaitsAll (P.awaits port.old) (balloon_finish (record (state_of self.old) { returning = None }) wanted) }
        ensures turned { TurnedSo P.moved P.over P.stopped port.old (balloon_finish (record (state_of self.old) { returning = None }) wanted) port.new (state_of self.new) result }
    {
        self.returning = None;
        finish(self, wanted, port)
    }

    /// Raises the interrupt by which the driver learns a new number of pages.
    #[tactic(auto, using(tv_script::proofs::Scripts::awaits_now, tv_script::proofs::Scripts::cut_here, tv_script::proofs::Scripts::awaits_reply, tv_script::proofs::Turns::turned_reply))]
    fn announce<P: Port>(&mut self, port: &mut P) -> Turned
        requires awaits { AwaitsAll (P.awaits port.old) (Ask action.Raise (interrupted (Stop (Idle (balloon_rested (state_of self.old)))) (balloon_refused (state_of self.old)))) }
        ensures turned { TurnedSo P.moved P.over P.stopped port.old (Ask action.Raise (interrupted (Stop (Idle (balloon_rested (state_of self.old)))) (balloon_refused (state_of self.old)))) port.new (state_of self.new) result }
    {
        match port.ask(&Action::Raise) {
            Ok(heard) => self.announced(&heard, port),
            Err(Ended) => Turned::Ended,
        }
    }

    /// Nothing else is left where the interrupt was raised.
    #[tactic(auto, using(tv_script::proofs::Scripts::reached_here))]
    fn announced<P: Port>(&mut self, heard: &Heard, port: &mut P) -> Turned
        requires awaits { AwaitsAll (P.awaits port.old) (interrupted (Stop (Idle (balloon_rested (state_of self.old)))) (balloon_refused (state_of self.old)) heard.now) }
        ensures turned { TurnedSo P.moved P.over P.stopped port.old (interrupted (Stop (Idle (balloon_rested (state_of self.old)))) (balloon_refused (state_of self.old)) heard.now) port.new (state_of self.new) result }
    {
        match heard {
            Heard::Done => {
                self.rest();
                Turned::Idle
            }
            _ => self.refused(port),
        }
    }
}

impl Queued for Balloon {
    ghost use Rattle.tv_balloon.specs.Parts.{state_of, balloon_steps};
    ghost use Rattle.tv_plan.specs.Balloon.{BalloonState};

    ghost State = { BalloonState };

    ghost state = { state_of };

    ghost steps = { balloon_steps };

    ghost ring = { λ b. b.ring };

    ghost before = { state_of };

    fn is_ready(&self) -> bool {
        is_ready(&self.regs)
    }

    fn rest(&mut self) {
        self.serving = None;
        self.returning = None;
        self.interrupting = false;
    }

    /// No request waits any more.
    fn fail(&mut self) {
        self.regs.broken();
        self.waiting = None;
        self.rest();
    }
}

impl Gives for Balloon {
    fn use_buffer(&mut self) {
        self.regs.used();
    }

    /// The request that waits is refused first.
    #[tactic(auto, using(tv_script::proofs::Scripts::awaits_tell, tv_script::proofs::Scripts::awaits_told, tv_script::proofs::Turns::turned_told, tv_script::proofs::Scripts::reached_told, tv_script::proofs::Scripts::reached_here))]
    fn broken<P: Port>(&mut self, port: &mut P) -> Turned {
        match self.waiting {
            Some(tag) => {
                port.tell(&plain_verdict(tag, UNANSWERED, 0));
                break_off(self, port)
            }
            None => break_off(self, port),
        }
    }

    /// The request that waits is refused first.
    #[tactic(auto, using(tv_script::proofs::Scripts::awaits_tell, tv_script::proofs::Scripts::awaits_told, tv_script::proofs::Turns::turned_told, tv_script::proofs::Scripts::reached_told, tv_script::proofs::Scripts::reached_here))]
    fn refused<P: Port>(&mut self, port: &mut P) -> Turned {
        match self.waiting {
            Some(tag) => port.tell(&plain_verdict(tag, UNANSWERED, 0)),
            None => {}
        }
        self.fail();
        Turned::Idle
    }

    fn take<P: Port>(&mut self, queue: &QueueRegs, port: &mut P) -> Result<Taken, QueueStop> {
        self.ring.take(queue, port)
    }

    fn give<P: Port>(
        &mut self,
        queue: &QueueRegs,
        port: &mut P,
        head: u16,
        len: u32,
    ) -> Result<bool, QueueStop> {
        self.ring.give(queue, port, head, len)
    }
}

impl Answers for Balloon {
    fn answer<P: Port>(&mut self, queue: &QueueRegs, taken: Taken, port: &mut P) -> Turned {
        if queue.number == STATISTICS {
            self.serve_stats(taken.head, port)
        } else {
            self.serve_pages(queue, taken.head, port)
        }
    }
}

impl Rounds for Balloon {
    ghost use Rattle.tv_plan.specs.Balloon.{BalloonState, balloon_plan};
    ghost use Rattle.tv_balloon.specs.Parts.{state_of};

    ghost State = { BalloonState };

    ghost state = { state_of };

    ghost plan = { balloon_plan };

    #[tactic(auto, using(tv_script::proofs::Scripts::reached_here))]
    fn begin<P: Port>(&mut self, port: &mut P) -> Turned {
        if self.interrupting {
            return self.announce(port);
        }
        match (self.serving, self.returning) {
            (None, _) => Turned::Idle,
            (Some(_), None) => Turned::Again,
            (Some(queue), Some(head)) => self.give_held(&queue, head, port),
        }
    }

    #[tactic(auto, using(tv_script::proofs::Scripts::reached_here))]
    fn round<P: Port>(&mut self, port: &mut P) -> Turned {
        match self.serving {
            Some(queue) => serve_chain(self, &queue, port),
            None => Turned::Idle,
        }
    }

    ghost use Rattle.tv_plan.specs.Balloon.{balloon_opens};

    ghost opens = { balloon_opens };
}

impl Device for Balloon {
    ghost use Rattle.tv_plan.specs.Devices.{DeviceState};
    ghost use Rattle.tv_balloon.specs.Parts.{state_of};

    ghost state = { λ b. DeviceState.Balloon (state_of b) };

    #[tactic(auto, unfolding(tv_plan::specs::Devices::act))]
    fn act(&mut self, tag: u32, item: &Item) -> Acted {
        self.item(tag, item)
    }

    fn serve<P: Port>(&mut self, port: &mut P) -> Served {
        serve_rounds(self, port)
    }

    fn copy(&self, alloc: Global) -> Result<Self, Memory> {
        let ring = self.ring.copy(alloc)?;
        Ok(Balloon {
            regs: self.regs.copy(),
            ring,
            pages: self.pages,
            actual: self.actual,
            waiting: self.waiting,
            held: self.held,
            serving: self.serving,
            returning: self.returning,
            interrupting: self.interrupting,
        })
    }
}
