//! The proxied machine itself.

ghost use Rattle.std.specs.Prelude.{◌≡◌, ◌≢◌, ℕ, ◌+◌, ◌<◌, ◌≤◌, IfOk, None, length};
ghost use Rattle.tv_journal.specs.Entries.{record_count};
ghost use Rattle.tv_journal.specs.Grammar.{cause_byte};
ghost use Rattle.tv_journal.specs.declared.Entry.TheVariants as entry;
ghost use Rattle.tv_machine.specs.Valid.{IsValid};
ghost use Rattle.tv_spec.specs.Held.{held_from, held_of, own};
ghost use Rattle.tv_spec.specs.Legal.{IsLegalRun};
ghost use Rattle.tv_spec.specs.Room.{owed};
ghost use Rattle.tv_spec.specs.declared.Answer.{Answer};
ghost use Rattle.tv_core.specs.Calls.{DeliveredSo, EndedSo, HandedSo, IsFirstDue, RestsNow, TickedSo, TookSo, status_by, why_of};
ghost use Rattle.tv_core.specs.Seen.{HasDevice, HasHart, debug_of, dev_of, first_by, first_seen, history, setup_by, state_of, with_entry};
ghost use Rattle.tv_core.specs.Stands.{IsUnderWay};

mod services;
mod turns;

use crate::copies::{copy_bytes, copy_machine};
use crate::parts::{
    clock_seat, exit_status, fill, has_ended, new_ring, new_sides, stop, worker_seat,
};
use circular_buffer::HeapCircularBuffer;
use std::alloc::Global;
use std::marker::Model;
use tv_base::{DevNo, Memory, Why};
use tv_grants::Grants;
use tv_guest::Guest;
use tv_items::Item;
use tv_journal::{Entry, Journal};
use tv_machine::Machine;
use tv_proxy::Landed;
use tv_side::Side;
use tv_spec::Mode;

/// What a turn of a hart came to.
#[derive(Clone, Copy)]
pub enum Turn {
    /// So many events, at least 1.
    Ran(u16),
    /// No event: the run had ended, or its journal has no room for the next event and the run ends now.
    Ending,
    /// No event: the hart waits for a load of a device.
    Waits,
    /// No event: the next instruction needs room in a command tube, or in the ring of debug bytes, that is full.
    Stalled,
}

/// A machine whose devices are served by workers. Contracts see the machine and the image that it was made of, its history, what it
/// handed out, and which workers were told of its ending.
///
/// Its memory is taken when it is made. The numbers of harts and devices that a call takes are those of the machine.
#[derive(Drop)]
pub struct Proxied {
    machine: Machine,
    image: Vec<u8>,
    guest: Guest,
    grants: Grants,
    /// The devices' sides, by slot.
    sides: Vec<Side>,
    /// Whether a hart waits for a load of a device.
    waits: [bool; 8],
    /// The debug bytes that were not handed out.
    ring: HeapCircularBuffer<u8>,
    /// How many debug bytes were handed out.
    handed: u64,
    journal: Journal,
    /// The seat of who made the outer end, 0 before.
    seat: u16,
}

impl Model for Proxied {
    ghost use Rattle.tv_core.specs.Seen.{Seen};

    ghost Value = { Seen };

    ghost use Rattle.tv_core.specs.Fields.{IsProxied, seen_in};

    ghost view = { seen_in };

    ghost invariant = { IsProxied };
}

impl Proxied {
    /// A machine with an image of up to `ram` bytes, as a run begins.
    ///
    /// # Errors
    /// Out of memory.
    pub fn new(alloc: Global, machine: &Machine, image: &[u8]) -> Result<Proxied, Memory>
        requires valid { IsValid machine.now }
        requires fits { length image.now ≤ machine.now.ram }
        ensures { IfOk result (λ core. core ≡ first_seen machine.now image.now) }
    {
        Ok(Proxied {
            machine: copy_machine(alloc, machine)?,
            image: copy_bytes(alloc, image)?,
            guest: Guest::new(alloc, machine, image)?,
            grants: Grants::of_machine(alloc, machine)?,
            sides: new_sides(alloc, machine)?,
            waits: [false; 8],
            ring: new_ring(alloc)?,
            handed: 0,
            journal: Journal::new(alloc, machine.journal_entries, machine.journal_bytes)?,
            seat: 0,
        })
    }

    /// A device acts on its next item: the item after its tag. `None` where its command tube is empty, which changes nothing, or
    /// the run has ended or ends now, of which the worker is told.
    pub fn take(&mut self, dev: DevNo) -> Option<(u32, Item)>
        requires device { HasDevice self.old dev }
        requires rests { RestsNow (dev_of self.old dev) }
        ensures { TookSo self.old self.new dev result }
    {
        let slot = usize::from(dev.get());
        if has_ended(&self.guest) {
            self.sides[slot].tell();
            return None;
        }
        if self.sides[slot].items() == 0 {
            return None;
        }
        if !self.journal.push(&Entry::Take(dev)) {
            fill(&mut self.guest, &mut self.journal);
            self.seat = worker_seat(&self.machine, dev);
            self.sides[slot].tell();
            return None;
        }
        self.sides[slot].take()
    }

    /// The worker of a device replies to the first load that lacks its Reply, with the value that the device gave.
    pub fn reply(&mut self, dev: DevNo, tag: u32, value: u64)
        requires device { HasDevice self.old dev }
        requires due { IsFirstDue (dev_of self.old dev) tag (Answer.Value value) }
        ensures { self.new ≡ with_entry self.old (entry.Reply dev) }
    {
        self.sides[usize::from(dev.get())].put_value(tag, value);
        self.journal.push_reserved(&Entry::Reply(dev));
    }

    /// The oldest Reply of a device lands: the value reaches the hart that waits for it, also where the run has ended. `false`
    /// exactly where there is no Reply, and nothing changes then.
    pub fn deliver(&mut self, dev: DevNo) -> bool
        requires device { HasDevice self.old dev }
        ensures { DeliveredSo self.old self.new dev result }
    {
        match self.sides[usize::from(dev.get())].land() {
            Some(landed) => match landed {
                Landed::Hart(hart, value) => {
                    self.guest.finish(hart, value);
                    self.waits[usize::from(hart.get())] = false;
                    self.journal.push_reserved(&Entry::Deliver(dev));
                    true
                }
                Landed::Line(_, _) => unreachable!(),
            },
            None => false,
        }
    }

    /// The cause for which the run ended; `None` exactly where it goes on.
    pub fn why(&self) -> Option<Why>
        ensures { result ≡ why_of self.now }
    {
        match self.guest.mode() {
            Mode::Running => None,
            Mode::Ending(why) => Some(why),
        }
    }

    /// The exit status of the run; `None` exactly where it goes on.
    pub fn status(&self) -> Option<u8>
        ensures { result ≡ status_by (why_of self.now) }
    {
        self.why().map(exit_status)
    }

    /// The run ends, for a cause that no entry has, by who has this seat. Where it had ended, nothing changes: the first cause stays.
    pub fn end(&mut self, why: Why, seat: u16)
        requires cause { cause_byte why ≢ None }
        ensures { EndedSo self.old self.new why seat }
    {
        if has_ended(&self.guest) {
            return;
        }
        stop(&mut self.guest, &mut self.journal, &why);
        self.seat = seat;
    }

    /// Time goes on by `n`. `false` where the run has ended or the last entry is a tick, which changes nothing, or the run ends now.
    pub fn tick(&mut self, n: u32) -> bool
        requires some { 0 < n }
        ensures { TickedSo self.old self.new n result }
    {
        if has_ended(&self.guest) || self.journal.ends_with_tick() {
            return false;
        }
        if !self.journal.push(&Entry::Tick(n)) {
            fill(&mut self.guest, &mut self.journal);
            self.seat = clock_seat(&self.machine);
            return false;
        }
        self.guest.tick(n);
        true
    }

    /// The oldest of the debug bytes that were not handed out, as many as there are or fit. They are handed out then.
    pub fn debug_take(&mut self, out: &mut [u8]) -> usize
        ensures { HandedSo self.old self.new out.new (length out.old) result }
    {
        let count = self.ring.read_into(out);
        self.handed += count as u64;
        count
    }

    /// The end that no entry made, with the number of entries before it; `None` exactly where there was none.
    pub fn outer(&self) -> Option<(u64, Why)>
        ensures { result ≡ self.now.outer }
    {
        self.journal.outer()
    }

    /// The journal of its history.
    pub fn into_journal(self) -> Journal
        ensures entries { result.entries ≡ self.entries }
        ensures outer { result.outer ≡ self.outer }
    {
        let Proxied { journal, .. } = self;
        journal
    }

    /// Every history is a legal run, each device of its state is the fold of what the entries of the device's worker brought, no
    /// more debug bytes were handed out than harts stored, the journal has room for all records that are owed, and each load that
    /// did not land is under way at its device.
    pub fn is_legal(&self)
        ensures legal { IsLegalRun self.now.machine self.now.image self.now.entries self.now.outer }
        ensures held { (d : ℕ) → held_of (dev_of self.now d) ≡ held_from (held_of ((first_by self.now).devs d)) (own (setup_by self.now) (first_by self.now) d (history self.now)) }
        ensures bytes { self.now.handed ≤ length (debug_of self.now) }
        ensures room { record_count self.now.entries + owed (state_of self.now) ≤ self.now.machine.journal_entries }
        ensures loads { (hart : ℕ) → HasHart self.now hart → IsUnderWay (state_of self.now).devs ((state_of self.now).pending hart) }
    {
        let _journal = &self.journal;
    }
}
