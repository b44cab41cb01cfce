//! The turns of harts.

ghost use Rattle.std.specs.Prelude.{◌≡◌, ◌<◌, ◌≤◌, ◌++◌, length};
ghost use Rattle.circular_buffer.specs.Buffer.{buffer};
ghost use Rattle.tv_journal.specs.Journals.{has_room_with};
ghost use Rattle.tv_journal.specs.declared.Entry.TheVariants as entry;
ghost use Rattle.tv_side.specs.Sides.{SideState};
ghost use Rattle.tv_spec.proofs.Memory.{IsToDevice};
ghost use Rattle.tv_spec.specs.Shows.{byte_shown};
ghost use Rattle.tv_core.specs.Bursts.{AreGates, BurstSo, FindsByte, FindsRoom, FindsSide, IssuesSo, is_held_up, journal_by, waits_by};
ghost use Rattle.tv_core.specs.Calls.{TurnedSo};
ghost use Rattle.tv_core.specs.Seen.{HasHart};

use super::{Proxied, Turn};
use crate::parts::{fill, has_ended};
use circular_buffer::HeapCircularBuffer;
use tv_base::{Access, DEBUG_RING_BYTES, HartNo};
use tv_journal::{Entry, Journal};
use tv_side::Side;
use tv_spec::{Closed, Shown};

impl Proxied {
    /// A turn of a hart: up to `most` events of it. It is shorter where the run doesn't go on, the hart waits for a load, or its
    /// next instruction needs room in a command tube, or in the ring of debug bytes, that is full. Where the journal has no room
    /// for an event, the run ends.
    pub fn hart_turn(&mut self, hart: HartNo, most: u16) -> Turn
        requires some { 0 < most }
        requires hart { HasHart self.old hart }
        ensures { TurnedSo self.old self.new hart most result }
    {
        let mut made = 0;
        while made < most {
            match self.burst(hart, most - made) {
                Turn::Ran(more) => made += more,
                stopped => return if made == 0 { stopped } else { Turn::Ran(made) },
            }
        }
        Turn::Ran(made)
    }

    /// A burst of up to `most` events of a hart, all but the last of which show nothing outside what harts reach directly.
    fn burst(&mut self, hart: HartNo, most: u16) -> Turn
        requires some { 0 < most }
        requires hart { HasHart self.old hart }
        ensures { BurstSo self.old self.new hart most result }
    {
        if has_ended(&self.guest) {
            return Turn::Ending;
        }
        if self.waits[usize::from(hart.get())] {
            return Turn::Waits;
        }
        let asked = if self.journal.has_room(&Entry::Hart(hart)) {
            u32::from(most)
        } else {
            0
        };
        let room = has_room_for_load(&mut self.journal, hart);
        let closed = gates(&self.ring, &self.sides, room);
        let (made, shown) = self.guest.burst(hart, asked, &closed);
        if made == 0 {
            if is_held_up(&self.ring, &self.sides, &self.guest.looks(hart)) {
                return Turn::Stalled;
            }
            fill(&mut self.guest, &mut self.journal);
            self.seat = u16::from(hart.get()) + 1;
            return Turn::Ending;
        }
        let _added = self.journal.push_events(hart, made);
        show(&mut self.ring, &shown);
        issue(&mut self.sides, hart, &shown);
        hold(&mut self.waits, &mut self.journal, hart, &shown);
        Turn::Ran(made as u16)
    }
}

/// Whether the journal has room for a load of a hart, with its Reply and its Deliver.
fn has_room_for_load(journal: &mut Journal, hart: HartNo) -> bool
    ensures room { result ≡ has_room_with journal.old (entry.Hart hart) 2 0 }
    ensures same { journal.new ≡ journal.old }
{
    if !journal.reserve(2, 0) {
        return false;
    }
    let room = journal.has_room(&Entry::Hart(hart));
    journal.give_back(2, 0);
    room
}

/// What is closed to harts for a burst.
fn gates(ring: &HeapCircularBuffer<u8>, sides: &[Side], room: bool) -> Closed
    requires { length sides.now ≤ 8 }
    ensures { AreGates ring.now.items sides.now room result }
{
    let mut closed = Closed {
        debug: ring.len() >= DEBUG_RING_BYTES,
        loads: [false; 8],
        stores: [false; 8],
    };
    for slot in 0..sides.len() {
        let full = sides[slot].is_full();
        closed.stores[slot] = full;
        closed.loads[slot] = full || !room;
    }
    closed
}

/// Whether what an event would show finds the ring, or a command tube, full.
fn is_held_up(ring: &HeapCircularBuffer<u8>, sides: &[Side], shown: &Shown) -> bool
    requires { IsToDevice (length sides.now) shown.now }
    ensures { (none : SideState) → result ≡ is_held_up ring.now.items sides.now none shown.now }
{
    match shown {
        Shown::Byte(_) => ring.len() >= DEBUG_RING_BYTES,
        Shown::Access(dev, _) => sides[usize::from(dev.get())].is_full(),
        Shown::Nothing | Shown::Finish(_) => false,
    }
}

/// Puts the byte that an event showed, if it showed one, into the ring.
fn show(ring: &mut HeapCircularBuffer<u8>, shown: &Shown)
    requires { FindsByte (length ring.old.items) ring.old.capacity shown.now }
    ensures { ring.new ≡ buffer (ring.old.items ++ byte_shown shown.now) ring.old.capacity }
{
    match shown {
        Shown::Byte(byte) => {
            let _added = ring.try_push_back(*byte);
        }
        Shown::Nothing | Shown::Finish(_) | Shown::Access(_, _) => {}
    }
}

/// Makes the item of an access that an event showed, if it showed one.
fn issue(sides: &mut Vec<Side>, hart: HartNo, shown: &Shown)
    requires { FindsSide hart sides.old.items shown.now }
    ensures { IssuesSo hart shown.now sides.old.items sides.new.items }
{
    match shown {
        Shown::Access(dev, access) => sides[usize::from(dev.get())].issue(hart, access),
        Shown::Nothing | Shown::Byte(_) | Shown::Finish(_) => {}
    }
}

/// A hart that issued a load waits for it, and room is reserved for the load's Reply and its Deliver.
fn hold(waits: &mut [bool; 8], journal: &mut Journal, hart: HartNo, shown: &Shown)
    requires { FindsRoom journal.old shown.now }
    ensures waits { waits.new ≡ waits_by hart shown.now waits.old }
    ensures journal { journal.new ≡ journal_by shown.now journal.old }
{
    match shown {
        Shown::Access(_, Access::Load { .. }) => {
            waits[usize::from(hart.get())] = true;
            let _reserved = journal.reserve(2, 0);
        }
        Shown::Access(_, Access::Store { .. })
        | Shown::Nothing
        | Shown::Byte(_)
        | Shown::Finish(_) => {}
    }
}
