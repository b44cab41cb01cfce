//! The records that a journal keeps, and the bytes that some of them carry.

ghost use Rattle.std.specs.Prelude.{◌≡◌, ◌⊎◌, ◌≤◌, ◌<◌, ◌+◌, ◌++◌, ◌∷◌, [], OnOk, OnErr, length, slice_get, option_map, vec_capacity};
ghost use Rattle.tv_base.specs.declared.limits.TheConstants.{PIECE_BYTES};
ghost use Rattle.tv_items.specs.declared.action.Heard.TheVariants as heard_as;
ghost use Rattle.tv_journal.specs.declared.Entry.TheVariants as entry_as;
ghost use Rattle.tv_journal.specs.Entries.{One, heard_bytes, payload_in};
ghost use Rattle.tv_journal.specs.Grammar.{last_record};
ghost use Rattle.tv_journal.specs.Journals.{IsEntry};
ghost use Rattle.tv_journal.specs.Stores.{
  step_entry,
  step_kind,
  step_at,
  held,
  record_in,
  run_of,
  tick_of,
  added,
  events_added,
  record_needed,
  entry_and_count,
  CanCount,
  FitsEntry,
  Lies,
  LiesIn,
};

use crate::Entry;
use std::alloc::Global;
use tv_base::{DevNo, HartNo, Memory, Why};
use tv_items::{Bytes, Heard};

/// A step of a device of which a record says no more than the device.
#[derive(Clone, Copy)]
pub enum DeviceStep {
    Take,
    Send,
    ServeMem,
    ServeIrq,
    Got,
    Reply,
    Deliver,
    Intend,
}

impl DeviceStep {
    /// The step that a record's kind is, if it is one.
    pub fn at(kind: u8) -> Option<DeviceStep>
        ensures { result ≡ step_at kind }
    {
        match kind {
            0x02 => Some(DeviceStep::Take),
            0x03 => Some(DeviceStep::Send),
            0x04 => Some(DeviceStep::ServeMem),
            0x05 => Some(DeviceStep::ServeIrq),
            0x06 => Some(DeviceStep::Got),
            0x07 => Some(DeviceStep::Reply),
            0x08 => Some(DeviceStep::Deliver),
            0x09 => Some(DeviceStep::Intend),
            _ => None,
        }
    }

    /// The kind of its record.
    pub fn kind(self) -> u8
        ensures { result ≡ step_kind self }
    {
        match self {
            DeviceStep::Take => 0x02,
            DeviceStep::Send => 0x03,
            DeviceStep::ServeMem => 0x04,
            DeviceStep::ServeIrq => 0x05,
            DeviceStep::Got => 0x06,
            DeviceStep::Reply => 0x07,
            DeviceStep::Deliver => 0x08,
            DeviceStep::Intend => 0x09,
        }
    }

    /// Its entry.
    pub fn entry(self, device: DevNo) -> Entry
        ensures { result ≡ step_entry self device }
    {
        match self {
            DeviceStep::Take => Entry::Take(device),
            DeviceStep::Send => Entry::Send(device),
            DeviceStep::ServeMem => Entry::ServeMem(device),
            DeviceStep::ServeIrq => Entry::ServeIrq(device),
            DeviceStep::Got => Entry::Got(device),
            DeviceStep::Reply => Entry::Reply(device),
            DeviceStep::Deliver => Entry::Deliver(device),
            DeviceStep::Intend => Entry::Intend(device),
        }
    }
}

/// A record as a journal keeps it, without the bytes that it carries.
#[derive(Clone, Copy)]
pub enum Stored {
    /// A run of events of one hart, and how many they are, at least 1.
    Run(HartNo, u32),
    /// A step of a device.
    Step(DeviceStep, DevNo),
    /// A device's outside action was done, and gave no bytes.
    Done(DevNo),
    /// It failed.
    Failed(DevNo),
    /// It gave so many bytes, which begin at this place of the payload.
    Bytes(DevNo, u16, usize),
    /// It was a put that failed after so many bytes.
    Taken(DevNo, u16),
    /// A tick, and what it adds to the time, at least 1.
    Tick(u32),
}

/// The end of a run that no event made, and its place.
#[derive(Clone, Copy)]
pub struct EndLine {
    /// The number of records before it.
    pub records: usize,
    /// The number of entries before it.
    pub entries: u64,
    /// The cause.
    pub why: Why,
}

/// Records, and the bytes that they carry, one after the other.
#[derive(Drop)]
pub struct Store {
    pub records: Vec<Stored>,
    pub payload: Vec<u8>,
}

impl Store {
    /// No records. It takes no memory.
    pub fn new(alloc: Global) -> Store
        ensures records { result.records.items ≡ [] }
        ensures payload { result.payload.items ≡ [] }
    {
        Store {
            records: Vec::new(alloc),
            payload: Vec::new(alloc),
        }
    }

    /// The hart and the count of the last record, if it is a run.
    #[inline(always)]
    pub fn last_run(&self) -> Option<(HartNo, u32)>
        ensures { result ≡ run_of (last_record (held self.now)) }
    {
        match self.records.last() {
            Some(Stored::Run(hart, count)) => Some((*hart, *count)),
            _ => None,
        }
    }

    /// What the last record adds to the time, if it is a tick.
    pub fn last_tick(&self) -> Option<u32>
        ensures { result ≡ tick_of (last_record (held self.now)) }
    {
        match self.records.last() {
            Some(Stored::Tick(n)) => Some(*n),
            _ => None,
        }
    }

    /// Adds a record.
    ///
    /// # Errors
    /// Want of memory.
    #[inline(always)]
    pub fn keep(&mut self, more: Stored) -> Result<(), Memory>
        ensures kept { OnOk result (self.new.records.items ≡ self.old.records.items ++ more ∷ []) }
        ensures memory { OnErr result (vec_capacity self.old.records ≤ length self.old.records.items) }
        ensures payload { self.new.payload ≡ self.old.payload }
        ensures capacity { vec_capacity self.old.records ≤ vec_capacity self.new.records }
    {
        self.records.push(more).map_err(|_| Memory)
    }

    /// Adds the record of an outside action that gave bytes, at most [`PIECE_BYTES`](tv_base::PIECE_BYTES).
    ///
    /// # Errors
    /// Want of memory. After it the bytes may be there without their record.
    pub fn keep_bytes(&mut self, device: DevNo, bytes: &[u8]) -> Result<(), Memory>
        requires few { length bytes.now ≤ PIECE_BYTES }
        requires lies { Lies self.old }
        ensures kept { OnOk result (held self.new ≡ held self.old ++ One (entry_as.Did device (heard_as.Bytes bytes.now)) ∷ []) }
        ensures lies { OnOk result (Lies self.new) }
        ensures payload { OnOk result (self.new.payload.items ≡ self.old.payload.items ++ bytes.now) }
        ensures records { OnOk result (length self.new.records.items ≡ length self.old.records.items + 1) }
        ensures memory { OnErr result ((vec_capacity self.old.records ≤ length self.old.records.items) ⊎ (vec_capacity self.old.payload < length self.old.payload.items + length bytes.now)) }
        ensures record_capacity { vec_capacity self.old.records ≤ vec_capacity self.new.records }
        ensures payload_capacity { vec_capacity self.old.payload ≤ vec_capacity self.new.payload }
    {
        let at = self.payload.len();
        self.extend(bytes)?;
        self.keep(Stored::Bytes(device, bytes.len() as u16, at))?;
        Ok(())
    }

    /// Adds bytes to the payload.
    fn extend(&mut self, bytes: &[u8]) -> Result<(), Memory>
        ensures extended { OnOk result (self.new.payload.items ≡ self.old.payload.items ++ bytes.now) }
        ensures memory { OnErr result (vec_capacity self.old.payload < length self.old.payload.items + length bytes.now) }
        ensures records { self.new.records ≡ self.old.records }
        ensures capacity { vec_capacity self.old.payload ≤ vec_capacity self.new.payload }
    {
        self.payload.extend_from_slice(bytes).map_err(|_| Memory)
    }

    /// Adds so many events of a hart. They join the last record if that is a run of the hart, or else are one record. There
    /// is memory for it.
    #[inline(always)]
    pub fn add_events(&mut self, hart: HartNo, more: u32)
        requires memory { length (events_added (held self.old) hart more) ≤ vec_capacity self.old.records }
        requires few { CanCount (last_record (held self.old)) more }
        requires lies { Lies self.old }
        ensures added { held self.new ≡ events_added (held self.old) hart more }
        ensures fits { hart < 8 }
        ensures lies { Lies self.new }
        ensures payload { self.new.payload ≡ self.old.payload }
        ensures capacity { vec_capacity self.old.records ≤ vec_capacity self.new.records }
    {
        let number = hart.get();
        match self.last_run() {
            Some((last, count)) => {
                if number == last.get() {
                    let at = self.records.len() - 1;
                    self.records[at] = Stored::Run(last, count + more);
                } else {
                    self.keep_within(Stored::Run(hart, more));
                }
            }
            None => self.keep_within(Stored::Run(hart, more)),
        }
    }

    /// Adds a record for which there is memory.
    #[inline(always)]
    fn keep_within(&mut self, more: Stored)
        requires memory { length self.old.records.items < vec_capacity self.old.records }
        ensures kept { self.new.records.items ≡ self.old.records.items ++ more ∷ [] }
        ensures payload { self.new.payload ≡ self.old.payload }
        ensures capacity { vec_capacity self.old.records ≤ vec_capacity self.new.records }
    {
        match self.keep(more) {
            Ok(()) => {}
            Err(_) => unreachable!(),
        }
    }

    /// Adds an entry for which there is memory. An event of the last record's hart joins that record, any other entry is a
    /// record of its own.
    // Inlined, so that an entry of a known kind is not laid out in memory: each has room for the longest payload, and laying one
    // out clears all of it.
    #[inline(always)]
    pub fn add(&mut self, entry: &Entry)
        requires memory { length (added (held self.old) entry.now) ≤ vec_capacity self.old.records }
        requires payload_memory { length self.old.payload.items + payload_in entry.now ≤ vec_capacity self.old.payload }
        requires few { CanCount (last_record (held self.old)) 1 }
        requires entry { IsEntry entry.now }
        requires lies { Lies self.old }
        ensures added { held self.new ≡ added (held self.old) entry.now }
        ensures fits { FitsEntry entry.now }
        ensures lies { Lies self.new }
        ensures payload { length self.new.payload.items ≡ length self.old.payload.items + payload_in entry.now }
        ensures record_capacity { vec_capacity self.old.records ≤ vec_capacity self.new.records }
        ensures payload_capacity { vec_capacity self.old.payload ≤ vec_capacity self.new.payload }
    {
        match entry {
            Entry::Hart(hart) => self.add_events(*hart, 1),
            Entry::Take(device) => self.add_step(DeviceStep::Take, *device),
            Entry::Send(device) => self.add_step(DeviceStep::Send, *device),
            Entry::ServeMem(device) => self.add_step(DeviceStep::ServeMem, *device),
            Entry::ServeIrq(device) => self.add_step(DeviceStep::ServeIrq, *device),
            Entry::Got(device) => self.add_step(DeviceStep::Got, *device),
            Entry::Reply(device) => self.add_step(DeviceStep::Reply, *device),
            Entry::Deliver(device) => self.add_step(DeviceStep::Deliver, *device),
            Entry::Intend(device) => self.add_step(DeviceStep::Intend, *device),
            Entry::Did(device, heard) => self.add_heard(*device, heard),
            Entry::Tick(n) => self.add_one(Stored::Tick(*n)),
        }
    }

    /// Adds a record that carries no bytes.
    fn add_one(&mut self, more: Stored)
        requires memory { length self.old.records.items < vec_capacity self.old.records }
        requires none { LiesIn 0 more }
        requires lies { Lies self.old }
        ensures added { held self.new ≡ held self.old ++ record_in [] more ∷ [] }
        ensures lies { Lies self.new }
        ensures payload { self.new.payload ≡ self.old.payload }
        ensures capacity { vec_capacity self.old.records ≤ vec_capacity self.new.records }
    {
        self.keep_within(more);
    }

    /// Adds a step of a device.
    fn add_step(&mut self, step: DeviceStep, device: DevNo)
        requires memory { length self.old.records.items < vec_capacity self.old.records }
        requires lies { Lies self.old }
        ensures added { held self.new ≡ held self.old ++ One (step_entry step device) ∷ [] }
        ensures lies { Lies self.new }
        ensures fits { device < 8 }
        ensures payload { self.new.payload ≡ self.old.payload }
        ensures capacity { vec_capacity self.old.records ≤ vec_capacity self.new.records }
    {
        self.add_one(Stored::Step(step, device));
    }

    /// Adds what a device heard of an outside action.
    fn add_heard(&mut self, device: DevNo, heard: &Heard)
        requires memory { length self.old.records.items < vec_capacity self.old.records }
        requires payload_memory { length self.old.payload.items + heard_bytes heard.now ≤ vec_capacity self.old.payload }
        requires entry { IsEntry (entry_as.Did device heard.now) }
        requires lies { Lies self.old }
        ensures added { held self.new ≡ held self.old ++ One (entry_as.Did device heard.now) ∷ [] }
        ensures fits { FitsEntry (entry_as.Did device heard.now) }
        ensures lies { Lies self.new }
        ensures payload { length self.new.payload.items ≡ length self.old.payload.items + heard_bytes heard.now }
        ensures record_capacity { vec_capacity self.old.records ≤ vec_capacity self.new.records }
        ensures payload_capacity { vec_capacity self.old.payload ≤ vec_capacity self.new.payload }
    {
        match heard {
            Heard::Done => self.add_one(Stored::Done(device)),
            Heard::Failed => self.add_one(Stored::Failed(device)),
            Heard::Bytes(bytes) => match self.keep_bytes(device, bytes.as_slice()) {
                Ok(()) => {}
                Err(_) => unreachable!(),
            },
            Heard::Taken(count) => self.add_one(Stored::Taken(device, *count)),
            Heard::Refused => unreachable!(),
        }
    }

    /// The number of records that an entry adds: 0 where it joins the last one, else 1.
    #[inline(always)]
    pub fn records_for(&self, entry: &Entry) -> u32
        ensures { result ≡ record_needed (last_record (held self.now)) entry.now }
    {
        match entry {
            Entry::Hart(hart) => match self.last_run() {
                Some((last, _)) if hart.get() == last.get() => 0,
                _ => 1,
            },
            _ => 1,
        }
    }

    /// The record behind so many, as its entry and how often that comes.
    #[inline(always)]
    pub fn entry_at(&self, at: usize) -> Option<(Entry, u32)>
        requires lies { Lies self.now }
        ensures { result ≡ option_map entry_and_count (slice_get (held self.now) at) }
    {
        match self.records.get(at) {
            Some(found) => Some(self.entry_of(*found)),
            None => None,
        }
    }

    /// The entry of a record, and how often it comes.
    fn entry_of(&self, found: Stored) -> (Entry, u32)
        requires { LiesIn (length self.now.payload.items) found }
        ensures { result ≡ entry_and_count (record_in self.now.payload.items found) }
    {
        match found {
            Stored::Run(hart, count) => (Entry::Hart(hart), count),
            Stored::Step(step, device) => (step.entry(device), 1),
            Stored::Done(device) => (Entry::Did(device, Heard::Done), 1),
            Stored::Failed(device) => (Entry::Did(device, Heard::Failed), 1),
            Stored::Bytes(device, len, at) => {
                let bytes = Bytes::of(&self.payload[at..at + len as usize]);
                (Entry::Did(device, Heard::Bytes(bytes)), 1)
            }
            Stored::Taken(device, count) => (Entry::Did(device, Heard::Taken(count)), 1),
            Stored::Tick(n) => (Entry::Tick(n), 1),
        }
    }

    /// The run behind so many records, if there is one.
    #[inline(always)]
    pub fn run_at(&self, at: usize) -> Option<(HartNo, u32)>
        ensures { result ≡ run_of (slice_get (held self.now) at) }
    {
        match self.records.get(at) {
            Some(Stored::Run(hart, count)) => Some((*hart, *count)),
            _ => None,
        }
    }

    /// The tick behind so many records, if there is one.
    #[inline(always)]
    pub fn tick_at(&self, at: usize) -> Option<u32>
        ensures { result ≡ tick_of (slice_get (held self.now) at) }
    {
        match self.records.get(at) {
            Some(Stored::Tick(n)) => Some(*n),
            _ => None,
        }
    }
}

/// The bytes of payload that an entry has.
#[inline(always)]
pub fn payload_of(entry: &Entry) -> usize
    ensures bytes { result ≡ payload_in entry.now }
    ensures few { result ≤ PIECE_BYTES }
{
    match entry {
        Entry::Did(_, Heard::Bytes(bytes)) => bytes.as_slice().len(),
        _ => 0,
    }
}
