//! The journal of a run: its events in order, kept as records, and the file that they are saved in.
#![tactic(auto)]

ghost use Rattle.std.specs.Prelude.{◌≡◌, ◌≢◌, ℕ, ◌+◌, ◌<◌, ◌-◌, ◌≤◌, ◌^◌, List, [], Option, None, Err, IfOk, length, replicate};
ghost use Rattle.std.specs.Result.{is_err};
ghost use Rattle.tv_base.specs.declared.Why.{Why};
ghost use Rattle.tv_out.specs.Faults.{HasCause};
ghost use Rattle.tv_journal.specs.declared.Entry.{Entry};
ghost use Rattle.tv_journal.specs.Entries.{payload_bytes, record_count, records_of};
ghost use Rattle.tv_journal.specs.Grammar.{cause_byte, SpellsJournal, IsLongestFront};
ghost use Rattle.tv_journal.specs.Writing.{IsSaved};
ghost use Rattle.tv_journal.specs.Journals.{
  ends_with_tick,
  given_back,
  has_room,
  has_free,
  next_record,
  next_run,
  next_tick,
  pushed,
  pushed_all,
  pushed_reserved,
  reserved,
  reserved_for,
  IsEntry,
  IsOuterEnd,
  IsReserved,
  MayFollow,
};

mod field;
mod reader;
mod record;
mod writer;

use reader::{Reader, StepFault};
use record::{EndLine, Store, payload_of};
use std::alloc::Global;
use std::marker::Model;
use tv_base::{DevNo, HartNo, Memory, Why};
use tv_items::Heard;
use tv_out::{Failed, Sink};
use writer::write_lines;

/// One event of a run.
#[derive(Drop)]
pub enum Entry {
    /// An event of this hart.
    Hart(HartNo),
    /// This device acts on its next item.
    Take(DevNo),
    /// This device sends its next action on memory or interrupts as a request.
    Send(DevNo),
    /// The memory service serves the request of this device.
    ServeMem(DevNo),
    /// The interrupt service serves the request of this device.
    ServeIrq(DevNo),
    /// This device gets the reply to its request.
    Got(DevNo),
    /// This device replies to the first of what is due.
    Reply(DevNo),
    /// The oldest reply of this device is delivered.
    Deliver(DevNo),
    /// This device begins its next action outside the machine.
    Intend(DevNo),
    /// This device heard this of its action outside the machine, where nothing is refused.
    Did(DevNo, Heard),
    /// Time goes on by this much, at least 1.
    Tick(u32),
}

/// The events of a run, in order. Its room is taken when it is made.
#[derive(Drop)]
pub struct Journal {
    store: Store,
    end: Option<EndLine>,
    events: u64,
    record_room: u32,
    payload_room: usize,
    reserved_records: u32,
    reserved_bytes: usize,
}

impl Model for Journal {
    ghost use Rattle.tv_journal.specs.Journals.{JournalState};

    ghost Value = { JournalState };

    ghost use Rattle.tv_journal.specs.Entries.{entries_of};
    ghost use Rattle.tv_journal.specs.Grammar.{outer_of};
    ghost use Rattle.tv_journal.specs.JournalFields.{IsJournal};
    ghost use Rattle.tv_journal.specs.Stores.{held};

    ghost view = { λ j. record {
      entries = entries_of (held j.store);
      outer = outer_of j.end;
      record_room = j.record_room;
      payload_room = j.payload_room;
      reserved_records = j.reserved_records;
      reserved_bytes = j.reserved_bytes;
    } };

    ghost invariant = { IsJournal };
}

/// Why bytes were not read as a journal file.
#[derive(Clone, Copy, Debug, PartialEq, Eq)]
pub enum JournalFault {
    /// They are no journal file. The number is the length of the longest front of them that begins some journal file.
    At(u64),
    /// Want of memory.
    Memory,
}

/// A place in a journal: how many records are before it.
#[derive(Drop)]
pub struct Cursor {
    next: usize,
}

impl Model for Cursor {
    ghost use Rattle.std.specs.Prelude.{ℕ};

    ghost Value = { ℕ };

    ghost view = { λ cursor. cursor.next };
}

impl Journal {
    /// An empty journal with room for so many records, and for so many bytes of payload, which entries
    /// [`Did`](Entry::Did) have. Memory for both is taken here, and no later call takes any.
    ///
    /// # Errors
    /// Want of memory.
    pub fn new(alloc: Global, entries: u32, bytes: u32) -> Result<Journal, Memory>
        ensures { IfOk result (λ journal. journal ≡ record { entries = []; outer = None; record_room = entries; payload_room = bytes; reserved_records = 0; reserved_bytes = 0 }) }
    {
        Ok(Journal {
            store: Store {
                records: Vec::with_capacity(alloc, entries as usize).map_err(|_| Memory)?,
                payload: Vec::with_capacity(alloc, bytes as usize).map_err(|_| Memory)?,
            },
            end: None,
            events: 0,
            record_room: entries,
            payload_room: bytes as usize,
            reserved_records: 0,
            reserved_bytes: 0,
        })
    }

    /// Adds an entry; `false` exactly where there is no free room for it, and nothing is changed then. After an end that no
    /// event made, no event of a hart is added.
    #[inline(always)]
    pub fn push(&mut self, entry: &Entry) -> bool
        requires few { length self.old.entries < 2 ^ 32 - 1 }
        requires entry { IsEntry entry.now }
        requires follows { MayFollow self.old.outer entry.now }
        ensures { (result, self.new) ≡ pushed self.old entry.now }
    {
        if !self.has_room(entry) {
            return false;
        }
        self.store.add(entry);
        self.events += 1;
        true
    }

    /// Adds so many events of a hart, one after the other; `false` exactly where there is no free room for them, and nothing
    /// is changed then.
    #[inline(always)]
    pub fn push_events(&mut self, hart: HartNo, count: u32) -> bool
        requires some { 0 < count }
        requires few { length self.old.entries + count < 2 ^ 32 }
        requires open { self.old.outer ≡ None }
        ensures { (result, self.new) ≡ pushed_all self.old (replicate count (Entry.Hart hart)) }
    {
        if !self.has_room(&Entry::Hart(hart)) {
            return false;
        }
        self.store.add_events(hart, count);
        self.events += u64::from(count);
        true
    }

    /// Adds an entry for which room was reserved, and takes it from what is reserved: a record, or none where an event joins
    /// a run, and the bytes that the entry has.
    #[inline(always)]
    pub fn push_reserved(&mut self, entry: &Entry)
        requires few { length self.old.entries < 2 ^ 32 - 1 }
        requires entry { IsEntry entry.now }
        requires follows { MayFollow self.old.outer entry.now }
        requires taken { IsReserved self.old entry.now }
        ensures { self.new ≡ pushed_reserved self.old entry.now }
    {
        self.reserved_records -= self.store.records_for(entry);
        self.reserved_bytes -= payload_of(entry);
        self.store.add(entry);
        self.events += 1;
    }

    /// Whether there is free room for an entry.
    #[inline(always)]
    pub fn has_room(&self, entry: &Entry) -> bool
        ensures { result ≡ has_room self.now entry.now }
    {
        self.has_free(self.store.records_for(entry) as usize, payload_of(entry))
    }

    /// Whether so many records and so many bytes of payload are free.
    #[inline(always)]
    fn has_free(&self, records: usize, bytes: usize) -> bool
        requires { records < 2 ^ 33 }
        ensures { result ≡ has_free self.now records bytes }
    {
        let limit = self.record_room as usize - self.reserved_records as usize;
        let taken = self.store.payload.len() + self.reserved_bytes;
        self.store.records.len() + records <= limit && bytes <= self.payload_room - taken
    }

    /// Reserves room for entries to come: so many records, and so many bytes of payload. `false` exactly where it is not
    /// free, and nothing is changed then.
    pub fn reserve(&mut self, records: u32, bytes: u32) -> bool
        ensures { (result, self.new) ≡ reserved self.old records bytes }
    {
        if !self.has_free(records as usize, bytes as usize) {
            return false;
        }
        self.reserved_records += records;
        self.reserved_bytes += bytes as usize;
        true
    }

    /// Reserves room for an entry, and so many records and bytes of payload more for what follows it. `false` exactly where
    /// it is not free, and nothing is changed then.
    #[inline(always)]
    pub fn reserve_for(&mut self, entry: &Entry, records: u32, bytes: u32) -> bool
        ensures { (result, self.new) ≡ reserved_for self.old entry.now records bytes }
    {
        let records = self.store.records_for(entry) as usize + records as usize;
        let bytes = payload_of(entry) + bytes as usize;
        if !self.has_free(records, bytes) {
            return false;
        }
        self.reserved_records += records as u32;
        self.reserved_bytes += bytes;
        true
    }

    /// Makes so many reserved records and bytes free again.
    pub fn give_back(&mut self, records: u32, bytes: u32)
        requires records { records ≤ self.old.reserved_records }
        requires bytes { bytes ≤ self.old.reserved_bytes }
        ensures { self.new ≡ given_back self.old records bytes }
    {
        self.reserved_records -= records;
        self.reserved_bytes -= bytes as usize;
    }

    /// Sets the end that no event made, after the entries that are there. It needs no room.
    pub fn end(&mut self, why: Why)
        requires none { self.old.outer ≡ None }
        requires cause { cause_byte why ≢ None }
        ensures { self.new ≡ record self.old { outer = Some (length self.old.entries, why) } }
    {
        self.end = Some(EndLine {
            records: self.store.records.len(),
            entries: self.events,
            why,
        });
    }

    /// The end that no event made, with the number of entries before it; `None` where none is set. It cuts no record in
    /// two, and no event of a hart comes after it.
    pub fn outer(&self) -> Option<(u64, Why)>
        ensures outer { result ≡ self.now.outer }
        ensures line { IsOuterEnd self.now.entries result }
    {
        match self.end {
            Some(end) => Some((end.entries, end.why)),
            None => None,
        }
    }

    /// The place before the first record.
    pub fn cursor(&self) -> Cursor
        ensures { result ≡ 0 }
    {
        Cursor { next: 0 }
    }

    /// The entry of the record behind the cursor, and how often it comes: the events of a hart's record, or 1. The cursor
    /// moves past that record; `None` and no move exactly where there is no record left.
    ///
    /// A cursor of another journal, or of this one before something was added, means a number of records and no more.
    pub fn next(&self, cursor: &mut Cursor) -> Option<(Entry, u32)>
        ensures { (result, cursor.new) ≡ next_record (records_of self.now.entries) cursor.old }
    {
        let at = cursor.next;
        match self.store.entry_at(at) {
            Some(found) => {
                cursor.next = at + 1;
                Some(found)
            }
            None => None,
        }
    }

    /// The same for a run of events alone: its hart, and how many events they are. `None` and no move exactly where the
    /// record behind the cursor is another one or there is none.
    #[inline(always)]
    pub fn next_events(&self, cursor: &mut Cursor) -> Option<(HartNo, u32)>
        ensures { (result, cursor.new) ≡ next_run (records_of self.now.entries) cursor.old }
    {
        let at = cursor.next;
        match self.store.run_at(at) {
            Some(run) => {
                cursor.next = at + 1;
                Some(run)
            }
            None => None,
        }
    }

    /// The same for a tick alone: what it adds to the time. `None` and no move exactly where the record behind the cursor is
    /// another one or there is none.
    #[inline(always)]
    pub fn next_tick(&self, cursor: &mut Cursor) -> Option<u32>
        ensures { (result, cursor.new) ≡ next_tick (records_of self.now.entries) cursor.old }
    {
        let at = cursor.next;
        match self.store.tick_at(at) {
            Some(n) => {
                cursor.next = at + 1;
                Some(n)
            }
            None => None,
        }
    }

    /// Whether the last entry is a tick.
    pub fn ends_with_tick(&self) -> bool
        ensures { result ≡ ends_with_tick self.now.entries }
    {
        self.store.last_tick().is_some()
    }

    /// The number of records.
    pub fn records(&self) -> u32
        ensures { result ≡ record_count self.now.entries }
    {
        self.store.records.len() as u32
    }

    /// The number of entries.
    pub fn events(&self) -> u64
        ensures { result ≡ length self.now.entries }
    {
        self.events
    }

    /// Puts the journal's file to a sink, in pieces. It takes no memory.
    ///
    /// # Errors
    /// `Failed` where the sink failed. A front of the file went out then.
    pub fn write_file<K: Sink>(&self, sink: &mut K) -> Result<(), Failed>
        ensures saved { IsSaved result self.now.entries self.now.outer (K.told sink.old) (K.told sink.new) }
        ensures cause { HasCause (K.told sink.old).faults (K.told sink.new).faults (is_err result) }
    {
        write_lines(sink, &self.store, self.end)
    }

    /// The journal that a file holds. It has the room that it takes, and no more.
    ///
    /// # Errors
    /// `At` exactly where the bytes are no journal file, `Memory`.
    pub fn read_file(alloc: Global, bytes: &[u8]) -> Result<Journal, JournalFault>
        ensures spelled { IfOk result (λ journal. SpellsJournal bytes.now journal.entries journal.outer) }
        ensures room { IfOk result (λ journal. journal.record_room ≡ record_count journal.entries) }
        ensures payload { IfOk result (λ journal. journal.payload_room ≡ payload_bytes journal.entries) }
        ensures reserved { IfOk result (λ journal. (journal.reserved_records ≡ 0) × (journal.reserved_bytes ≡ 0)) }
        ensures front { (n : ℕ) → result ≡ Err (JournalFault.At n) → IsLongestFront bytes.now n }
        ensures no_file { (n : ℕ) → result ≡ Err (JournalFault.At n) → (entries : List Entry) (outer : Option (ℕ × Why))
            → ¬ SpellsJournal bytes.now entries outer }
    {
        let mut reader = Reader::new(alloc);
        for (at, byte) in bytes.iter().enumerate() {
            match reader.step(*byte) {
                Ok(()) => {}
                Err(StepFault::Refused) => return Err(JournalFault::At(at as u64)),
                Err(StepFault::Memory) => return Err(JournalFault::Memory),
            }
        }
        let done = reader.is_done();
        if !done {
            return Err(JournalFault::At(bytes.len() as u64));
        }
        let record_room = reader.store.records.len() as u32;
        let payload_room = reader.store.payload.len();
        Ok(Journal {
            store: reader.store,
            end: reader.end,
            events: reader.events,
            record_room,
            payload_room,
            reserved_records: 0,
            reserved_bytes: 0,
        })
    }
}

/// A journal has one file: entries and an end have one spelling at most.
pub fn one_spelling()
    ensures { (first second : List ℕ) (entries : List Entry) (outer : Option (ℕ × Why)) → SpellsJournal first entries outer
        → SpellsJournal second entries outer → first ≡ second }
{}

/// A file holds one journal: bytes spell one list of entries and one end at most.
pub fn one_reading()
    ensures { (bytes : List ℕ) (first second : List Entry) (before after : Option (ℕ × Why)) → SpellsJournal bytes first before
        → SpellsJournal bytes second after → (first ≡ second) × (before ≡ after) }
{}

#[cfg(test)]
mod tests;
