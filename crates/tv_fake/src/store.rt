//! A store in memory.

ghost use Rattle.std.specs.Prelude.{◌≡◌, [], IfOk, IfSome};
ghost use Rattle.tv_out.specs.Calls.{with_call};
ghost use Rattle.tv_out.specs.Shelf.{first_named, after_giving};
ghost use Rattle.tv_fake.specs.Giving.{IsAdmission, IsGift};
ghost use Rattle.tv_fake.specs.Shelf.{objects};

use crate::counter::Counter;
use crate::disk::MemoryDisk;
use crate::shelf::{Named, find_named, take_named};
use crate::sink::MemorySink;
use crate::source::MemorySource;
use crate::tally::Tally;
use std::alloc::Global;
use tv_base::{Failed, Memory};
use tv_out::{LoadFault, Store};

/// What a store in memory has from the start. Of several disks, sinks or sources of one name it gives one after the
/// other; of several files it loads the first, each time.
#[derive(Drop)]
pub struct Objects {
    /// The files that are loaded.
    pub files: Vec<Named<Vec<u8>>>,
    /// The disks that are opened.
    pub disks: Vec<Named<MemoryDisk>>,
    /// The sinks that are created.
    pub sinks: Vec<Named<MemorySink>>,
    /// The sources that are opened.
    pub sources: Vec<Named<MemorySource>>,
}

impl Objects {
    /// None at all.
    pub fn new(alloc: Global) -> Objects
        ensures files { result.files.items ≡ [] }
        ensures disks { result.disks.items ≡ [] }
        ensures sinks { result.sinks.items ≡ [] }
        ensures sources { result.sources.items ≡ [] }
    {
        Objects {
            files: Vec::new(alloc),
            disks: Vec::new(alloc),
            sinks: Vec::new(alloc),
            sources: Vec::new(alloc),
        }
    }
}

/// A store that loads its files, and gives the other objects that it was made with in order. Each call on a name that
/// isn't in its list fails.
#[derive(Drop)]
pub struct MemoryStore {
    objects: Objects,
    tally: Tally,
    calls: Counter,
}

impl MemoryStore {
    ghost use Rattle.tv_fake.specs.MemoryStore.{told_by, IsNewStore};

    /// A store with this list of names, of which the calls with these numbers fail, from 0.
    pub fn new(
        alloc: Global,
        names: Vec<String>,
        objects: Objects,
        failing: Vec<u64>,
    ) -> Result<MemoryStore, Memory>
        ensures { IfOk result (λ store. IsNewStore names.items objects failing.items (told_by store)) }
    {
        Ok(MemoryStore {
            objects,
            tally: Tally::new(alloc, names)?,
            calls: Counter::new(failing),
        })
    }

    /// The count of faults at this name; the names outside the list share one.
    pub fn faults_at(&self, name: &str) -> u64
        ensures { IfSome (told_by self.now).name_faults (λ counts. result ≡ counts.count_of name.now) }
    {
        self.tally.count_of(name)
    }
}

impl Store for MemoryStore {
    ghost use Rattle.tv_fake.specs.MemoryStore.{told_by};

    type Disk = MemoryDisk;

    type Sink = MemorySink;

    type Source = MemorySource;

    ghost told = { told_by };

    fn faults(&self) -> u64 {
        self.tally.total()
    }

    fn load(&mut self, alloc: Global, name: &str, most: usize) -> Result<Vec<u8>, LoadFault> {
        if !admit(&mut self.calls, &mut self.tally, name) {
            return Err(LoadFault::Failed);
        }
        let bytes = match find_named(&self.objects.files, name) {
            Some(bytes) => bytes,
            None => {
                self.tally.raise(name);
                return Err(LoadFault::Failed);
            }
        };
        if bytes.len() > most {
            return Err(LoadFault::TooLong);
        }
        Vec::from_slice(alloc, bytes).map_err(|_| LoadFault::Memory)
    }

    fn open_disk(&mut self, name: &str, _readonly: bool) -> Result<MemoryDisk, Failed> {
        let mut disk = give(
            &mut self.calls,
            &mut self.tally,
            &mut self.objects.disks,
            name,
        )?;
        disk.restart();
        Ok(disk)
    }

    fn create(&mut self, name: &str) -> Result<MemorySink, Failed> {
        let mut sink = give(
            &mut self.calls,
            &mut self.tally,
            &mut self.objects.sinks,
            name,
        )?;
        sink.restart();
        Ok(sink)
    }

    fn open_source(&mut self, name: &str) -> Result<MemorySource, Failed> {
        let mut source = give(
            &mut self.calls,
            &mut self.tally,
            &mut self.objects.sources,
            name,
        )?;
        source.restart();
        Ok(source)
    }
}

/// Counts a call on a name, and a fault there where it fails by its number or since the name isn't in the list. Says
/// whether the call goes on.
fn admit(calls: &mut Counter, tally: &mut Tally, name: &str) -> bool
    ensures admission { IsAdmission calls.old name.now tally.old tally.new result }
    ensures counted { calls.new ≡ with_call calls.old }
{
    if calls.next() || !tally.is_listed(name) {
        tally.raise(name);
        return false;
    }
    true
}

/// Takes the first object of this name, as a call on that name.
#[tactic(auto, using(crate::proofs::Places::without_none))]
fn give<T>(
    calls: &mut Counter,
    tally: &mut Tally,
    shelf: &mut Vec<Named<T>>,
    name: &str,
) -> Result<T, Failed>
    ensures gift { IsGift calls.old name.now tally.old tally.new (first_named name.now (objects shelf.old.items)) result }
    ensures shelf { objects shelf.new.items ≡ after_giving result name.now (objects shelf.old.items) }
    ensures counted { calls.new ≡ with_call calls.old }
{
    if !admit(calls, tally, name) {
        return Err(Failed);
    }
    match take_named(shelf, name) {
        Some(object) => Ok(object),
        None => {
            tally.raise(name);
            Err(Failed)
        }
    }
}
