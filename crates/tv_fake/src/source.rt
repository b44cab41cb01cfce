//! A source in memory.

ghost use Rattle.std.specs.Prelude.{◌≡◌, Some};
ghost use Rattle.tv_fake.specs.Opened.{opened_source};

use crate::copy::copy_part;
use crate::counter::Counter;
use std::marker::Model;
use tv_base::Failed;
use tv_out::Source;

/// A source of given bytes.
#[derive(Drop)]
pub struct MemorySource {
    bytes: Vec<u8>,
    taken: usize,
    calls: Counter,
    faults: u64,
}

impl Model for MemorySource {
    ghost use Rattle.std.specs.Prelude.{Some, ◌≤◌, drop, vec_len};
    ghost use Rattle.tv_out.specs.Told.{ToldSource};

    ghost Value = { ToldSource };

    ghost view = { λ source. record {
      left = Some (drop source.taken source.bytes.items);
      faults = source.faults;
      calls = Some source.calls;
    } };

    ghost invariant = { λ source. source.taken ≤ vec_len source.bytes };
}

impl MemorySource {
    /// A source of these bytes, of which the takes with these numbers fail, from 0. A take gives as much as is left and
    /// fits.
    pub fn new(bytes: Vec<u8>, failing: Vec<u64>) -> MemorySource
        ensures { result ≡ record {
          left = Some bytes.items;
          faults = 0;
          calls = Some (record { made = 0; failing = failing.items });
        } }
    {
        MemorySource {
            bytes,
            taken: 0,
            calls: Counter::new(failing),
            faults: 0,
        }
    }

    /// Begins again with the bytes that are left: no call was made.
    pub fn restart(&mut self)
        ensures { self.new ≡ opened_source self.old }
    {
        self.calls.restart();
        self.faults = 0;
    }

    /// The bytes that are left.
    pub fn left(&self) -> &[u8]
        ensures { self.now.left ≡ Some result.now }
    {
        &self.bytes[self.taken..]
    }
}

impl Source for MemorySource {
    ghost told = { λ source. source };

    fn faults(&self) -> u64 {
        self.faults
    }

    fn take(&mut self, out: &mut [u8]) -> Result<usize, Failed> {
        if self.calls.next() {
            self.faults = self.faults.saturating_add(1);
            return Err(Failed);
        }
        let count = out.len().min(self.bytes.len() - self.taken);
        copy_part(out, &self.bytes, self.taken, count);
        self.taken += count;
        Ok(count)
    }
}
