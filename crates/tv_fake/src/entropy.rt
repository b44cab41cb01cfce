//! Bytes in memory that stand for random ones.

ghost use Rattle.std.specs.Prelude.{◌≡◌, [], Some};

use crate::copy::copy_part;
use crate::counter::Counter;
use std::marker::Model;
use tv_base::Failed;
use tv_out::Entropy;

/// Given bytes as random ones.
#[derive(Drop)]
pub struct MemoryEntropy {
    bytes: Vec<u8>,
    taken: usize,
    calls: Counter,
    faults: u64,
}

impl Model for MemoryEntropy {
    ghost use Rattle.std.specs.Prelude.{Some, ◌≤◌, take, drop, vec_len};
    ghost use Rattle.tv_out.specs.Told.{ToldEntropy};

    ghost Value = { ToldEntropy };

    ghost view = { λ entropy. record {
      bytes = Some (take entropy.taken entropy.bytes.items);
      left = Some (drop entropy.taken entropy.bytes.items);
      faults = entropy.faults;
      calls = Some entropy.calls;
    } };

    ghost invariant = { λ entropy. entropy.taken ≤ vec_len entropy.bytes };
}

impl MemoryEntropy {
    /// An object that gives these bytes, of which the fills with these numbers fail, from 0. A fill of more bytes than
    /// are left fails too.
    pub fn new(bytes: Vec<u8>, failing: Vec<u64>) -> MemoryEntropy
        ensures { result ≡ record {
          bytes = Some [];
          left = Some bytes.items;
          faults = 0;
          calls = Some (record { made = 0; failing = failing.items });
        } }
    {
        MemoryEntropy {
            bytes,
            taken: 0,
            calls: Counter::new(failing),
            faults: 0,
        }
    }
}

impl Entropy for MemoryEntropy {
    ghost told = { λ entropy. entropy };

    fn faults(&self) -> u64 {
        self.faults
    }

    fn fill(&mut self, out: &mut [u8]) -> Result<(), Failed> {
        let count = out.len();
        if self.calls.next() || count > self.bytes.len() - self.taken {
            self.faults = self.faults.saturating_add(1);
            return Err(Failed);
        }
        copy_part(out, &self.bytes, self.taken, count);
        self.taken += count;
        Ok(())
    }
}
