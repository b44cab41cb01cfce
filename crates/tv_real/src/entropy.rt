//! The system's random bytes.

ghost use Rattle.std.specs.Prelude.{None, ◌≡◌};

use std::random::RandomSource;
use tv_base::Failed;
use tv_out::Entropy;

/// The system's random bytes. They tell their count of faults alone.
#[derive(Drop)]
pub struct SystemEntropy<'a, R> {
    rt: &'a R,
    faults: u64,
}

impl<'a, R> SystemEntropy<'a, R> {
    /// The system's random bytes, with no faults yet.
    pub fn new(rt: &'a R) -> SystemEntropy<'a, R>
        ensures { result.faults ≡ 0 }
    {
        SystemEntropy { rt, faults: 0 }
    }
}

impl<'a, R: RandomSource> Entropy for SystemEntropy<'a, R> {
    ghost told = { λ entropy. record { bytes = None; left = None; faults = entropy.faults; calls = None } };

    fn faults(&self) -> u64 {
        self.faults
    }

    fn fill(&mut self, out: &mut [u8]) -> Result<(), Failed> {
        match self.rt.fill_bytes(out) {
            Ok(()) => Ok(()),
            Err(_) => {
                self.faults = self.faults.saturating_add(1);
                Err(Failed)
            }
        }
    }
}
