//! Counts of calls.

ghost use Rattle.std.specs.Prelude.{◌≡◌};
ghost use Rattle.std.specs.Bool.{OnTrue, OnFalse};
ghost use Rattle.tv_out.specs.Calls.{IsFailing, with_call};

use std::marker::Model;

/// A counter of calls with the numbers of those that fail, from 0.
#[derive(Drop)]
pub struct Counter {
    made: u64,
    failing: Vec<u64>,
}

impl Model for Counter {
    ghost use Rattle.tv_out.specs.Calls.{Calls};

    ghost Value = { Calls };

    ghost view = { λ counter. record { made = counter.made; failing = counter.failing.items } };
}

impl Counter {
    /// A counter of no call yet.
    pub fn new(failing: Vec<u64>) -> Counter
        ensures { result ≡ record { made = 0; failing = failing.items } }
    {
        Counter { made: 0, failing }
    }

    /// Counts a call, and says whether it fails: where its number is one of those, and at the counter's last value,
    /// where it stands still.
    pub fn next(&mut self) -> bool
        ensures fails { OnTrue result (IsFailing self.old) }
        ensures works { OnFalse result (¬ (IsFailing self.old)) }
        ensures after { self.new ≡ with_call self.old }
    {
        let fails = self.made == u64::MAX || self.failing.contains(&self.made);
        self.made = self.made.saturating_add(1);
        fails
    }

    /// Begins again with no call.
    pub fn restart(&mut self)
        ensures { self.new ≡ record { made = 0; failing = self.old.failing } }
    {
        self.made = 0;
    }
}
