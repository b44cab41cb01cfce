//! Statistics in a fixed buffer.

ghost use Rattle.std.specs.Prelude.{◌≡◌, ◌≤◌, [], length};
ghost use Rattle.tv_items.specs.Buffers.{pushed_below};

use arrayvec::ArrayVec;
use std::marker::Model;

/// Numbers of a statistics request at most.
pub const STATS: usize = 32;

/// A list of at most [`STATS`] numbers, each after its tag, which says what it counts.
#[derive(Drop)]
pub struct Stats {
    pairs: ArrayVec<(u16, u64), STATS>,
}

impl Model for Stats {
    ghost use Rattle.std.specs.Prelude.{ℕ, List};

    ghost Value = { List (ℕ × ℕ) };

    ghost view = { λ s. s.pairs.items };
}

impl Stats {
    /// No numbers.
    pub fn new() -> Stats
        ensures { result ≡ [] }
    {
        Stats {
            pairs: ArrayVec::new(),
        }
    }

    /// Adds a number with its tag; `false` exactly where [`STATS`] are there, and nothing is changed then.
    pub fn push(&mut self, tag: u16, value: u64) -> bool
        ensures { (result, self.new) ≡ pushed_below STATS self.old (tag, value) }
    {
        if self.pairs.len() >= STATS {
            return false;
        }
        self.pairs.push((tag, value));
        true
    }

    /// The same numbers again. It takes no memory.
    pub fn copy(&self) -> Stats
        ensures { result ≡ self.now }
    {
        let mut copy = Stats::new();
        match copy.pairs.try_extend_from_slice(&self.pairs) {
            Ok(()) => copy,
            Err(_) => unreachable!(),
        }
    }

    /// The tags with their numbers, in the order in which they were added, at most [`STATS`].
    pub fn as_slice(&self) -> &[(u16, u64)]
        ensures numbers { result.now ≡ self.now }
        ensures few { length result.now ≤ STATS }
    {
        &self.pairs
    }
}
