//! Counts of faults by name.

ghost use Rattle.std.specs.Prelude.{◌≡◌, ◌≤◌, ℕ, List, map, IfOk, Contains};
ghost use Rattle.std.specs.String.{string_bytes};
ghost use Rattle.tv_out.specs.Calls.{next_count};
ghost use Rattle.tv_out.specs.Faults.{IsElsewhereSame};
ghost use Rattle.std.specs.Bool.{OnTrue, OnFalse};

use crate::shelf::{Named, find_named, position_of};
use std::alloc::Global;
use tv_base::Memory;

/// The count of faults of each name of a list, of all other names, and of all together.
#[derive(Drop)]
pub struct Tally {
    counts: Vec<Named<u64>>,
    others: u64,
    total: u64,
}

impl Tally {
    ghost use Rattle.tv_fake.specs.Tally.{faults_by_name};

    /// No faults yet, for this list of names.
    pub fn new(alloc: Global, names: Vec<String>) -> Result<Tally, Memory>
        ensures total { IfOk result (λ tally. tally.total ≡ 0) }
        ensures names { IfOk result (λ tally. (faults_by_name tally).names ≡ map string_bytes names.items) }
        ensures none { IfOk result (λ tally. (name : List ℕ) → (faults_by_name tally).count_of name ≡ 0) }
    {
        let mut counts = Vec::new(alloc);
        for name in names {
            counts.push(Named::new(name, 0)).map_err(|_| Memory)?;
        }
        Ok(Tally {
            counts,
            others: 0,
            total: 0,
        })
    }

    /// The count of all faults.
    pub fn total(&self) -> u64
        ensures { result ≡ self.now.total }
    {
        self.total
    }

    /// The count of faults at this name.
    pub fn count_of(&self, name: &str) -> u64
        ensures { result ≡ (faults_by_name self.now).count_of name.now }
    {
        match find_named(&self.counts, name) {
            Some(count) => *count,
            None => self.others,
        }
    }

    /// Whether the name is in the list.
    pub fn is_listed(&self, name: &str) -> bool
        ensures listed { OnTrue result (Contains (faults_by_name self.now).names name.now) }
        ensures unlisted { OnFalse result (¬ (Contains (faults_by_name self.now).names name.now)) }
    {
        position_of(&self.counts, name).is_some()
    }

    /// Counts a fault at this name.
    pub fn raise(&mut self, name: &str)
        ensures total { self.new.total ≡ next_count self.old.total }
        ensures later { self.old.total ≤ self.new.total }
        ensures at_name { (faults_by_name self.new).count_of name.now ≡ next_count ((faults_by_name self.old).count_of name.now) }
        ensures elsewhere { IsElsewhereSame (faults_by_name self.old) (faults_by_name self.new) name.now }
    {
        self.total = self.total.saturating_add(1);
        match position_of(&self.counts, name) {
            Some(at) => {
                let count = &mut self.counts[at];
                count.object = count.object.saturating_add(1);
            }
            None => self.others = self.others.saturating_add(1),
        }
    }
}
