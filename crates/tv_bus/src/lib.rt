//! The bus: which range of addresses leads where.
#![tactic(auto)]

ghost use Rattle.std.specs.Prelude.{◌≡◌, ◌≤◌, ◌+◌, ◌-◌, ◌^◌, ◌∷◌, [], ◌++◌, Contains, IfSome, IfNone, OnOk, OnErr, IsOkUnless};
ghost use Rattle.tv_base.specs.Width.{width_bytes};
ghost use Rattle.tv_bus.specs.Ranges.{range_at, refusal, AreApart};

mod ranges;

pub use ranges::Range;
use ranges::{add_range, find_range};
use std::alloc::Global;
use std::marker::Model;
use thiserror::Error;
use tv_base::{DevNo, Width};

/// Where a range of addresses leads.
#[derive(Clone, Copy)]
pub enum Target {
    /// Guest memory.
    Ram,
    /// The register that ends a run.
    Finisher,
    /// The timer block.
    Timer,
    /// The interrupt controller.
    Intc,
    /// The port that takes debug bytes.
    Debug,
    /// The registers of the device in this slot.
    Device(DevNo),
}

/// Why a range is not added to a bus.
#[derive(Debug, Drop, Error)]
pub enum BusError {
    /// The range has no byte.
    #[error("the range has no byte")]
    Empty,
    /// A byte of the range lies in an earlier one.
    #[error("the range overlaps an earlier one")]
    Overlap,
    /// The bus has 64 ranges.
    #[error("the bus has all its ranges")]
    TooMany,
    /// Want of memory.
    #[error("out of memory")]
    Memory,
}

/// Ranges of addresses, each of which leads somewhere. Contracts see them as a list, in the order in
/// which they were added. No address lies in two of them.
#[derive(Drop)]
pub struct Bus {
    ranges: Option<Vec<Range>>,
}

impl Model for Bus {
    ghost use Rattle.std.specs.Prelude.{List, []};
    ghost use Rattle.std.specs.Option.{option_map_or};
    ghost use Rattle.tv_bus.specs.declared.ranges.Range.{Range};
    ghost use Rattle.tv_bus.specs.Ranges.{AreApart};

    ghost Value = { List Range };

    ghost view = { λ bus. option_map_or (λ ranges. ranges.items) bus.ranges [] };

    ghost invariant = { λ bus. AreApart (option_map_or (λ ranges. ranges.items) bus.ranges []) };
}

impl Bus {
    /// A bus without ranges.
    pub fn new() -> Bus
        ensures { result ≡ [] }
    {
        Bus { ranges: None }
    }

    /// Adds the range of `len` bytes from `base` on.
    ///
    /// # Errors
    /// In this order: the range is empty, it overlaps an earlier one, there are 64 ranges, want of
    /// memory. The bus stays as it was then.
    pub fn add(
        &mut self,
        alloc: Global,
        base: u64,
        len: u32,
        target: Target,
    ) -> Result<(), BusError>
        requires { base + len ≤ 2 ^ 64 }
        ensures refused { IfSome (refusal self.old base len) (λ error. result ≡ Err error) }
        ensures free { IfNone (refusal self.old base len) (IsOkUnless result BusError.Memory) }
        ensures added { OnOk result (self.new ≡ self.old ++ record { base = base; len = len; target = target } ∷ []) }
        ensures unchanged { OnErr result (self.new ≡ self.old) }
        ensures apart { AreApart self.new }
    {
        let range = Range { base, len, target };
        match &mut self.ranges {
            Some(ranges) => add_range(ranges, range),
            None => {
                let mut ranges = Vec::new(alloc);
                let added = add_range(&mut ranges, range);
                self.ranges = Some(ranges);
                added
            }
        }
    }

    /// Where the `width` bytes from an address on lead, with their offset in bytes in the range that
    /// holds each of them; `None` where no range does.
    #[inline]
    #[tactic(auto, using(crate::proofs::Apart::range_at_only))]
    pub fn find(&self, addr: u64, width: Width) -> Option<(Target, u32)>
        ensures range { result ≡ range_at self.now addr (width_bytes width) }
        ensures only { (range : Range) → Contains self.now range → range.base ≤ addr → addr + width_bytes width ≤ range.base + range.len → result ≡ Some (range.target, addr - range.base) }
    {
        match &self.ranges {
            Some(ranges) => find_range(ranges, addr, u32::from(width.bytes())),
            None => None,
        }
    }
}

#[cfg(test)]
mod tests;
