//! Ranges of addresses.

ghost use Rattle.std.specs.Prelude.{◌≡◌, ◌<◌, ◌+◌, ◌∷◌, [], ◌++◌, IfSome, IfNone, OnOk, OnErr, IsOkUnless};
ghost use Rattle.tv_bus.specs.Ranges.{range_at, overlaps, refusal, shares, AreApart};

use crate::{BusError, Target};
use tv_base::BUS_RANGES;

/// A range of addresses, and where they lead.
#[derive(Clone, Copy)]
pub struct Range {
    /// The first address.
    pub base: u64,
    /// The number of bytes.
    pub len: u32,
    /// Where the range leads.
    pub target: Target,
}

impl Range {
    /// Where the `n` bytes from an address on lead, with their offset; `None` where the range doesn't
    /// hold each of them.
    #[inline(always)]
    fn find(&self, addr: u64, n: u32) -> Option<(Target, u32)>
        ensures { result ≡ range_at (self.now ∷ []) addr n }
    {
        let Range { base, len, target } = *self;
        if base <= addr && n <= len && addr - base <= u64::from(len - n) {
            Some((target, (addr - base) as u32))
        } else {
            None
        }
    }

    /// Whether the range has one of the `len` bytes from `base` on.
    fn has_any(&self, base: u64, len: u32) -> bool
        ensures { result ≡ shares self.now base len }
    {
        let first = base.max(self.base);
        first - base < u64::from(len) && first - self.base < u64::from(self.len)
    }
}

/// The range that holds each of the `n` bytes from an address on: where it leads, with the offset in
/// it.
#[inline(always)]
pub fn find_range(ranges: &[Range], addr: u64, n: u32) -> Option<(Target, u32)>
    ensures { result ≡ range_at ranges.now addr n }
{
    for range in ranges {
        match range.find(addr, n) {
            Some(found) => return Some(found),
            None => {}
        }
    }
    None
}

/// Adds a range at the end of the list.
#[tactic(auto, using(crate::proofs::Apart::apart_added))]
pub fn add_range(ranges: &mut Vec<Range>, range: Range) -> Result<(), BusError>
    requires { AreApart ranges.old.items }
    ensures refused { IfSome (refusal ranges.old.items range.base range.len) (λ error. result ≡ Err error) }
    ensures free { IfNone (refusal ranges.old.items range.base range.len) (IsOkUnless result BusError.Memory) }
    ensures added { OnOk result (ranges.new.items ≡ ranges.old.items ++ range ∷ []) }
    ensures unchanged { OnErr result (ranges.new.items ≡ ranges.old.items) }
    ensures apart { AreApart ranges.new.items }
{
    if range.len == 0 {
        return Err(BusError::Empty);
    }
    if is_overlapping(ranges, range.base, range.len) {
        return Err(BusError::Overlap);
    }
    if ranges.len() >= BUS_RANGES {
        return Err(BusError::TooMany);
    }
    match ranges.push(range) {
        Ok(()) => Ok(()),
        Err(_) => Err(BusError::Memory),
    }
}

/// Whether some range has one of the `len` bytes from `base` on.
pub fn is_overlapping(ranges: &[Range], base: u64, len: u32) -> bool
    ensures { result ≡ overlaps ranges.now base len }
{
    ranges.iter().any(|range| range.has_any(base, len))
}
