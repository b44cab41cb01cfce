//! What memory each device may touch, and which devices have an interrupt source.
#![tactic(auto)]

ghost use Rattle.std.specs.Prelude.{◌≡◌, ◌↔◌, ◌<◌, ◌^◌, IsTrue, IsOk, IfOk, OnOk, OnErr, IfSome, IfNone, None, Err, false, true, slice_index_or, length};
ghost use Rattle.std.specs.Bool.{OnTrue, OnFalse};
ghost use Rattle.tv_ram.specs.Memory.{IsRamSize, is_inside, page_base};
ghost use Rattle.tv_grants.specs.Grants.{
  IsAllowed,
  is_allowed,
  is_page_allowed,
  is_ram_page,
  no_grants,
  owns_source,
  ram_bytes,
  ranges_of,
  refusal,
  right_to,
  with_file,
  with_page,
  with_range,
  with_source,
};

mod access;
mod direct;
mod machine;
mod pages;
mod ranges;

use access::are_touched;
use pages::set_page;
pub use ranges::Grant;
use ranges::is_ram_range;
use std::alloc::Global;
use std::marker::Model;
use thiserror::Error;
use tv_base::{CapNo, DevNo, MEMORY_GRANTS, Memory, PAGE_BYTES, Rights};
use tv_machine::MemRange;

/// Why a range is not granted.
#[derive(Debug, Drop, Error)]
pub enum GrantError {
    /// The range has no byte, or one that isn't in memory.
    #[error("the range does not lie in memory")]
    Outside,
    /// There are 64 ranges.
    #[error("there are all the ranges that there can be")]
    TooMany,
}

/// What each device of a machine may reach: ranges of memory with rights, and an interrupt source; and
/// which pages of memory are withdrawn from all devices. Room for all of it is taken when it is made.
///
/// Ranges, files and sources take capability numbers, which count from 0 in the order in which they are
/// added.
#[derive(Drop)]
pub struct Grants {
    ranges: Vec<Grant>,
    sources: [Option<CapNo>; 8],
    taken: u32,
    withdrawn: Vec<bool>,
}

impl Model for Grants {
    ghost use Rattle.tv_grants.specs.Grants.{GrantState};

    ghost Value = { GrantState };

    ghost use Rattle.tv_grants.specs.Fields.{AreGrants};

    ghost view = { λ g. record { ranges = g.ranges.items; sources = g.sources; taken = g.taken; withdrawn = g.withdrawn.items } };

    ghost invariant = { AreGrants };
}

impl Grants {
    /// No grant, over memory of `ram` bytes, of which no page is withdrawn.
    ///
    /// # Errors
    /// Out of memory.
    pub fn new(alloc: Global, ram: u32) -> Result<Grants, Memory>
        requires size { IsRamSize ram }
        ensures { IfOk result (λ grants. grants ≡ no_grants ram) }
    {
        let pages = (ram / PAGE_BYTES) as usize;
        Ok(Grants {
            ranges: Vec::with_capacity(alloc, MEMORY_GRANTS).map_err(|_| Memory)?,
            sources: [None; 8],
            taken: 0,
            withdrawn: vec![in alloc; false; pages].map_err(|_| Memory)?,
        })
    }

    /// Grants a device the range of `len` bytes from `base` on. Ranges may overlap.
    ///
    /// # Errors
    /// In this order: the range has no byte or one outside memory; there are 64 ranges. Nothing changes
    /// then.
    pub fn add(
        &mut self,
        dev: DevNo,
        base: u64,
        len: u32,
        rights: Rights,
    ) -> Result<CapNo, GrantError>
        requires numbers { self.old.taken < 2 ^ 16 }
        ensures refused { IfSome (refusal self.old base len) (λ error. result ≡ Err error) }
        ensures free { IfNone (refusal self.old base len) (IsOk result) }
        ensures number { IfOk result (λ cap. cap ≡ self.old.taken) }
        ensures added { OnOk result (self.new ≡ with_range self.old dev (record { base = base; len = len; rights = rights })) }
        ensures unchanged { OnErr result (self.new ≡ self.old) }
    {
        let bytes = self.withdrawn.len() as u64 * u64::from(PAGE_BYTES);
        if !is_ram_range(bytes, base, len) {
            return Err(GrantError::Outside);
        }
        if self.ranges.len() >= MEMORY_GRANTS {
            return Err(GrantError::TooMany);
        }
        let cap = CapNo::new(self.taken as u16);
        self.taken += 1;
        let range = MemRange { base, len, rights };
        self.ranges.push_reserved(Grant { dev, range, cap });
        Ok(cap)
    }

    /// Takes the capability number of a file. Which device has the file isn't kept here.
    pub fn add_file(&mut self) -> CapNo
        requires numbers { self.old.taken < 2 ^ 16 }
        ensures number { result ≡ self.old.taken }
        ensures state { self.new ≡ with_file self.old }
    {
        let cap = CapNo::new(self.taken as u16);
        self.taken += 1;
        cap
    }

    /// Grants a device its interrupt source.
    pub fn add_irq(&mut self, dev: DevNo) -> CapNo
        requires numbers { self.old.taken < 2 ^ 16 }
        requires first { slice_index_or self.old.sources dev None ≡ None }
        ensures number { result ≡ self.old.taken }
        ensures state { self.new ≡ with_source self.old dev }
    {
        let cap = CapNo::new(self.taken as u16);
        self.taken += 1;
        self.sources[usize::from(dev.get())] = Some(cap);
        cap
    }

    /// Whether a device may read the `len` bytes from an address on, or write them: each of them lies in
    /// a range of the device with that right, and none in a withdrawn page.
    #[tactic(auto, using(crate::proofs::Bytes::allowed_inside))]
    pub fn allowed(&self, dev: DevNo, addr: u64, len: u16, write: bool) -> bool
        ensures allowed { result ≡ is_allowed (ranges_of dev self.now.ranges) self.now.withdrawn (right_to write) addr len }
        ensures each { IsTrue result ↔ IsAllowed (ranges_of dev self.now.ranges) self.now.withdrawn (right_to write) addr len }
        ensures inside { OnTrue result (is_inside (ram_bytes self.now) addr len ≡ true) }
    {
        let right = if write { Rights::WRITE } else { Rights::READ };
        are_touched(
            &self.ranges,
            &self.withdrawn,
            dev,
            right,
            addr,
            u32::from(len),
        )
    }

    /// Whether a device may have a page released and regained: each of its bytes lies in a range of the
    /// device with the right to write. A withdrawn page counts as others here.
    #[tactic(auto, using(crate::proofs::Bytes::page_inside, crate::proofs::Bytes::page_held))]
    pub fn allowed_page(&self, dev: DevNo, page: u32) -> bool
        ensures allowed { result ≡ is_page_allowed (ranges_of dev self.now.ranges) page }
        ensures page { OnTrue result (is_ram_page (length self.now.withdrawn) page ≡ true) }
        ensures inside { OnTrue result (is_inside (ram_bytes self.now) (page_base page) 4096 ≡ true) }
    {
        let base = u64::from(page) * u64::from(PAGE_BYTES);
        are_touched(&self.ranges, &[], dev, Rights::WRITE, base, PAGE_BYTES)
    }

    /// Whether a device has an interrupt source.
    pub fn owns_irq(&self, dev: DevNo) -> bool
        ensures { result ≡ owns_source self.now dev }
    {
        self.sources[usize::from(dev.get())].is_some()
    }

    /// Withdraws a page from all devices. False where the page isn't one of memory's: nothing changes
    /// then.
    pub fn withdraw(&mut self, page: u32) -> bool
        ensures page { result ≡ is_ram_page (length self.old.withdrawn) page }
        ensures withdrawn { OnTrue result (self.new ≡ with_page self.old page true) }
        ensures unchanged { OnFalse result (self.new ≡ self.old) }
        ensures size { length self.new.withdrawn ≡ length self.old.withdrawn }
    {
        set_page(&mut self.withdrawn, page, true)
    }

    /// Gives a page back to the devices, withdrawn or not. False where the page isn't one of memory's:
    /// nothing changes then.
    pub fn give_back(&mut self, page: u32) -> bool
        ensures page { result ≡ is_ram_page (length self.old.withdrawn) page }
        ensures given { OnTrue result (self.new ≡ with_page self.old page false) }
        ensures unchanged { OnFalse result (self.new ≡ self.old) }
        ensures size { length self.new.withdrawn ≡ length self.old.withdrawn }
    {
        set_page(&mut self.withdrawn, page, false)
    }
}

#[cfg(test)]
mod tests;
