//! What a hart reaches: the memory and the registers behind its addresses.

ghost use Rattle.std.specs.Prelude.{◌≡◌, ◌%◌, ℕ, IfSome};
ghost use Rattle.std.specs.Bool.{OnTrue, OnFalse};

use tv_base::{HartNo, Width};
use tv_isa::AmoOp;

/// What a load found.
#[derive(Clone, Copy)]
pub enum Loaded {
    /// The bytes as a little-endian number, of which the low bytes of the load's width count.
    Value(u64),
    /// The load was issued, and its value comes later.
    Held,
    /// There is no room for the load now. Nothing changed.
    Full,
    /// Nothing lies there. Nothing changed.
    Nothing,
}

/// What a store did.
#[derive(Clone, Copy)]
pub enum Stored {
    /// It was made.
    Done,
    /// There is no room for the store now. Nothing changed.
    Full,
    /// Nothing lies there. Nothing changed.
    Nothing,
}

/// The addresses that a hart reaches. Each access is aligned to its width.
pub trait Place {
    ghost use Rattle.tv_hart.specs.Place.{Meaning, OnNoLoad, OnNoStore};
    ghost use Rattle.tv_base.specs.Width.{width_bytes};
    ghost use Rattle.tv_exec.specs.Atomic.{IsAmoWidth};

    // What each call gives and leaves, as functions of the place.
    ghost meaning: { Meaning Self };

    // What a store to memory alone leaves as it was.
    ghost calm: { Self → Self → Type 0 };

    /// The word of 4 bytes at an address of memory; `None` where a byte of it lies elsewhere. What
    /// contracts see of the place stays as it was.
    fn fetch(&mut self, addr: u64) -> Option<u32>
        ensures word { result ≡ meaning.fetch self.old addr }
        ensures unchanged { self.new ≡ self.old };

    /// Loads for a hart.
    fn load(&mut self, hart: HartNo, width: Width, addr: u64) -> Loaded
        requires aligned { addr % width_bytes width ≡ 0 }
        ensures meaning { (result, self.new) ≡ meaning.load self.old hart width addr }
        ensures unchanged { OnNoLoad result (self.new ≡ self.old) };

    /// Stores the low `width` bytes of a value for a hart.
    fn store(&mut self, hart: HartNo, width: Width, addr: u64, value: u64) -> Stored
        requires aligned { addr % width_bytes width ≡ 0 }
        ensures meaning { (result, self.new) ≡ meaning.store self.old hart width addr value }
        ensures unchanged { OnNoStore result (self.new ≡ self.old) };

    /// The number at an address of memory; `None` where a byte of it lies elsewhere, or the place doesn't tell. A load gives it to any
    /// hart, and nothing is changed by that.
    fn number(&self, width: Width, addr: u64) -> Option<u64>
        requires aligned { addr % width_bytes width ≡ 0 }
        ensures { IfSome result (λ value. (hart : ℕ) → meaning.load self.now hart width addr ≡ (Loaded.Value value, self.now)) };

    /// Stores the low `width` bytes of a value to memory for a hart. `false` where a byte lies elsewhere, or the place takes none so; nothing
    /// is changed then.
    fn put_number(&mut self, hart: HartNo, width: Width, addr: u64, value: u64) -> bool
        requires aligned { addr % width_bytes width ≡ 0 }
        ensures stored { OnTrue result (meaning.store self.old hart width addr value ≡ (Stored.Done, self.new)) }
        ensures calm { calm self.old self.new }
        ensures unchanged { OnFalse result (self.new ≡ self.old) };

    /// Puts the value of an operation in the place of the number in memory, for a hart, and gives the old number.
    fn amo(&mut self, hart: HartNo, width: Width, addr: u64, op: AmoOp, value: u64) -> Option<u64>
        requires aligned { addr % width_bytes width ≡ 0 }
        requires width { IsAmoWidth width }
        ensures meaning { (result, self.new) ≡ meaning.amo self.old hart width addr op value };

    /// Loads for a hart, and reserves the aligned 8 bytes that hold the address.
    fn reserve(&mut self, hart: HartNo, width: Width, addr: u64) -> Option<u64>
        requires aligned { addr % width_bytes width ≡ 0 }
        requires width { IsAmoWidth width }
        ensures meaning { (result, self.new) ≡ meaning.reserve self.old hart width addr };

    /// Stores for a hart where its reservation stands and holds the address, and tells whether. The reservation ends.
    fn conditional(&mut self, hart: HartNo, width: Width, addr: u64, value: u64) -> Option<bool>
        requires aligned { addr % width_bytes width ≡ 0 }
        requires width { IsAmoWidth width }
        ensures meaning { (result, self.new) ≡ meaning.conditional self.old hart width addr value };

    ghost stays: { (p : Self) → calm p p };
}
