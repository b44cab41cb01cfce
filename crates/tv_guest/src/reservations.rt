//! Reservations of LR and SC.

ghost use Rattle.std.specs.Prelude.{◌≡◌, ◌<◌, ◌+◌, ◌*◌, None, Some, false};
ghost use Rattle.tv_spec.specs.Reservations.{after_hart_write, after_other_write, after_write, granule, is_reserved, none_reserved, reserved_by, with_reserved};

use std::marker::Model;
use tv_base::HartNo;

/// The granule that each hart has reserved, if any, by the hart's number.
#[derive(Drop)]
pub struct Reservations {
    places: [Option<u64>; 8],
    // Whether a hart may have one: a store asks this first.
    some: bool,
}

impl Model for Reservations {
    ghost use Rattle.std.specs.Prelude.{◌≡◌, ℕ, List, Option, false};
    ghost use Rattle.tv_spec.specs.Reservations.{none_reserved};

    ghost Value = { List (Option ℕ) };

    ghost view = { λ r. r.places };

    ghost invariant = { λ r. r.some ≡ false → r.places ≡ none_reserved };
}

impl Reservations {
    /// No hart has one.
    pub fn new() -> Reservations
        ensures { result ≡ none_reserved }
    {
        Reservations {
            places: [None; 8],
            some: false,
        }
    }

    /// Gives a hart a reservation of the granule that holds an address.
    pub fn reserve(&mut self, hart: HartNo, addr: u64)
        ensures { self.new ≡ with_reserved self.old hart (Some (granule addr)) }
    {
        self.places[usize::from(hart.get())] = Some(addr / 8);
        self.some = true;
    }

    /// Ends a hart's reservation, and tells whether it held an address.
    pub fn release(&mut self, hart: HartNo, addr: u64) -> bool
        ensures held { result ≡ is_reserved (reserved_by self.old hart) addr }
        ensures ended { self.new ≡ with_reserved self.old hart None }
    {
        let held = is_held(self.places[usize::from(hart.get())], addr);
        self.places[usize::from(hart.get())] = None;
        self.some = has_some(&self.places);
        held
    }

    /// A hart wrote `bytes` bytes from an address on: reservations of others end where one of these lies in them.
    #[inline(always)]
    #[tactic(auto, using(crate::proofs::Quiet::quiet_write))]
    pub fn write_by(&mut self, hart: HartNo, addr: u64, bytes: u8)
        ensures { self.new ≡ after_hart_write hart addr bytes self.old }
    {
        if self.some {
            end_others(&mut self.places, hart, addr, u32::from(bytes));
            self.some = has_some(&self.places);
        }
    }

    /// No hart wrote `bytes` bytes from an address on: each reservation ends of which one of these is a byte.
    pub fn write_by_other(&mut self, addr: u64, bytes: u32)
        ensures { self.new ≡ after_other_write addr bytes self.old }
    {
        end_touched(&mut self.places, addr, bytes);
        self.some = has_some(&self.places);
    }
}

/// Whether a reservation stands and holds an address.
fn is_held(place: Option<u64>, addr: u64) -> bool
    ensures { result ≡ is_reserved place addr }
{
    match place {
        Some(place) => place == addr / 8,
        None => false,
    }
}

/// Whether some hart has a reservation.
fn has_some(places: &[Option<u64>; 8]) -> bool
    ensures { result ≡ false → places.now ≡ none_reserved }
{
    for i in 0..8usize {
        if places[i].is_some() {
            return true;
        }
    }
    false
}

/// Ends each reservation but a hart's own of which a byte was written.
fn end_others(places: &mut [Option<u64>; 8], hart: HartNo, addr: u64, bytes: u32)
    ensures { places.new ≡ after_hart_write hart addr bytes places.old }
{
    let own = places[usize::from(hart.get())];
    end_touched(places, addr, bytes);
    places[usize::from(hart.get())] = own;
}

/// Ends each reservation of which a byte was written.
fn end_touched(places: &mut [Option<u64>; 8], addr: u64, bytes: u32)
    ensures { places.new ≡ after_other_write addr bytes places.old }
{
    for i in 0..8usize {
        places[i] = kept(addr, bytes, places[i]);
    }
}

/// A reservation after such a write.
fn kept(addr: u64, bytes: u32, place: Option<u64>) -> Option<u64>
    ensures { result ≡ after_write addr bytes place }
{
    match place {
        Some(place) => {
            // Without wrapping: the first byte of the one lies before the end of the other.
            if u128::from(place) * 8 < u128::from(addr) + u128::from(bytes)
                && u128::from(addr) < u128::from(place) * 8 + 8
            {
                None
            } else {
                Some(place)
            }
        }
        None => None,
    }
}
