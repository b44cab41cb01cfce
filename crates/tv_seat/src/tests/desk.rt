//! A worked example: a desk that any number of threads add amounts to, each with a seat of its own.
ghost use Rattle.std.specs.Prelude.{◌≡◌, ◌≤◌, ◌++◌, ◌∷◌, ◌+◌, ◌*◌, [], None, IfSome, MatchBool, length};
ghost use Rattle.tv_seat.specs.Desk.{total_of, IsDone};
ghost use Rattle.tv_seat.specs.Seats.{new_seat};

use crate::{Guard, Kept, Seat, SeatLock};
use std::alloc::Global;
use std::marker::Model;
use std::sync::Wait;
use std::thread::{Threads, join};

/// The most entries of a desk.
pub const MOST: usize = 1 << 32;

/// Amounts, each with the number of the seat that added it, and their sum. Contracts see it as the list of amounts.
#[derive(Drop)]
pub struct Desk {
    sum: u64,
    entries: Vec<(u64, u64)>,
}

impl Model for Desk {
    ghost use Rattle.std.specs.Prelude.{◌≡◌, ◌≤◌, ℕ, List, length};
    ghost use Rattle.tv_seat.specs.Desk.{total};

    ghost Value = { List (ℕ × ℕ) };

    ghost view = { λ desk. desk.entries.items };

    ghost invariant = { λ desk. (desk.sum ≡ total desk.entries.items) × (length desk.entries.items ≤ 4294967296) };
}

impl Kept for Desk {
    type Entry = u64;

    ghost history = { λ desk. desk };

    ghost tally = { λ desk n. total_of n desk };

    fn entries(&self) -> u64 {
        self.entries.len() as u64
    }
}

impl Desk {
    /// An empty desk.
    pub fn new(alloc: Global) -> Desk
        ensures { result ≡ [] }
    {
        Desk {
            sum: 0,
            entries: Vec::new(alloc),
        }
    }

    /// All amounts, added up.
    pub fn sum(&self) -> u64 {
        self.sum
    }

    /// How many amounts there are.
    pub fn len(&self) -> usize
        ensures len { result ≡ length self.now }
        ensures few { length self.now ≤ MOST }
    {
        self.entries.len()
    }

    /// How many of them the seat of this number added.
    pub fn len_of(&self, number: u64) -> usize {
        self.entries.iter().filter(|x| x.1 == number).count()
    }

    /// Takes every amount out.
    pub fn clear(&mut self)
        ensures { self.new ≡ [] }
    {
        self.entries.clear();
        self.sum = 0;
    }

    /// Adds an amount, unless the sum, the list or memory has no room for it.
    #[tactic(auto, using(crate::proofs::Adding::total_snoc))]
    pub fn add(&mut self, number: u16, amount: u64) -> bool
        ensures few { length self.new ≤ MOST }
        ensures added { MatchBool result (self.new ≡ self.old ++ (amount, number) ∷ []) (self.new ≡ self.old) }
    {
        let Some(sum) = self.sum.checked_add(amount) else {
            return false;
        };
        if self.entries.len() >= MOST || self.entries.push((amount, u64::from(number))).is_err() {
            return false;
        }
        self.sum = sum;
        true
    }
}

/// Adds an amount to the value in the guard.
fn put(guard: &mut Guard<Desk>, number: u16, amount: u64) -> bool
    ensures few { length guard.new ≤ MOST }
    ensures added { MatchBool result (guard.new ≡ guard.old ++ (amount, number) ∷ []) (guard.new ≡ guard.old) }
{
    guard.get_mut().add(number, amount)
}

/// Enters, adds the amount and leaves, so many times.
pub fn add_often<R: Wait>(
    rt: &R,
    lock: &SeatLock<Desk>,
    mut seat: Seat<Desk>,
    amount: u64,
    rounds: u32,
) -> Option<Seat<Desk>>
    requires lock { seat.lock ≡ lock.now }
    requires out { seat.inside ≡ None }
    ensures { IfSome result (λ s. IsDone lock.now seat.own.number (seat.own.tally + amount * rounds) s) }
{
    for _ in 0..rounds {
        let mut guard = lock.enter(rt, &mut seat);
        let fits = put(&mut guard, seat.number(), amount);
        lock.leave(guard, &mut seat);
        if !fits {
            return None;
        }
    }
    Some(seat)
}

/// The desk, once its three seats are back.
fn close_all(
    alloc: Global,
    lock: SeatLock<Desk>,
    first: Seat<Desk>,
    one: Seat<Desk>,
    two: Seat<Desk>,
) -> Option<Desk>
    requires locks { (first.lock ≡ lock) × (one.lock ≡ lock) × (two.lock ≡ lock) }
    requires out { (first.inside ≡ None) × (one.inside ≡ None) × (two.inside ≡ None) }
    requires numbers { (first.own.number ≡ 0) × (one.own.number ≡ 1) × (two.own.number ≡ 2) }
    requires made { first.made ≡ 2 }
    ensures one { IfSome result (λ desk. total_of 1 desk ≡ one.own.tally) }
    ensures two { IfSome result (λ desk. total_of 2 desk ≡ two.own.tally) }
{
    match Vec::from_array(alloc, [first, one, two]) {
        Ok(seats) => Some(lock.close(seats)),
        Err(_) => None,
    }
}

/// Two threads, each with a seat of its own, add to one desk at the same time.
pub fn add_both<R: Threads + Wait + Sync>(
    rt: &R,
    alloc: Global,
    amounts: (u64, u64),
    rounds: u32,
) -> Option<Desk>
    ensures one { IfSome result (λ desk. total_of 1 desk ≡ amounts.0 * rounds) }
    ensures two { IfSome result (λ desk. total_of 2 desk ≡ amounts.1 * rounds) }
{
    let (lock, mut first) = SeatLock::new(alloc, Desk::new(alloc)).ok()?;
    let one = lock.split(&mut first);
    let two = lock.split(&mut first);
    let (one, two) = join(
        rt,
        || -> Option<Seat<Desk>>
            requires { one ≡ new_seat lock 1 [] }
            ensures { IfSome result (λ s. IsDone lock 1 (amounts.0 * rounds) s) }
        { add_often(rt, &lock, one, amounts.0, rounds) },
        || -> Option<Seat<Desk>>
            requires { two ≡ new_seat lock 2 [] }
            ensures { IfSome result (λ s. IsDone lock 2 (amounts.1 * rounds) s) }
        { add_often(rt, &lock, two, amounts.1, rounds) },
    );
    close_all(alloc, lock, first, one?, two?)
}

/// Enters, and lets others in until one of them has added something.
fn wait_for_one<R: Wait>(rt: &R, lock: &SeatLock<Desk>, mut seat: Seat<Desk>) -> Seat<Desk>
    requires lock { seat.lock ≡ lock.now }
    requires out { seat.inside ≡ None }
    ensures { IsDone lock.now seat.own.number seat.own.tally result }
{
    let mut guard = lock.enter(rt, &mut seat);
    for _ in rt.forever() {
        if guard.get().len() > 0 {
            lock.leave(guard, &mut seat);
            return seat;
        }
        guard = lock.wait(rt, guard, &mut seat);
    }
    unreachable!()
}

/// One thread waits in the lock for what the other adds.
pub fn add_for_one_that_waits<R: Threads + Wait + Sync>(
    rt: &R,
    alloc: Global,
    amount: u64,
) -> Option<Desk>
    ensures { IfSome result (λ desk. total_of 2 desk ≡ amount * 1) }
{
    let (lock, mut first) = SeatLock::new(alloc, Desk::new(alloc)).ok()?;
    let one = lock.split(&mut first);
    let two = lock.split(&mut first);
    let (one, two) = join(
        rt,
        || -> Seat<Desk>
            requires { one ≡ new_seat lock 1 [] }
            ensures { IsDone lock 1 0 result }
        { wait_for_one(rt, &lock, one) },
        || -> Option<Seat<Desk>>
            requires { two ≡ new_seat lock 2 [] }
            ensures { IfSome result (λ s. IsDone lock 2 (amount * 1) s) }
        { add_often(rt, &lock, two, amount, 1) },
    );
    close_all(alloc, lock, first, one, two?)
}
