//! A lock that makes one history of what its users do. Each user has a seat, which knows what it saw of the history of
//! the locked value, which entries of it are its own, and its tally. What a seat knows stays so whatever the others do:
//! on entering, the history begins with what the seat saw, its own entries are exactly those of its number, and its
//! tally is that of the value.
//!
//! `docs/LOCK.md` explains the rule behind it.
#![tactic(auto)]

ghost use Rattle.std.specs.Prelude.{◌≡◌, ℕ, ◌+◌, ◌<◌, ◌^◌, List, [], None, All, IfOk, length};
ghost use Rattle.tv_seat.specs.Claims.{IsClaim};
ghost use Rattle.tv_seat.specs.Seats.{IsEverySeat, MayLeave, entered, left, new_seat};

mod guard;
mod plays;
mod seat;
#[cfg(test)]
mod tests;
mod turns;
mod views;

pub use guard::Guard;
pub use plays::InTurn;
pub use seat::Seat;
use std::alloc::Global;
use std::marker::Model;
use std::sync::Wait;
use std::thread;
use turns::Board;
use tv_base::Memory;
pub use views::{Claim, Stage, View};

/// A value that can be locked. Its history is a list of entries, each with the number of the seat that made it. Its tally
/// is a number for each number of a seat. Both are of no use at run time, where only the length of the history is asked
/// for.
pub trait Kept: Drop {
    /// An entry of the history.
    type Entry;

    ghost history: { Self → List (Self.Entry × ℕ) };

    ghost tally: { Self → ℕ → ℕ };

    /// How many entries the history has.
    fn entries(&self) -> u64
        requires { length (history self.now) < 2 ^ 64 }
        ensures { result ≡ length (history self.now) };
}

/// A lock. Contracts see which one it is. Threads share it by reference, and each needs a [`Seat`] of this lock to enter.
#[derive(Drop)]
pub struct SeatLock<T: Kept> {
    board: Board<T>,
}

impl<T: Kept> Model for SeatLock<T> {
    ghost use Rattle.atomic_table.specs.Seated.{TableId};
    ghost use Rattle.tv_seat.specs.Seats.{IsBoard};

    ghost Value = { TableId };

    ghost view = { λ lock. lock.board.shared.table_id };

    ghost invariant = { λ lock. IsBoard lock.board.shared.table_id };
}

impl<T: Kept> SeatLock<T> {
    /// A lock of a value whose history is empty and whose tallies are all 0, and its first seat, which has the number 0.
    ///
    /// # Errors
    /// Out of memory. The value is dropped then.
    pub fn new(alloc: Global, value: T) -> Result<(SeatLock<T>, Seat<T>), Memory>
        requires empty { T.history value ≡ [] }
        requires zero { (n : ℕ) → T.tally value n ≡ 0 }
        ensures { IfOk result (λ made. made.1 ≡ new_seat made.0 0 []) }
    {
        let mut slots = Vec::new(alloc);
        slots.push(Some(value)).map_err(|_| Memory)?;
        let (board, token) = Board::<T>::new(alloc, &[0, 0, 0], slots, &()).map_err(|_| Memory)?;
        let first = Seat {
            token,
            number: 0,
            made: 0,
            count: 0,
        };
        Ok((SeatLock { board }, first))
    }

    /// One more seat, from the first one, which may have entered or not. The n-th call gives the seat with the number n,
    /// for n from 1 to 65,535. It has seen what the first one saw. This takes no memory.
    pub fn split(&self, seat: &mut Seat<T>) -> Seat<T>
        requires lock { seat.old.lock ≡ self.now }
        requires first { seat.old.own.number ≡ 0 }
        requires room { seat.old.made < u16.MAX }
        ensures seat { seat.new ≡ record seat.old { made = seat.old.made + 1 } }
        ensures new { result ≡ new_seat self.now (seat.old.made + 1) seat.old.own.seen }
    {
        let token = turns::split(&self.board, &mut seat.token);
        seat.made += 1;
        Seat {
            token,
            number: seat.made,
            made: 0,
            count: 0,
        }
    }

    /// Waits until no other seat has the value, and gives it out. The history of the value begins with all that the seat
    /// had seen, the seat's own entries are exactly those of its number, each once, and its tally is the value's. From
    /// now on the seat has seen this history. A seat that waits yields at each look.
    pub fn enter<R: Wait>(&self, rt: &R, seat: &mut Seat<T>) -> Guard<T>
        requires lock { seat.old.lock ≡ self.now }
        requires out { seat.old.inside ≡ None }
        ensures seat { seat.new ≡ entered T.history result seat.old }
        ensures promised { IsClaim T.history T.tally result seat.old.own }
    {
        let (value, count) = turns::enter(rt, &self.board, &mut seat.token);
        seat.count = count;
        Guard { value }
    }

    /// Leaves, lets others in, and enters again: as [`SeatLock::leave`] and then [`SeatLock::enter`].
    pub fn wait<R: Wait>(&self, rt: &R, guard: Guard<T>, seat: &mut Seat<T>) -> Guard<T>
        requires lock { seat.old.lock ≡ self.now }
        requires entered { MayLeave T.history T.tally seat.old guard }
        ensures seat { seat.new ≡ entered T.history result (left T.history T.tally guard seat.old) }
        ensures promised { IsClaim T.history T.tally result (left T.history T.tally guard seat.old).own }
    {
        self.leave(guard, seat);
        thread::yield_now();
        self.enter(rt, seat)
    }

    /// Puts the value back. It is the one on which the seat entered, and entries of this seat alone may have come to its
    /// history since. The history has fewer than 2^64 entries, and the tallies of other seats are as they were.
    pub fn leave(&self, guard: Guard<T>, seat: &mut Seat<T>)
        requires lock { seat.old.lock ≡ self.now }
        requires entered { MayLeave T.history T.tally seat.old guard }
        ensures { seat.new ≡ left T.history T.tally guard seat.old }
    {
        let Guard { value } = guard;
        let new_entries = value.entries() - seat.count;
        turns::leave(&self.board, &mut seat.token, value, new_entries);
    }

    /// Gives the value back for good. These are all seats, the first one first and the others in any order, and none of
    /// them is inside. What each seat knows is so of the value, as on entering.
    pub fn close(self, mut seats: Vec<Seat<T>>) -> T
        requires lock { All (λ seat. seat.lock ≡ self) seats.items }
        requires out { All (λ seat. seat.inside ≡ None) seats.items }
        requires every { IsEverySeat seats.items }
        ensures { All (λ seat. IsClaim T.history T.tally result seat.own) seats.items }
    {
        let SeatLock { board } = self;
        let Seat { mut token, .. } = seats.remove(0);
        seat::gather(&board, &mut token, seats);
        turns::close(board, token)
    }
}
