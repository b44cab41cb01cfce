//! What a user of a lock steps with.
ghost use Rattle.std.specs.Prelude.{◌≡◌, ◌++◌, true, None, All, map};
ghost use Rattle.tv_seat.specs.Seats.{IsBoard};

use crate::Kept;
use crate::plays::Glue;
use crate::turns::{Board, Token};
use std::marker::Model;

/// What a user of a lock steps with. Contracts see it as the lock that it's of, how many seats were split from it, what
/// it may say of the history (its number, all that it has seen, its own entries and its tally), and the value on which
/// it entered, while it hasn't left.
///
/// A seat that is dropped is lost: the lock goes on, but can't be closed any more.
#[derive(Drop)]
pub struct Seat<T: Kept> {
    pub(crate) token: Token<T>,
    pub(crate) number: u16,
    /// How many seats were split from this one.
    pub(crate) made: u16,
    /// How many entries the history had when the seat entered.
    pub(crate) count: u64,
}

impl<T: Kept> Model for Seat<T> {
    ghost use Rattle.tv_seat.specs.Seats.{SeatState, IsSeat, seat_state};

    ghost Value = { SeatState T T.Entry };

    ghost view = { λ seat. seat_state seat.token.table_id seat.token.me };

    ghost invariant = { λ seat. IsSeat T.history seat.number seat.made seat.count seat.token.me };
}

impl<T: Kept> Seat<T> {
    /// The number of the seat: 0 for the first one of a lock, and n for the n-th that was split from it.
    pub fn number(&self) -> u16
        ensures { result ≡ self.now.own.number }
    {
        self.number
    }
}

/// Takes the other seats in, one after the other.
pub(crate) fn gather<T: Kept>(board: &Board<T>, first: &mut Token<T>, others: Vec<Seat<T>>)
    requires board { IsBoard board.now.shared.table_id }
    requires lock { first.old.table_id ≡ board.now.shared.table_id }
    requires live { first.old.me.0.live ≡ true }
    requires first { first.old.me.0.own.number ≡ 0 }
    requires locks { All (λ seat. seat.lock ≡ board.now.shared.table_id) others.items }
    requires out { All (λ seat. seat.inside ≡ None) others.items }
    ensures lock { first.new.table_id ≡ first.old.table_id }
    ensures first { first.new.me ≡ (record first.old.me.0 { others = first.old.me.0.others ++ map (λ seat. seat.own) others.items }, first.old.me.1) }
{
    for seat in others {
        let Seat { token, .. } = seat;
        board.shared.join_seat::<Glue>(first, token);
    }
}
