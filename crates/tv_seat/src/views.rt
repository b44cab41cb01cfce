//! What the rule of the lock knows of each seat. These types have no value at run time: proofs alone speak of them.
use std::collections::LinkedList;

/// What a seat may say of the history of the locked value.
pub struct Claim<E> {
    /// The seat's number.
    pub number: u64,
    /// The history as the seat saw it last: each entry with the number of the seat that made it.
    pub seen: LinkedList<(E, u64)>,
    /// The seat's own entries, each behind its place in the history.
    pub mine: LinkedList<(u64, E)>,
    /// The seat's tally.
    pub tally: u64,
}

/// Where a seat stands.
pub enum Stage<T> {
    /// It has neither a ticket nor the value.
    Idle,
    /// It drew this ticket, and its turn has not come.
    Waits(u64),
    /// It's the turn of its ticket, and the value is out with it. The value is the one that the count of entries stands
    /// for.
    Holds(u64, T),
}

/// What the rule knows of one seat.
pub struct View<T, E> {
    /// False once another seat took this one in.
    pub live: bool,
    /// How many seats were split from this one.
    pub made: u64,
    /// Where it stands.
    pub stage: Stage<T>,
    /// What it may say.
    pub own: Claim<E>,
    /// What the seats may say that it took in.
    pub others: LinkedList<Claim<E>>,
}
