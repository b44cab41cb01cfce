//! The rule of the lock, and its kinds of steps. No value of these types is of use: they name what proofs speak of.
ghost use Rattle.std.specs.Prelude.{[]};
ghost use Rattle.tv_seat.specs.Rule.{IsSeated, newcomer, spent};
ghost use Rattle.tv_seat.specs.Steps.{Drew, Looked, ReadCount, Added, Passed, made_one_more, one_more, took_in};

use crate::Kept;
use crate::views::View;
use atomic_table::{Join, Play, Split, TableRule};

/// The rule: the seats take turns, and what each may say of the history is so.
pub struct InTurn;

impl<T: Kept> TableRule<Option<T>, View<T, T::Entry>, ()> for InTurn {
    ghost holds = { λ _. IsSeated T.history T.tally };

    ghost first = { λ _. newcomer 0 [] };
}

/// The seat draws a ticket.
pub struct Draw;

impl<T: Kept> Play<Option<T>, View<T, T::Entry>> for Draw {
    ghost then = { Drew };
}

/// The seat looks whose turn it is, and has the value where it's its own.
pub struct Look;

impl<T: Kept> Play<Option<T>, View<T, T::Entry>> for Look {
    ghost then = { Looked };
}

/// The seat reads the number of entries.
pub struct Read;

impl<T: Kept> Play<Option<T>, View<T, T::Entry>> for Read {
    ghost then = { ReadCount T.history T.tally };
}

/// The seat adds its new entries to their number.
pub struct Add;

impl<T: Kept> Play<Option<T>, View<T, T::Entry>> for Add {
    ghost then = { Added T.history T.tally };
}

/// The seat gives the value back, and the turn goes on.
pub struct Pass;

impl<T: Kept> Play<Option<T>, View<T, T::Entry>> for Pass {
    ghost then = { Passed };
}

/// One more seat is made from the first one.
pub struct Cut;

impl<T: Kept> Split<View<T, T::Entry>> for Cut {
    ghost left = { made_one_more };

    ghost right = { one_more };
}

/// A seat takes another one in.
pub struct Glue;

impl<T: Kept> Join<View<T, T::Entry>> for Glue {
    ghost both = { took_in };

    ghost spent = { spent };
}
