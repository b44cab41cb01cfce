//! What the calls of a lock do, by steps over its table.
ghost use Rattle.std.specs.Prelude.{◌≡◌, ℕ, ◌+◌, ◌<◌, true, None, [], ◌∷◌, length, map, Contains};
ghost use Rattle.tv_seat.specs.declared.views.Stage.TheVariants.{Idle, Holds};
ghost use Rattle.tv_seat.specs.Claims.{IsClaim, claim_of, Grew};
ghost use Rattle.tv_seat.specs.Rule.{Each};
ghost use Rattle.tv_seat.specs.Seats.{IsBoard};
ghost use Rattle.tv_seat.specs.Steps.{made_one_more, one_more};

use crate::Kept;
use crate::plays::{Add, Cut, Draw, InTurn, Look, Pass, Read};
use crate::views::View;
use atomic_table::Table;
use std::alloc::Global;
use std::sync::Wait;
use std::thread;

/// The word of the next ticket.
const TICKET: usize = 0;
/// The word of the ticket whose turn it is.
const SERVING: usize = 1;
/// The word of the number of entries.
const COUNT: usize = 2;
/// The slot of the value.
const VALUE: usize = 0;
/// How often a seat looks for the lock to be free before it draws a ticket all the same.
const LOOKS: u32 = 64;

pub(crate) type Board<T> = Table<Option<T>, View<T, <T as Kept>::Entry>, (), InTurn, Global>;

pub(crate) type Token<T> = atomic_table::Seat<Option<T>, View<T, <T as Kept>::Entry>>;

/// Lets others go first, until no ticket is out or for [`LOOKS`] looks. Turns go by tickets, so each one that is drawn
/// while another is out costs a switch of threads where there are more threads than processors.
fn let_others_finish<T: Kept>(board: &Board<T>)
    requires { IsBoard board.now.shared.table_id }
{
    for _ in 0..LOOKS {
        if board.shared.peek(TICKET) == board.shared.peek(SERVING) {
            return;
        }
        thread::yield_now();
    }
}

/// Waits for the turn of a new ticket, and takes the value.
pub(crate) fn take<T: Kept, R: Wait>(rt: &R, board: &Board<T>, token: &mut Token<T>) -> T
    requires board { IsBoard board.now.shared.table_id }
    requires lock { token.old.table_id ≡ board.now.shared.table_id }
    requires live { token.old.me.0.live ≡ true }
    requires idle { token.old.me.0.stage ≡ Idle }
    requires out { token.old.me.1 ≡ [] }
    ensures lock { token.new.table_id ≡ token.old.table_id }
    ensures held { (t : ℕ) × (token.new.me ≡ (record token.old.me.0 { stage = Holds t result }, (0, None) ∷ [])) }
{
    let_others_finish(board);
    let ticket = board.shared.fetch_add::<Draw>(token, TICKET, 1);
    for _ in rt.forever() {
        if board.shared.load::<Look>(token, SERVING) == ticket {
            return board.shared.exchange(token, VALUE, None).unwrap();
        }
        thread::yield_now();
    }
    unreachable!()
}

/// The same, and reads how many entries the value's history has.
pub(crate) fn enter<T: Kept, R: Wait>(rt: &R, board: &Board<T>, token: &mut Token<T>) -> (T, u64)
    requires board { IsBoard board.now.shared.table_id }
    requires lock { token.old.table_id ≡ board.now.shared.table_id }
    requires live { token.old.me.0.live ≡ true }
    requires idle { token.old.me.0.stage ≡ Idle }
    requires out { token.old.me.1 ≡ [] }
    ensures lock { token.new.table_id ≡ token.old.table_id }
    ensures held { (t : ℕ) × (token.new.me ≡ (record token.old.me.0 { stage = Holds t result.0; own = record token.old.me.0.own { seen = T.history result.0 } }, (0, None) ∷ [])) }
    ensures count { result.1 ≡ length (T.history result.0) }
    ensures promised { IsClaim T.history T.tally result.0 token.old.me.0.own }
{
    let value = take(rt, board, token);
    let count = board.shared.load::<Read>(token, COUNT);
    (value, count)
}

/// Puts the value back, with so many new entries, and lets the next seat in.
pub(crate) fn leave<T: Kept>(board: &Board<T>, token: &mut Token<T>, value: T, new_entries: u64)
    requires board { IsBoard board.now.shared.table_id }
    requires lock { token.old.table_id ≡ board.now.shared.table_id }
    requires live { token.old.me.0.live ≡ true }
    requires held { (t : ℕ) × (x : T) × (token.old.me.0.stage ≡ Holds t x) × (token.old.me.1 ≡ (0, None) ∷ []) × Grew T.history T.tally token.old.me.0.own.number x value × (length (T.history x) + new_entries ≡ length (T.history value)) }
    ensures lock { token.new.table_id ≡ token.old.table_id }
    ensures left { token.new.me ≡ (record token.old.me.0 { stage = Idle; own = claim_of T.history T.tally token.old.me.0.own.number value }, []) }
{
    board.shared.exchange(token, VALUE, Some(value));
    board.shared.fetch_add::<Add>(token, COUNT, new_entries);
    board.shared.fetch_add::<Pass>(token, SERVING, 1);
}

/// One more seat, from the first one.
pub(crate) fn split<T: Kept>(board: &Board<T>, token: &mut Token<T>) -> Token<T>
    requires board { IsBoard board.now.shared.table_id }
    requires lock { token.old.table_id ≡ board.now.shared.table_id }
    requires live { token.old.me.0.live ≡ true }
    requires first { token.old.me.0.own.number ≡ 0 }
    requires room { token.old.me.0.made < u16.MAX }
    ensures lock { (token.new.table_id ≡ token.old.table_id) × (result.table_id ≡ token.old.table_id) }
    ensures token { token.new.me ≡ (made_one_more token.old.me.0, token.old.me.1) }
    ensures new { result.me ≡ (one_more token.old.me.0, []) }
{
    board.shared.split_seat::<Cut>(token)
}

/// The value, once the first seat took every other one in.
pub(crate) fn close<T: Kept>(board: Board<T>, first: Token<T>) -> T
    requires board { IsBoard board.shared.table_id }
    requires lock { first.table_id ≡ board.shared.table_id }
    requires live { first.me.0.live ≡ true }
    requires first { first.me.0.own.number ≡ 0 }
    requires idle { first.me.0.stage ≡ Idle }
    requires every { (k : ℕ) → k < first.me.0.made → Contains (map (λ c. c.number) first.me.0.others) (k + 1) }
    ensures own { IsClaim T.history T.tally result first.me.0.own }
    ensures others { Each (λ c. IsClaim T.history T.tally result c) first.me.0.others }
{
    let mut closed = board.close_with(first);
    let value = closed.take(VALUE);
    closed.free();
    value.unwrap()
}
