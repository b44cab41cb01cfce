//! The locked value, while a seat has it.
ghost use Rattle.std.specs.Prelude.{◌≡◌};

use std::marker::Model;

/// The locked value, while a seat has it. Contracts see it as the value.
///
/// One that is dropped takes the value with it, and no seat gets in any more.
#[derive(Drop)]
pub struct Guard<T> {
    pub(crate) value: T,
}

impl<T> Model for Guard<T> {
    ghost use Rattle.std.specs.Prelude.{◌≡◌};

    ghost Value = { T };

    ghost view = { λ guard. guard.value };
}

impl<T> Guard<T> {
    ghost use Rattle.std.specs.Borrow.{Lends, sem};
    ghost use Rattle.tv_seat.specs.contracts.guard.Guard.{the_row};

    /// The locked value.
    pub fn get(&self) -> &T
        ensures { result.now ≡ self.now }
    {
        &self.value
    }

    /// The locked value, to be changed.
    pub fn get_mut(&mut self) -> &mut T
        ensures* writes_back { sem 𝓛 (Lends (the_row T.row) T.row self.entry result (λ w. w)) }
        ensures value { result.now ≡ self.old }
    {
        &mut self.value
    }
}
