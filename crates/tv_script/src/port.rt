//! Where a device asks for its actions and tells its verdicts.

ghost use Rattle.std.specs.Prelude.{◌≡◌, ◌≤◌, ◌<◌, ◌++◌, [], ℕ, List, Option, Some, IfOk, OnOk, OnErr};
ghost use Rattle.tv_items.specs.declared.action.Action.{Action};
ghost use Rattle.tv_items.specs.Fits.{FitsAction, IsAction};
ghost use Rattle.tv_script.specs.Happenings.{Happening, once, said, Wanted, asks, tells};

use tv_items::{Action, Heard, Verdict};

/// The machine is ending, so an action was not answered.
#[derive(Clone, Copy, Debug, PartialEq, Eq)]
pub struct Ended;

/// Where a device asks for its actions and tells its verdicts, whatever serves it there: a list of replies, the monitor
/// itself, or a tube to it.
pub trait Port {
    // It went from the one to the other by what happened at it. What else a port says of two of its states stands here, as that
    // the list of a replay is the same.
    ghost moved: { Self → List Happening → Self → Type 0 };

    // A number that no call raises, and that each answered action lowers: so each service ends.
    ghost left: { Self → ℕ };

    // The machine is ending, as far as this port was told.
    ghost over: { Self → Type 0 };

    // The action that was not answered, if there was one.
    ghost stopped: { Self → Option Action };

    // Once all this happened, it awaits this.
    ghost awaits: { Self → List Happening → Wanted → Type 0 };

    /// Asks for an action, and waits until it was done or refused. The reply fits the action.
    ///
    /// # Errors
    /// [`Ended`] exactly where the machine was ending before the action was served: nothing happened then.
    fn ask(&mut self, action: &Action) -> Result<Heard, Ended>
        requires action { IsAction action.now }
        requires awaited { awaits self.old [] (asks action.now) }
        ensures fits { IfOk result (λ heard. FitsAction action.now heard) }
        ensures moved { IfOk result (λ heard. moved self.old (once action.now heard) self.new) }
        ensures open { OnOk result (over self.old → ⊥) }
        ensures lower { OnOk result (left self.new < left self.old) }
        ensures still { OnErr result (moved self.old [] self.new) }
        ensures over { OnErr result (over self.new) }
        ensures stopped { OnErr result (stopped self.new ≡ Some action.now) }
        ensures left { left self.new ≤ left self.old };

    /// Tells a verdict. It is never refused.
    fn tell(&mut self, verdict: &Verdict)
        requires awaited { awaits self.old [] (tells verdict.now) }
        ensures moved { moved self.old (said verdict.now) self.new }
        ensures left { left self.new ≤ left self.old };

    // Nothing happened from a state to itself, and what happens one after the other happens together.
    ghost stays: { (p : Self) → moved p [] p };

    ghost joins: { (p q r : Self) (xs ys : List Happening) → moved p xs q → moved q ys r → moved p (xs ++ ys) r };

    // What it awaits later is decided by what it awaits now.
    ghost goes_on: { (p q : Self) (xs ys : List Happening) (w : Wanted) → moved p xs q → awaits p (xs ++ ys) w → awaits q ys w };
}
