//! Services as rounds: one loop for every device.

ghost use Rattle.std.specs.Prelude.{◌≡◌};
ghost use Rattle.tv_script.specs.Scripts.{AwaitsAll};
ghost use Rattle.tv_script.specs.Services.{Plan, opened, next_after, told_after, AwaitsService, ServedSo, TurnedSo, IsLower};

use crate::port::Port;
use crate::service::{Served, Turned};

/// A device whose services are rounds, by a plan: a script that a service begins with, and one for each round after it.
/// [`serve_rounds`] serves it.
pub trait Rounds {
    ghost State: { Type 0 };

    // Its state. What lies in its buffers between two services is no part of it.
    ghost state: { Self → State };

    ghost plan: { Plan State };

    /// Does what a service begins with.
    fn begin<P: Port>(&mut self, port: &mut P) -> Turned
        requires awaits { AwaitsAll (P.awaits port.old) (plan.begins (state self.old)) }
        ensures turned { TurnedSo P.moved P.over P.stopped port.old (plan.begins (state self.old)) port.new (state self.new) result };

    /// Does one round. Another follows only where an action was answered in this one.
    fn round<P: Port>(&mut self, port: &mut P) -> Turned
        requires awaits { AwaitsAll (P.awaits port.old) (plan.round (state self.old)) }
        ensures turned { TurnedSo P.moved P.over P.stopped port.old (plan.round (state self.old)) port.new (state self.new) result }
        ensures lower { IsLower (P.left port.old) (P.left port.new) result };

    // A round begins with an action, or ends the service.
    ghost opens: { (s : State) → opened plan.round (plan.round s) ≡ plan.round s };
}

/// Serves until no action is left, the port ends, or bytes are lost: each time it asks for the action that the replies so
/// far make the next, and tells each verdict as soon as it is decided.
pub fn serve_rounds<D: Rounds, P: Port>(device: &mut D, port: &mut P) -> Served
    requires awaits { AwaitsService (P.awaits port.old) (next_after D.plan (D.state device.old)) (told_after D.plan (D.state device.old)) }
    ensures { ServedSo P.moved P.over P.stopped port.old (next_after D.plan (D.state device.old)) (told_after D.plan (D.state device.old)) port.new (D.state device.new) result }
{
    match device.begin(port) {
        Turned::Again => {}
        Turned::Idle => return Served::Idle,
        Turned::Ended => return Served::Ended,
        Turned::Lost => return Served::Lost,
    }
    loop {
        match device.round(port) {
            Turned::Again => {}
            Turned::Idle => return Served::Idle,
            Turned::Ended => return Served::Ended,
            Turned::Lost => return Served::Lost,
        }
    }
}
