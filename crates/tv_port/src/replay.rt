//! A port that answers from a list of replies, and what a device does next by it.

ghost use Rattle.std.specs.Prelude.{◌≡◌, ◌-◌, [], length, drop, None, IfOk, IfSome};
ghost use Rattle.tv_items.specs.Fits.{IsAction};
ghost use Rattle.tv_plan.specs.Devices.{next};
ghost use Rattle.tv_script.specs.Answers.{IsHeard};
ghost use Rattle.tv_port.specs.Replays.{ReplayMoved, AwaitsFrom, NextSo, RepeatedSo};

use crate::device::Device;
use std::alloc::Global;
use tv_base::Memory;
use tv_items::{Action, Heard, Verdict};
use tv_script::{Ended, Port, Served};

/// A port that answers from a list of replies, and ends where they are spent. It hears each verdict and keeps none.
#[derive(Drop)]
pub struct Replay<'a> {
    list: &'a [Heard],
    at: usize,
    stopped: Option<Action>,
}

impl<'a> Replay<'a> {
    /// At the first reply of the list.
    pub fn new(list: &'a [Heard]) -> Replay<'a>
        ensures list { result.list.now ≡ list.now }
        ensures at { result.at ≡ 0 }
    {
        Replay {
            list,
            at: 0,
            stopped: None,
        }
    }
}

impl<'a> Port for Replay<'a> {
    ghost moved = { λ p xs q. ReplayMoved p.list.now p.at xs q.list.now q.at };

    ghost left = { λ p. length p.list.now - p.at };

    ghost over = { λ p. (drop p.at p.list.now ≡ []) × IfSome p.stopped IsAction };

    ghost stopped = { λ p. p.stopped };

    ghost awaits = { λ p. AwaitsFrom (drop p.at p.list.now) };

    fn ask(&mut self, action: &Action) -> Result<Heard, Ended> {
        if self.at < self.list.len() {
            let heard = self.list[self.at].copy();
            self.at += 1;
            Ok(heard)
        } else {
            self.stopped = Some(action.copy());
            Err(Ended)
        }
    }

    fn tell(&mut self, _verdict: &Verdict) {}

    ghost use Rattle.tv_port.specs.Replays.{replay_stays, replay_joins, replay_goes_on};

    ghost stays = { λ p. replay_stays p.list.now p.at };

    ghost joins = { λ p q r xs ys. replay_joins p.list.now q.list.now r.list.now p.at q.at r.at xs ys };

    ghost goes_on = { λ p q xs ys w. replay_goes_on p.list.now q.list.now p.at q.at xs ys w };
}

/// Repeats a service from its replies, each of which has to fit the action that is next after those before it. It gives the
/// action that is next after all of them; `None` where the service is at its end, and the device is in its last state then.
pub fn repeat<D: Device>(device: &mut D, replies: &[Heard]) -> Option<Action>
    requires heard { IsHeard (next (D.state device.old)) replies.now }
    ensures repeated { RepeatedSo (next (D.state device.old) replies.now) (D.state device.new) result }
    ensures action { IfSome result IsAction }
{
    let mut port = Replay::new(replies);
    match device.serve(&mut port) {
        Served::Idle => None,
        Served::Lost => None,
        Served::Ended => port.stopped,
    }
}

/// The action that is next after some replies, each of which has to fit the action that is next after those before it;
/// `None` where the service is at its end. The device stays as it is.
///
/// # Errors
/// Out of memory.
#[tactic(auto, using(crate::proofs::Repeats::next_so))]
pub fn next_after<D: Device + Drop>(
    device: &D,
    replies: &[Heard],
    alloc: Global,
) -> Result<Option<Action>, Memory>
    requires heard { IsHeard (next (D.state device.now)) replies.now }
    ensures next { IfOk result (λ action. NextSo (next (D.state device.now) replies.now) action) }
    ensures action { IfOk result (λ action. IfSome action IsAction) }
{
    let mut other = device.copy(alloc)?;
    Ok(repeat(&mut other, replies))
}
