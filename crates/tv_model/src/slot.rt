//! A device of the monitor, and what is under way at it.

ghost use Rattle.std.specs.Prelude.{◌≡◌, ◌<◌, ◌+◌, ◌^◌, ◌++◌, ◌↔◌, true, false, IfOk, IfErr, IfSome, IsTrue, OnOk, length, vec_len, vec_capacity};
ghost use Rattle.tv_items.specs.Fits.{IsAction};
ghost use Rattle.tv_plan.specs.Devices.{Acted, next};
ghost use Rattle.tv_port.specs.Acting.{CanAct};
ghost use Rattle.tv_port.specs.Replays.{NextSo};
ghost use Rattle.tv_script.specs.Answers.{IsHeard};
ghost use Rattle.tv_spec.specs.Devices.{CanBegin, CanHear, CanServe, CanTake, GoesInside, GoesOutside, IsOver, IsServed, NoLoadDue, answers_of, due_for, with_got, with_heard, with_item, with_phase};
ghost use Rattle.tv_spec.specs.State.{first_run};
ghost use Rattle.tv_model.specs.Slots.{AnswersSo, IsAnswered, IsLanded, IsRested, IsSent, IsTaken, reached_by, value_of};

use crate::fault::StepFault;
use crate::fits::fits;
use std::alloc::Global;
use std::marker::Model;
use std::mem;
use tv_base::{HartNo, Memory};
use tv_items::{Action, Heard, Item, Way};
use tv_port::{Device, next_after, repeat};
use tv_spec::{Answer, Due, Made, Maker, Phase};

/// A device of the monitor.
#[derive(Drop)]
pub struct Slot<D: Device + Drop> {
    /// Where it last acted.
    device: D,
    made: Vec<Made>,
    acted: usize,
    got: Vec<Heard>,
    phase: Phase,
    due: Vec<Due>,
    replied: Vec<Due>,
    /// Whether there is room for an item more.
    spare: bool,
}

impl<D: Device + Drop> Model for Slot<D> {
    ghost use Rattle.std.specs.Prelude.{◌≡◌, ◌<◌, true, All, length, vec_capacity};
    ghost use Rattle.tv_port.specs.Acting.{CanAct};
    ghost use Rattle.tv_model.specs.MonitorState.{SlotState};

    ghost Value = { SlotState };

    ghost view = { λ s. record {
      run = record { made = s.made.items; acted = s.acted; device = D.state s.device; got = s.got.items; phase = s.phase; due = s.due.items; replied = s.replied.items };
      spare = s.spare;
    } };

    ghost invariant = { λ s. All (λ m. CanAct m.item) s.made.items × (s.spare ≡ true → length s.made.items < vec_capacity s.made) };
}

impl<D: Device + Drop> Slot<D> {
    /// A device before its first item.
    pub fn new(alloc: Global, device: D) -> Slot<D>
        ensures { result ≡ record { run = first_run (D.state device); spare = false } }
    {
        Slot {
            device,
            made: Vec::new(alloc),
            acted: 0,
            got: Vec::new(alloc),
            phase: Phase::Quiet,
            due: Vec::new(alloc),
            replied: Vec::new(alloc),
            spare: false,
        }
    }

    /// How many items it has.
    pub fn items(&self) -> usize
        ensures { result ≡ length self.now.run.made }
    {
        self.made.len()
    }

    /// Takes the room that an item more needs.
    ///
    /// # Errors
    /// Out of memory.
    pub fn take_room(&mut self) -> Result<(), Memory>
        ensures run { self.new.run ≡ self.old.run }
        ensures spare { OnOk result (self.new.spare ≡ true) }
    {
        self.made.reserve(1).map_err(|_| Memory)?;
        self.spare = true;
        Ok(())
    }

    /// An item comes to the end of its list.
    pub fn add(&mut self, item: Item, hart: HartNo)
        requires room { self.old.spare ≡ true }
        requires can { CanAct item }
        ensures { self.new ≡ record { run = with_item self.old.run (record { item = item; maker = Maker.Hart hart }); spare = false } }
    {
        let maker = Maker::Hart(hart);
        self.made.push_reserved(Made { item, maker });
        self.spare = false;
    }

    /// Acts on its next item, and tells the hart that gets a value by that, with the value.
    pub fn take(&mut self, alloc: Global) -> Result<Option<(HartNo, u64)>, StepFault>
        requires heard { self.old.run.phase ≡ Phase.Quiet → IsHeard (next self.old.run.device) self.old.run.got }
        requires tags { length self.old.run.made < 2 ^ 32 }
        ensures run { AnswersSo (CanTake self.old.run) self.old.run self.new.run (IsTaken self.old.run self.new.run) result }
        ensures spare { self.new.spare ≡ self.old.spare }
    {
        if !is_quiet(&self.phase) || self.acted >= self.made.len() || !has_no_load(&self.due) {
            return Err(StepFault::Illegal);
        }
        let mut device = rested(&self.device, &self.got, alloc)?;
        if self.due.reserve(1).is_err() {
            return Err(StepFault::Memory);
        }
        let made = self.made[self.acted];
        let tag = self.acted as u32;
        let acted = device.act(tag, &made.item);
        self.device = device;
        self.acted += 1;
        self.got.clear();
        Ok(answer(&mut self.due, tag, made, acted.value))
    }

    /// Its next action is sent to a service.
    pub fn send(&mut self, alloc: Global) -> Result<(), StepFault>
        requires heard { self.old.run.phase ≡ Phase.Quiet → IsHeard (next self.old.run.device) self.old.run.got }
        ensures run { AnswersSo (CanBegin self.old.run GoesInside) self.old.run self.new.run (λ _. self.new.run ≡ with_phase self.old.run Phase.Sent) result }
        ensures spare { self.new.spare ≡ self.old.spare }
    {
        if !is_quiet(&self.phase) {
            return Err(StepFault::Illegal);
        }
        match following(&self.device, &self.got, alloc)? {
            Some(action) if action.way() != Way::Outside => {
                self.phase = Phase::Sent;
                Ok(())
            }
            Some(_) | None => Err(StepFault::Illegal),
        }
    }

    /// Its next action is intended outside the machine.
    pub fn intend(&mut self, alloc: Global) -> Result<(), StepFault>
        requires heard { self.old.run.phase ≡ Phase.Quiet → IsHeard (next self.old.run.device) self.old.run.got }
        ensures run { AnswersSo (CanBegin self.old.run GoesOutside) self.old.run self.new.run (λ _. self.new.run ≡ with_phase self.old.run Phase.Intended) result }
        ensures spare { self.new.spare ≡ self.old.spare }
    {
        if !is_quiet(&self.phase) {
            return Err(StepFault::Illegal);
        }
        match following(&self.device, &self.got, alloc)? {
            Some(action) if action.way() == Way::Outside => {
                self.phase = Phase::Intended;
                Ok(())
            }
            Some(_) | None => Err(StepFault::Illegal),
        }
    }

    /// The action that was sent, which goes this way.
    pub fn sent(&self, way: Way, alloc: Global) -> Result<Action, StepFault>
        requires heard { self.now.run.phase ≡ Phase.Sent → IsHeard (next self.now.run.device) self.now.run.got }
        ensures { AnswersSo (CanServe self.now.run way) self.now.run self.now.run (IsSent self.now.run way) result }
    {
        if !is_sent(&self.phase) {
            return Err(StepFault::Illegal);
        }
        match following(&self.device, &self.got, alloc)? {
            Some(action) if action.way() == way => Ok(action),
            Some(_) | None => Err(StepFault::Illegal),
        }
    }

    /// A service did its action, with this reply.
    pub fn served(&mut self, heard: Heard)
        ensures { self.new ≡ record self.old { run = with_phase self.old.run (Phase.Served heard) } }
    {
        self.phase = Phase::Served(heard);
    }

    /// It gets the reply of a service.
    pub fn get(&mut self) -> Result<(), StepFault>
        ensures run { AnswersSo (IsServed self.old.run.phase) self.old.run self.new.run (λ _. self.new.run ≡ with_got self.old.run) result }
        ensures spare { self.new.spare ≡ self.old.spare }
    {
        if !is_served(&self.phase) {
            return Err(StepFault::Illegal);
        }
        if self.got.reserve(1).is_err() {
            return Err(StepFault::Memory);
        }
        match mem::replace(&mut self.phase, Phase::Quiet) {
            Phase::Served(heard) => self.got.push_reserved(heard),
            Phase::Quiet | Phase::Sent | Phase::Intended => unreachable!(),
        }
        Ok(())
    }

    /// It hears this of its action outside the machine.
    pub fn hear(&mut self, heard: &Heard, alloc: Global) -> Result<(), StepFault>
        requires heard { self.old.run.phase ≡ Phase.Intended → IsHeard (next self.old.run.device) self.old.run.got }
        ensures run { AnswersSo (CanHear self.old.run heard.now) self.old.run self.new.run (λ _. self.new.run ≡ with_heard self.old.run heard.now) result }
        ensures spare { self.new.spare ≡ self.old.spare }
    {
        if !is_intended(&self.phase) {
            return Err(StepFault::Illegal);
        }
        match following(&self.device, &self.got, alloc)? {
            Some(action) if fits(&action, heard) => {}
            Some(_) | None => return Err(StepFault::Illegal),
        }
        if self.got.reserve(1).is_err() {
            return Err(StepFault::Memory);
        }
        self.got.push_reserved(heard.copy());
        self.phase = Phase::Quiet;
        Ok(())
    }

    /// The oldest answer without a Reply has it; the tag and the maker of its item.
    pub fn reply(&mut self) -> Result<(u32, Maker), StepFault>
        ensures run { AnswersSo (0 < length self.old.run.due) self.old.run self.new.run (λ w. IsAnswered self.old.run self.new.run w.0 w.1) result }
        ensures spare { self.new.spare ≡ self.old.spare }
    {
        if self.due.is_empty() {
            return Err(StepFault::Illegal);
        }
        if self.replied.reserve(1).is_err() {
            return Err(StepFault::Memory);
        }
        let due = self.due.remove(0);
        let of = (due.tag, due.maker);
        self.replied.push_reserved(due);
        Ok(of)
    }

    /// The oldest answer with its Reply comes to its maker.
    pub fn deliver(&mut self) -> Result<Maker, StepFault>
        ensures run { AnswersSo (0 < length self.old.run.replied) self.old.run self.new.run (IsLanded self.old.run self.new.run) result }
        ensures spare { self.new.spare ≡ self.old.spare }
    {
        if self.replied.is_empty() {
            return Err(StepFault::Illegal);
        }
        let due = self.replied.remove(0);
        Ok(due.maker)
    }
}

/// A copy of a device where the service with these replies is over.
fn rested<D: Device + Drop>(device: &D, got: &[Heard], alloc: Global) -> Result<D, StepFault>
    requires heard { IsHeard (next (D.state device.now)) got.now }
    ensures ok { IfOk result (λ other. IsRested (next (D.state device.now) got.now) (D.state device.now) (D.state other)) }
    ensures fault { IfErr result (λ fault. fault ≡ StepFault.Illegal → IsOver (next (D.state device.now) got.now) → ⊥) }
{
    let mut other = match device.copy(alloc) {
        Ok(other) => other,
        Err(_) => return Err(StepFault::Memory),
    };
    match repeat(&mut other, got) {
        Some(_) => Err(StepFault::Illegal),
        None => Ok(other),
    }
}

/// The action that is next after these replies.
fn following<D: Device + Drop>(
    device: &D,
    got: &[Heard],
    alloc: Global,
) -> Result<Option<Action>, StepFault>
    requires heard { IsHeard (next (D.state device.now)) got.now }
    ensures next { IfOk result (λ action. NextSo (next (D.state device.now) got.now) action) }
    ensures action { IfOk result (λ action. IfSome action IsAction) }
    ensures fault { IfErr result (λ fault. fault ≡ StepFault.Memory) }
{
    match next_after(device, got, alloc) {
        Ok(action) => Ok(action),
        Err(_) => Err(StepFault::Memory),
    }
}

/// The answer to an item on which a device acted, if the maker gets one at once; and the hart that gets a value by it.
fn answer(due: &mut Vec<Due>, tag: u32, made: Made, value: u64) -> Option<(HartNo, u64)>
    requires { vec_len due.old < vec_capacity due.old }
    ensures due { (acted : Acted) → acted.value ≡ value → due.new.items ≡ due.old.items ++ due_for tag made.maker (answers_of made.item acted) }
    ensures reached { result ≡ reached_by made value }
{
    match made.item {
        Item::Load { .. } => {
            let answer = Answer::Value(value);
            let maker = made.maker;
            due.push_reserved(Due { tag, maker, answer });
            reached(&maker, value)
        }
        Item::Store { .. } | Item::Target { .. } | Item::Stats | Item::Resize { .. } => None,
    }
}

/// The maker of a load with its value, if that is a hart.
fn reached(maker: &Maker, value: u64) -> Option<(HartNo, u64)>
    ensures { result ≡ value_of maker.now value }
{
    match maker {
        Maker::Hart(hart) => Some((*hart, value)),
        Maker::Line(_) => None,
    }
}

/// Whether none of these answers is the value of a load.
#[tactic(auto, using(crate::proofs::Dues::load_there, crate::proofs::Dues::more_free))]
fn has_no_load(due: &[Due]) -> bool
    ensures { IsTrue result ↔ NoLoadDue due.now }
{
    for answer in due {
        match answer.answer {
            Answer::Value(_) => return false,
            Answer::Verdict(_) => {}
        }
    }
    true
}

/// Whether no action is under way.
fn is_quiet(phase: &Phase) -> bool
    ensures { IsTrue result ↔ (phase.now ≡ Phase.Quiet) }
{
    matches!(phase, Phase::Quiet)
}

/// Whether an action was sent.
fn is_sent(phase: &Phase) -> bool
    ensures { IsTrue result ↔ (phase.now ≡ Phase.Sent) }
{
    matches!(phase, Phase::Sent)
}

/// Whether an action was served.
fn is_served(phase: &Phase) -> bool
    ensures { IsTrue result ↔ IsServed phase.now }
{
    matches!(phase, Phase::Served(_))
}

/// Whether an action is intended.
fn is_intended(phase: &Phase) -> bool
    ensures { IsTrue result ↔ (phase.now ≡ Phase.Intended) }
{
    matches!(phase, Phase::Intended)
}
