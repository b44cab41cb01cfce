//! Calls of a core, and what each brings to the worker of a device.

ghost use Rattle.std.specs.Prelude.{◌≡◌, ◌≢◌, ◌<◌, ◌≤◌, [], ◌∷◌, None, IfSome, length};
ghost use Rattle.tv_items.specs.Fits.{IsAction};
ghost use Rattle.tv_journal.specs.Grammar.{cause_byte};
ghost use Rattle.tv_plan.specs.Devices.{next};
ghost use Rattle.tv_script.specs.Answers.{FitsNext};
ghost use Rattle.tv_spec.specs.Held.{Replied};
ghost use Rattle.tv_spec.specs.declared.Answer.{Answer};
ghost use Rattle.tv_core.specs.Calls.{IsFirstDue, RestsNow, WantsInside};
ghost use Rattle.tv_core.specs.Seen.{HasDevice, HasHart, dev_of};
ghost use Rattle.tv_probed.specs.Keeping.{BringsSo, begun, learned, taken};

use tv_base::{DevNo, HartNo, Why};
use tv_core::{Proxied, Turn};
use tv_items::{Action, Heard, Item};

pub fn take(core: &mut Proxied, dev: DevNo) -> Option<(u32, Item)>
    requires device { HasDevice core.old dev }
    requires rests { RestsNow (dev_of core.old dev) }
    ensures { BringsSo core.old core.new dev (taken result) }
{
    core.is_legal();
    let taken = core.take(dev);
    core.is_legal();
    taken
}

pub fn send(core: &mut Proxied, dev: DevNo, action: &Action) -> bool
    requires device { HasDevice core.old dev }
    requires wants { WantsInside (dev_of core.old dev) action.now }
    requires action { IsAction action.now }
    ensures { BringsSo core.old core.new dev (begun result) }
{
    core.is_legal();
    let sent = core.send(dev, action);
    core.is_legal();
    sent
}

pub fn got(core: &mut Proxied, dev: DevNo) -> Option<Heard>
    requires device { HasDevice core.old dev }
    ensures brings { BringsSo core.old core.new dev (learned result) }
    ensures fits { IfSome result (λ heard. FitsNext (next (dev_of core.old dev).device (dev_of core.old dev).got) heard) }
{
    core.is_legal();
    let heard = core.got(dev);
    core.is_legal();
    heard
}

pub fn reply(core: &mut Proxied, dev: DevNo, tag: u32, value: u64)
    requires device { HasDevice core.old dev }
    requires due { IsFirstDue (dev_of core.old dev) tag (Answer.Value value) }
    ensures { BringsSo core.old core.new dev (Replied ∷ []) }
{
    core.is_legal();
    core.reply(dev, tag, value);
    core.is_legal();
}

pub fn serve_mem(core: &mut Proxied, dev: DevNo) -> bool
    requires device { HasDevice core.old dev }
    ensures { BringsSo core.old core.new dev [] }
{
    core.is_legal();
    let served = core.serve_mem(dev);
    core.is_legal();
    served
}

pub fn serve_irq(core: &mut Proxied, dev: DevNo) -> bool
    requires device { HasDevice core.old dev }
    ensures { BringsSo core.old core.new dev [] }
{
    core.is_legal();
    let served = core.serve_irq(dev);
    core.is_legal();
    served
}

pub fn deliver(core: &mut Proxied, dev: DevNo) -> bool
    requires device { HasDevice core.old dev }
    ensures { BringsSo core.old core.new dev [] }
{
    core.is_legal();
    let delivered = core.deliver(dev);
    core.is_legal();
    delivered
}

pub fn hart_turn(core: &mut Proxied, dev: DevNo, hart: HartNo, most: u16) -> Turn
    requires some { 0 < most }
    requires hart { HasHart core.old hart }
    requires none { core.old.outer ≡ None }
    ensures { BringsSo core.old core.new dev [] }
{
    core.is_legal();
    let turn = core.hart_turn(hart, most);
    core.is_legal();
    turn
}

pub fn tick(core: &mut Proxied, dev: DevNo, n: u32) -> bool
    requires some { 0 < n }
    ensures { BringsSo core.old core.new dev [] }
{
    core.is_legal();
    let ticked = core.tick(n);
    core.is_legal();
    ticked
}

pub fn end(core: &mut Proxied, dev: DevNo, why: Why, seat: u16)
    requires cause { cause_byte why ≢ None }
    ensures { BringsSo core.old core.new dev [] }
{
    core.is_legal();
    core.end(why, seat);
    core.is_legal();
}

pub fn debug_take(core: &mut Proxied, dev: DevNo, out: &mut [u8]) -> usize
    ensures brings { BringsSo core.old core.new dev [] }
    ensures few { result ≤ length out.old }
{
    core.debug_take(out)
}
