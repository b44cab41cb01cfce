//! One device's side of the monitor.

ghost use Rattle.std.specs.Prelude.{◌≡◌, ◌≢◌, ◌↔◌, ◌≤◌, ◌<◌, ◌+◌, ◌-◌, ◌^◌, [], false, true, IfOk, IfSome, IfNone, None, Some, is_some, length, nat_le};
ghost use Rattle.tv_base.specs.declared.limits.TheConstants.{LINES, TUBE_MESSAGES};
ghost use Rattle.tv_items.specs.Fits.{IsAction, way_of};
ghost use Rattle.tv_items.specs.declared.action.Way.TheVariants.{Outside};
ghost use Rattle.tv_proxy.specs.Messages.{IsCommand, item_message, verdict_message};
ghost use Rattle.tv_proxy.specs.Proxies.{Maker, waits_for};
ghost use Rattle.tv_wire.specs.Spelling.{IsMessage};
ghost use Rattle.tv_wire.specs.declared.Msg.TheVariants as msg;
ghost use Rattle.tv_side.specs.declared.TheConstants.{REPLIES};
ghost use Rattle.tv_side.specs.Sides.{
  FirstIsAwaited,
  IsInPlace,
  IsReply,
  LandedSo,
  empty_lane,
  heard_by,
  lane_of,
  new_side,
  with_access,
  with_answer,
  with_command,
  with_first_item,
  with_reply,
  with_request,
  without_request,
};

use crate::{Lane, Messages, REPLIES};
use std::alloc::Global;
use std::marker::Model;
use tv_base::{Access, HartNo, LINES, LineNo, Memory};
use tv_items::{Action, Heard, Item, Verdict, Way};
use tv_proxy::{Landed, Proxy, Requests, heard_in, item_in, verdict_message};
use tv_tube::PLACE_BYTES;
use tv_wire::Msg;

/// What the monitor keeps of one device: its proxy, the tubes of commands and replies, and the lanes to the services. All
/// its memory is taken when it is made.
#[derive(Drop)]
pub struct Side {
    proxy: Proxy,
    requests: Requests,
    commands: Messages,
    /// How many items let a hart's access find the command tube full.
    tube: u16,
    replies: Messages,
    memory: Lane,
    interrupts: Lane,
    intended: bool,
    told: bool,
    /// Where a message is spelt on its way in, and read on its way out.
    buffer: Box<[u8; PLACE_BYTES]>,
}

impl Model for Side {
    ghost use Rattle.tv_side.specs.Fields.{AreFields, seen};
    ghost use Rattle.tv_side.specs.Sides.{SideState};

    ghost Value = { SideState };

    ghost view = { seen };

    ghost invariant = { AreFields };
}

impl Side {
    /// Nothing was made. A hart's access is to find the command tube full where so many items lie in it, from 1 to
    /// [`TUBE_MESSAGES`](tv_base::TUBE_MESSAGES); a command of each line has room beside them.
    ///
    /// # Errors
    /// Out of memory.
    pub fn new(alloc: Global, tube: u16) -> Result<Side, Memory>
        requires some { 1 ≤ tube }
        requires most { tube ≤ TUBE_MESSAGES }
        ensures { IfOk result (λ side. side ≡ new_side tube) }
    {
        Ok(Side {
            proxy: Proxy::new(),
            requests: Requests::new(),
            commands: Messages::new(alloc, tube + u16::from(LINES))?,
            tube,
            replies: Messages::new(alloc, REPLIES)?,
            memory: Lane::new(alloc)?,
            interrupts: Lane::new(alloc)?,
            intended: false,
            told: false,
            buffer: Box::new(alloc, [0; PLACE_BYTES]).map_err(|_| Memory)?,
        })
    }

    /// How many items lie in the command tube.
    pub fn items(&self) -> u16
        ensures { result ≡ length self.now.items }
    {
        self.commands.len()
    }

    /// Whether a hart's access finds the command tube full.
    pub fn is_full(&self) -> bool
        ensures { result ≡ nat_le self.now.tube (length self.now.items) }
    {
        self.commands.len() >= self.tube
    }

    /// How many values and answers lie in the reply tube.
    pub fn replies(&self) -> u16
        ensures { result ≡ length self.now.replies }
    {
        self.replies.len()
    }

    /// Whether nothing lies in a service's lane.
    pub fn is_idle(&self, way: Way) -> bool
        ensures { (result ≡ true) ↔ (lane_of self.now way ≡ empty_lane) }
    {
        match way {
            Way::Memory => self.memory.is_empty(),
            Way::Interrupt => self.interrupts.is_empty(),
            Way::Outside => true,
        }
    }

    /// Makes the item of a hart's access, which then waits for the value of a load.
    pub fn issue(&mut self, hart: HartNo, access: &Access)
        requires numbers { self.old.proxy.made < 2 ^ 32 - 1 }
        requires free { waits_for self.old.proxy (Maker.hart hart) ≡ None }
        requires place { IsInPlace access.now }
        requires room { length self.old.items < self.old.tube }
        ensures { self.new ≡ with_access self.old hart access.now }
    {
        let msg = self.proxy.issue(hart, access);
        self.commands.push(&msg, &mut self.buffer);
    }

    /// Makes the item of a line's command, which then waits for the answer.
    pub fn command(&mut self, line: LineNo, item: &Item)
        requires numbers { self.old.proxy.made < 2 ^ 32 - 1 }
        requires command { IsCommand item.now }
        requires free { waits_for self.old.proxy (Maker.line line) ≡ None }
        requires legal { IsMessage (item_message self.old.proxy.made item.now) }
        requires room { length self.old.items < self.old.tube + LINES }
        ensures { self.new ≡ with_command self.old line item.now }
    {
        let msg = self.proxy.command(line, item);
        self.commands.push(&msg, &mut self.buffer);
    }

    /// Takes the first item out of the command tube, after its tag. `None` exactly where there is none: nothing changes
    /// then.
    pub fn take(&mut self) -> Option<(u32, Item)>
        ensures first { IfSome result (λ tagged. self.old ≡ with_first_item tagged self.new) }
        ensures empty { IfNone result (self.old.items ≡ []) }
        ensures unchanged { IfNone result (self.new ≡ self.old) }
    {
        let msg = self.commands.pop(&mut self.buffer)?;
        item_in(&msg)
    }

    /// Puts the request of an action that a service does into its lane.
    pub fn request(&mut self, action: &Action)
        requires service { way_of action.now ≢ Outside }
        requires legal { IsAction action.now }
        requires free { (lane_of self.old (way_of action.now)).asked ≡ None }
        ensures { self.new ≡ with_request self.old action.now }
    {
        let msg = self.requests.make(action);
        match action.way() {
            Way::Memory => self.memory.asked.put(&msg, &mut self.buffer),
            Way::Interrupt => self.interrupts.asked.put(&msg, &mut self.buffer),
            Way::Outside => unreachable!(),
        }
    }

    /// Whether a request lies in a service's lane.
    pub fn has_request(&self, way: Way) -> bool
        ensures { result ≡ is_some (lane_of self.now way).asked }
    {
        match way {
            Way::Memory => !self.memory.asked.is_empty(),
            Way::Interrupt => !self.interrupts.asked.is_empty(),
            Way::Outside => false,
        }
    }

    /// Takes the request out of a service's lane; `None` exactly where none lies there.
    pub fn take_request(&mut self, way: Way) -> Option<Msg>
        ensures request { result ≡ (lane_of self.old way).asked }
        ensures legal { IfSome result IsMessage }
        ensures state { self.new ≡ without_request self.old way }
    {
        match way {
            Way::Memory => self.memory.asked.take(&mut self.buffer),
            Way::Interrupt => self.interrupts.asked.take(&mut self.buffer),
            Way::Outside => None,
        }
    }

    /// Puts a service's reply into its lane.
    pub fn put_answer(&mut self, way: Way, reply: &Msg)
        requires service { way ≢ Outside }
        requires reply { IsReply reply.now }
        requires legal { IsMessage reply.now }
        requires free { (lane_of self.old way).answered ≡ None }
        ensures { self.new ≡ with_answer self.old way (Some reply.now) }
    {
        match way {
            Way::Memory => self.memory.answered.put(reply, &mut self.buffer),
            Way::Interrupt => self.interrupts.answered.put(reply, &mut self.buffer),
            Way::Outside => unreachable!(),
        }
    }

    /// Takes what is heard out of a service's lane; `None` exactly where no reply lies there.
    pub fn hear(&mut self, way: Way) -> Option<Heard>
        ensures heard { result ≡ heard_by (lane_of self.old way).answered }
        ensures none { IfNone result ((lane_of self.old way).answered ≡ None) }
        ensures state { self.new ≡ with_answer self.old way None }
    {
        let reply = match way {
            Way::Memory => self.memory.answered.take(&mut self.buffer)?,
            Way::Interrupt => self.interrupts.answered.take(&mut self.buffer)?,
            Way::Outside => return None,
        };
        heard_in(reply)
    }

    /// Puts the value of a load on which the device acted into the reply tube.
    pub fn put_value(&mut self, tag: u32, value: u64)
        requires room { length self.old.replies < REPLIES }
        ensures { self.new ≡ with_reply self.old (msg.Value tag value) }
    {
        self.replies
            .push(&Msg::Value { tag, value }, &mut self.buffer);
    }

    /// Puts the verdict on a command into the reply tube.
    pub fn put_verdict(&mut self, verdict: &Verdict)
        requires room { length self.old.replies < REPLIES }
        requires legal { IsMessage (verdict_message verdict.now) }
        ensures { self.new ≡ with_reply self.old (verdict_message verdict.now) }
    {
        self.replies
            .push(&verdict_message(verdict), &mut self.buffer);
    }

    /// Hands the first value or answer to the one that waits for it. `None` exactly where there is none: nothing changes
    /// then.
    pub fn land(&mut self) -> Option<Landed>
        requires { FirstIsAwaited self.old.proxy self.old.replies }
        ensures { LandedSo self.old self.new result }
    {
        let reply = self.replies.pop(&mut self.buffer)?;
        self.proxy.each_tag_has_one_maker();
        self.proxy.accept(&reply)
    }

    /// The worker is to do an action outside the machine.
    pub fn intend(&mut self)
        ensures { self.new ≡ record self.old { intended = true } }
    {
        self.intended = true;
    }

    /// The worker said what became of the action outside the machine.
    pub fn settle(&mut self)
        ensures { self.new ≡ record self.old { intended = false } }
    {
        self.intended = false;
    }

    /// Whether the worker is to do an action outside the machine, and did not say what became of it.
    pub fn is_intended(&self) -> bool
        ensures { result ≡ self.now.intended }
    {
        self.intended
    }

    /// The worker is told of the machine's ending.
    pub fn tell(&mut self)
        ensures { self.new ≡ record self.old { told = true } }
    {
        self.told = true;
    }

    /// Whether the worker was told of the machine's ending.
    pub fn was_told(&self) -> bool
        ensures { result ≡ self.now.told }
    {
        self.told
    }
}

#[cfg(test)]
mod tests;
