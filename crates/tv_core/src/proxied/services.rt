//! What a device's worker asks of the services, and what they do.

ghost use Rattle.std.specs.Prelude.{◌≡◌, ◌≢◌, ◌≤◌, ℕ, IfSome, length};
ghost use Rattle.tv_items.specs.Fits.{IsAction};
ghost use Rattle.tv_journal.specs.declared.Entry.TheVariants as entry;
ghost use Rattle.tv_side.specs.Sides.{lane_of, without_request};
ghost use Rattle.tv_wire.specs.Spelling.{IsMessage};
ghost use Rattle.tv_core.specs.Calls.{BeganSo, GotSo, ServedSo, WantsInside};
ghost use Rattle.tv_core.specs.Lanes.{HeardSo};
ghost use Rattle.tv_core.specs.Seen.{HasDevice, dev_of, seat_of};
ghost use Rattle.tv_core.specs.Serves as spec;

use crate::Proxied;
use crate::parts::{fill, has_ended, worker_seat};
use tv_base::DevNo;
use tv_items::{Action, Heard, Way};
use tv_journal::Entry;
use tv_machine::Machine;
use tv_side::Side;
use tv_wire::Msg;

impl Proxied {
    /// The worker of a device asks for its next action, which a service does. `false` where the run has ended or ends now, of which
    /// the worker is told.
    pub fn send(&mut self, dev: DevNo, action: &Action) -> bool
        requires device { HasDevice self.old dev }
        requires wants { WantsInside (dev_of self.old dev) action.now }
        requires action { IsAction action.now }
        ensures { BeganSo self.old self.new dev (entry.Send dev) result }
    {
        let slot = usize::from(dev.get());
        if has_ended(&self.guest) {
            self.sides[slot].tell();
            return false;
        }
        if !self.journal.reserve_for(&Entry::Send(dev), 1, 0) {
            fill(&mut self.guest, &mut self.journal);
            self.seat = worker_seat(&self.machine, dev);
            self.sides[slot].tell();
            return false;
        }
        self.sides[slot].request(action);
        self.journal.push_reserved(&Entry::Send(dev));
        true
    }

    /// The worker of a device gets what a service replied, also where the run has ended. `None` exactly where no reply lies there,
    /// which changes nothing but that after the ending the worker is told of it.
    pub fn got(&mut self, dev: DevNo) -> Option<Heard>
        requires device { HasDevice self.old dev }
        ensures { GotSo self.old self.new dev result }
    {
        let ended = has_ended(&self.guest);
        let heard = hear(&mut self.sides[usize::from(dev.get())], ended)?;
        self.journal.push_reserved(&Entry::Got(dev));
        Some(heard)
    }

    /// The memory service does the request of a device that lies in its lane, where the device's grants allow it. `false` where none
    /// lies there, or the run has ended or ends now.
    pub fn serve_mem(&mut self, dev: DevNo) -> bool
        requires device { HasDevice self.old dev }
        ensures { ServedSo self.old self.new dev Way.Memory (entry.ServeMem dev) result }
    {
        self.serve(dev, Way::Memory)
    }

    /// The same of the interrupt service.
    pub fn serve_irq(&mut self, dev: DevNo) -> bool
        requires device { HasDevice self.old dev }
        ensures { ServedSo self.old self.new dev Way.Interrupt (entry.ServeIrq dev) result }
    {
        self.serve(dev, Way::Interrupt)
    }

    /// The service of this way does the request of a device.
    fn serve(&mut self, dev: DevNo, way: Way) -> bool
        requires device { HasDevice self.old dev }
        requires inside { way ≢ Way.Outside }
        ensures { ServedSo self.old self.new dev way (spec.serve_entry way dev) result }
    {
        if has_ended(&self.guest) {
            return false;
        }
        let slot = usize::from(dev.get());
        if !self.sides[slot].has_request(way) {
            return false;
        }
        if !self.journal.push(&serve_entry(way, dev)) {
            fill(&mut self.guest, &mut self.journal);
            self.seat = service_seat(&self.machine, way);
            return false;
        }
        let side = &mut self.sides[slot];
        let (tag, action) = match take_request(side, way) {
            Some(request) => request,
            None => unreachable!(),
        };
        let heard = self.guest.act(&mut self.grants, dev, &action);
        side.put_answer(way, &reply_message(way, tag, heard));
        true
    }
}

/// What a service replied, which leaves its lane. Where no reply lies there and the run has ended, the worker is told.
fn hear(side: &mut Side, ended: bool) -> Option<Heard>
    ensures { HeardSo side.old side.new ended result }
{
    if let Some(heard) = side.hear(Way::Memory) {
        return Some(heard);
    }
    if let Some(heard) = side.hear(Way::Interrupt) {
        return Some(heard);
    }
    if ended {
        side.tell();
    }
    None
}

/// Takes the request out of a service's lane, as its action with its tag.
fn take_request(side: &mut Side, way: Way) -> Option<(u32, Action)>
    ensures request { result ≡ spec.request_by (lane_of side.old way).asked }
    ensures state { side.new ≡ without_request side.old way }
    ensures legal { IfSome result (λ request. IsAction request.1) }
{
    let msg = side.take_request(way)?;
    request_in(&msg)
}

/// The tag and the action of a request.
fn request_in(msg: &Msg) -> Option<(u32, Action)>
    requires { IsMessage msg.now }
    ensures request { result ≡ spec.request_in msg.now }
    ensures legal { IfSome result (λ request. IsAction request.1) }
{
    match msg {
        Msg::Read { tag, addr, len } => Some((
            *tag,
            Action::Read {
                addr: *addr,
                len: *len,
            },
        )),
        Msg::Write { tag, addr, bytes } => Some((
            *tag,
            Action::Write {
                addr: *addr,
                bytes: bytes.copy(),
            },
        )),
        Msg::Release { tag, page, hold } => Some((
            *tag,
            Action::Release {
                page: *page,
                hold: *hold,
            },
        )),
        Msg::Regain { tag, page } => Some((*tag, Action::Regain { page: *page })),
        Msg::Raise { tag } => Some((*tag, Action::Raise)),
        _ => None,
    }
}

/// The message that tells a worker what came of its request.
fn reply_message(way: Way, tag: u32, heard: Heard) -> Msg
    ensures { result ≡ spec.reply_message way tag heard }
{
    match way {
        Way::Memory => match heard {
            Heard::Bytes(bytes) => Msg::Bytes { tag, bytes },
            Heard::Done => Msg::MemDone { tag },
            _ => Msg::MemRefused { tag },
        },
        Way::Interrupt => match heard {
            Heard::Done => Msg::IrqDone { tag },
            _ => Msg::IrqRefused { tag },
        },
        Way::Outside => Msg::IrqRefused { tag },
    }
}

/// The entry of the service of this way.
fn serve_entry(way: Way, dev: DevNo) -> Entry
    ensures { result ≡ spec.serve_entry way dev }
{
    match way {
        Way::Memory => Entry::ServeMem(dev),
        Way::Interrupt | Way::Outside => Entry::ServeIrq(dev),
    }
}

/// The seat of the service of this way.
fn service_seat(machine: &Machine, way: Way) -> u16
    requires { length machine.now.device ≤ 8 }
    ensures { (d : ℕ) → result ≡ seat_of machine.now (spec.serve_entry way d) }
{
    let number = match way {
        Way::Memory => 1,
        Way::Interrupt | Way::Outside => 2,
    };
    u16::from(machine.harts) + machine.device.as_slice().len() as u16 + number
}
