//! The proxy: it gives out items, and hands each answer to the one that waits for it.

ghost use Rattle.std.specs.Prelude.{◌≡◌, ◌≢◌, ◌↔◌, ◌<◌, ◌-◌, ◌^◌, ℕ, true, IfSome, IfNone, Some, None, slice_index_or};
ghost use Rattle.tv_proxy.specs.Messages as spec;
ghost use Rattle.tv_proxy.specs.Proxies.{AcceptedSo, CanAccept, IsProxy, Maker, NobodyWaits, ValueLandedSo, VerdictLandedSo, asked, issued, no_items, posted, waits_for};

use crate::messages::{item_message, item_of};
use std::marker::Model;
use tv_base::{Access, HARTS, HartNo, LINES, LineNo};
use tv_items::{Item, Verdict};
use tv_wire::Msg;

/// An answer that reached the one that waited for it.
#[derive(Drop)]
pub enum Landed {
    /// A hart, with the value of its load.
    Hart(HartNo, u64),
    /// A control line, with the verdict on its command.
    Line(LineNo, Verdict),
}

/// What the bus knows of a device that a worker serves: how many items were made for it, and which hart and which line
/// waits for the answer to which. It takes no memory.
#[derive(Drop)]
pub struct Proxy {
    made: u32,
    harts: [Option<u32>; HARTS as usize],
    lines: [Option<u32>; LINES as usize],
}

impl Model for Proxy {
    ghost use Rattle.tv_proxy.specs.Proxies.{IsProxy, ProxyState};

    ghost Value = { ProxyState };

    ghost view = { λ p. record { made = p.made; harts = p.harts; lines = p.lines } };

    ghost invariant = { λ p. IsProxy (record { made = p.made; harts = p.harts; lines = p.lines }) };
}

impl Proxy {
    /// No item was made.
    pub fn new() -> Proxy
        ensures { result ≡ no_items }
    {
        Proxy {
            made: 0,
            harts: [None; HARTS as usize],
            lines: [None; LINES as usize],
        }
    }

    /// How many items were made.
    pub fn made(&self) -> u32
        ensures { result ≡ self.now.made }
    {
        self.made
    }

    /// The tag of the load for whose value a hart waits, if any.
    pub fn hart_waits(&self, hart: HartNo) -> Option<u32>
        ensures { result ≡ waits_for self.now (Maker.hart hart) }
    {
        self.harts[usize::from(hart.get())]
    }

    /// The tag of the command for whose verdict a line waits, if any.
    pub fn line_waits(&self, line: LineNo) -> Option<u32>
        ensures { result ≡ waits_for self.now (Maker.line line) }
    {
        self.lines[usize::from(line.get())]
    }

    /// A law: each tag that is waited for is an item's, and one maker alone waits for it.
    pub fn each_tag_has_one_maker(&self)
        ensures { IsProxy self.now }
    {
        let _ = &self.made;
    }

    /// The message of a hart's access, whose tag is the number of items made so far. The hart then waits for the value of a
    /// load, and for nothing after a store.
    pub fn issue(&mut self, hart: HartNo, access: &Access) -> Msg
        requires numbers { self.old.made < 2 ^ 32 - 1 }
        requires free { waits_for self.old (Maker.hart hart) ≡ None }
        ensures message { result ≡ spec.item_message self.old.made (spec.item_of access.now) }
        ensures state { self.new ≡ issued self.old hart access.now }
    {
        let tag = self.next_tag();
        match access {
            Access::Load { .. } => self.harts[usize::from(hart.get())] = Some(tag),
            Access::Store { .. } => {}
        }
        item_message(tag, &item_of(access))
    }

    /// The message of a line's command, whose tag is the number of items made so far. The line then waits for the verdict.
    pub fn command(&mut self, line: LineNo, item: &Item) -> Msg
        requires numbers { self.old.made < 2 ^ 32 - 1 }
        requires command { spec.IsCommand item.now }
        requires free { waits_for self.old (Maker.line line) ≡ None }
        ensures message { result ≡ spec.item_message self.old.made item.now }
        ensures state { self.new ≡ asked self.old (Maker.line line) }
    {
        let tag = self.next_tag();
        self.lines[usize::from(line.get())] = Some(tag);
        item_message(tag, item)
    }

    /// The tag of one item more.
    fn next_tag(&mut self) -> u32
        requires { self.old.made < 2 ^ 32 - 1 }
        ensures tag { result ≡ self.old.made }
        ensures state { self.new ≡ posted self.old }
        ensures fresh { NobodyWaits self.new result }
    {
        let tag = self.made;
        self.made += 1;
        tag
    }

    /// Whether a message may be accepted: it is a value, and no line waits for its tag, or an answer, and no hart does.
    pub fn may_accept(&self, msg: &Msg) -> bool
        ensures { (result ≡ true) ↔ CanAccept self.now msg.now }
    {
        match msg {
            Msg::Value { tag, .. } => place_of(&self.lines, *tag).is_none(),
            Msg::Answer { tag, .. } => place_of(&self.harts, *tag).is_none(),
            _ => false,
        }
    }

    /// Hands a value or an answer to the one that waits for its tag; `None` exactly where nobody does, and nothing changes
    /// then. A value is for a hart and an answer for a line.
    pub fn accept(&mut self, msg: &Msg) -> Option<Landed>
        requires { CanAccept self.old msg.now }
        ensures { AcceptedSo self.old msg.now self.new result }
    {
        match msg {
            Msg::Value { tag, value } => self.land_value(*tag, *value),
            Msg::Answer {
                tag,
                status,
                other,
                stats,
            } => self.land_verdict(Verdict {
                tag: *tag,
                status: *status,
                other: *other,
                stats: stats.copy(),
            }),
            _ => unreachable!(),
        }
    }

    /// Hands a value to the hart that waits for it, if one does.
    fn land_value(&mut self, tag: u32, value: u64) -> Option<Landed>
        requires { (c : ℕ) → waits_for self.old (Maker.line c) ≢ Some tag }
        ensures { ValueLandedSo self.old tag value self.new result }
    {
        let hart = HartNo::new(place_of(&self.harts, tag)? as u8)?;
        self.harts[usize::from(hart.get())] = None;
        Some(Landed::Hart(hart, value))
    }

    /// Hands a verdict to the line that waits for it, if one does.
    fn land_verdict(&mut self, verdict: Verdict) -> Option<Landed>
        requires { (h : ℕ) → waits_for self.old (Maker.hart h) ≢ Some verdict.tag }
        ensures { VerdictLandedSo self.old verdict self.new result }
    {
        let line = LineNo::new(place_of(&self.lines, verdict.tag)? as u8)?;
        self.lines[usize::from(line.get())] = None;
        Some(Landed::Line(line, verdict))
    }
}

/// The first place at which this tag waits; `None` exactly where there is none.
fn place_of(waiting: &[Option<u32>], tag: u32) -> Option<usize>
    ensures found { IfSome result (λ i. slice_index_or waiting.now i None ≡ Some tag) }
    ensures none { IfNone result ((i : ℕ) → slice_index_or waiting.now i None ≢ Some tag) }
{
    waiting.iter().position(|at| *at == Some(tag))
}
