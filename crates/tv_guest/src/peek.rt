//! What the next event of a hart would show, found without making it.

ghost use Rattle.std.specs.Prelude.{ℕ, ◌≡◌, ◌<◌, ◌^◌, None, Some};
ghost use Rattle.tv_hart.specs.Hart.{stepped};
ghost use Rattle.tv_spec.specs.Local.{finish_by, local_meaning};
ghost use Rattle.tv_spec.specs.LocalState.{lines_of};
ghost use Rattle.tv_spec.specs.Reach.{all_open};
ghost use Rattle.tv_guest.specs.Looks.{finish_looked, load_looked, store_looked};

use crate::local::{Local, finish_of_width, low_bytes};
use std::marker::Model;
use tv_base::{Access, DevNo, HartNo, Width};
use tv_bus::Target;
use tv_exec::AmoOp;
use tv_hart::{Hart, Loaded, Place, Stored};
use tv_spec::Shown;

/// What a hart reaches, only looked at: an access changes nothing but what it shows.
#[derive(Drop)]
struct Peek<'a> {
    local: &'a Local,
    shown: Shown,
}

impl<'a> Model for Peek<'a> {
    ghost use Rattle.tv_spec.specs.Reach.{Reach, all_open};

    ghost Value = { Reach };

    ghost view = { λ p. record { local = p.local.now.local; closed = all_open; shown = p.shown } };
}

impl<'a> Peek<'a> {
    /// A load past memory, by where it leads.
    fn load_port(&mut self, target: Target, width: Width, off: u32) -> Loaded
        requires off { (slot : ℕ) → target ≡ Target.Device slot → off < 2 ^ 16 }
        ensures { (result, self.new) ≡ load_looked self.old width (Some (target, off)) }
    {
        match target {
            Target::Device(slot) => self.load_device(slot, width, off),
            Target::Finisher | Target::Timer | Target::Intc | Target::Debug | Target::Ram => {
                Loaded::Nothing
            }
        }
    }

    /// A load of a device.
    fn load_device(&mut self, slot: DevNo, width: Width, off: u32) -> Loaded
        requires off { off < 2 ^ 16 }
        ensures { (result, self.new) ≡ load_looked self.old width (Some (Target.Device slot, off)) }
    {
        let off = off as u16;
        self.shown = Shown::Access(slot, Access::Load { width, off });
        Loaded::Held
    }

    /// A store past memory, by where it leads.
    fn store_port(&mut self, target: Target, width: Width, off: u32, value: u64) -> Stored
        requires off { (slot : ℕ) → target ≡ Target.Device slot → off < 2 ^ 16 }
        ensures { (result, self.new) ≡ store_looked self.old width value (Some (target, off)) }
    {
        match target {
            Target::Device(slot) => self.store_device(slot, width, off, value),
            Target::Debug => {
                self.shown = Shown::Byte((value & 0xff) as u8);
                Stored::Done
            }
            Target::Finisher => self.store_finisher(width, value),
            Target::Timer | Target::Intc | Target::Ram => Stored::Nothing,
        }
    }

    /// A store to a device.
    fn store_device(&mut self, slot: DevNo, width: Width, off: u32, value: u64) -> Stored
        requires off { off < 2 ^ 16 }
        ensures { (result, self.new) ≡ store_looked self.old width value (Some (Target.Device slot, off)) }
    {
        let off = off as u16;
        let value = low_bytes(width, value);
        self.shown = Shown::Access(slot, Access::Store { width, off, value });
        Stored::Done
    }

    /// A store to the finisher.
    fn store_finisher(&mut self, width: Width, value: u64) -> Stored
        ensures { (result, self.new) ≡ finish_looked self.old (finish_by width value) }
    {
        match finish_of_width(width, value) {
            Some(finish) => {
                self.shown = Shown::Finish(finish);
                Stored::Done
            }
            None => Stored::Nothing,
        }
    }
}

impl<'a> Place for Peek<'a> {
    ghost use Rattle.tv_guest.specs.Looks.{looked};

    ghost meaning = { looked };

    ghost calm = { λ p q. Unit {0} };

    fn fetch(&mut self, addr: u64) -> Option<u32> {
        self.local.word(addr)
    }

    fn load(&mut self, _hart: HartNo, width: Width, addr: u64) -> Loaded {
        match self.local.port(width, addr) {
            Some((target, off)) => self.load_port(target, width, off),
            None => Loaded::Nothing,
        }
    }

    fn store(&mut self, _hart: HartNo, width: Width, addr: u64, value: u64) -> Stored {
        match self.local.port(width, addr) {
            Some((target, off)) => self.store_port(target, width, off, value),
            None => Stored::Nothing,
        }
    }

    fn number(&self, _width: Width, _addr: u64) -> Option<u64> {
        None
    }

    fn put_number(&mut self, _hart: HartNo, _width: Width, _addr: u64, _value: u64) -> bool {
        false
    }

    fn amo(
        &mut self,
        _hart: HartNo,
        _width: Width,
        _addr: u64,
        _op: AmoOp,
        _value: u64,
    ) -> Option<u64> {
        None
    }

    fn reserve(&mut self, _hart: HartNo, _width: Width, _addr: u64) -> Option<u64> {
        None
    }

    fn conditional(
        &mut self,
        _hart: HartNo,
        _width: Width,
        _addr: u64,
        _value: u64,
    ) -> Option<bool> {
        None
    }

    ghost stays = { λ p. tt };
}

/// What the next event of this hart would show where nothing is closed.
#[tactic(auto, using(crate::proofs::Looks::stepped_alike))]
pub fn look(hart: &Hart, local: &Local, number: HartNo) -> Shown
    requires ready { hart.now.waits ≡ None }
    ensures { result ≡ (stepped local_meaning hart.now (record { local = local.now.local; closed = all_open; shown = Shown.Nothing }) (lines_of local.now.local number)).2.shown }
{
    let mut copy = hart.copy();
    let mut peek = Peek {
        local,
        shown: Shown::Nothing,
    };
    let _did = copy.step(&mut peek, local.lines_now(number));
    peek.shown
}
