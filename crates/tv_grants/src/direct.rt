//! What a device does to guest memory, by its grants.

ghost use Rattle.std.specs.Prelude.{◌≡◌, ◌↔◌, ◌≤◌, IfSome, None, Some, false, if◌then◌else◌, length, true};
ghost use Rattle.std.specs.Bool.{OnTrue, OnFalse};
ghost use Rattle.tv_ram.specs.Memory.{bytes_at, with_bytes, with_zero_page};
ghost use Rattle.tv_items.specs.Fits.{FitsAction, IsAction, way_of};
ghost use Rattle.tv_items.specs.declared.action.Heard.TheVariants.{Refused};
ghost use Rattle.tv_items.specs.declared.action.Way.TheVariants.{Memory};
ghost use Rattle.tv_base.specs.declared.limits.TheConstants.{PIECE_BYTES};
ghost use Rattle.tv_grants.specs.Direct.{direct_action, heard_of, may_do};
ghost use Rattle.tv_grants.specs.Grants.{is_allowed, is_page_allowed, ram_bytes, ranges_of, released, right_to, with_page};

use crate::Grants;
use tv_base::{DevNo, PIECE_BYTES};
use tv_items::{Action, Bytes, Heard};
use tv_ram::Ram;

impl Grants {
    /// A device's read of the bytes from an address on. False where it may not read each of them: `out`
    /// stays as it was then.
    pub fn read(&self, ram: &Ram, dev: DevNo, addr: u64, out: &mut [u8]) -> bool
        requires memory { ram_bytes self.now ≡ length ram.now }
        requires piece { length out.old ≤ PIECE_BYTES }
        ensures allowed { result ≡ is_allowed (ranges_of dev self.now.ranges) self.now.withdrawn (right_to false) addr (length out.old) }
        ensures read { OnTrue result (out.new ≡ bytes_at ram.now addr (length out.old)) }
        ensures unchanged { OnFalse result (out.new ≡ out.old) }
    {
        self.allowed(dev, addr, out.len() as u16, false) && ram.read(addr, out)
    }

    /// A device's write of bytes from an address on. False where it may not write each of them: memory
    /// stays as it was then.
    pub fn write(&self, ram: &mut Ram, dev: DevNo, addr: u64, bytes: &[u8]) -> bool
        requires memory { ram_bytes self.now ≡ length ram.old }
        requires piece { length bytes.now ≤ PIECE_BYTES }
        ensures allowed { result ≡ is_allowed (ranges_of dev self.now.ranges) self.now.withdrawn (right_to true) addr (length bytes.now) }
        ensures written { OnTrue result (ram.new ≡ with_bytes ram.old addr bytes.now) }
        ensures unchanged { OnFalse result (ram.new ≡ ram.old) }
        ensures size { length ram.new ≡ length ram.old }
    {
        self.allowed(dev, addr, bytes.len() as u16, true) && ram.write(addr, bytes)
    }

    /// A device's release of a page: it is filled with zeros, and with `hold` withdrawn from all devices.
    /// False where the device may not write each of its bytes: nothing changes then.
    pub fn release(&mut self, ram: &mut Ram, dev: DevNo, page: u32, hold: bool) -> bool
        requires memory { ram_bytes self.old ≡ length ram.old }
        ensures allowed { result ≡ is_page_allowed (ranges_of dev self.old.ranges) page }
        ensures zeroed { OnTrue result (ram.new ≡ with_zero_page ram.old page) }
        ensures withdrawn { OnTrue result (self.new ≡ released self.old page hold) }
        ensures memory { OnFalse result (ram.new ≡ ram.old) }
        ensures grants { OnFalse result (self.new ≡ self.old) }
        ensures size { length ram.new ≡ length ram.old }
        ensures pages { length self.new.withdrawn ≡ length self.old.withdrawn }
    {
        self.allowed_page(dev, page) && ram.zero_page(page) && (!hold || self.withdraw(page))
    }

    /// A device's gaining back of a page, withdrawn or not. False where the device may not write each of
    /// its bytes: nothing changes then.
    pub fn regain(&mut self, dev: DevNo, page: u32) -> bool
        ensures allowed { result ≡ is_page_allowed (ranges_of dev self.old.ranges) page }
        ensures given { OnTrue result (self.new ≡ with_page self.old page false) }
        ensures unchanged { OnFalse result (self.new ≡ self.old) }
        ensures pages { length self.new.withdrawn ≡ length self.old.withdrawn }
    {
        self.allowed_page(dev, page) && self.give_back(page)
    }

    /// A device's read of `len` bytes from an address on; `None` where it may not read each of them.
    pub fn read_bytes(&self, ram: &Ram, dev: DevNo, addr: u64, len: u16) -> Option<Bytes>
        requires memory { ram_bytes self.now ≡ length ram.now }
        requires piece { len ≤ PIECE_BYTES }
        ensures read { result ≡ (if is_allowed (ranges_of dev self.now.ranges) self.now.withdrawn (right_to false) addr len then Some (bytes_at ram.now addr len) else None) }
        ensures size { IfSome result (λ bytes. length bytes ≡ len) }
    {
        let mut buffer = [0; PIECE_BYTES];
        let out = &mut buffer[..usize::from(len)];
        if self.read(ram, dev, addr, out) {
            Some(Bytes::of(out))
        } else {
            None
        }
    }

    /// A device's action on memory: a read, a write, a release or a regain. It is refused where the device's grants don't
    /// allow it: nothing changes then.
    pub fn act(&mut self, ram: &mut Ram, dev: DevNo, action: &Action) -> Heard
        requires memory { ram_bytes self.old ≡ length ram.old }
        requires action { IsAction action.now }
        requires way { way_of action.now ≡ Memory }
        ensures direct { direct_action dev ram.old self.old action.now ≡ record { heard = result; ram = ram.new; grants = self.new } }
        ensures refused { (result ≡ Refused) ↔ (may_do dev self.old action.now ≡ false) }
        ensures fits { FitsAction action.now result }
        ensures memory { ram_bytes self.new ≡ length ram.new }
        ensures size { length ram.new ≡ length ram.old }
    {
        match action {
            Action::Read { addr, len } => match self.read_bytes(ram, dev, *addr, *len) {
                Some(bytes) => Heard::Bytes(bytes),
                None => Heard::Refused,
            },
            Action::Write { addr, bytes } => heard(self.write(ram, dev, *addr, bytes.as_slice())),
            Action::Release { page, hold } => heard(self.release(ram, dev, *page, *hold)),
            Action::Regain { page } => heard(self.regain(dev, *page)),
            Action::Raise
            | Action::DiskRead { .. }
            | Action::DiskWrite { .. }
            | Action::Flush
            | Action::SetLen { .. }
            | Action::Put { .. }
            | Action::Input { .. }
            | Action::Random { .. } => unreachable!(),
        }
    }
}

/// What is heard of an action that gives no bytes.
fn heard(is_done: bool) -> Heard
    ensures { result ≡ heard_of is_done }
{
    if is_done { Heard::Done } else { Heard::Refused }
}
