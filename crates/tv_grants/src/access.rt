//! Accesses to guest memory, byte by byte.

ghost use Rattle.std.specs.Prelude.{◌≡◌, ◌<◌, ◌≤◌, ◌+◌, ℕ, true, false, IfSome, IfNone};
ghost use Rattle.tv_base.specs.declared.limits.TheConstants.{PAGE_BYTES, RAM_BYTES};
ghost use Rattle.tv_grants.specs.Fields.{AreInMemory};
ghost use Rattle.tv_grants.specs.Grants.{is_allowed, may_touch, ranges_of};

use crate::pages::is_out;
use crate::ranges::{Grant, granted_bytes};
use tv_base::{DevNo, PAGE_BYTES, Rights};

/// How many bytes from an address on the device may touch, up to the end of a range or of the page;
/// `None` where it may not touch the one at the address.
fn touched_bytes(
    grants: &[Grant],
    withdrawn: &[bool],
    dev: DevNo,
    right: Rights,
    addr: u64,
) -> Option<u64>
    ensures some { IfSome result (λ more. (byte : ℕ) → addr ≤ byte → byte < addr + more → may_touch (ranges_of dev grants.now) withdrawn.now right.0 byte ≡ true) }
    ensures more { IfSome result (λ more. (0 < more) × (more ≤ PAGE_BYTES)) }
    ensures none { IfNone result (may_touch (ranges_of dev grants.now) withdrawn.now right.0 addr ≡ false) }
{
    let size = u64::from(PAGE_BYTES);
    if is_out(withdrawn, addr / size) {
        return None;
    }
    match granted_bytes(grants, dev, right, addr) {
        Some(more) => Some(more.min(size - addr % size)),
        None => None,
    }
}

/// Whether the device may touch each of the `n` bytes from an address on. Ranges that meet may share an
/// access.
pub fn are_touched(
    grants: &[Grant],
    withdrawn: &[bool],
    dev: DevNo,
    right: Rights,
    addr: u64,
    n: u32,
) -> bool
    requires inside { AreInMemory RAM_BYTES grants.now }
    ensures { result ≡ is_allowed (ranges_of dev grants.now) withdrawn.now right.0 addr n }
{
    let len = u64::from(n);
    let mut done = 0;
    while done < len {
        match addr.checked_add(done) {
            Some(at) => match touched_bytes(grants, withdrawn, dev, right, at) {
                Some(more) => done += more,
                None => return false,
            },
            None => return false,
        }
    }
    true
}
