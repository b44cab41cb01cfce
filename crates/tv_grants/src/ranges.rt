//! Ranges of guest memory that devices were granted.

ghost use Rattle.std.specs.Prelude.{◌≡◌, ◌<◌, ◌≤◌, ◌+◌, ◌^◌, ◌&&◌, ◌==◌, ℕ, true, false, IfSome, IfNone, nat_le};
ghost use Rattle.std.specs.Int.RustNames.{bit_and};
ghost use Rattle.tv_ram.specs.Memory.{is_inside};
ghost use Rattle.tv_base.specs.declared.limits.TheConstants.{RAM_BYTES};
ghost use Rattle.tv_grants.specs.Grants.{is_granted, is_in_range, ranges_of};

use bitflags::Flags;
use tv_base::{CapNo, DevNo, RAM_BASE, Rights};
use tv_machine::MemRange;

/// A range of guest memory that a device was granted.
#[derive(Clone, Copy)]
pub struct Grant {
    /// The slot of the device.
    pub dev: DevNo,
    /// The range, and what the device may do with it.
    pub range: MemRange,
    /// Its capability number.
    pub cap: CapNo,
}

impl Grant {
    /// How many bytes of the range lie at an address and behind it; `None` where the byte at the
    /// address isn't in the range, or the right isn't there.
    fn bytes_from(&self, right: Rights, addr: u64) -> Option<u64>
        ensures some { IfSome result (λ more. (0 < more) × (more < 2 ^ 32) × (self.now.range.base ≤ addr) × (addr + more ≡ self.now.range.base + self.now.range.len) × ((bit_and self.now.range.rights.0 right.0 == right.0) ≡ true)) }
        ensures none { IfNone result (is_in_range right.0 addr self.now.range ≡ false) }
    {
        let MemRange { base, len, rights } = self.range;
        if base <= addr && addr - base < u64::from(len) && rights.contains(right) {
            Some(u64::from(len) - (addr - base))
        } else {
            None
        }
    }
}

/// Whether the `len` bytes from `base` on, at least one, lie in memory of so many bytes.
pub fn is_ram_range(bytes: u64, base: u64, len: u32) -> bool
    requires { bytes ≤ RAM_BYTES }
    ensures { result ≡ (nat_le 1 len && is_inside bytes base len) }
{
    let n = u64::from(len);
    n != 0 && n <= bytes && base >= RAM_BASE && base - RAM_BASE <= bytes - n
}

/// How many bytes from an address on lie in one range of the device with the right; `None` where the
/// byte at the address lies in none.
pub fn granted_bytes(grants: &[Grant], dev: DevNo, right: Rights, addr: u64) -> Option<u64>
    ensures some { IfSome result (λ more. (byte : ℕ) → addr ≤ byte → byte < addr + more → is_granted (ranges_of dev grants.now) right.0 byte ≡ true) }
    ensures more { IfSome result (λ more. (0 < more) × (more < 2 ^ 32)) }
    ensures none { IfNone result (is_granted (ranges_of dev grants.now) right.0 addr ≡ false) }
{
    let slot = dev.get();
    for grant in grants {
        if grant.dev.get() == slot {
            match grant.bytes_from(right, addr) {
                Some(more) => return Some(more),
                None => {}
            }
        }
    }
    None
}
