//! Items and verdicts.

ghost use Rattle.std.specs.Prelude.{◌≡◌};

use crate::Stats;
use tv_base::Width;

/// What a device acts on.
#[derive(Clone, Copy, Debug, PartialEq, Eq)]
pub enum Item {
    /// A load of `width` bytes from an offset in bytes from the device's first address.
    Load { width: Width, off: u16 },
    /// A store of the low `width` bytes of `value` at such an offset.
    Store { width: Width, off: u16, value: u64 },
    /// The command that sets how many pages a balloon is to hold.
    Target { pages: u32 },
    /// The command that asks a balloon for the guest's statistics.
    Stats,
    /// The command that gives a disk so many sectors of 512 bytes.
    Resize { sectors: u32 },
}

/// What a device decided of a command.
#[derive(Drop)]
pub struct Verdict {
    /// The tag of the command.
    pub tag: u32,
    /// 0 where the command was done, else why it was not.
    pub status: u8,
    /// The tag of the request that waits, where the status is 6; else 0.
    pub other: u32,
    /// The numbers of a statistics request that was done; else none.
    pub stats: Stats,
}

impl Verdict {
    /// The same verdict again. It takes no memory.
    pub fn copy(&self) -> Verdict
        ensures { result ≡ self.now }
    {
        Verdict {
            tag: self.tag,
            status: self.status,
            other: self.other,
            stats: self.stats.copy(),
        }
    }
}
