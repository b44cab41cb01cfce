//! The statistics that a driver tells (VIRTIO 1.2, section 5.5.6.3).

ghost use Rattle.std.specs.Prelude.{◌≡◌};
ghost use Rattle.tv_plan.specs.Balloon.{stats_of};

use byteorder::{ByteOrder, LittleEndian};
use tv_port::{STATS, Stats};

/// How many bytes a number has with its tag.
const ITEM_BYTES: usize = 10;

/// The numbers that bytes spell, each behind its tag: the first [`STATS`] of them. What is left behind the last whole one is
/// left out.
pub fn statistics(bytes: &[u8]) -> Stats
    ensures { result ≡ stats_of bytes.now }
{
    let mut stats = Stats::new();
    for n in 0..(bytes.len() / ITEM_BYTES).min(STATS) {
        let at = ITEM_BYTES * n;
        let tag = LittleEndian::read_u16(&bytes[at..]);
        let number = LittleEndian::read_u64(&bytes[at + 2..]);
        let _added = stats.push(tag, number);
    }
    stats
}
