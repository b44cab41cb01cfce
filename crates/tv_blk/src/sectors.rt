//! Sectors of the disk, one by one.

ghost use Rattle.std.specs.Prelude.{◌≡◌, ◌≤◌, ◌+◌, ◌*◌, ◌/◌, [], length, drop, take, Ok, true, IfOk, IfSome};
ghost use Rattle.tv_base.specs.declared.limits.TheConstants.{CHAIN_BYTES};
ghost use Rattle.tv_blk.specs.Reading.{AnsweredSo, AreNumbered, with_content};
ghost use Rattle.tv_plan.specs.Block.{read_sector, read_sectors, write_sector, write_sectors};
ghost use Rattle.tv_script.specs.Scripts.{AwaitsAll};
ghost use Rattle.tv_virtio.specs.Queue.{RanSo};

use tv_port::{Action, Bytes, Ended, Heard, Port};
use tv_vring::{QueueStop, Vring};

/// Bytes of a sector.
pub const SECTOR_BYTES: usize = 512;

/// Reads a sector; `None` where that failed.
#[inline(always)]
#[tactic(auto, using(tv_script::proofs::Scripts::awaits_now, tv_script::proofs::Scripts::cut_here), unfolding(tv_script::specs::Scripts::Follows))]
fn read_sector<P: Port>(port: &mut P, sector: u32) -> Result<Option<Bytes>, QueueStop>
    requires awaits { AwaitsAll (P.awaits port.old) (read_sector sector) }
    ensures ran { RanSo P.moved P.over P.stopped port.old (read_sector sector) port.new result }
    ensures len { IfOk result (λ sector. IfSome sector (λ bytes. length bytes ≡ 512)) }
    ensures left { P.left port.new ≤ P.left port.old }
{
    match port.ask(&Action::DiskRead { sector }) {
        Ok(Heard::Bytes(bytes)) => Ok(Some(bytes)),
        Ok(_) => Ok(None),
        Err(Ended) => Err(QueueStop::Ended),
    }
}

/// Appends `count` sectors from the sector `first` on to what is answered; `false` where one could not be read, which was
/// the last then.
///
/// # Errors
/// [`QueueStop::Ended`] where the port answered none.
pub fn read_sectors<P: Port>(
    ring: &mut Vring,
    first: u64,
    count: u32,
    port: &mut P,
) -> Result<bool, QueueStop>
    requires none { ring.old.answered ≡ [] }
    requires room { 512 * count ≤ CHAIN_BYTES }
    requires range { AreNumbered first count }
    requires awaits { AwaitsAll (P.awaits port.old) (read_sectors count first []) }
    ensures ran { RanSo P.moved P.over P.stopped port.old (read_sectors count first []) port.new (with_content ring.new.answered result) }
    ensures ring { AnsweredSo ring.old ring.new }
    ensures len { result ≡ Ok true → length ring.new.answered ≡ 512 * count }
    ensures left { P.left port.new ≤ P.left port.old }
{
    for n in 0..count {
        let Some(bytes) = read_sector(port, (first + u64::from(n)) as u32)? else {
            return Ok(false);
        };
        ring.answer(bytes.as_slice());
    }
    Ok(true)
}

/// Writes a sector; `false` where that failed.
#[inline(always)]
#[tactic(auto, using(tv_script::proofs::Scripts::awaits_now, tv_script::proofs::Scripts::cut_here), unfolding(tv_script::specs::Scripts::Follows))]
fn write_sector<P: Port>(port: &mut P, sector: u32, bytes: Bytes) -> Result<bool, QueueStop>
    requires len { length bytes ≡ 512 }
    requires awaits { AwaitsAll (P.awaits port.old) (write_sector sector bytes) }
    ensures ran { RanSo P.moved P.over P.stopped port.old (write_sector sector bytes) port.new result }
    ensures left { P.left port.new ≤ P.left port.old }
{
    match port.ask(&Action::DiskWrite { sector, bytes }) {
        Ok(Heard::Done) => Ok(true),
        Ok(_) => Ok(false),
        Err(Ended) => Err(QueueStop::Ended),
    }
}

/// The sector at a place among bytes.
fn part(bytes: &[u8], n: usize) -> &[u8]
    requires { 512 * (n + 1) ≤ length bytes.now }
    ensures bytes { result.now ≡ take 512 (drop (512 * n) bytes.now) }
    ensures len { length result.now ≡ 512 }
{
    let at = n * SECTOR_BYTES;
    &bytes[at..at + SECTOR_BYTES]
}

/// Writes the whole sectors among the bytes to the disk, from the sector `first` on; `false` where one could not be
/// written, which was the last then.
///
/// # Errors
/// [`QueueStop::Ended`] where the port answered none.
pub fn write_sectors<P: Port>(bytes: &[u8], first: u64, port: &mut P) -> Result<bool, QueueStop>
    requires range { AreNumbered first (length bytes.now / 512) }
    requires awaits { AwaitsAll (P.awaits port.old) (write_sectors (length bytes.now / 512) first bytes.now) }
    ensures ran { RanSo P.moved P.over P.stopped port.old (write_sectors (length bytes.now / 512) first bytes.now) port.new result }
    ensures left { P.left port.new ≤ P.left port.old }
{
    for n in 0..bytes.len() / SECTOR_BYTES {
        if !write_sector(port, (first + n as u64) as u32, Bytes::of(part(bytes, n)))? {
            return Ok(false);
        }
    }
    Ok(true)
}
