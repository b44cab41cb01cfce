//! Requests: what each asks of the disk, and what comes back (VIRTIO 1.2, section 5.2.6).

ghost use Rattle.std.specs.Prelude.{◌≡◌, ◌≢◌, ◌≤◌, ◌<◌, ◌*◌, ◌/◌, ◌&&◌, not, [], drop, length, Ok, true};
ghost use Rattle.byteorder.specs.Endian.{little_bytes};
ghost use Rattle.tv_base.specs.declared.limits.TheConstants.{CHAIN_BYTES, DISK_SECTORS};
ghost use Rattle.tv_blk.specs.Reading.{AnsweredSo, AreNumbered};
ghost use Rattle.tv_blk.specs.Requests.{flushed, responded, whole_read, whole_written};
ghost use Rattle.tv_blk.specs.declared.request.Outcome.TheVariants as came;
ghost use Rattle.tv_plan.specs.Block.{are_sectors, block_flush, block_id, block_in, block_out, block_request, with_sectors};
ghost use Rattle.tv_script.specs.Scripts.{AwaitsAll};
ghost use Rattle.tv_virtio.specs.Queue.{RanSo};

use crate::sectors::{SECTOR_BYTES, read_sectors, write_sectors};
use byteorder::{ByteOrder, LittleEndian};
use std::marker::Model;
use tv_base::DevNo;
use tv_port::{Action, Ended, Heard, Port};
use tv_vring::{QueueStop, Vring};

/// The bytes with which a request begins: its type, four that say nothing, and its sector.
pub const HEAD_BYTES: usize = 16;

/// A disk in a slot.
#[derive(Drop)]
pub struct Disk {
    slot: DevNo,
    /// How many sectors it has, at most [`DISK_SECTORS`](tv_base::DISK_SECTORS).
    sectors: u32,
    readonly: bool,
}

impl Model for Disk {
    ghost use Rattle.std.specs.Prelude.{◌≤◌};
    ghost use Rattle.tv_base.specs.declared.limits.TheConstants.{DISK_SECTORS};
    ghost use Rattle.tv_plan.specs.Block.{BlockDisk};

    ghost Value = { BlockDisk };

    ghost view = { λ d. record { slot = d.slot; sectors = d.sectors; readonly = d.readonly } };

    ghost invariant = { λ d. d.sectors ≤ DISK_SECTORS };
}

impl Disk {
    /// A disk with so many sectors, at most [`DISK_SECTORS`](tv_base::DISK_SECTORS).
    pub fn new(slot: DevNo, sectors: u32, readonly: bool) -> Disk
        requires few { sectors ≤ DISK_SECTORS }
        ensures { result ≡ (record { slot = slot; sectors = sectors; readonly = readonly }) }
    {
        Disk {
            slot,
            sectors,
            readonly,
        }
    }

    /// The same disk again.
    pub fn copy(&self) -> Disk
        ensures { result ≡ self.now }
    {
        Disk {
            slot: self.slot,
            sectors: self.sectors,
            readonly: self.readonly,
        }
    }

    /// Gives the disk so many sectors, at most [`DISK_SECTORS`](tv_base::DISK_SECTORS).
    pub fn set_sectors(&mut self, sectors: u32)
        requires few { sectors ≤ DISK_SECTORS }
        ensures { self.new ≡ with_sectors self.old sectors }
    {
        self.sectors = sectors;
    }

    /// The configuration that a driver sees: the capacity in sectors (VIRTIO 1.2, section 5.2.4).
    pub fn config(&self) -> [u8; 8]
        ensures { result ≡ little_bytes 8 self.now.sectors }
    {
        u64::from(self.sectors).to_le_bytes()
    }

    /// Whether so many bytes are whole sectors from `sector` on, all below the capacity. No bytes are, wherever.
    fn holds(&self, sector: u64, len: usize) -> bool
        ensures is { result ≡ are_sectors self.now.sectors sector len }
        ensures numbered { result ≡ true → AreNumbered sector (len / 512) }
        ensures whole { result ≡ true → 512 * (len / 512) ≡ len }
    {
        let capacity = u64::from(self.sectors);
        let count = (len / SECTOR_BYTES) as u64;
        if len % SECTOR_BYTES != 0 {
            return false;
        }
        len == 0 || (sector <= capacity && count <= capacity - sector)
    }

    /// Whether so many bytes can be written from `sector` on.
    fn takes(&self, sector: u64, len: usize) -> bool
        ensures is { result ≡ (not self.now.readonly && are_sectors self.now.sectors sector len) }
        ensures numbered { result ≡ true → AreNumbered sector (len / 512) }
    {
        !self.readonly && self.holds(sector, len)
    }

    /// The text that a driver gets as the disk's name: `tv-blk-` and the slot's digit.
    fn id(&self) -> [u8; 8]
        ensures { result ≡ block_id self.now.slot }
    {
        [
            b't',
            b'v',
            b'-',
            b'b',
            b'l',
            b'k',
            b'-',
            b'0' + self.slot.get(),
        ]
    }
}

/// What a request came to.
#[derive(Clone, Copy, Debug, PartialEq, Eq)]
pub enum Outcome {
    /// Done: the whole content is answered.
    Read,
    /// Done: the content is zeros.
    Done,
    /// Done: the content begins with these bytes, as far as there is room, and goes on with zeros.
    Named([u8; 8]),
    /// Not done, or not all of it.
    Failed,
    /// There is no such request.
    Unsupported,
}

/// The readable bytes of a request behind its head.
fn behind_head(ring: &Vring) -> &[u8]
    requires head { 16 ≤ length ring.now.readable }
    ensures { result.now ≡ drop 16 ring.now.readable }
{
    &ring.readable()[HEAD_BYTES..]
}

/// Does the request whose chain was taken last, which has at least 16 readable bytes, with room for `len` bytes of content.
/// What it reads of the disk is answered.
///
/// # Errors
/// [`QueueStop::Ended`] where the port didn't answer an action.
#[tactic(auto, using(tv_script::proofs::Scripts::reached_here))]
pub fn respond<P: Port>(
    disk: &Disk,
    ring: &mut Vring,
    len: u32,
    port: &mut P,
) -> Result<Outcome, QueueStop>
    requires head { 16 ≤ length ring.old.readable }
    requires none { ring.old.answered ≡ [] }
    requires room { len < CHAIN_BYTES }
    requires awaits { AwaitsAll (P.awaits port.old) (block_request disk.now ring.old.readable len) }
    ensures ran { RanSo P.moved P.over P.stopped port.old (block_request disk.now ring.old.readable len) port.new (responded ring.new.answered result) }
    ensures ring { AnsweredSo ring.old ring.new }
    ensures len { result ≡ Ok came.Read → length ring.new.answered ≡ len }
    ensures left { P.left port.new ≤ P.left port.old }
{
    let kind = LittleEndian::read_u32(ring.readable());
    let sector = LittleEndian::read_u64(&ring.readable()[8..]);
    match kind {
        0 => read(disk, sector, ring, len, port),
        1 => write(disk, sector, behind_head(ring), port),
        4 => flush(port),
        8 => Ok(Outcome::Named(disk.id())),
        _ => Ok(Outcome::Unsupported),
    }
}

/// Reads `len` bytes from `sector` on, where the disk has them.
fn read<P: Port>(
    disk: &Disk,
    sector: u64,
    ring: &mut Vring,
    len: u32,
    port: &mut P,
) -> Result<Outcome, QueueStop>
    requires none { ring.old.answered ≡ [] }
    requires room { len < CHAIN_BYTES }
    requires awaits { AwaitsAll (P.awaits port.old) (block_in disk.now.sectors sector len) }
    ensures ran { RanSo P.moved P.over P.stopped port.old (block_in disk.now.sectors sector len) port.new (responded ring.new.answered result) }
    ensures ring { AnsweredSo ring.old ring.new }
    ensures len { result ≡ Ok came.Read → length ring.new.answered ≡ len }
    ensures left { P.left port.new ≤ P.left port.old }
{
    if disk.holds(sector, len as usize) {
        read_all(ring, sector, len, port)
    } else {
        Ok(Outcome::Failed)
    }
}

/// Reads `len` bytes from `sector` on, which are whole sectors.
#[tactic(auto, using(tv_script::proofs::Scripts::awaits_first, tv_script::proofs::Scripts::reached_second, tv_vring::proofs::Runs::ran_no_further))]
fn read_all<P: Port>(
    ring: &mut Vring,
    sector: u64,
    len: u32,
    port: &mut P,
) -> Result<Outcome, QueueStop>
    requires none { ring.old.answered ≡ [] }
    requires room { len < CHAIN_BYTES }
    requires numbered { AreNumbered sector (len / 512) }
    requires whole { 512 * (len / 512) ≡ len }
    requires awaits { AwaitsAll (P.awaits port.old) (whole_read (len / 512) sector) }
    ensures ran { RanSo P.moved P.over P.stopped port.old (whole_read (len / 512) sector) port.new (responded ring.new.answered result) }
    ensures ring { AnsweredSo ring.old ring.new }
    ensures len { result ≡ Ok came.Read → length ring.new.answered ≡ len }
    ensures left { P.left port.new ≤ P.left port.old }
{
    match read_sectors(ring, sector, len / SECTOR_BYTES as u32, port) {
        Ok(true) => Ok(Outcome::Read),
        Ok(false) => Ok(Outcome::Failed),
        Err(stop) => Err(stop),
    }
}

/// Writes bytes from `sector` on, where the disk has these sectors and can be written.
fn write<P: Port>(
    disk: &Disk,
    sector: u64,
    bytes: &[u8],
    port: &mut P,
) -> Result<Outcome, QueueStop>
    requires awaits { AwaitsAll (P.awaits port.old) (block_out disk.now.sectors disk.now.readonly sector bytes.now) }
    ensures ran { RanSo P.moved P.over P.stopped port.old (block_out disk.now.sectors disk.now.readonly sector bytes.now) port.new (responded [] result) }
    ensures unread { result ≢ Ok came.Read }
    ensures left { P.left port.new ≤ P.left port.old }
{
    if disk.takes(sector, bytes.len()) {
        write_all(sector, bytes, port)
    } else {
        Ok(Outcome::Failed)
    }
}

/// Writes bytes from `sector` on, which are whole sectors.
#[tactic(auto, using(tv_script::proofs::Scripts::awaits_first, tv_script::proofs::Scripts::reached_second, tv_vring::proofs::Runs::ran_no_further))]
fn write_all<P: Port>(sector: u64, bytes: &[u8], port: &mut P) -> Result<Outcome, QueueStop>
    requires numbered { AreNumbered sector (length bytes.now / 512) }
    requires awaits { AwaitsAll (P.awaits port.old) (whole_written sector bytes.now) }
    ensures ran { RanSo P.moved P.over P.stopped port.old (whole_written sector bytes.now) port.new (responded [] result) }
    ensures unread { result ≢ Ok came.Read }
    ensures left { P.left port.new ≤ P.left port.old }
{
    match write_sectors(bytes, sector, port) {
        Ok(true) => Ok(Outcome::Done),
        Ok(false) => Ok(Outcome::Failed),
        Err(stop) => Err(stop),
    }
}

/// Makes all that was written to the disk last; `false` where that failed.
#[tactic(auto, using(tv_script::proofs::Scripts::awaits_now, tv_script::proofs::Scripts::cut_here), unfolding(tv_script::specs::Scripts::Follows))]
fn flush_disk<P: Port>(port: &mut P) -> Result<bool, QueueStop>
    requires awaits { AwaitsAll (P.awaits port.old) flushed }
    ensures ran { RanSo P.moved P.over P.stopped port.old flushed port.new result }
    ensures left { P.left port.new ≤ P.left port.old }
{
    match port.ask(&Action::Flush) {
        Ok(Heard::Done) => Ok(true),
        Ok(_) => Ok(false),
        Err(Ended) => Err(QueueStop::Ended),
    }
}

/// Flushes the disk.
#[tactic(auto, using(tv_script::proofs::Scripts::awaits_first, tv_script::proofs::Scripts::reached_second, tv_vring::proofs::Runs::ran_no_further))]
fn flush<P: Port>(port: &mut P) -> Result<Outcome, QueueStop>
    requires awaits { AwaitsAll (P.awaits port.old) block_flush }
    ensures ran { RanSo P.moved P.over P.stopped port.old block_flush port.new (responded [] result) }
    ensures unread { result ≢ Ok came.Read }
    ensures left { P.left port.new ≤ P.left port.old }
{
    match flush_disk(port) {
        Ok(true) => Ok(Outcome::Done),
        Ok(false) => Ok(Outcome::Failed),
        Err(stop) => Err(stop),
    }
}
