//! A disk in memory.

ghost use Rattle.std.specs.Prelude.{◌≡◌, ◌≤◌, ◌*◌, ◌/◌, ◌^◌, ◌+◌, Some, IfOk, length, take, vec_len, vec_capacity};
ghost use Rattle.std.specs.Option.{option_map};
ghost use Rattle.tv_out.specs.Disk.{sector_at, with_sector, resized};
ghost use Rattle.tv_fake.specs.Opened.{opened_disk};

use crate::counter::Counter;
use std::alloc::Global;
use std::marker::Model;
use tv_base::{Failed, Memory};
use tv_out::Disk;

/// Bytes of a sector.
const SECTOR_BYTES: usize = 512;

/// A disk of given sectors, with room for a number of them.
#[derive(Drop)]
pub struct MemoryDisk {
    bytes: Vec<u8>,
    sectors: u32,
    room: u32,
    changes: u64,
    flushed: u64,
    calls: Counter,
    faults: u64,
}

impl Model for MemoryDisk {
    ghost use Rattle.std.specs.Prelude.{Some};
    ghost use Rattle.tv_out.specs.Disk.{ToldDisk};

    ghost Value = { ToldDisk };

    ghost use Rattle.tv_fake.specs.DiskFields.{IsDisk};

    ghost view = { λ disk. record {
      sectors = disk.sectors;
      content = Some (record { bytes = disk.bytes.items; changes = disk.changes; flushed = disk.flushed });
      faults = disk.faults;
      script = Some (record { calls = disk.calls; room = disk.room });
    } };

    ghost invariant = { IsDisk };
}

impl MemoryDisk {
    /// A disk of these bytes' whole sectors of 512 bytes, with room for so many sectors, of which the calls with these
    /// numbers fail, from 0. A change of length that passes the room fails too.
    pub fn new(
        alloc: Global,
        bytes: &[u8],
        room: u32,
        failing: Vec<u64>,
    ) -> Result<MemoryDisk, Memory>
        requires room { room ≤ 2 ^ 31 }
        requires fits { length bytes.now / 512 ≤ room }
        ensures { IfOk result (λ disk. disk ≡ record {
          sectors = length bytes.now / 512;
          content = Some (record { bytes = take (512 * (length bytes.now / 512)) bytes.now; changes = 0; flushed = 0 });
          faults = 0;
          script = Some (record { calls = record { made = 0; failing = failing.items }; room = room });
        }) }
    {
        let sectors = bytes.len() / SECTOR_BYTES;
        let mut content = Vec::with_capacity(alloc, SECTOR_BYTES * room as usize).map_err(
            |_| Memory,
        )?;
        content
            .extend_from_slice(&bytes[..SECTOR_BYTES * sectors])
            .map_err(|_| Memory)?;
        Ok(MemoryDisk {
            bytes: content,
            sectors: sectors as u32,
            room,
            changes: 0,
            flushed: 0,
            calls: Counter::new(failing),
            faults: 0,
        })
    }

    /// Begins again with the sectors as they are: no call was made.
    pub fn restart(&mut self)
        ensures { self.new ≡ opened_disk self.old }
    {
        self.changes = 0;
        self.flushed = 0;
        self.calls.restart();
        self.faults = 0;
    }

    /// The bytes of all sectors.
    pub fn bytes(&self) -> &[u8]
        ensures { option_map (λ content. content.bytes) self.now.content ≡ Some result.now }
    {
        &self.bytes
    }
}

impl Disk for MemoryDisk {
    ghost told = { λ disk. disk };

    fn faults(&self) -> u64 {
        self.faults
    }

    fn sectors(&self) -> u32 {
        self.sectors
    }

    fn read(&mut self, sector: u32, out: &mut [u8; 512]) -> Result<(), Failed> {
        if self.calls.next() {
            self.faults = self.faults.saturating_add(1);
            return Err(Failed);
        }
        read_sector(&self.bytes, sector, out);
        Ok(())
    }

    fn write(&mut self, sector: u32, bytes: &[u8; 512]) -> Result<(), Failed> {
        if self.calls.next() {
            self.faults = self.faults.saturating_add(1);
            return Err(Failed);
        }
        write_sector(&mut self.bytes, sector, bytes);
        self.changes += 1;
        Ok(())
    }

    fn flush(&mut self) -> Result<(), Failed> {
        if self.calls.next() {
            self.faults = self.faults.saturating_add(1);
            return Err(Failed);
        }
        self.flushed = self.changes;
        Ok(())
    }

    fn set_len(&mut self, sectors: u32) -> Result<(), Failed> {
        if self.calls.next() || sectors > self.room {
            self.faults = self.faults.saturating_add(1);
            return Err(Failed);
        }
        resize(&mut self.bytes, sectors);
        self.sectors = sectors;
        self.changes += 1;
        Ok(())
    }
}

/// Copies a sector out.
fn read_sector(bytes: &[u8], sector: u32, out: &mut [u8; 512])
    requires { 512 * sector + 512 ≤ length bytes.now }
    ensures { out.new ≡ sector_at bytes.now sector }
{
    let at = SECTOR_BYTES * sector as usize;
    out.copy_from_slice(&bytes[at..at + SECTOR_BYTES]);
}

/// Copies a sector in.
fn write_sector(bytes: &mut Vec<u8>, sector: u32, new: &[u8; 512])
    requires { 512 * sector + 512 ≤ vec_len bytes.old }
    ensures items { bytes.new.items ≡ with_sector bytes.old.items sector new.now }
    ensures capacity { vec_capacity bytes.new ≡ vec_capacity bytes.old }
{
    let at = SECTOR_BYTES * sector as usize;
    bytes[at..at + SECTOR_BYTES].copy_from_slice(new);
}

/// Cuts the bytes to so many sectors, or puts sectors of zeros at their end, for which there is memory.
fn resize(bytes: &mut Vec<u8>, sectors: u32)
    requires { 512 * sectors ≤ vec_capacity bytes.old }
    ensures items { bytes.new.items ≡ resized bytes.old.items sectors }
    ensures capacity { vec_capacity bytes.old ≤ vec_capacity bytes.new }
{
    match bytes.resize(SECTOR_BYTES * sectors as usize, 0) {
        Ok(()) => {}
        Err(_) => unreachable!(),
    }
}
