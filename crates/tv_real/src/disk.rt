//! A file as a disk.

ghost use Rattle.std.specs.Prelude.{None, ◌≡◌, ◌≤◌, ◌^◌, ◌/◌, IfOk, min};
ghost use Rattle.tv_out.specs.Faults.{Rose};

use crate::read::read_whole;
use crate::sink::write_front;
use std::fs::OpenFile;
use std::io::{self, Read, Seek, SeekFrom, Write};
use tv_base::{DISK_SECTORS, Failed};
use tv_out::Disk;

/// Bytes of a sector.
const SECTOR_BYTES: u64 = 512;

/// The whole sectors of a file: as many as it had when it was opened, or as it was given since. It tells their number and
/// its count of faults.
#[derive(Drop)]
pub struct FileDisk<F> {
    file: F,
    sectors: u32,
    faults: u64,
    ghost most: { sectors ≤ 2 ^ 31 },
}

impl<F: Seek + Drop> FileDisk<F> {
    /// The whole sectors of a file, of which a rest is ignored and at most 2^31 are used, with no faults yet.
    ///
    /// # Errors
    /// What the file says to a seek.
    pub fn new(mut file: F) -> io::Result<FileDisk<F>>
        ensures { IfOk result (λ disk. disk.faults ≡ 0) }
    {
        let bytes = file.seek(SeekFrom::End(0))?;
        Ok(FileDisk {
            file,
            sectors: whole_sectors(bytes),
            faults: 0,
        })
    }
}

impl<F> FileDisk<F> {
    /// Counts a fault.
    fn fail(&mut self) -> Failed
        ensures sectors { self.new.sectors ≡ self.old.sectors }
        ensures later { self.old.faults ≤ self.new.faults }
        ensures rose { Rose self.old.faults self.new.faults }
    {
        self.faults = self.faults.saturating_add(1);
        Failed
    }
}

impl<F: Read + Write + Seek + OpenFile> Disk for FileDisk<F> {
    ghost told = { λ disk. record { sectors = disk.sectors; content = None; faults = disk.faults; script = None } };

    fn faults(&self) -> u64 {
        self.faults
    }

    fn sectors(&self) -> u32 {
        self.sectors
    }

    fn read(&mut self, sector: u32, out: &mut [u8; 512]) -> Result<(), Failed> {
        match read_sector(&mut self.file, sector, out) {
            Ok(()) => Ok(()),
            Err(_) => Err(self.fail()),
        }
    }

    fn write(&mut self, sector: u32, bytes: &[u8; 512]) -> Result<(), Failed> {
        match write_sector(&mut self.file, sector, bytes) {
            Ok(()) => Ok(()),
            Err(_) => Err(self.fail()),
        }
    }

    fn flush(&mut self) -> Result<(), Failed> {
        match self.file.sync_data() {
            Ok(()) => Ok(()),
            Err(_) => Err(self.fail()),
        }
    }

    fn set_len(&mut self, sectors: u32) -> Result<(), Failed> {
        match resize(&self.file, self.sectors, sectors) {
            Ok(()) => {
                self.sectors = sectors;
                Ok(())
            }
            Err(_) => Err(self.fail()),
        }
    }
}

/// How many whole sectors so many bytes have, 2^31 at most.
fn whole_sectors(bytes: u64) -> u32
    ensures { result ≡ min (bytes / 512) (2 ^ 31) }
{
    (bytes / SECTOR_BYTES).min(u64::from(DISK_SECTORS)) as u32
}

/// Makes a file of some whole sectors one of so many, and drops a rest first, so that new sectors are zeros.
fn resize<F: OpenFile>(file: &F, before: u32, sectors: u32) -> io::Result<()> {
    if before < sectors {
        file.set_len(SECTOR_BYTES * u64::from(before))?;
    }
    file.set_len(SECTOR_BYTES * u64::from(sectors))
}

/// Goes to a sector.
fn seek_sector<F: Seek>(file: &mut F, sector: u32) -> Result<(), Failed> {
    file.seek(SeekFrom::Start(SECTOR_BYTES * u64::from(sector)))
        .map_err(|_| Failed)?;
    Ok(())
}

/// Reads a sector.
fn read_sector<F: Read + Seek>(
    file: &mut F,
    sector: u32,
    out: &mut [u8; 512],
) -> Result<(), Failed> {
    seek_sector(file, sector)?;
    read_whole(file, out)
}

/// Writes a sector.
fn write_sector<F: Write + Seek>(
    file: &mut F,
    sector: u32,
    bytes: &[u8; 512],
) -> Result<(), Failed> {
    seek_sector(file, sector)?;
    if write_front(file, bytes) < bytes.len() {
        return Err(Failed);
    }
    Ok(())
}
