//! The files of the system.

ghost use Rattle.std.specs.Prelude.{None, ◌≡◌, ◌≤◌, IfOk, length};
ghost use Rattle.tv_out.specs.Faults.{Rose};

use crate::disk::FileDisk;
use crate::read::read_some;
use crate::sink::WriterSink;
use crate::source::FileSource;
use std::alloc::Global;
use std::fs::{self, OpenFile, OpenOptions};
use std::io::{self, ErrorKind};
use std::rt::Files;
use tv_base::Failed;
use tv_out::{LoadFault, Store};

/// The files of the system by path. They tell their count of faults alone.
#[derive(Drop)]
pub struct FileStore<'a, R> {
    rt: &'a R,
    faults: u64,
}

impl<'a, R> FileStore<'a, R> {
    /// The files of the system, with no faults yet.
    pub fn new(rt: &'a R) -> FileStore<'a, R>
        ensures { result.faults ≡ 0 }
    {
        FileStore { rt, faults: 0 }
    }

    /// Counts a fault.
    fn fail(&mut self) -> Failed
        ensures later { self.old.faults ≤ self.new.faults }
        ensures rose { Rose self.old.faults self.new.faults }
    {
        self.faults = self.faults.saturating_add(1);
        Failed
    }
}

impl<'a, R: Files> Store for FileStore<'a, R> {
    type Disk = FileDisk<R::File>;

    type Sink = WriterSink<R::File>;

    type Source = FileSource<R::File>;

    ghost told = { λ store. record { files = None; faults = store.faults; name_faults = None; script = None } };

    fn faults(&self) -> u64 {
        self.faults
    }

    fn load(&mut self, alloc: Global, name: &str, most: usize) -> Result<Vec<u8>, LoadFault> {
        match read_file(self.rt, alloc, name, most) {
            Ok(bytes) => Ok(bytes),
            Err(LoadFault::Failed) => {
                self.fail();
                Err(LoadFault::Failed)
            }
            Err(LoadFault::TooLong) => Err(LoadFault::TooLong),
            Err(LoadFault::Memory) => Err(LoadFault::Memory),
        }
    }

    fn open_disk(&mut self, name: &str, readonly: bool) -> Result<FileDisk<R::File>, Failed> {
        match open_file_disk(self.rt, name, readonly) {
            Ok(disk) => Ok(disk),
            Err(_) => Err(self.fail()),
        }
    }

    fn create(&mut self, name: &str) -> Result<WriterSink<R::File>, Failed> {
        match fs::create(self.rt, name) {
            Ok(file) => Ok(WriterSink::new(file)),
            Err(_) => Err(self.fail()),
        }
    }

    fn open_source(&mut self, name: &str) -> Result<FileSource<R::File>, Failed> {
        match open_file(self.rt, name, true) {
            Ok(file) => Ok(FileSource::new(file)),
            Err(_) => Err(self.fail()),
        }
    }
}

/// Opens a file that is there, which is no directory.
fn open_file<R: Files>(rt: &R, name: &str, readonly: bool) -> io::Result<R::File> {
    let mut options = OpenOptions::new();
    options.read(true).write(!readonly);
    let file = options.open(rt, name)?;
    if file.metadata()?.is_dir() {
        return Err(io::Error::from(ErrorKind::IsADirectory));
    }
    Ok(file)
}

/// Opens a file as a disk.
fn open_file_disk<R: Files>(rt: &R, name: &str, readonly: bool) -> io::Result<FileDisk<R::File>>
    ensures { IfOk result (λ disk. disk.faults ≡ 0) }
{
    FileDisk::new(open_file(rt, name, readonly)?)
}

/// The bytes of a file, of which at most one more than `most` is read.
fn read_file<R: Files>(rt: &R, alloc: Global, name: &str, most: usize) -> Result<Vec<u8>, LoadFault>
    ensures { IfOk result (λ bytes. length bytes.items ≤ most) }
{
    let mut file = fs::open(rt, name).map_err(|_| LoadFault::Failed)?;
    let mut bytes = Vec::new(alloc);
    let mut piece = [0u8; 4096];
    for _ in 0..u64::MAX {
        let room = (most - bytes.len()).saturating_add(1).min(piece.len());
        let more = read_some(&mut file, &mut piece[..room]).map_err(|_| LoadFault::Failed)?;
        if more == 0 {
            return Ok(bytes);
        }
        if more > most - bytes.len() {
            return Err(LoadFault::TooLong);
        }
        bytes
            .extend_from_slice(&piece[..more])
            .map_err(|_| LoadFault::Memory)?;
    }
    Err(LoadFault::Failed)
}
