//! A reader as a source.

ghost use Rattle.std.specs.Prelude.{None, ◌≡◌};

use crate::read::read_some;
use std::io::Read;
use tv_base::Failed;
use tv_out::Source;

/// A reader as a source. It tells its count of faults alone.
#[derive(Drop)]
pub struct FileSource<F> {
    file: F,
    faults: u64,
}

impl<F> FileSource<F> {
    /// A source over a reader, with no faults yet.
    pub fn new(file: F) -> FileSource<F>
        ensures { result ≡ record { file = file; faults = 0 } }
    {
        FileSource { file, faults: 0 }
    }
}

impl<F: Read> Source for FileSource<F> {
    ghost told = { λ source. record { left = None; faults = source.faults; calls = None } };

    fn faults(&self) -> u64 {
        self.faults
    }

    fn take(&mut self, out: &mut [u8]) -> Result<usize, Failed> {
        match read_some(&mut self.file, out) {
            Ok(count) => Ok(count),
            Err(_) => {
                self.faults = self.faults.saturating_add(1);
                Err(Failed)
            }
        }
    }
}
