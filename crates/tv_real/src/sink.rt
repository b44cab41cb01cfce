//! A writer as a sink.

ghost use Rattle.std.specs.Prelude.{None, ◌≡◌, ◌≤◌, length};

use crate::RETRIES;
use std::io::{ErrorKind, Write};
use tv_out::{Short, Sink};

/// A writer as a sink. It tells its count of faults alone.
#[derive(Drop)]
pub struct WriterSink<W> {
    writer: W,
    faults: u64,
}

impl<W> WriterSink<W> {
    /// A sink over a writer, with no faults yet.
    pub fn new(writer: W) -> WriterSink<W>
        ensures { result ≡ record { writer = writer; faults = 0 } }
    {
        WriterSink { writer, faults: 0 }
    }
}

impl<W: Write> Sink for WriterSink<W> {
    ghost told = { λ sink. record { bytes = None; faults = sink.faults; script = None } };

    fn faults(&self) -> u64 {
        self.faults
    }

    fn put(&mut self, bytes: &[u8]) -> Result<(), Short> {
        let taken = write_front(&mut self.writer, bytes);
        if taken == bytes.len() {
            return Ok(());
        }
        self.faults = self.faults.saturating_add(1);
        Err(Short {
            taken: taken as u16,
        })
    }
}

/// Writes until all bytes are taken or the writer fails, and answers how many were taken. A writer that takes none
/// has failed.
pub fn write_front<W: Write>(writer: &mut W, bytes: &[u8]) -> usize
    ensures { result ≤ length bytes.now }
{
    let mut taken = 0;
    for _ in 0..bytes.len().saturating_add(RETRIES) {
        if taken == bytes.len() {
            break;
        }
        match writer.write(&bytes[taken..]) {
            Ok(0) => break,
            Ok(more) => taken += more,
            Err(error) => {
                if error.kind() != ErrorKind::Interrupted {
                    break;
                }
            }
        }
    }
    taken
}
