//! A sink in memory.

ghost use Rattle.std.specs.Prelude.{◌≡◌, ◌≤◌, ◌+◌, ◌++◌, [], Some, IfOk, length, vec_len, vec_capacity};
ghost use Rattle.tv_fake.specs.Opened.{created_sink};

use crate::counter::Counter;
use std::alloc::Global;
use std::marker::Model;
use tv_base::Memory;
use tv_out::{Short, Sink};

/// A sink that keeps what is put, up to the room that it was made with.
#[derive(Drop)]
pub struct MemorySink {
    bytes: Vec<u8>,
    room: usize,
    calls: Counter,
    faults: u64,
}

impl Model for MemorySink {
    ghost use Rattle.std.specs.Prelude.{Some, ◌≤◌, vec_capacity};
    ghost use Rattle.tv_out.specs.Told.{ToldSink};

    ghost Value = { ToldSink };

    ghost view = { λ sink. record {
      bytes = Some sink.bytes.items;
      faults = sink.faults;
      script = Some (record { calls = sink.calls; room = sink.room });
    } };

    ghost invariant = { λ sink. sink.room ≤ vec_capacity sink.bytes };
}

impl MemorySink {
    /// An empty sink with room for so many bytes, of which the puts with these numbers fail, from 0. A put that fails so
    /// takes nothing; one that passes the room takes what fits.
    pub fn new(alloc: Global, room: usize, failing: Vec<u64>) -> Result<MemorySink, Memory>
        ensures { IfOk result (λ sink. sink ≡ record {
          bytes = Some [];
          faults = 0;
          script = Some (record { calls = record { made = 0; failing = failing.items }; room = room });
        }) }
    {
        Ok(MemorySink {
            bytes: Vec::with_capacity(alloc, room).map_err(|_| Memory)?,
            room,
            calls: Counter::new(failing),
            faults: 0,
        })
    }

    /// Begins again: no byte was put, no call was made.
    pub fn restart(&mut self)
        ensures { self.new ≡ created_sink self.old }
    {
        self.bytes.clear();
        self.calls.restart();
        self.faults = 0;
    }

    /// What was put.
    pub fn as_slice(&self) -> &[u8]
        ensures { self.now.bytes ≡ Some result.now }
    {
        &self.bytes
    }
}

impl Sink for MemorySink {
    ghost told = { λ sink. sink };

    fn faults(&self) -> u64 {
        self.faults
    }

    fn put(&mut self, bytes: &[u8]) -> Result<(), Short> {
        if self.calls.next() {
            self.faults = self.faults.saturating_add(1);
            return Err(Short { taken: 0 });
        }
        let taken = self.room.saturating_sub(self.bytes.len()).min(bytes.len());
        push_all(&mut self.bytes, &bytes[..taken]);
        if taken < bytes.len() {
            self.faults = self.faults.saturating_add(1);
            return Err(Short {
                taken: taken as u16,
            });
        }
        Ok(())
    }
}

/// Puts bytes at the end, for which there is room.
fn push_all(bytes: &mut Vec<u8>, more: &[u8])
    requires { vec_len bytes.old + length more.now ≤ vec_capacity bytes.old }
    ensures items { bytes.new.items ≡ bytes.old.items ++ more.now }
    ensures capacity { vec_capacity bytes.old ≤ vec_capacity bytes.new }
{
    match bytes.extend_from_slice(more) {
        Ok(()) => {}
        Err(_) => unreachable!(),
    }
}
