ghost use Rattle.std.specs.Prelude.{◌≡◌, ◌≤◌, ◌<◌, ◌+◌, ◌++◌, [], length, vec_len, vec_capacity, IfOk, OnOk, OnErr};
ghost use Rattle.sl_io.specs.MemorySinks.{Buffered, sink_state, IsWritten, failed_after};
ghost use Rattle.sl_io.specs.Writes.{Writes};

use crate::faults::SinkFault;
use crate::sink::Sink;
use std::alloc::{AllocError, Global};
use std::marker::Model;

/// A sink in memory. A write fails exactly where the piece does not fit into the room that is left,
/// and then writes none of it.
pub struct MemSink {
    bytes: Vec<u8>,
    faults: u64,
    room: usize,
}

/// By hand, so that a call stands in place of all its parts wherever a value is let go.
impl Drop for MemSink {
    fn drop(self) {
        let MemSink {
            bytes,
            faults,
            room,
        } = self;
    }
}

impl Model for MemSink {
    ghost Value = { Buffered };

    ghost view = { λ s. record { bytes = s.bytes.items; faults = s.faults; room = s.room } };

    ghost invariant = { λ s. (vec_len s.bytes ≤ s.room) × (s.room ≤ vec_capacity s.bytes) };
}

impl MemSink {
    /// An empty sink with room for a number of bytes, which is reserved here and now. It fails for
    /// want of memory alone.
    pub fn with_room(alloc: Global, room: usize) -> Result<MemSink, AllocError>
        ensures { IfOk result (λ sink. sink ≡ record { bytes = []; faults = 0; room = room }) }
    {
        let bytes = Vec::with_capacity(alloc, room)?;
        Ok(MemSink {
            bytes,
            faults: 0,
            room,
        })
    }

    /// All bytes written so far.
    pub fn bytes(&self) -> &[u8]
        ensures { result.now ≡ self.now.bytes }
    {
        self.bytes.as_slice()
    }

    /// How many writes failed.
    pub fn faults(&self) -> u64
        ensures { result ≡ self.now.faults }
    {
        self.faults
    }

    /// How many bytes fit in all.
    pub fn room(&self) -> usize
        ensures { result ≡ self.now.room }
    {
        self.room
    }

    /// Writes these bytes where they fit, and fails all the same.
    pub(crate) fn fail_after(&mut self, front: &[u8]) -> SinkFault
        ensures written { self.new ≡ failed_after self.old front.now }
        ensures later { self.old.faults ≤ self.new.faults }
    {
        if self.write(front).is_ok() {
            self.faults = self.faults.saturating_add(1);
        }
        SinkFault::Failed
    }
}

impl Sink for MemSink {
    ghost state = { sink_state };

    fn write(&mut self, piece: &[u8]) -> Result<(), SinkFault>
        ensures meets { Writes (sink_state self.old) (sink_state self.new) piece.now result }
        ensures answer { IsWritten self.old self.new piece.now result }
    {
        if self.room - self.bytes.len() < piece.len() {
            self.faults = self.faults.saturating_add(1);
            return Err(SinkFault::Failed);
        }
        match self.bytes.extend_from_slice(piece) {
            Ok(()) => Ok(()),
            Err(_) => unreachable!(),
        }
    }
}
