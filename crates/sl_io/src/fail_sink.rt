ghost use Rattle.std.specs.Prelude.{◌≡◌, take, None, Err, IfSome};
ghost use Rattle.sl_io.specs.Counts.{capped_sum};
ghost use Rattle.sl_io.specs.MemorySinks.{sink_state, failed_after, IsWritten};
ghost use Rattle.sl_io.specs.FailingSinks.{FailingSink, failure_of as listed_failure, next_failure};
ghost use Rattle.sl_io.specs.Writes.{Writes};

use crate::faults::SinkFault;
use crate::mem_sink::MemSink;
use crate::sink::Sink;
use plain_data::Items;
use std::marker::Model;

/// A write that is to fail.
#[derive(Clone, Copy, Debug, PartialEq, Eq)]
pub struct FailedWrite {
    /// Which one, counted from 1.
    pub call: u64,
    /// How many bytes of its piece are written before it fails.
    pub written: usize,
}

/// A sink in memory whose listed writes fail after a prefix of their piece. Every other write is
/// that of the sink in memory.
pub struct FailSink {
    sink: MemSink,
    failing: Items<FailedWrite>,
    calls: u64,
}

/// By hand, so that a call stands in place of all its parts wherever a value is let go.
impl Drop for FailSink {
    fn drop(self) {
        let FailSink {
            sink,
            failing,
            calls,
        } = self;
    }
}

impl Model for FailSink {
    ghost Value = { FailingSink };

    ghost view = { λ s. record { sink = s.sink; failing = s.failing; calls = s.calls } };
}

impl FailSink {
    /// A sink with these bytes, none of whose writes was made yet. `failing` lists the writes that
    /// are to fail; of two for one call the first counts.
    pub fn new(sink: MemSink, failing: Items<FailedWrite>) -> FailSink
        ensures { result ≡ record { sink = sink; failing = failing; calls = 0 } }
    {
        FailSink {
            sink,
            failing,
            calls: 0,
        }
    }

    /// The bytes, and how many writes failed.
    pub fn sink(&self) -> &MemSink
        ensures { result.now ≡ self.now.sink }
    {
        &self.sink
    }

    /// How many writes were made.
    pub fn calls(&self) -> u64
        ensures { result ≡ self.now.calls }
    {
        self.calls
    }

    /// How many bytes the write of this number is to write before it fails.
    fn failure_of(&self, call: u64) -> Option<usize>
        ensures { result ≡ listed_failure self.now.failing call }
    {
        self.failing
            .iter()
            .find(|failed| failed.call == call)
            .map(|failed| failed.written)
    }
}

impl Sink for FailSink {
    ghost state = { λ s. sink_state s.sink };

    fn write(&mut self, piece: &[u8]) -> Result<(), SinkFault>
        ensures meets { Writes (sink_state self.old.sink) (sink_state self.new.sink) piece.now result }
        ensures unlisted { next_failure self.old ≡ None → IsWritten self.old.sink self.new.sink piece.now result }
        ensures listed { IfSome (next_failure self.old) (λ written.
            (result ≡ Err SinkFault.Failed) × (self.new.sink ≡ failed_after self.old.sink (take written piece.now))) }
        ensures calls { self.new ≡ record self.old { sink = self.new.sink; calls = capped_sum self.old.calls 1 } }
    {
        self.calls = self.calls.saturating_add(1);
        match self.failure_of(self.calls) {
            Some(written) => Err(self.sink.fail_after(&piece[..written.min(piece.len())])),
            None => self.sink.write(piece),
        }
    }
}
