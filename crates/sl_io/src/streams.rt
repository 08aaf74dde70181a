//! The sinks of the program: standard output and standard error.
ghost use Rattle.std.specs.Prelude.{None};

use crate::faults::SinkFault;
use crate::sink::Sink;
use std::io::Write;

/// A sink over a writer. It tells no bytes, and counts its faults.
#[derive(Drop)]
pub struct StreamSink<W> {
    inner: W,
    faults: u64,
}

impl<W: Write> StreamSink<W> {
    /// A sink that has had no fault.
    pub fn new(inner: W) -> StreamSink<W> {
        StreamSink { inner, faults: 0 }
    }
}

/// Writes the whole piece. A write that takes nothing of bytes that are left is a fault.
pub fn write_piece<W: Write>(inner: &mut W, piece: &[u8]) -> Result<(), SinkFault> {
    let mut rest = piece;
    while !rest.is_empty() {
        match inner.write(rest) {
            Ok(count) if count > 0 => rest = &rest[count..],
            _ => return Err(SinkFault::Failed),
        }
    }
    Ok(())
}

impl<W: Write> Sink for StreamSink<W> {
    ghost state = { λ s. record { bytes = None; faults = s.faults } };

    fn write(&mut self, piece: &[u8]) -> Result<(), SinkFault> {
        let written = write_piece(&mut self.inner, piece);
        if written.is_err() {
            self.faults = self.faults.saturating_add(1);
        }
        written
    }
}
