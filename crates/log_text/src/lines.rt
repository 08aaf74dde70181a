ghost use Rattle.std.specs.Prelude.{◌≡◌, ◌≤◌, ◌<◌, nat_le, length, IfOk};
ghost use Rattle.std.specs.List.Sorted.{IsNonDecreasing};
ghost use Rattle.log_text.specs.Lines as spec;

use plain_data::{Bytes, Items};
use std::alloc::{AllocError, Global};
use std::marker::Model;

/// The greatest number of bytes of a log.
pub const MAX_LOG_BYTES: usize = 65_536;

/// A stripped log, with the first position of each line. Contracts see it as its bytes.
///
/// A line ends after a newline; a last piece without one is a line where it isn't empty.
pub struct LogText {
    bytes: Bytes,
    starts: Items<u32>,
}

/// By hand, so that a call stands in place of all its parts wherever a value is let go.
impl Drop for LogText {
    fn drop(self) {
        let LogText { bytes, starts } = self;
    }
}

impl Model for LogText {
    ghost use Rattle.std.specs.Prelude.{ℕ, List, ◌≡◌, ◌≤◌, length};
    ghost use Rattle.log_text.specs.Lines.{line_starts};

    ghost Value = { List ℕ };

    ghost view = { λ t. t.bytes };

    ghost invariant = { λ t. (t.starts ≡ line_starts t.bytes) × (length t.bytes ≤ 65536) };
}

impl LogText {
    /// The lines of a log, which keeps its memory. It fails for want of memory alone.
    pub(crate) fn new(alloc: Global, bytes: Bytes) -> Result<LogText, AllocError>
        requires { length bytes ≤ 65536 }
        ensures { IfOk result (λ text. text ≡ bytes) }
    {
        let starts = line_starts(alloc, bytes.as_slice())?;
        Ok(LogText { bytes, starts })
    }

    /// The same log, in memory of its own. It fails for want of memory alone.
    pub fn duplicate(&self, alloc: Global) -> Result<LogText, AllocError>
        ensures { IfOk result (λ text. text ≡ self.now) }
    {
        let bytes = Bytes::from_slice(alloc, self.bytes.as_slice())?;
        let starts = Items::from_slice(alloc, self.starts.as_slice())?;
        Ok(LogText { bytes, starts })
    }

    /// The bytes.
    pub fn bytes(&self) -> &[u8]
        ensures value { result.now ≡ self.now }
        ensures few { length self.now ≤ MAX_LOG_BYTES }
    {
        self.bytes.as_slice()
    }

    /// The first position of each line, in order.
    pub fn starts(&self) -> &[u32]
        ensures { result.now ≡ spec.line_starts self.now }
    {
        self.starts.as_slice()
    }

    /// How many lines there are.
    pub fn line_count(&self) -> usize
        ensures { result ≡ spec.line_count self.now }
    {
        self.starts.len()
    }

    /// The line of a position, from 1; at the log's end it is one more than there are lines.
    pub fn line_of(&self, position: usize) -> usize
        ensures { result ≡ spec.line_of self.now position }
    {
        if position < self.bytes.len() {
            starts_through(self.starts.as_slice(), position)
        } else {
            self.starts.len() + 1
        }
    }
}

/// How many starts stand at or before a position, found by halves.
fn starts_through(starts: &[u32], position: usize) -> usize
    requires { IsNonDecreasing starts.now }
    ensures { result ≡ spec.starts_through starts.now position }
{
    starts.partition_point(
        |start: &u32| -> bool
            ensures { result ≡ nat_le start.now position }
        { *start as usize <= position },
    )
}

/// How many bytes stand before the first newline.
fn plain_len(bytes: &[u8]) -> usize
    ensures { result ≡ spec.plain_len bytes.now }
{
    bytes.iter().take_while(|b| **b != b'\n').count()
}

/// The length of the first line, its newline included.
pub(crate) fn line_len(bytes: &[u8]) -> usize
    ensures value { result ≡ spec.line_len bytes.now }
    ensures within { result ≤ length bytes.now }
{
    let plain = plain_len(bytes);
    if plain < bytes.len() {
        plain + 1
    } else {
        plain
    }
}

/// The first position of each line.
fn line_starts(alloc: Global, log: &[u8]) -> Result<Items<u32>, AllocError>
    requires { length log.now ≤ 65536 }
    ensures { IfOk result (λ starts. starts ≡ spec.line_starts log.now) }
{
    let mut starts = Items::new(alloc);
    let mut at = 0usize;
    'lines: while at < log.len() {
        starts.push(at as u32)?;
        at += line_len(&log[at..]);
    }
    Ok(starts)
}

/// How many lines a log has.
pub(crate) fn count_lines(log: &[u8]) -> usize
    requires { length log.now ≤ 65536 }
    ensures value { result ≡ spec.line_count log.now }
    ensures few { result ≤ length log.now }
{
    let mut count = 0usize;
    let mut at = 0usize;
    'lines: while at < log.len() {
        count += 1;
        at += line_len(&log[at..]);
    }
    count
}
