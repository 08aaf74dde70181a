ghost use Rattle.std.specs.Prelude.{◌≡◌, ◌≤◌, ◌<◌, ℕ, length, Some, Err, IfOk, OnOk};
ghost use Rattle.std.specs.Option.{option_map};
ghost use Rattle.log_text.specs.Lines.{line_count};
ghost use Rattle.log_text.specs.Patterns.{prefix_pattern};
ghost use Rattle.log_text.specs.Stripping.{stripped};

use crate::lines::{LogText, count_lines, line_len};
use crate::prefix::{Prefix, without_prefix};
use plain_data::Bytes;
use std::alloc::{AllocError, Global};
use thiserror::Error;

/// The greatest number of lines of a log, before stripping.
pub const MAX_LOG_LINES: usize = 1_000;

/// Why a log was not stripped.
#[derive(Clone, Copy, Debug, PartialEq, Eq, Drop, Error)]
pub enum LogFault {
    /// The log has this number of lines, more than 1,000.
    #[error("{0} lines")]
    TooManyLines(u32),
    /// Memory ran out.
    #[error("out of memory")]
    Memory,
}

/// The log without the prefixes of its lines: from each line the pattern's first match is removed
/// where it begins at the line's first byte. The pattern sees the line's newline too. A line without
/// such a match is kept whole, or left out where `drop_unmatched` is set; with no pattern each line
/// is kept.
pub fn strip(
    alloc: Global,
    log: &[u8],
    prefix: Option<&Prefix>,
    drop_unmatched: bool,
) -> Result<LogText, LogFault>
    requires { length log.now ≤ 65536 }
    ensures ok { IfOk result (λ text. text ≡ stripped (option_map (λ p. prefix_pattern p.now) prefix.entry) drop_unmatched log.now) }
    ensures few { OnOk result (line_count log.now ≤ 1000) }
    ensures many { (count : ℕ) → result ≡ Err (LogFault.TooManyLines count) → (count ≡ line_count log.now) × (1000 < count) }
{
    let count = count_lines(log);
    if count > MAX_LOG_LINES {
        return Err(LogFault::TooManyLines(count as u32));
    }
    match text_of(alloc, log, prefix, drop_unmatched) {
        Ok(text) => Ok(text),
        Err(_) => Err(LogFault::Memory),
    }
}

/// The stripped log.
fn text_of(
    alloc: Global,
    log: &[u8],
    prefix: Option<&Prefix>,
    drop_unmatched: bool,
) -> Result<LogText, AllocError>
    requires { length log.now ≤ 65536 }
    ensures { IfOk result (λ text. text ≡ stripped (option_map (λ p. prefix_pattern p.now) prefix.entry) drop_unmatched log.now) }
{
    match prefix {
        None => LogText::new(alloc, Bytes::from_slice(alloc, log)?),
        Some(prefix) => LogText::new(alloc, without_prefixes(alloc, log, prefix, drop_unmatched)?),
    }
}

/// The bytes that are left of the lines.
fn without_prefixes(
    alloc: Global,
    log: &[u8],
    prefix: &Prefix,
    drop_unmatched: bool,
) -> Result<Bytes, AllocError>
    ensures value { IfOk result (λ bytes. bytes ≡ stripped (Some (prefix_pattern prefix.now)) drop_unmatched log.now) }
    ensures short { IfOk result (λ bytes. length bytes ≤ length log.now) }
{
    let mut matcher = prefix.matcher(alloc)?;
    let mut bytes = Bytes::new(alloc);
    let mut rest = log;
    'lines: while !rest.is_empty() {
        let (line, after) = rest.split_at(line_len(rest));
        bytes.extend_from_slice(without_prefix(&mut matcher, drop_unmatched, line))?;
        rest = after;
    }
    Ok(bytes)
}
