//! Rows of formats and logs, answered by splits of a log from its start.
use crate::{meeting, reading};
use anyhow::{Result, anyhow};
use format_match::{Constraint, Split, splits};
use printf_text::{Args, Pieces, parse_format};
use std::alloc::Global;
use std::str::SplitWhitespace;

/// How many of the splits of pieces and a log that end there the arguments meet.
fn met_by(alloc: Global, pieces: &Pieces, log: &[u8], end: usize, args: &Args) -> Result<usize> {
    let all = splits(alloc, pieces, log, 0)?;
    Ok(meeting::met_count(&all, end, args))
}

/// How many of the splits of a format and a log that end there the arguments meet.
fn met(alloc: Global, format: &[u8], log: &[u8], end: usize, args: &Args) -> Result<usize> {
    let pieces = parse_format(alloc, format)?;
    met_by(alloc, &pieces, log, end, args)
}

/// How many of the splits that end there the arguments meet that words write.
fn met_of(
    alloc: Global,
    format: &[u8],
    log: &[u8],
    end: usize,
    words: SplitWhitespace<'_>,
) -> Result<usize> {
    let args = reading::args_of(alloc, words)?;
    met(alloc, format, log, end, &args)
}

/// How many of the splits of a row the arguments meet.
fn met_in(alloc: Global, row: &str) -> Result<usize> {
    let mut words = row.split_whitespace();
    let format = reading::bytes_of(alloc, words.next().unwrap_or(""))?;
    let end = words.next().unwrap_or("").parse::<usize>();
    let end = end.ok().ok_or(anyhow!("no end"))?;
    let log = reading::bytes_of(alloc, words.next().unwrap_or(""))?;
    met_of(alloc, format.as_slice(), log.as_slice(), end, words)
}

/// The answer to a row `FORMAT END LOG ARG ..` in hexadecimal: how many of the splits that end at END the arguments
/// meet.
pub fn answer(alloc: Global, row: &str) -> Result<String> {
    let met = met_in(alloc, row)?;
    Ok(format!(in alloc; "{met}\n")?)
}

/// Puts a split at the end: where it ends, and what it says of the arguments.
fn put_split(alloc: Global, out: &mut String, split: &Split<'_>) -> Result<()> {
    let end = split.end;
    write!(out, "{end}:")?;
    for constraint in split.constraints.as_slice() {
        show(alloc, out, constraint)?;
    }
    out.push('\n')?;
    Ok(())
}

/// Splits as the table writes them.
fn splits_text(alloc: Global, all: &[Split<'_>]) -> Result<String> {
    let mut out = String::new(alloc);
    for split in all {
        put_split(alloc, &mut out, split)?;
    }
    if out.is_empty() {
        out.push_str("none\n")?;
    }
    Ok(out)
}

/// The splits of pieces and a log.
fn splits_by(alloc: Global, pieces: &Pieces, log: &[u8]) -> Result<String> {
    let all = splits(alloc, pieces, log, 0)?;
    splits_text(alloc, all.as_slice())
}

/// The splits of a format and a log.
fn splits_in(alloc: Global, format: &[u8], log: &[u8]) -> Result<String> {
    let pieces = parse_format(alloc, format)?;
    splits_by(alloc, &pieces, log)
}

/// The splits of a format and a log: of each the end and what it says of the arguments.
pub fn answer_plain(alloc: Global, row: &str) -> Result<String> {
    let (format, log) = reading::first_line(row);
    let format = reading::unescaped(alloc, format)?;
    splits_in(alloc, format.as_slice(), log.as_bytes())
}

/// Puts a constraint at the end: `=BITS`, `LEAST..GREATEST`, `'TEXT'` or `'TEXT'+` where it goes on, `null`, `@NUMBER`.
fn show(alloc: Global, out: &mut String, constraint: &Constraint<'_>) -> Result<()> {
    match constraint {
        Constraint::Equal { bits, .. } => write!(out, " ={bits}")?,
        Constraint::Between { low, high } => write!(out, " {low}..{high}")?,
        Constraint::Text { bytes, ended } => {
            let text = reading::escaped(alloc, bytes.as_slice())?;
            let more = if *ended { "" } else { "+" };
            write!(out, " '{text}'{more}")?;
        }
        Constraint::Null => write!(out, " null")?,
        Constraint::Shown { word } => write!(out, " @{word}")?,
    }
    Ok(())
}
