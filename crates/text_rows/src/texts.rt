//! Rows `FORMAT ARG ..`, answered by the text.
use crate::reading;
use anyhow::{Result, anyhow};
use plain_data::Bytes;
use printf_text::{Args, FormatFault, Kind, Kinds, Pieces, have_kinds, kinds, parse_format, text};
use std::alloc::{AllocError, Global};

/// What a format and arguments come to.
#[derive(Drop)]
enum Outcome {
    Text(Bytes),
    Fault(&'static str, usize),
    Kinds(Kinds),
}

fn printed(alloc: Global, pieces: &Pieces, args: &Args) -> Result<Outcome> {
    let kinds = kinds(alloc, pieces)?;
    if !have_kinds(&kinds, args) {
        return Ok(Outcome::Kinds(kinds));
    }
    match text(alloc, pieces, args) {
        Ok(bytes) => Ok(Outcome::Text(bytes)),
        Err(_) => Err(anyhow!(AllocError)),
    }
}

fn written(alloc: Global, format: &[u8], args: &Args) -> Result<Outcome> {
    match parse_format(alloc, format) {
        Ok(pieces) => printed(alloc, &pieces, args),
        Err(FormatFault::Unsupported(at)) => Ok(Outcome::Fault("unsupported", at)),
        Err(FormatFault::Truncated(at)) => Ok(Outcome::Fault("truncated", at)),
        Err(FormatFault::Memory) => Err(anyhow!(AllocError)),
    }
}

fn hexadecimal(alloc: Global, bytes: &[u8]) -> Result<String> {
    let digits = hex::encode(alloc, bytes)?;
    Ok(format!(in alloc; "text {digits}\n")?)
}

fn between_bars(alloc: Global, bytes: &[u8]) -> Result<String> {
    let text = reading::escaped(alloc, bytes)?;
    Ok(format!(in alloc; "|{text}|\n")?)
}

fn faulty(alloc: Global, name: &str, at: usize) -> Result<String> {
    Ok(format!(in alloc; "{name} {at}\n")?)
}

fn in_digits(alloc: Global, outcome: Outcome) -> Result<String> {
    match outcome {
        Outcome::Text(bytes) => hexadecimal(alloc, bytes.as_slice()),
        Outcome::Fault(name, at) => faulty(alloc, name, at),
        Outcome::Kinds(_) => Ok(format!(in alloc; "kinds\n")?),
    }
}

fn plainly(alloc: Global, outcome: Outcome) -> Result<String> {
    match outcome {
        Outcome::Text(bytes) => between_bars(alloc, bytes.as_slice()),
        Outcome::Fault(name, at) => faulty(alloc, name, at),
        Outcome::Kinds(kinds) => named(alloc, &kinds),
    }
}

/// The answer to a row in hexadecimal: the text, or why there is none.
pub fn answer(alloc: Global, row: &str) -> Result<String> {
    let mut words = row.split_whitespace();
    let format = reading::bytes_of(alloc, words.next().unwrap_or(""))?;
    let args = reading::args_of(alloc, words)?;
    let outcome = written(alloc, format.as_slice(), &args)?;
    in_digits(alloc, outcome)
}

/// The answer to a format and a line of arguments: the text between bars, why there is none, or the kinds that it asks
/// for.
pub fn answer_plain(alloc: Global, row: &str) -> Result<String> {
    let (format, words) = reading::first_line(row);
    let format = reading::unescaped(alloc, format)?;
    let args = reading::args_of(alloc, words.split_whitespace())?;
    let outcome = written(alloc, format.as_slice(), &args)?;
    plainly(alloc, outcome)
}

fn named(alloc: Global, kinds: &Kinds) -> Result<String> {
    let mut names = format!(in alloc; "asks for")?;
    for kind in kinds.as_slice() {
        names.push_str(match kind {
            Kind::Integer => " integer",
            Kind::Text => " text",
            Kind::Pointer => " pointer",
        })?;
    }
    names.push('\n')?;
    Ok(names)
}
