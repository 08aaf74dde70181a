//! Sources as data.
use anyhow::{Result, anyhow};
use c_language::{Tokens, Unit};
use c_lexer::lex;
use c_parser::parse;
use std::alloc::Global;

/// The most bytes that a source may have.
pub const LONGEST: usize = 8_388_608;

/// The tokens of a source.
pub fn tokens_of(alloc: Global, source: &[u8]) -> Result<Tokens> {
    if LONGEST < source.len() {
        return Err(anyhow!("the source is too long"));
    }
    Ok(lex(alloc, "source", source)?)
}

/// The unit of a source.
pub fn unit_of(alloc: Global, source: &[u8]) -> Result<Unit> {
    let tokens = tokens_of(alloc, source)?;
    Ok(parse(alloc, &tokens)?)
}
