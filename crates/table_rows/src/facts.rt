//! Facts, each by a line, and behind them the watched variables. Tokens are offsets in bytes.

use crate::text::{put, put_count, put_next, put_value};
use plain_data::{Bytes, Fact, Facts, Side, Undefined, Watched};
use std::alloc::AllocError;

fn kind_name(kind: Undefined) -> &'static str {
    match kind {
        Undefined::Overflow => " overflow",
        Undefined::ZeroDivisor => " divisor",
        Undefined::Shift => " shift",
        Undefined::PointerRange => " range",
        Undefined::Dereference => " dereference",
        Undefined::LiteralWrite => " literal",
        Undefined::Free => " free",
        Undefined::PointerOrder => " order",
        Undefined::MissingValue => " missing",
    }
}

fn put_side(side: Side, text: &mut Bytes) -> Result<(), AllocError> {
    match side {
        Side::Yes => put(text, " true"),
        Side::No => put(text, " false"),
        Side::Case(value) => {
            put(text, " case ")?;
            put_value(text, value)
        }
        Side::Otherwise => put(text, " default"),
    }
}

/// Puts a word and a token at the end.
fn put_at(word: &str, at: u32, text: &mut Bytes) -> Result<(), AllocError> {
    put(text, word)?;
    put_next(text, u64::from(at))
}

fn put_line(line: u32, text: &mut Bytes) -> Result<(), AllocError> {
    put_at(" line", line, text)
}

fn put_branch(at: u32, side: Side, text: &mut Bytes) -> Result<(), AllocError> {
    put_at("branch", at, text)?;
    put_side(side, text)
}

fn put_fact(fact: &Fact, text: &mut Bytes) -> Result<(), AllocError> {
    match *fact {
        Fact::Branch { at, side } => put_branch(at, side, text),
        Fact::BranchIn { at, side, line } => {
            put_branch(at, side, text)?;
            put_line(line, text)
        }
        Fact::Call { at } => put_at("call", at, text),
        Fact::CallIn { at, line } => {
            put_at("call", at, text)?;
            put_line(line, text)
        }
        Fact::Print { at, line } => {
            put_at("print", at, text)?;
            put_line(line, text)
        }
        Fact::StopAt { kind, at } => {
            put(text, "undefined")?;
            put_at(kind_name(kind), at, text)
        }
        Fact::Returned => put(text, "return"),
        Fact::Exited => put(text, "exit"),
        Fact::Aborted => put(text, "abort"),
        Fact::StopOf { kind } => {
            put(text, "undefined")?;
            put(text, kind_name(kind))
        }
    }
}

fn put_watched(watched: &[Watched], text: &mut Bytes) -> Result<(), AllocError> {
    for variable in watched {
        put(text, "watched ")?;
        put_count(text, u128::from(variable.fact))?;
        put_next(text, u64::from(variable.object))?;
        put(text, "\n")?;
    }
    Ok(())
}

/// Puts facts at the end, and `watched FACT OBJECT` for each variable that a print fact, by its number, shows.
pub fn put_facts(facts: &Facts, text: &mut Bytes) -> Result<(), AllocError> {
    for fact in facts.facts.as_slice() {
        put_fact(fact, text)?;
        put(text, "\n")?;
    }
    put_watched(facts.watched.as_slice(), text)
}
