//! What is found of a program along a log, for comparison with rows that were worked out by hand. Standard input has a
//! preprocessed source, a byte 0, and a log.
//!
//! - `ends`: the table of ends (`ends`). `count`: how many keys it has, and how many ends.
//! - `facts`, `lines`: the facts along the log, without and with those of each line, and the watched variables
//!   (`facts`).
//! - `sites`: the log calls (`sites`).
//! - `values`: whether a run fits; how many worlds and refutations the questions on the facts come to, how many are
//!   open, and how many answers don't hold; and of each watched variable that a run that fits has seen its value, or
//!   that it can have several (`values`). `clauses`: how many clauses say that a run fits.
//! - `observations`: what prints see of each watched variable, as terms: the line, the variable's place, and how many
//!   bits each number has that some print sees, and whether it is read with its sign (`observations`).
//! - `walks`: how many bodies are walked. `nodes`: behind that, how many nodes the formula of the runs has (`walks`).
//!
//! Further words say how many turns a loop may take, and how many levels of calls there may be.
#![tactic(auto)]

mod ends;
mod facts;
mod input;
mod observations;
mod sites;
mod text;
mod values;
mod walks;

use accepted::Accepted;
use anyhow::{Result, anyhow};
use ends::{put_sums, put_table};
use facts::put_facts;
use input::{bounds_of, log_of, program_of, split};
use log_expr::end_table;
use observations::put_observations;
use plain_data::{Bounds, Bytes};
use program_facts::facts_of;
use sites::put_sites;
use std::alloc::Global;
use std::io::{self, Read, Write};
use values::{Asked, put_clauses, put_values};
use walks::put_walks;

/// Puts the table of ends at the end, or its sums.
fn answer_ends(
    alloc: Global,
    program: &Accepted,
    log: &[u8],
    bounds: &Bounds,
    is_whole: bool,
    text: &mut Bytes,
) -> Result<()> {
    let table = end_table(alloc, &program.core, log, bounds)?;
    if is_whole {
        put_table(program.core.functions.as_slice(), &table, text)?;
    } else {
        put_sums(&table, text)?;
    }
    Ok(())
}

/// Puts the facts at the end.
fn answer_facts(
    alloc: Global,
    program: &Accepted,
    log: &[u8],
    by_line: bool,
    text: &mut Bytes,
) -> Result<()> {
    let log = log_of(alloc, log)?;
    let facts = facts_of(alloc, &program.core, &log, by_line)?;
    put_facts(&facts, text)?;
    Ok(())
}

/// Puts what the walk takes at the end.
fn answer_walks(
    alloc: Global,
    program: &Accepted,
    log: &[u8],
    bounds: &Bounds,
    has_nodes: bool,
    text: &mut Bytes,
) -> Result<()> {
    let log = log_of(alloc, log)?;
    put_walks(alloc, &program.core, &log, bounds, has_nodes, text)?;
    Ok(())
}

/// Puts the answers to all questions at the end, or what else is asked of the runs: how many clauses there are, or what
/// is observed of watched variables.
fn answer_values(
    alloc: Global,
    program: &Accepted,
    log: &[u8],
    bounds: &Bounds,
    word: &str,
    text: &mut Bytes,
) -> Result<()> {
    let log = log_of(alloc, log)?;
    let asked = Asked {
        program,
        bounds,
        log: &log,
    };
    match word {
        "clauses" => put_clauses(alloc, &asked, text)?,
        "observations" => put_observations(alloc, &asked, text)?,
        _ => put_values(alloc, &asked, text)?,
    }
    Ok(())
}

/// Puts the log calls at the end.
fn answer_sites(alloc: Global, program: &Accepted, text: &mut Bytes) -> Result<()> {
    let found = log_sites::sites(alloc, &program.core)?;
    put_sites(found.as_slice(), text)?;
    Ok(())
}

/// What is found of a program.
fn found(
    alloc: Global,
    word: &str,
    program: &Accepted,
    log: &[u8],
    bounds: &Bounds,
) -> Result<Bytes> {
    let mut text = Bytes::new(alloc);
    match word {
        "ends" => answer_ends(alloc, program, log, bounds, true, &mut text)?,
        "count" => answer_ends(alloc, program, log, bounds, false, &mut text)?,
        "facts" => answer_facts(alloc, program, log, false, &mut text)?,
        "lines" => answer_facts(alloc, program, log, true, &mut text)?,
        "sites" => answer_sites(alloc, program, &mut text)?,
        "clauses" | "observations" | "values" => {
            answer_values(alloc, program, log, bounds, word, &mut text)?
        }
        "walks" => answer_walks(alloc, program, log, bounds, false, &mut text)?,
        "nodes" => answer_walks(alloc, program, log, bounds, true, &mut text)?,
        _ => return Err(anyhow!("no such word")),
    }
    Ok(text)
}

/// The answer to a source and a log.
fn answered(alloc: Global, word: &str, bounds: &Bounds, input: &[u8]) -> Result<Bytes> {
    let (source, log) = split(input)?;
    let program = program_of(alloc, source)?;
    let text = found(alloc, word, &program, log, bounds);
    program.discard();
    text
}

/// Answers the source and the log in standard input as a word asks, with so many turns of a loop and levels of calls.
pub fn answer(
    rt: &(impl Input + Print + AllocGlobal),
    word: &str,
    turns: &str,
    depth: &str,
) -> Result<()> {
    let bounds = bounds_of(turns.parse::<u32>()?, depth.parse::<u32>()?)?;
    let mut input = Vec::new(rt.alloc());
    rt.reader().read_to_end(&mut input)?;
    let text = answered(rt.alloc(), word, &bounds, input.as_slice())?;
    io::writer(rt).write_all(text.as_slice())?;
    Ok(())
}
