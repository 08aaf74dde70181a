//! Rows of words, formats, splits, refutations, questions and sources in standard input, answered for comparison with
//! outside tools and with tables.
//!
//! - `words`, `texts`, `splits`: each line is a row, and is answered by a line (the modules of these names).
//! - `table WORD`: the rows of a table are answered, each as the module `tables` says of the word.
//! - `tree`: the text of the tree of a preprocessed source (`trees`).
//! - `check`: whether a refutation is accepted; with `--times` also, on standard error, how long parsing and checking
//!   took.
//! - `solve CONFLICTS`, `solve_least CONFLICTS`: the answers to questions about a formula (`solving`), where what is decided
//!   is the open variable that is most marked, or the least one.
#![tactic(auto)]

mod checking;
mod formulas;
mod lexing;
mod meeting;
mod reading;
mod solving;
mod sources;
mod splits;
mod tables;
mod texts;
mod trees;
mod words;

use anyhow::{Result, anyhow};
use cdcl::{LeastOpen, MostMarked};
pub use sources::unit_of;
use std::alloc::Global;
use std::io::{self, Read, Write};
use std::rt::Clock;
use tables::Row;

/// Answers each line of standard input.
fn answer_lines(rt: &(impl Input + Print + AllocGlobal), row: Row) -> Result<()> {
    for line in rt.lines(rt.alloc()) {
        let line = line?;
        let answer = row.answer(rt.alloc(), line.as_str())?;
        print!(rt; "{answer}")?;
    }
    Ok(())
}

/// Prints the tree of the source in standard input.
fn print_tree(rt: &(impl Input + Print + AllocGlobal)) -> Result<()> {
    let mut source = Vec::new(rt.alloc());
    rt.reader().read_to_end(&mut source)?;
    let text = trees::text_of(rt.alloc(), source.as_slice())?;
    io::writer(rt).write_all(text.as_slice())?;
    Ok(())
}

/// Answers the rows that a word asks for; of some a second word says more.
pub fn answer(
    rt: &(impl Input + Print + Eprint + Clock + AllocGlobal),
    word: &str,
    second: &str,
) -> Result<()> {
    match word {
        "words" => answer_lines(rt, Row::Words),
        "texts" => answer_lines(rt, Row::Texts),
        "splits" => answer_lines(rt, Row::Splits),
        "tree" => print_tree(rt),
        "table" => {
            let row = Row::named(second).ok_or(anyhow!("no such table"))?;
            let text = io::read_to_string(rt.alloc(), rt.reader())?;
            tables::answer_all(rt, rt.alloc(), row, &text)
        }
        "check" => {
            let text = io::read_to_string(rt.alloc(), rt.reader())?;
            checking::check(rt, rt.alloc(), &text, second == "--times")
        }
        "solve" => {
            let text = io::read_to_string(rt.alloc(), rt.reader())?;
            solving::solve(rt, rt.alloc(), &MostMarked, &text, second.parse::<u32>()?)
        }
        "solve_least" => {
            let text = io::read_to_string(rt.alloc(), rt.reader())?;
            solving::solve(rt, rt.alloc(), &LeastOpen, &text, second.parse::<u32>()?)
        }
        _ => Err(anyhow!("no such rows")),
    }
}
