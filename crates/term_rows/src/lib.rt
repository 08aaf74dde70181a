//! Rows of terms in standard input, answered for comparison with values that a script works out by itself.
//!
//! Each line is a row: statements with `;` between them, each of which makes a node over those of the statements before
//! it, named by their numbers from 0, or says what one is to be (`terms`). The last node is the root.
//!
//! - `terms`: what the root is worth in a model of its clauses, whether it is worth that in each, and the world that
//!   the model stands for (`asking`).
//! - `sizes`: how many clauses the root takes, and how many literals they have.
//! - `chain COUNT`: no rows; the same of a chain of so many connectives over the world.
#![tactic(auto)]

mod asking;
mod blasting;
mod chains;
mod names;
mod solving;
mod terms;

use anyhow::{Result, anyhow};
use asking::{size, worth};
use chains::answer_chain;
use std::alloc::Global;
use std::mem::drop;

/// What is asked of a row.
#[derive(Clone, Copy)]
enum Row {
    /// What its root is worth.
    Values,
    /// How many clauses its root takes.
    Sizes,
}

impl Row {
    fn answer(self, alloc: Global, row: &str) -> Result<String> {
        match self {
            Row::Values => worth(alloc, row),
            Row::Sizes => size(alloc, row),
        }
    }
}

/// Prints a text.
fn print_text(rt: &impl Print, text: String) -> Result<()> {
    let printed = print!(rt; "{text}");
    drop(text);
    printed?;
    Ok(())
}

/// Answers a line.
fn answer_line(rt: &(impl Print + AllocGlobal), row: Row, line: String) -> Result<()> {
    let text = row.answer(rt.alloc(), line.as_str());
    drop(line);
    print_text(rt, text?)
}

/// Answers each line of standard input.
fn answer_lines(rt: &(impl Input + Print + AllocGlobal), row: Row) -> Result<()> {
    for line in rt.lines(rt.alloc()) {
        answer_line(rt, row, line?)?;
    }
    Ok(())
}

/// Answers a chain.
fn print_chain(rt: &(impl Print + AllocGlobal), count: &str) -> Result<()> {
    let text = answer_chain(rt.alloc(), count.parse::<u32>()?)?;
    print_text(rt, text)
}

/// Answers the rows that a word asks for; of a chain a second word says how long it is.
pub fn answer(rt: &(impl Input + Print + AllocGlobal), word: &str, second: &str) -> Result<()> {
    match word {
        "terms" => answer_lines(rt, Row::Values),
        "sizes" => answer_lines(rt, Row::Sizes),
        "chain" => print_chain(rt, second),
        _ => Err(anyhow!("no such rows")),
    }
}
