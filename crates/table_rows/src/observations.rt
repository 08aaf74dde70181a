//! What prints see of the variables that are watched.
ghost use Rattle.path_states.specs.States.{AreStates};

use crate::text::{put, put_count, put_next};
use crate::values::Asked;
use anyhow::Result;
use log_expr::end_table;
use plain_data::{Bytes, Width};
use program_facts::facts_of;
use run_formula::{Observation, RunFormula, Seen, Watch, run_formula, watches_of};
use std::alloc::{AllocError, Global};
use term_bank::Bank;

/// Puts how many bits a number has at the end, behind `s` where it is read with its sign, else behind `u`.
fn put_kind(text: &mut Bytes, seen: &Seen) -> Result<(), AllocError> {
    put(text, if seen.is_signed { " s" } else { " u" })?;
    let bits = match seen.width {
        Width::W8 => 8,
        Width::W16 => 16,
        Width::W32 => 32,
        Width::W64 => 64,
    };
    put_count(text, bits)
}

/// Puts what is observed of a watched variable at the end, in a line: the line of the log, and each number that some
/// print sees, as `put_kind` has it; `none` where a print shows none.
fn put_watch(text: &mut Bytes, watch: &Watch, all: &[Observation]) -> Result<(), AllocError> {
    put(text, "line")?;
    put_next(text, u64::from(watch.line))?;
    put(text, " place")?;
    put_next(text, u64::from(watch.place))?;
    for one in all {
        match &one.seen {
            Some(seen) => put_kind(text, seen)?,
            None => put(text, " none")?,
        }
    }
    put(text, "\n")
}

/// Puts what is observed of these watched variables at the end, in order.
fn put_each(
    alloc: Global,
    formula: &RunFormula,
    watches: &[Watch],
    bank: &mut Bank,
    text: &mut Bytes,
) -> Result<()>
    requires { AreStates bank.old formula.now.states }
{
    'watches: for index in 0..watches.len() {
        let watch = watches[index];
        let seen = formula.observe(alloc, bank, watch)?;
        put_watch(text, &watch, seen.as_slice())?;
    }
    Ok(())
}

/// Puts what is observed of each watched variable of a program along a log at the end.
pub fn put_observations(alloc: Global, asked: &Asked<'_>, text: &mut Bytes) -> Result<()> {
    let core = &asked.program.core;
    let facts = facts_of(alloc, core, asked.log, false)?;
    let watches = watches_of(alloc, &facts)?;
    let ends = end_table(alloc, core, asked.log.bytes(), asked.bounds)?;
    let mut bank = Bank::new(alloc);
    let mut walks = 0;
    let formula = run_formula(
        alloc,
        core,
        asked.log,
        asked.bounds,
        &ends,
        &[],
        &[],
        &mut bank,
        &mut walks,
    )?;
    put_each(alloc, &formula, watches.as_slice(), &mut bank, text)
}
