//! What the walk of a program along a log takes.

use crate::text::{put, put_count, put_next};
use anyhow::Result;
use core_tree::Core;
use log_expr::end_table;
use log_text::LogText;
use plain_data::{Bounds, Bytes};
use run_formula::run_formula;
use std::alloc::Global;
use term_bank::Bank;

/// Puts a line with how many bodies are walked at the end, and behind it, where it is asked for, how many nodes the
/// formula of the runs has, with no facts.
pub fn put_walks(
    alloc: Global,
    core: &Core,
    log: &LogText,
    bounds: &Bounds,
    has_nodes: bool,
    text: &mut Bytes,
) -> Result<()> {
    let ends = end_table(alloc, core, log.bytes(), bounds)?;
    let mut bank = Bank::new(alloc);
    let mut walks = 0;
    let _ = run_formula(
        alloc,
        core,
        log,
        bounds,
        &ends,
        &[],
        &[],
        &mut bank,
        &mut walks,
    )?;
    put_count(text, u128::from(walks))?;
    if has_nodes {
        put_next(text, bank.len() as u64)?;
    }
    put(text, "\n")?;
    Ok(())
}
