//! Formulas and refutations, answered by the checker.
use crate::formulas;
use anyhow::Result;
use cnf_core::Formula;
use proof_check::{Checker, Refutation, StepFault, Steps};
use std::alloc::Global;
use std::rt::Clock;
use std::time::{Duration, Instant};

/// A formula, and on the lines after it the steps of a refutation.
fn read_instance(alloc: Global, text: &str) -> Result<(Formula, Refutation)> {
    let mut steps = Steps::new(alloc);
    let (formula, rest) = formulas::read_formula(alloc, text)?;
    for line in rest {
        formulas::push_step(alloc, &mut steps, line)?;
    }
    Ok((formula, Refutation::from_steps(steps)))
}

/// What the checker says.
fn said(alloc: Global, verdict: Result<(), StepFault>) -> Result<String> {
    match verdict {
        Ok(()) => Ok(format!(in alloc; "accepted\n")?),
        Err(fault) => Ok(format!(in alloc; "refused: {fault}\n")?),
    }
}

/// What the checker says of a refutation of a formula.
fn judged(alloc: Global, formula: &Formula, refutation: &Refutation) -> Result<String> {
    let mut checker = Checker::with_room(alloc, formula, refutation)?;
    said(alloc, checker.check(formula, refutation))
}

/// The answer to a row.
pub fn answer(alloc: Global, row: &str) -> Result<String> {
    let (formula, refutation) = read_instance(alloc, row)?;
    judged(alloc, &formula, &refutation)
}

/// What the checker says of an instance, and when that was known.
fn judged_by(
    rt: &impl Clock,
    alloc: Global,
    start: Instant,
    formula: &Formula,
    refutation: &Refutation,
) -> Result<(String, Duration)> {
    let answer = judged(alloc, formula, refutation)?;
    Ok((answer, start.elapsed(rt)?))
}

/// The answer to a formula and a refutation, and how long parsing took, and that with checking.
fn timed(rt: &impl Clock, alloc: Global, text: &str) -> Result<(String, Duration, Duration)> {
    let start = Instant::now(rt)?;
    let (formula, refutation) = read_instance(alloc, text)?;
    let parsed = start.elapsed(rt)?;
    let (answer, checked) = judged_by(rt, alloc, start, &formula, &refutation)?;
    Ok((answer, parsed, checked))
}

/// Prints the answer to a formula and a refutation, and on standard error, where it is asked for, how long that took.
pub fn check(
    rt: &(impl Print + Eprint + Clock),
    alloc: Global,
    text: &str,
    times: bool,
) -> Result<()> {
    let (answer, parsed, checked) = timed(rt, alloc, text)?;
    print!(rt; "{answer}")?;
    if times {
        let (parsed, checked) = (parsed.as_micros(), checked.as_micros());
        eprintln!(rt; "microseconds at the end of parsing {parsed}, checking {checked}")?;
    }
    Ok(())
}
