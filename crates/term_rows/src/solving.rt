//! Formulas, solved. An answer whose evidence doesn't hold is an error.

use anyhow::{Result, anyhow};
use cdcl::{Answer, MostMarked, Solver};
use cnf_core::{Assignment, Clause, Formula, Lit, satisfies};
use proof_check::{Checker, Refutation};
use std::alloc::Global;
use std::mem::drop;

/// The most conflicts of a question.
const CONFLICTS: u32 = 1_000_000;

/// Adds the clauses of a formula to a solver.
pub fn add_all(alloc: Global, solver: &mut Solver, formula: &Formula) -> Result<()> {
    for index in 0..formula.len() {
        solver.add(Clause::from_vec(formula.clause(index).to_vec(alloc)?))?;
    }
    Ok(())
}

/// Puts a clause at the end of a formula, and adds it to the formula's solver.
pub fn push(
    alloc: Global,
    formula: &mut Formula,
    solver: &mut Solver,
    clause: &[Lit],
) -> Result<()> {
    formula.push(clause)?;
    solver.add(Clause::from_vec(clause.to_vec(alloc)?))?;
    Ok(())
}

/// Values that are a model of a formula.
fn as_model(formula: &Formula, values: Assignment) -> Result<Option<Assignment>> {
    if satisfies(formula, &values) {
        Ok(Some(values))
    } else {
        drop(values);
        Err(anyhow!("no model"))
    }
}

/// Whether the checker accepts a refutation of a formula.
fn check(alloc: Global, formula: &Formula, refutation: &Refutation) -> Result<()> {
    let mut checker = Checker::with_room(alloc, formula, refutation)?;
    let checked = checker.check(formula, refutation);
    drop(checker);
    Ok(checked?)
}

/// That a formula has no model, by a refutation that the checker accepts.
fn as_no_model(
    alloc: Global,
    formula: &Formula,
    refutation: Refutation,
) -> Result<Option<Assignment>> {
    let checked = check(alloc, formula, &refutation);
    drop(refutation);
    checked.and(Ok(None))
}

/// What the answer of a question that assumes nothing comes to.
fn model_in(alloc: Global, formula: &Formula, answer: Answer) -> Result<Option<Assignment>> {
    match answer {
        Answer::Sat(values) => as_model(formula, values),
        Answer::Unsat(refutation) => as_no_model(alloc, formula, refutation),
        Answer::Spent(_) => Err(anyhow!("too many conflicts")),
    }
}

/// A model of a formula by its solver, or none where it has none.
pub fn model_of(
    alloc: Global,
    formula: &Formula,
    solver: &mut Solver,
) -> Result<Option<Assignment>> {
    let answer = solver.solve(alloc, &MostMarked, &[], CONFLICTS)?;
    model_in(alloc, formula, answer)
}
