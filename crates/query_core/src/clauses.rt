//! Clauses that say that bits are true.
ghost use Rattle.std.specs.Prelude.{◌≡◌, ◌++◌, ◌∷◌, ◌+◌, [], length, IfOk, OnOk};
ghost use Rattle.query_core.specs.Claims.{claimed, refuting, KeepsNone};

use cdcl::Solver;
use cnf_core::{Clause, Formula, Lit};
use gates::Bit;
use proof_check::{Refutation, Step, Steps};
use std::alloc::{AllocError, Global};

/// Puts the clauses at the end of a formula that say that a bit is true.
pub(crate) fn push_claim(formula: &mut Formula, bit: &Bit) -> Result<(), AllocError>
    ensures { OnOk result (formula.new ≡ formula.old ++ claimed bit.now) }
{
    match bit {
        Bit::Known(true) => Ok(()),
        Bit::Known(false) => {
            formula.push(&[])?;
            Ok(())
        }
        Bit::Unknown(literal) => {
            formula.push(&[*literal])?;
            Ok(())
        }
    }
}

/// Puts the clauses of one formula at the end of another.
pub(crate) fn push_all(formula: &mut Formula, more: &Formula) -> Result<(), AllocError>
    ensures { OnOk result (formula.new ≡ formula.old ++ more.now) }
{
    'clauses: for index in 0..more.len() {
        formula.push(more.clause(index))?;
    }
    Ok(())
}

/// Adds the clause of these literals.
fn add_clause(alloc: Global, solver: &mut Solver, literals: &[Lit]) -> Result<(), AllocError>
    ensures clauses { OnOk result (solver.new.clauses ≡ solver.old.clauses ++ literals.now ∷ []) }
    ensures kept { OnOk result (KeepsNone solver.old solver.new) }
{
    let literals = Vec::from_slice(alloc, literals)?;
    match solver.add(Clause::from_vec(literals)) {
        Ok(()) => Ok(()),
        Err(_) => Err(AllocError),
    }
}

/// Adds the clauses that say that a bit is true.
pub(crate) fn add_claim(alloc: Global, solver: &mut Solver, bit: &Bit) -> Result<(), AllocError>
    ensures clauses { OnOk result (solver.new.clauses ≡ solver.old.clauses ++ claimed bit.now) }
    ensures kept { OnOk result (KeepsNone solver.old solver.new) }
{
    match bit {
        Bit::Known(true) => Ok(()),
        Bit::Known(false) => {
            add_clause(alloc, solver, &[])?;
            Ok(())
        }
        Bit::Unknown(literal) => {
            add_clause(alloc, solver, &[*literal])?;
            Ok(())
        }
    }
}

/// Adds the clauses of a formula.
pub(crate) fn add_all(
    alloc: Global,
    solver: &mut Solver,
    formula: &Formula,
) -> Result<(), AllocError>
    ensures clauses { OnOk result (solver.new.clauses ≡ solver.old.clauses ++ formula.now) }
    ensures kept { OnOk result (KeepsNone solver.old solver.new) }
{
    'clauses: for index in 0..formula.len() {
        add_clause(alloc, solver, formula.clause(index))?;
    }
    Ok(())
}

/// The number of the clause behind a formula and the clauses that say that a bit is true.
pub(crate) fn number_behind(formula: &Formula, bit: &Bit) -> Result<u32, AllocError>
    ensures { IfOk result (λ n. n ≡ length (formula.now ++ claimed bit.now) + 1) }
{
    let len = formula.len();
    if len >= 0xffff_fffe {
        return Err(AllocError);
    }
    match bit {
        Bit::Known(true) => Ok(len as u32 + 1),
        Bit::Known(false) => Ok(len as u32 + 2),
        Bit::Unknown(_) => Ok(len as u32 + 2),
    }
}

/// The refutation that reads the empty clause of this number.
pub(crate) fn refute_by(alloc: Global, number: u32) -> Result<Refutation, AllocError>
    ensures { IfOk result (λ r. r ≡ refuting number) }
{
    let mut steps = Steps::new(alloc);
    steps.push(Step {
        clause: &[],
        hints: &[number],
    })?;
    Ok(Refutation::from_steps(steps))
}
