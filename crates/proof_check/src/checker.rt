ghost use Rattle.std.specs.Prelude.{◌≡◌, ℕ, ◌<◌, ◌≤◌, ◌+◌, ◌++◌, ◌↔◌, map, length, take, slice_get, Some, Ok, IfOk, OnOk, Contains};
ghost use Rattle.std.specs.List.{All};
ghost use Rattle.std.specs.List.Sorted.{IsStrictlyIncreasing};
ghost use Rattle.std.specs.Option.{option_copied};
ghost use Rattle.cnf_core.specs.Truth.{Unsatisfiable, clause_at};
ghost use Rattle.proof_check.specs.Steps.{Step as StepValue, clause_of};
ghost use Rattle.proof_check.specs.Propagation.{negations, propagated};
ghost use Rattle.proof_check.specs.Refutations.{outcome_of, first_fault, verdict, IsRefutation, checked, ends_empty};
ghost use Rattle.proof_check.specs.Room.{Within, AllWithin, Covers, Occurs, variables_of};
ghost use Rattle.proof_check.specs.Marked.{marked};

use crate::fault::StepFault;
use crate::marks::Marks;
use crate::propagation::{Outcome, Reading};
use crate::steps::{Refutation, Steps};
use cnf_core::{Formula, Lit};
use std::alloc::{AllocError, Global};
use std::marker::Model;
use thiserror::Error;

/// Why there is no checker.
#[derive(Clone, Copy, Debug, PartialEq, Eq, Error)]
pub enum RoomFault {
    #[error("out of memory")]
    Memory,
}

/// The room that a check needs, seen as the variables that it is for.
pub struct Checker {
    marks: Marks,
}

/// By hand, so that a call stands in place of all its parts wherever a value is let go.
impl Drop for Checker {
    fn drop(self) {
        let Checker { marks } = self;
    }
}

impl Model for Checker {
    ghost use Rattle.std.specs.Prelude.{List, ℕ};

    ghost Value = { List ℕ };

    ghost view = { λ c. c.marks.variables.items };
}

/// The clause with this number, counted from 1: the formula's, then those of the earlier steps.
fn numbered<'a>(
    formula: &'a Formula,
    steps: &'a Steps,
    earlier: usize,
    number: u32,
) -> Option<&'a [Lit]>
    requires { earlier ≤ length steps.now }
    ensures { option_copied result ≡ clause_at (formula.now ++ map clause_of (take earlier steps.now)) number }
{
    if number == 0 {
        return None;
    }
    let index = number as usize - 1;
    if index < formula.len() {
        return Some(formula.clause(index));
    }
    let index = index - formula.len();
    if index < earlier {
        return Some(steps.step(index).clause);
    }
    None
}

fn take_negations(marks: &mut Marks, clause: &[Lit])
    requires { Within marks.old.variables.items clause.now }
    ensures room { marks.new.variables.items ≡ marks.old.variables.items }
    ensures marks { marked marks.new ≡ negations clause.now }
{
    marks.clear();
    for literal in clause {
        marks.take(literal.negated());
    }
}

/// Reads the hints over the formula and the earlier steps, from what is marked on.
fn propagate(
    marks: &mut Marks,
    formula: &Formula,
    steps: &Steps,
    earlier: usize,
    hints: &[u32],
) -> Outcome
    requires earlier { earlier ≤ length steps.now }
    requires covered { Covers marks.old.variables.items formula.now steps.now }
    ensures room { marks.new.variables.items ≡ marks.old.variables.items }
    ensures outcome { result ≡ propagated (formula.now ++ map clause_of (take earlier steps.now)) (marked marks.old) hints.now }
{
    for hint in hints {
        let Some(clause) = numbered(formula, steps, earlier, *hint) else {
            return Outcome::BadHint;
        };
        match marks.read(clause) {
            Reading::Falsified => return Outcome::Conflict,
            Reading::Implied(literal) => marks.take(literal),
            Reading::Neither => return Outcome::BadHint,
        }
    }
    Outcome::NoConflict
}

/// What comes of the step at an index, over the formula and the earlier steps.
fn check_step(marks: &mut Marks, formula: &Formula, steps: &Steps, index: usize) -> Outcome
    requires index { index < length steps.now }
    requires covered { Covers marks.old.variables.items formula.now steps.now }
    ensures room { marks.new.variables.items ≡ marks.old.variables.items }
    ensures outcome { (step : StepValue) → slice_get steps.now index ≡ Some step → result ≡ outcome_of (formula.now ++ map clause_of (take index steps.now)) step }
{
    let step = steps.step(index);
    take_negations(marks, step.clause);
    propagate(marks, formula, steps, index, step.hints)
}

/// The fault of the first invalid step.
fn first_fault_of(marks: &mut Marks, formula: &Formula, steps: &Steps) -> Option<StepFault>
    requires { Covers marks.old.variables.items formula.now steps.now }
    ensures room { marks.new.variables.items ≡ marks.old.variables.items }
    ensures fault { result ≡ first_fault formula.now 1 steps.now }
{
    for index in 0..steps.len() {
        match check_step(marks, formula, steps, index) {
            Outcome::Conflict => {}
            Outcome::BadHint => return Some(StepFault::BadHint(index + 1)),
            Outcome::NoConflict => return Some(StepFault::NoConflict(index + 1)),
        }
    }
    None
}

/// Whether the last step's clause is the empty one.
fn is_empty_at_end(steps: &Steps) -> bool
    ensures { result ≡ ends_empty steps.now }
{
    let len = steps.len();
    if len == 0 {
        return false;
    }
    steps.step(len - 1).clause.is_empty()
}

fn verdict_of(fault: Option<StepFault>, empty_at_end: bool) -> Result<(), StepFault>
    ensures { result ≡ verdict fault empty_at_end }
{
    match fault {
        Some(fault) => Err(fault),
        None if empty_at_end => Ok(()),
        None => Err(StepFault::NoEmptyClause),
    }
}

fn push_variables(variables: &mut Vec<u32>, literals: &[Lit]) -> Result<(), AllocError>
    ensures { OnOk result (variables.new.items ≡ variables.old.items ++ map (λ l. l.variable) literals.now) }
{
    variables.reserve(literals.len())?;
    for literal in literals {
        variables.push(literal.variable())?;
    }
    Ok(())
}

/// The variables of a formula and of steps in rising order, each once.
fn rising_variables(alloc: Global, formula: &Formula, steps: &Steps) -> Result<Vec<u32>, AllocError>
    ensures rising { IfOk result (λ v. IsStrictlyIncreasing v.items) }
    ensures all { IfOk result (λ v. (x : ℕ) → Occurs formula.now steps.now x → Contains v.items x) }
    ensures only { IfOk result (λ v. (x : ℕ) → Contains v.items x → Occurs formula.now steps.now x) }
{
    let mut variables = Vec::new(alloc);
    push_variables(&mut variables, formula.literals())?;
    push_variables(&mut variables, steps.literals())?;
    variables.sort_unstable();
    variables.dedup();
    Ok(variables)
}

impl Checker {
    /// A checker with room for this formula and this refutation: for each variable that occurs in
    /// them, and no other.
    pub fn with_room(
        alloc: Global,
        formula: &Formula,
        refutation: &Refutation,
    ) -> Result<Checker, RoomFault>
        ensures covers { IfOk result (λ room. Covers room formula.now refutation.now) }
        ensures only { IfOk result (λ room. (v : ℕ) → Contains room v → Occurs formula.now refutation.now v) }
        ensures once { IfOk result (λ room. IsStrictlyIncreasing room) }
    {
        let Ok(variables) = rising_variables(alloc, formula, refutation.steps()) else {
            return Err(RoomFault::Memory);
        };
        match Marks::with_room(alloc, variables) {
            Ok(marks) => Ok(Checker { marks }),
            Err(_) => Err(RoomFault::Memory),
        }
    }

    /// Whether each step is valid over the formula and the steps before it, and the last clause is
    /// empty; else the first fault. It takes no memory, and time in proportion to the literals of
    /// the clauses that it reads, times the logarithm of the number of variables.
    pub fn check(&mut self, formula: &Formula, refutation: &Refutation) -> Result<(), StepFault>
        requires { Covers self.old formula.now refutation.now }
        ensures exact { result ≡ checked formula.now refutation.now }
        ensures accepts { (result ≡ Ok tt) ↔ IsRefutation formula.now refutation.now }
        ensures sound { OnOk result (Unsatisfiable formula.now) }
        ensures room { self.new ≡ self.old }
    {
        let steps = refutation.steps();
        let fault = first_fault_of(&mut self.marks, formula, steps);
        verdict_of(fault, is_empty_at_end(steps))
    }
}
