ghost use Rattle.std.specs.Prelude.{◌≡◌, ◌<◌, [], ◌∷◌, ◌++◌, ◌↔◌, IsTrue, OnOk, OnErr, Some, map, length, slice_get};
ghost use Rattle.std.specs.List.{flat_map};
ghost use Rattle.proof_check.specs.Steps.{clause_of};

use cnf_core::Lit;
use plain_data::Rows;
use std::alloc::{AllocError, Global};
use std::marker::Model;

/// A clause, and the numbers of the clauses from which it follows by unit propagation, in order:
/// those of the formula from 1 on, then those of the earlier steps.
#[derive(Drop)]
pub struct Step<'a> {
    pub clause: &'a [Lit],
    pub hints: &'a [u32],
}

impl<'a> Model for Step<'a> {
    ghost use Rattle.proof_check.specs.Steps.{Step as StepValue};

    ghost Value = { StepValue };

    ghost view = { λ s. record { clause = s.clause.now; hints = s.hints.now } };
}

/// A list of steps, with no allocation of its own for a step.
pub struct Steps {
    clauses: Rows<Lit>,
    hints: Rows<u32>,
}

/// By hand, so that a call stands in place of all its parts wherever a value is let go.
impl Drop for Steps {
    fn drop(self) {
        let Steps { clauses, hints } = self;
    }
}

impl Model for Steps {
    ghost use Rattle.std.specs.Prelude.{◌≡◌, List, length};
    ghost use Rattle.proof_check.specs.Steps.{Step as StepValue, steps_of};

    ghost Value = { List StepValue };

    ghost view = { λ s. steps_of s.clauses s.hints };

    ghost invariant = { λ s. length s.clauses ≡ length s.hints };
}

impl Steps {
    /// No steps. It takes no memory before the first step comes.
    pub fn new(alloc: Global) -> Steps
        ensures { result ≡ [] }
    {
        Steps {
            clauses: Rows::new(alloc),
            hints: Rows::new(alloc),
        }
    }

    /// How many steps there are.
    pub fn len(&self) -> usize
        ensures { result ≡ length self.now }
    {
        self.clauses.len()
    }

    /// Whether there is no step.
    pub fn is_empty(&self) -> bool
        ensures { IsTrue result ↔ (self.now ≡ []) }
    {
        self.len() == 0
    }

    /// The step at an index, counted from 0.
    pub fn step(&self, index: usize) -> Step<'_>
        requires { index < length self.now }
        ensures { slice_get self.now index ≡ Some result }
    {
        Step {
            clause: self.clauses.row(index),
            hints: self.hints.row(index),
        }
    }

    /// The literals of all clauses, one clause after the other.
    pub fn literals(&self) -> &[Lit]
        ensures { result.now ≡ flat_map (λ clause. clause) (map clause_of self.now) }
    {
        self.clauses.items()
    }

    /// Puts a copy of a step at the end. It fails for want of memory alone.
    pub fn push(&mut self, step: Step<'_>) -> Result<(), AllocError>
        ensures ok { OnOk result (self.new ≡ self.old ++ step.entry ∷ []) }
        ensures err { OnErr result (self.new ≡ self.old) }
    {
        self.clauses.push(step.clause)?;
        let pushed = self.hints.push(step.hints);
        if pushed.is_err() {
            self.clauses.truncate(self.hints.len());
        }
        pushed
    }
}

/// Steps that are to end in the empty clause.
pub struct Refutation {
    steps: Steps,
}

/// By hand, so that a call stands in place of all its parts wherever a value is let go.
impl Drop for Refutation {
    fn drop(self) {
        let Refutation { steps } = self;
    }
}

impl Model for Refutation {
    ghost use Rattle.std.specs.Prelude.{List};
    ghost use Rattle.proof_check.specs.Steps.{Step as StepValue};

    ghost Value = { List StepValue };

    ghost view = { λ r. r.steps };
}

impl Refutation {
    /// These steps, which keep their memory.
    pub fn from_steps(steps: Steps) -> Refutation
        ensures { result ≡ steps }
    {
        Refutation { steps }
    }

    /// The steps in order.
    pub fn steps(&self) -> &Steps
        ensures { result.now ≡ self.now }
    {
        &self.steps
    }
}

/// What a search has learnt: steps over the formula that were kept from before, and steps over the
/// formula followed by those.
#[derive(Drop)]
pub struct Trail {
    pub kept: Steps,
    pub steps: Steps,
}
