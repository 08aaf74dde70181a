//! What is said of a program and a log.
use crate::verdict::Verdict;
use cnf_core::Formula;
use plain_data::{Items, World};
use proof_check::{Refutation, Trail};
use std::alloc::Global;

/// Worlds whose runs fit, in the order in which they were found, and a verdict for each fact.
#[derive(Drop)]
pub struct Findings {
    pub worlds: Items<World>,
    pub verdicts: Items<Verdict>,
}

/// The diagnosis of a program and a log.
#[derive(Drop)]
pub enum Diagnosis {
    Found(Findings),
    /// No world's run fits: a refutation of the run's formula.
    Nothing(Refutation),
    /// The conflicts that were allowed didn't decide whether a run fits: what was learnt from them.
    Undecided(Trail),
}

/// The evidence of one call: the formula of the program's runs, and the diagnosis over it.
#[derive(Drop)]
pub struct Kept {
    pub run: Formula,
    pub diagnosis: Option<Diagnosis>,
}

impl Kept {
    ghost use Rattle.std.specs.Prelude.{◌≡◌, [], None};

    /// Nothing yet. It takes no memory.
    pub fn new(alloc: Global) -> Kept
        ensures run { result.run ≡ [] }
        ensures diagnosis { result.diagnosis ≡ None }
    {
        Kept {
            run: Formula::new(alloc),
            diagnosis: None,
        }
    }
}
