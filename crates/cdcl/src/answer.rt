use cnf_core::Assignment;
use proof_check::{Refutation, Trail};
use thiserror::Error;

/// What a question comes to.
#[derive(Drop)]
pub enum Answer {
    /// An assignment that satisfies the clauses and makes the assumptions true.
    Sat(Assignment),
    /// A refutation of the clauses with the assumptions as unit clauses last.
    Unsat(Refutation),
    /// The clauses learnt from the conflicts that were allowed.
    Spent(Trail),
}

/// Why a question has no answer.
#[derive(Clone, Copy, Debug, PartialEq, Eq, Error)]
pub enum SolveFault {
    /// Memory ran out, or a clause, a step or a level would have no number below 2^32.
    #[error("out of memory")]
    Memory,
}
