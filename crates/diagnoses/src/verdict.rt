//! What is said of one fact.
use proof_check::{Refutation, Trail};

/// The question on a fact that stayed open.
#[derive(Clone, Copy, PartialEq, Eq)]
pub enum Open {
    /// Whether a run fits on which the fact holds.
    Having,
    /// Whether a run fits on which the fact doesn't hold.
    Lacking,
}

/// What is said of one fact. Worlds are named by their numbers in the list of worlds, from 1.
#[derive(Drop)]
pub enum Verdict {
    /// It holds on each run that fits: a refutation of the claim that one fits and lacks it.
    Must(Refutation),
    /// It holds on no run that fits: a refutation of the claim that one fits and has it.
    MustNot(Refutation),
    /// It holds on the run of the first world and not on that of the second, which both fit.
    May {
        having: u32,
        lacking: u32,
    },
    /// The conflicts that were allowed didn't decide the question: the first `known` worlds don't show it, and what was
    /// learnt from the conflicts.
    Unknown {
        open: Open,
        known: u32,
        trail: Trail,
    },
}
