//! A solver by conflict-driven clause learning that logs each learnt clause with the clauses from
//! which it follows by unit propagation.
#![tactic(auto)]

mod analysis;
mod answer;
mod asking;
mod assigned;
mod beginning;
mod chooser;
mod choosing;
mod clauses;
mod learning;
mod ranking;
mod restarts;
mod scores;
mod search;
mod solver;
mod tally;
mod watching;

pub use answer::{Answer, SolveFault};
pub use chooser::{Chooser, LeastOpen, MostMarked};
pub use scores::Scores;
pub use solver::Solver;
