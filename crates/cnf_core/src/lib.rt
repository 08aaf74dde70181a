//! Literals, clauses, formulas in conjunctive normal form, and assignments.
#![tactic(auto)]

mod assignment;
mod clause;
mod formula;
mod lit;

pub use assignment::{Assignment, satisfies};
pub use clause::Clause;
pub use formula::Formula;
pub use lit::Lit;
