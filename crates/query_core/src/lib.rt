//! Questions on the runs of a program that fit a log: on facts, asked of one solver over the clauses of its formula,
//! and on what watched variables were, each asked of a solver of its own over these clauses and those of its literal.
#![tactic(auto)]

mod asking;
mod bits;
mod clauses;
mod defining;
mod fault;
mod others;
mod query;
mod reply;
mod seeking;
mod target;

pub use fault::AskFault;
pub use query::Query;
pub use reply::Reply;
pub use target::Target;
