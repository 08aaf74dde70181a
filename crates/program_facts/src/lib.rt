//! The facts of a program along a log, and the variables that its prints watch, both in the order of a report.
#![tactic(auto)]

mod endings;
mod entries;
mod fault;
mod listing;
mod marks;
mod prints;

pub use fault::FactFault;
pub use listing::facts_of;
