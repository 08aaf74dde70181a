//! What stands at the tokens of a program that facts and log sites are read off: branches with their sides, calls, log
//! calls, and the kinds of undefined behaviour by which a run can end there.
#![tactic(auto)]

mod callees;
mod codes;
mod copying;
mod mark;
mod operators;
mod ordering;
mod programs;
mod values;

pub use mark::{Mark, Site};
pub use ordering::{in_order, kind_number};
pub use programs::{library_marks, source_marks};
