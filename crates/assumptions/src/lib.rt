//! What the runs of an accepted source rest on that it doesn't define (C99 6.5.2.2, 6.9): the functions outside that
//! functions which are reached call, and the objects that are needed and have no definition. It fails for want of
//! memory alone.
#![tactic(auto)]

mod asking;
mod listing;
mod names;
mod objects;
mod outside;

pub use diagnoses::{Assumption, Filling};
pub use listing::assumptions;
