//! What an accepted source is for all that comes after it: a program that has its core. `acceptance` makes one.
#![tactic(auto)]

mod program;

pub use program::{Accepted, discard_source};
