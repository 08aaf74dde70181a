//! The functions of the C library that have a body here (C99 7.20.1.2, 7.21), as trees: each is made by steps that
//! stand in a table, a node behind its parts.
#![tactic(auto)]

mod bench;
mod comparing;
mod copying;
mod functions;
mod numbers;
mod stack;
mod step;

pub use functions::prelude;
