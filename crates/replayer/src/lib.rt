//! Accepted sources run: exactly the runs of their definition, by running their cores; how many places they may take
//! and how many nodes they unroll to.
#![tactic(auto)]

mod replaying;

pub use replaying::{replay, room, unrolled_size};
