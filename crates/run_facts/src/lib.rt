//! What a run shows along a stripped log: whether it fits, which facts hold on it, and what its prints saw. None of it
//! takes memory.
#![tactic(auto)]

mod facts;
mod tests_of;

pub use facts::{fits, holds, value_is};
pub use tests_of::{aborts, exits, returns, same_side, stays_in, stops_at, stops_by};
