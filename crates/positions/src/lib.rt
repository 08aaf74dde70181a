//! Sets of positions of a log, in ascending order.
#![tactic(auto)]

mod merging;
mod positions;

pub use positions::Positions;
