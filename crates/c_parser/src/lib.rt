//! The parser of C: from the tokens of a source to the one unit that they derive (C99 6.9).
#![tactic(auto)]

mod blocks;
mod bodies;
mod control;
mod declarations;
mod designators;
mod dispatch;
mod externals;
mod for_loop;
mod groups;
mod initializers;
mod jumps;
mod scopes;
mod shared;
mod statements;
mod turns;
pub mod unit;

pub use c_reading::ParseFault;
pub use unit::{discard, parse};
