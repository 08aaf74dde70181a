//! Terms to clauses, and models back to worlds.
#![tactic(auto)]

mod asserting;
mod blasting;
mod decoding;
mod inputs;
mod leaves;
mod more;
mod operators;
mod plainness;
mod reads;
mod shapes;
mod signals;
mod truths;

pub use blasting::{Blasted, blast};
pub use inputs::Inputs;
pub use more::More;
pub use plainness::are_plain;
pub use reads::{blast_reads, go_on_reads};
