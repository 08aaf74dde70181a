//! Bits that are known or stand for a literal, and gates over them, each defined by clauses and made once.
#![tactic(auto)]

mod bit;
mod cell;
mod folding;
mod gates;

pub use bit::Bit;
pub use gates::{BlastFault, Gates};
