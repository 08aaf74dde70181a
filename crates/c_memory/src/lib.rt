//! The memory of an interpreter of C: the live objects by their numbers, each with the bytes that were laid in it.
#![tactic(auto)]

mod cell;
mod memory;

pub use cell::Cell;
pub use memory::Memory;
