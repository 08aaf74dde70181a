//! The translation of accepted programs into the core language: so far what it is to be the core of a part, with a
//! proof for each form of scalars and control.
#![tactic(auto)]

mod operators;
mod types;

pub use operators::{OperandType, operator_of, working};
pub use types::{arithmetic, value_type, word_type};
