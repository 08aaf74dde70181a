//! What makes the cores of the expressions and declarations in the statements of a function, over what its calls are.
#![tactic(auto)]

mod whole;

pub use whole::Whole;
