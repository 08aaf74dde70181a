//! What the functions of a program can print: log expressions.
#![tactic(auto)]

mod codes;
mod expressions;
mod told;
mod tree;
mod values;

pub use expressions::expression;
pub use tree::LogExpr;
