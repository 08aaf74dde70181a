//! What calls of the core do, run on a machine: log calls, identity calls, functions of the C library and functions
//! outside; a call by body is handed in.
#![tactic(auto)]

mod answers;
mod arguments;
mod callees;
mod heap;
mod logs;
mod numbers;
mod outside;
mod spoken;
mod texts;
mod watched;

pub use callees::{leave_bounds, run_callee};
