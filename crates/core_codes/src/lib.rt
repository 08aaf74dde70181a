//! The core of the statements of a function: one recursion over the tree, which makes each form's code of its parts'.
#![tactic(auto)]

mod context;
mod made;
mod parts;
mod pieces;
mod statements;

pub use context::Context;
pub use made::{Body, Made};
pub use parts::{Begun, Parts, Valued};
pub use statements::{content, statement};
