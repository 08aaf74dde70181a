//! The core of function definitions (C99 6.9.1), over what makes that of their statements. It fails for want of memory
//! alone.
#![tactic(auto)]

mod definitions;
mod heads;

pub use definitions::{Definition, define};
