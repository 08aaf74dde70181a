//! What stands before `main` is called, run on a machine: the places that are met, the objects that are made, and the
//! arguments that `main` is given (C99 5.1.2.2.1, 6.2.4p3). Initializers come from the crates above.
#![tactic(auto)]

mod arguments;
mod objects;

pub use arguments::{Arguments, argument_count};
pub use objects::{make_all, meet_all};
