//! What whole expressions of the core make of states.
#![tactic(auto)]

mod assigning;
mod below;
mod calls;
mod choices;
mod evaluating;
mod objects;
mod pairs;
mod single;
mod walking;

pub use walking::{Valued, walk_value};
