//! Objects that declarations give to blocks and to the whole run, in the core: what their initializers set, in a block
//! and before the program starts.
#![tactic(auto)]

mod begun;
mod given;
mod objects;

pub use begun::{Begun, joined, nothing_begun, one_begun};
pub use given::{Initial, not_initialised};
pub use objects::declared_object;
