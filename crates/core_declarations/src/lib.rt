//! The core of declarations (C99 6.7): objects of blocks with their initializers, and what the initializers of objects
//! set that live throughout the run, over what a function's calls are.
#![tactic(auto)]

mod bare;
mod declarations;
mod hearing;
mod initials;
mod pairing;

pub use core_objects::Begun;
pub use declarations::declaration;
pub use hearing::{Heard, hear};
