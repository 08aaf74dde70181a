//! What each arrow of the core's code makes of states, where no expression and no part of it is walked.
#![tactic(auto)]

mod jumping;
mod objects;
mod points;
mod sifting;

pub use jumping::{give, jump, leave, pass};
pub use objects::{Object, bear, bury, place};
pub use points::{Point, arrive};
pub use sifting::{Sifted, rejoin, sift};
