//! A checker of refutations by unit propagation along hints. What it accepts has no satisfying
//! assignment.
#![tactic(auto)]

mod checker;
mod fault;
mod marks;
mod propagation;
mod steps;

pub use checker::{Checker, RoomFault};
pub use fault::StepFault;
pub use steps::{Refutation, Step, Steps, Trail};
