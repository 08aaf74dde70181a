//! What programs of C mean: definitions alone, with the kinds of states that they speak of.
#![tactic(auto)]

mod breach;
mod kind;
mod profile;

pub use breach::{Breach, BrokenRule};
pub use kind::Kind;
pub use profile::{FillAnswer, FillFunction, IdentityFunction, LogFunction, LogText, Profile};
