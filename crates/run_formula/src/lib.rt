//! The formula of a program's runs along a log: terms over the world alone that say which runs fit, which leave the
//! bounds, and on which each fact holds.
#![tactic(auto)]

mod arguments;
mod asking;
mod banks;
mod entering;
mod events;
mod formula;
mod joining;
mod observing;
mod questions;
mod seen;
mod settings;
mod sighting;
mod starts;
mod texts;
mod watches;
mod whole;

pub use formula::{RunFormula, run_formula};
pub use observing::Observation;
pub use questions::Question;
pub use seen::Seen;
pub use starts::start_memory;
pub use watches::{Watch, watches_of};
pub use whole::run_states;
