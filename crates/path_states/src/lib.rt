//! Symbolic states: runs of the core along a log in all worlds at once, as guarded states whose parts are terms.
#![tactic(auto)]

mod guards;
mod joining;
mod kinds;
mod state;

pub use guards::{Sides, halve};
pub use joining::join;
pub use kinds::{StateKind, copy_kind, copy_state_kind};
pub use state::{Number, State, Walked, alone, settled};
