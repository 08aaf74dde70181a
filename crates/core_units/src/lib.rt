//! Units of C in the core: the core of a whole source (C99 6.9).
#![tactic(auto)]

mod library;
mod plan;
mod unit;
mod walk;

pub use plan::{Numbering, Plan};
pub use unit::{All, Parts, core_of};
pub use walk::{Around, Made};
