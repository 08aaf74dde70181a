//! Programs in the core: what it is to be the core of a whole program, and that it has then the program's run; the
//! places of what lives throughout the run.
#![tactic(auto)]

mod places;

pub use places::PlaceTable;
