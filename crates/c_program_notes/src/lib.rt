//! A whole source read once (C99 6.9): what is noted of each external declaration; which declarations and functions a
//! program needs, what lives throughout its run, and which rule it breaks first (`c_means`). It fails for want of
//! memory alone.
#![tactic(auto)]

mod accepting;
mod lasting;
mod needing;
mod outers;
mod places;
mod watched;
mod whole;

pub use accepting::{Refusal, why_refused};
pub use lasting::{final_size, objects};
pub use needing::{Needs, Text, needs_of};
pub use outers::{OuterNotes, ProgramNotes, outer_notes, program_notes};
pub use places::{met, place_table};
pub use watched::watched_lasting;
pub use whole::{Overview, Preparation, prepare, read_source};
