//! Which functions of a program are reached (`c_means`), over summaries that are made once of each definition.
#![tactic(auto)]

mod search;
mod summaries;

pub use c_names::{Stack, Word, has_word};
pub use search::{Reaching, is_among, named_functions, reached};
pub use summaries::FunctionNotes;
