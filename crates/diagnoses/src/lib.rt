//! What a diagnosis says of a program and a log: the words of a report, with their evidence.
#![tactic(auto)]

mod assumption;
mod diagnosis;
mod verdict;

pub use assumption::{Assumption, Filling};
pub use diagnosis::{Diagnosis, Findings, Kept};
pub use verdict::{Open, Verdict};
