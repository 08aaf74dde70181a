//! The lines of a log, without their prefixes, and what a run shows along it.
#![tactic(auto)]

mod lines;
mod prefix;
mod stripping;

pub use lines::{LogText, MAX_LOG_BYTES};
pub use prefix::{Prefix, PrefixFault};
pub use stripping::{LogFault, MAX_LOG_LINES, strip};
