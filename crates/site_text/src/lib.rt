//! The lines that tell of log calls: with their formats, and where along a log their prints can end.
#![tactic(auto)]

mod ending;
mod escaping;
mod formats;
mod lines;

pub use lines::{match_lines, site_lines};
