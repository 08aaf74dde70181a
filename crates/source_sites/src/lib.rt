//! The log calls of a source, with their formats as they are written.
#![tactic(auto)]

mod choosing;
mod listing;

pub use c_notes::LogFormat;
pub use choosing::sites_of;
pub use listing::{Site, sites};
