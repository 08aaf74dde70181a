//! The log calls of a program.
#![tactic(auto)]

mod listing;

pub use core_marks::Site;
pub use listing::{SiteFault, SiteList, sites};
