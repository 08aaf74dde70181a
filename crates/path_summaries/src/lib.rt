//! Summaries of the functions of a program along a log: each body is walked once for each depth and position.
#![tactic(auto)]

mod beyond;
mod level;
mod levels;
mod table;
mod walking;

pub use level::Level;
pub use levels::{Floor, Levelled, summarize};
pub use table::{Kept, Summaries};
pub use walking::walk;
