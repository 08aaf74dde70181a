//! A function's body for all entry memories, arguments and bases at once, put in where the function is called.
#![tactic(auto)]

mod arguments;
mod composing;
mod images;
mod nodes;
mod summary;

pub use composing::{compose, put_in};
pub use summary::Summary;
