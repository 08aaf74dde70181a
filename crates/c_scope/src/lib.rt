//! The names in scope while a source is parsed (C99 6.2.1), and which of them are typedef names.
#![tactic(auto)]

mod file;
mod kinds;
mod known;
mod level;
mod levels;
mod names;

pub use file::FileNames;
pub use names::Names;
