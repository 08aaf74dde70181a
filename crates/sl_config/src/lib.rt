//! What the words of a command line ask for, and the source and the log on which the program tries itself. (The
//! configuration is read by `config_text`.)
#![tactic(auto)]

mod generating;
mod given;
mod job;
mod name;
mod numbers;
mod reading;
mod step;
mod table;

pub use generating::{MakeFault, make_log, make_source};
pub use job::{Command, Job, WordsFault};
pub use name::Name;
pub use reading::read_words;

#[cfg(test)]
mod tests;
