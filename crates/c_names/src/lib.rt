//! Which names a tree uses, declares and binds, with its string literals (C99 6.2.1, 6.2.3), and which external
//! declarations a program needs (C99 6.9).
#![tactic(auto)]

mod expressions;
mod forms;
mod found;
mod needs;
mod offsets;
mod parting;
mod stack;
mod statements;
mod summaries;
mod units;
mod words;
mod working;

pub use needs::{is_needed, needed_words};
pub use stack::Stack;
pub use summaries::Names;
pub use units::{external_names, head_names};
pub use words::{Binding, Literal, Word, has_word};
