//! What is called in the core, for calls that are no calls by body: functions of the C library, functions outside, and
//! the formats of log calls.
#![tactic(auto)]

mod library;
mod logs;
mod outside;

pub use library::library_callee;
pub use logs::{arguments_before, log_pieces, word_types};
pub use outside::{fill, outside_answer};
