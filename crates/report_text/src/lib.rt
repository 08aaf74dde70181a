//! The text of a report: bytes that are a function of the diagnosis and of what it is about.
#![tactic(auto)]

mod fact_texts;
mod head_lines;
mod numbers;
mod reports;
mod verdict_lines;
mod world_texts;

pub use fact_texts::{put_place, word_of_kind};
pub use numbers::put_count;
pub use reports::{Subject, report};
