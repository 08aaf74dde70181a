//! What calls by rule do to a state: where a call begins, identity calls, ends of the run, the heap,
//! and functions outside.
#![tactic(auto)]

mod answering;
mod beginning;
mod callees;
mod fills;
mod heap;
mod outside_calls;
mod outside_pointers;
mod outside_words;
mod placing;
mod requests;

pub use answering::{answer, argument};
pub use beginning::{begin, take_arguments};
pub use callees::{abort, call_by_rule, exit, identity};
pub use heap::{calloc, free, malloc};
pub use outside_calls::outside;
pub use outside_words::outside_word;
