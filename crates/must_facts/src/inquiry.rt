//! What is asked.
use accepted::Accepted;
use log_text::LogText;
use plain_data::{Bounds, Fact};

/// An accepted source within bounds, a log, the facts that are asked of the runs that print it, and how many conflicts
/// each question may take.
#[derive(Clone, Copy)]
pub struct Inquiry<'a> {
    pub program: &'a Accepted,
    pub bounds: &'a Bounds,
    pub log: &'a LogText,
    pub facts: &'a [Fact],
    pub conflicts: u32,
}
