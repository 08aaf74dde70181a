//! What an expression is worth.

use c_machine::Value;

/// The value of an expression of the core, and the first place behind its own.
#[derive(Drop)]
pub struct Found {
    pub value: Value,
    pub next: u64,
}
