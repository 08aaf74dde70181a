//! How many nodes parts of the core unroll to: each part of a loop's turn once for each turn, and of a call's callee
//! once for each call.
#![tactic(auto)]

mod codes;
mod programs;
mod sizes;
mod values;

pub use codes::{code_size, items_size};
pub use programs::unrolled_size;
pub use sizes::Sizes;
pub use values::value_size;
