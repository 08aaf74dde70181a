//! Which sources are accepted (C99 6.9, and the rules of `c_means`): why one isn't, and what an accepted one is for all
//! that comes after it, a program that has its core.
#![tactic(auto)]

mod accepting;
mod fault;

pub use accepting::{accept, check};
pub use c_program_notes::Refusal;
pub use fault::CheckFault;
