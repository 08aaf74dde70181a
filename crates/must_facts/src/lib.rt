//! The diagnosis of an accepted source and a log: a verdict on each fact, with its evidence.
#![tactic(auto)]

mod diagnosing;
mod fault;
mod inquiry;
mod known;
mod weighing;
mod whole;

pub use diagnosing::diagnose;
pub use fault::DiagnoseFault;
pub use inquiry::Inquiry;
pub use whole::{Diagnosed, diagnose_source};
