//! Whole runs of a program of the core, on the machine: what stands before `main`, `main`, and every call by body below
//! it, by how many levels of calls are left.
#![tactic(auto)]

mod beginning;
mod calls;
mod entry;
mod measures;
mod rooms;
mod whole;

pub use measures::room;
pub use whole::run;
