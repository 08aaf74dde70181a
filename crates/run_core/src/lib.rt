//! What the functions of a program of the core run in, by how many levels of calls are left below them.
#![tactic(auto)]

mod place;
mod rooms;

pub use place::{Bare, Place};
pub use rooms::{add_rooms, no_rooms};
