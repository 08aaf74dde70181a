//! That a run of C meets no place of the world twice, and none but those of its room; and that this room is
//! the same in every world.
#![tactic(auto)]

mod law;

pub use law::{places_are_met_once, rooms_are_the_same_in_every_world};
