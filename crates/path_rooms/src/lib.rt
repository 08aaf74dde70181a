//! How many places code takes, and the objects that it gives to its block, before any of it is walked.
#![tactic(auto)]

mod births;
mod code_rooms;
mod counts;
mod sums;

pub use births::{add_objects, check_fit, with_objects};
pub use code_rooms::{room_of_code, room_of_items, room_of_loop, room_of_repeat};
pub use counts::value_room;
pub use sums::sum;
