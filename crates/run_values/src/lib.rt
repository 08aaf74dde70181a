//! Expressions of the core, run on the machine: each node by a function of its own, over the functions that run its
//! parts, and all of them by a walk down the tree.
#![tactic(auto)]

mod assigning;
mod below;
mod calling;
mod choices;
mod evaluating;
mod leaves;
mod memory;
mod numbers;
mod pairs;
mod rooms;
mod single;
mod steps;
mod walking;

pub use below::Below;
pub use memory::{load, operated, put};
pub use numbers::{convert, kind_of, turned, worked};
pub use rooms::{callee_room, room_behind, value_room};
pub use steps::{branch, end, note, or_stop, stop};
pub use walking::{Walk, value_of};
