//! What initializers say (C99 6.7.8): which part of an object each expression initialises, the length that an array of
//! unknown length gets, and the rules that are broken; exactly the definitions of `c_language`.
#![tactic(auto)]

mod designators;
mod filling;
mod frames;
mod parts;
mod trees;
mod values;

pub use designators::designated_by;
pub use filling::{Filling, fills_value};
pub use frames::{Frame, Frames};
pub use parts::Part;
pub use trees::{
    Goes, Opened, filling_of, fills, list_alone, list_begun, list_closed, value_alone,
    with_part_left,
};
