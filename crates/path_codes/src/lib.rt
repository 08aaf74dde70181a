//! What the core's statements make of states: one function a form, over a function that walks parts.
#![tactic(auto)]

mod below;
mod blocks;
mod bodies;
mod choices;
mod labels;
mod selecting;
mod settings;
mod storing;
mod straight;
mod texts;
mod turns;
mod walking;
mod zeroing;

pub use below::{Coded, Steps};
pub use bodies::walk_body;
pub use texts::lay_text;
pub use walking::{walk_code, walk_items};
