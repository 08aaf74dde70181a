//! Statements and declarations of the core, run on a machine: one function a form, over the functions that run its
//! parts.
#![tactic(auto)]

mod below;
mod blocks;
mod bodies;
mod choices;
mod labels;
mod settings;
mod turns;
mod values;
mod walking;

pub use below::Steps;
pub use walking::{Walk, run_body, run_code, run_items};
