//! Which positions of a log the functions of a program can reach: end tables, and the walks of expressions and code
//! along a log that make them.
#![tactic(auto)]

mod bodies;
mod callees;
mod calls;
mod codes;
mod course;
mod end_tables;
mod flow;
mod place;
mod stage;
mod steps;
mod table;
mod trail;
mod values;

pub use bodies::walk_body;
pub use callees::{Walk, walk_callee};
pub use codes::{walk_code, walk_codes};
pub use course::{Aside, Course};
pub use end_tables::end_table;
pub use flow::Flow;
pub use place::Place;
pub use stage::Stage;
pub use table::{EndTable, Ends, Entry};
pub use trail::Trail;
pub use values::walk_value;
