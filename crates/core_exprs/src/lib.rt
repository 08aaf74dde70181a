//! The core of expressions: one recursion over the whole syntax of C99 6.5, over what a function's calls are.
#![tactic(auto)]

mod arguments;
mod callees;
mod calls;
mod entries;
mod forms;
mod found;
mod said;
mod site;
mod trees;
mod unary;

pub use callees::Callees;
pub use entries::{Initial, effect, initializer, value, value_as};
pub use found::Found;
pub use site::Site;
pub use trees::core_of;
