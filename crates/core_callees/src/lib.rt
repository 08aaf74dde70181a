//! Which callee of the core a call is (C99 6.5.2.2): by the rule that it follows, over what is known of a program's
//! functions.
#![tactic(auto)]

mod automatic;
mod bodies;
mod calling;
mod choosing;
mod laws;
mod numbered;
mod watching;

pub use automatic::automatic_entries;
pub use bodies::{PreludeFunction, prelude_function};
pub use calling::Calling;
pub use laws::{calls_are_those_of_the_program, table_tells_its_functions};
pub use numbered::{FunctionNumber, number_named, numbered_functions};
pub use watching::watched_variables;
