//! Reads of memory taken away: each byte becomes a choice among words that were written and bytes of the initial
//! memory, which stand in a table with constraints on equal addresses. What asks for an object of a memory becomes a
//! choice among the objects that were made.
#![tactic(auto)]

mod answers;
mod choices;
mod earlier;
mod flatten;
mod object_choices;
mod objects;
mod parts;
mod table;
mod words;

pub use flatten::flat_roots;
pub use table::{Flat, Row, flatten_reads};
