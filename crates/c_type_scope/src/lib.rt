//! The names in force in C (C99 6.2.1 to 6.2.4), and the tables of types, as code: exactly the scopes of `c_language`.
#![tactic(auto)]

mod copies;
mod names;
mod scope;
mod tables;

pub use names::{HasName, Named};
pub use scope::{Block, Scope};
