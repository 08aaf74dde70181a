//! What declarations that stand in expressions say (C99 6.7): the steps of `c_language` over what the trees in them say, as
//! code.
#![tactic(auto)]

mod constants;
mod declarators;
mod enumerations;
mod members;
mod names;
mod parameters;
mod said;
mod tags;
mod type_names;
mod types;
mod words;

pub use declarators::{Counted, Formed, Parameters};
pub use enumerations::Counting;
pub use members::Laid;
pub use parameters::{Listed, Named, prototype};
pub use said::Said;
pub use tags::Begun;
pub use type_names::TypeSaid;
pub use types::{derived_from, formed_type};
