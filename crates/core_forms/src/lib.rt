//! The core of each form of expression, over what its parts are in the core.
#![tactic(auto)]

mod addresses;
mod assigning;
mod built;
mod choices;
mod constants;
mod names;
mod operators;
mod single;
mod types;

pub use addresses::{address_of, arrow, indirection, member, subscript};
pub use assigning::{compound, decrement, increment, postfix, simple};
pub use built::{Built, Call, Node, Used, discarded, operand};
pub use choices::{cast, cast_operand, choice, converted};
pub use constants::{
    character_constant, floating_constant, integer_constant, size_of_expression, size_of_type,
};
pub use names::{Places, function_name, identifier, left, string_literal};
pub use operators::{binary, comma};
pub use single::{complement, minus, not, plus};
pub use types::type_as;
