//! Types and constants of C: what each form of expression says over what its parts say (`c_language`), as code.
#![tactic(auto)]

mod aggregates;
mod assigning;
mod calling;
mod operators;
mod primary;
mod told;
mod turning;
mod values;

pub use assigning::{is_assignable, same_aggregate};
pub use calling::{call, one_fault};
pub use operators::worked;
pub use primary::{
    character_constant, floating_constant, function_name, identifier, integer_constant,
    string_literal,
};
pub use told::{
    arrow, assignment, binary, cast, choice, comma, is_floating, joined, member, node, operand,
    postfix, refused, size_of_expression, size_of_type, subscript, typeless, unary, used,
};
pub use turning::{is_array, is_function, is_void, turned};
pub use values::has_size;
