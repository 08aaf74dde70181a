//! What the trees of C say of types, constants and names (`c_language`), as code: one recursion over the whole syntax, and
//! its forms of expressions, for walks that find more beside. It
//! fails for want of memory alone.
#![tactic(auto)]

mod arguments;
mod forms;
mod parts;
mod trees;

pub use arguments::{Arguments, and_argument, no_arguments};
pub use forms::{
    arrow, assignment, binary, call, cast, character_constant, choice, comma, function_name,
    identifier, member, postfix, size_of_expression, size_of_type, string_literal, subscript,
    unary, value,
};
pub use trees::{declarator, specifiers, type_name, typed};
