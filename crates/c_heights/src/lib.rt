//! The heights of syntax trees, by the grammar's definition, without memory. A height above the greatest number of 32
//! bits counts as that number.
#![tactic(auto)]

mod expr;
mod unit;

pub use expr::{declarator_height, expr_height, highest_specifier};
pub use unit::{
    declaration_height, external_height, highest_external, initializer_height, stmt_height,
};
