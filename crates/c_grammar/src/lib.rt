//! The grammar of C (C99 6.5 to 6.9): which trees a list of tokens derives. The definitions stand in `specs/`, and
//! the laws about them in `proofs/`.
#![tactic(auto)]

mod declarator_place;
mod operators;
mod type_words;

pub use declarator_place::DeclaratorPlace;
pub use operators::{
    Infix, aggregate_of, array_word_of, binding_of, class_of, infix_of, operand_rank, qualifier_of,
    rank_of, type_word_of, unary_of, word_specifier,
};
pub use type_words::{TypeKind, TypeWords};
