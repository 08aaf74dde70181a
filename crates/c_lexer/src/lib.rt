//! The lexical grammar of preprocessed C (C99 6.4): a source's bytes divide into white space, comments,
//! directives and tokens, each the longest that begins at its place.
#![tactic(auto)]

mod attribute;
mod class;
mod directive;
mod fault;
mod lexer;
mod literal;
mod lookup;
mod meaning;
mod number;
mod piece;
mod table;
mod walk;
mod words;

pub use fault::LexFault;
pub use lexer::{lex, locate};
