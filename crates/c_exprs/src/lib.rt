//! The parser of C's expressions (C99 6.5), and of the specifiers and declarators that stand in one another with them
//! (C99 6.7): each gives exactly what its reading function in `c_grammar` gives.
#![tactic(auto)]

mod aggregates;
mod arguments;
mod below;
mod declarators;
mod discarding;
mod enumerations;
mod enumerators;
mod knot;
mod members;
mod operators;
mod parameters;
mod postfix;
mod prefix;
mod primary;
mod ranks;
mod single;
mod specifiers;
mod suffixes;
mod trees;

pub use trees::Trees;
