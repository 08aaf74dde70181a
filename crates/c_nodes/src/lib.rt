//! The nodes of C's tree as a parser makes them: each with how loosely it binds and its height.
#![tactic(auto)]

pub mod declarator;
pub mod expr;
mod found;
pub mod pieces;
pub mod specifier;

pub use found::{
    FoundDeclarator, FoundEnumerator, FoundExpr, FoundField, FoundFieldName, FoundFields,
    FoundMember, FoundMembers, FoundOptional, FoundParameter, FoundParameters, FoundSpecifier,
    FoundSpecifiers, FoundType,
};
