//! C as data: tokens of a preprocessed source (C99 6.4) and where they stand, the syntax tree, and types with their
//! layouts, conversions and operators on whole numbers; and what types and scopes say of a tree, as definitions.
#![tactic(auto)]

mod class;
mod compatible;
mod ctype;
mod expr;
mod integers;
mod layouts;
mod operators;
mod places;
mod scope;
mod shown;
mod tables;
mod token;
mod unit;

pub use class::Class;
pub use ctype::{Base, CType, Derivation, Domain, FloatingKind, IntegerKind, Qualifiers, RealKind};
pub use expr::{
    AggregateKind, ArrayWord, BinaryOperator, Declarator, Enumerator, Expr, Field,
    MemberDeclaration, Parameter, PostfixOperator, Qualifier, Specifier, StorageClass, TagName,
    TypeName, TypeWord, UnaryOperator,
};
pub use layouts::{Extent, OBJECT_LIMIT};
pub use places::Places;
pub use scope::{Duration, Entry, Fault, LayoutRule, Linkage, Linked, Means, Rule, Tag, TagMeans};
pub use shown::{Argument, Called, Shown, Told};
pub use tables::{
    Aggregate, AggregateForm, Content, Enumeration, Layout, Member, OpaqueCause, Prototype,
    Signature, Tables,
};
pub use token::{
    IntegerConstant, IntegerType, Keyword, Name, Place, Punctuator, Spot, Token, TokenKind, Tokens,
};
pub use unit::{
    Body, Declaration, Designator, External, ForStart, InitDeclarator, Initializer,
    InitializerItem, Stmt, Unit,
};
