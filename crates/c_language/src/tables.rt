//! What a scope knows of the types that numbers name.

use crate::Name;
use crate::ctype::CType;
use plain_data::Items;

/// How the members of a type lie (C99 6.2.5p20): one behind another, or all at the beginning.
#[derive(Clone, Copy, PartialEq, Eq)]
pub enum AggregateForm {
    Structure,
    Union,
}

/// Why no layout is known of a structure or union.
#[derive(Clone, Copy, PartialEq, Eq)]
pub enum OpaqueCause {
    /// It has a bit-field itself.
    BitField,
    /// It has no bit-field, and a member that has no field, or one of opaque type.
    Other,
}

/// A member with its offset in bytes (C99 6.7.2.1).
#[derive(Drop)]
pub struct Member {
    pub name: Name,
    pub offset: u64,
    pub ctype: CType,
}

/// Where the members of a structure or union lie, in order, and how many bytes an object takes and is aligned to.
#[derive(Drop)]
pub struct Layout {
    pub size: u64,
    pub align: u64,
    pub members: Items<Member>,
}

/// What is known of the members of a structure or union.
#[derive(Drop)]
pub enum Content {
    /// Its list of members hasn't ended yet (C99 6.7.2.3p1).
    Incomplete,
    /// Its list has members of which no layout is known.
    Opaque(OpaqueCause),
    Complete(Layout),
}

/// A structure or union.
#[derive(Drop)]
pub struct Aggregate {
    pub form: AggregateForm,
    pub content: Content,
}

/// What a function declarator says of parameters (C99 6.7.5.3).
#[derive(Clone, Copy, PartialEq, Eq)]
pub enum Prototype {
    /// A list of parameter types, `(void)` among them.
    Fixed,
    /// A list of parameter types that ends in `...`.
    Variadic,
    /// `()` in a declaration: nothing is said.
    Unspecified,
    /// `()` in a function definition: there are none, and this is no prototype.
    EmptyDefinition,
}

/// What a function takes. The types are adjusted (C99 6.7.5.3p7, p8) and have the qualifiers that were declared.
/// The types have signatures of smaller numbers only.
#[derive(Drop)]
pub struct Signature {
    pub prototype: Prototype,
    pub parameters: Items<CType>,
}

/// An enumerated type.
#[derive(Clone, Copy, PartialEq, Eq)]
pub struct Enumeration {
    /// Its list of enumerators has ended (C99 6.7.2.2p4).
    pub is_complete: bool,
}

/// The structures and unions, enumerated types and signatures of a unit, each by its number, from 0. A type that is
/// completed later is one entry that is replaced, so the completion reaches each type that was made before.
#[derive(Drop)]
pub struct Tables {
    pub aggregates: Items<Aggregate>,
    pub enumerations: Items<Enumeration>,
    pub signatures: Items<Signature>,
}
