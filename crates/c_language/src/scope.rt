//! The names in force (C99 6.2.1 to 6.2.4), and the rules that a tree may break.

use crate::{CType, Name};
use plain_data::Shared;

/// A rule on sizes or constants that is broken.
#[derive(Clone, Copy, PartialEq, Eq)]
pub enum LayoutRule {
    /// A type has no size where one is wanted.
    Incomplete,
    /// A type, or one from which it is derived, has more bytes than an object may have.
    ObjectTooLarge,
    /// An expression that must be constant isn't, or the length of an array is below 0.
    NotConstant,
}

/// A rule that is broken.
#[derive(Clone, Copy, PartialEq, Eq)]
pub enum Rule {
    Undeclared,
    TypeMismatch,
    NotModifiable,
    FloatUsed,
    IndirectCall,
    StructByValue,
    BitField,
    Layout(LayoutRule),
    DuplicateDefinition,
}

/// A broken rule, and the byte offset of the token at which it is broken.
#[derive(Clone, Copy, PartialEq, Eq)]
pub struct Fault {
    pub at: u32,
    pub rule: Rule,
}

/// The linkage of a name (C99 6.2.2).
#[derive(Clone, Copy, PartialEq, Eq)]
pub enum Linkage {
    None,
    Internal,
    External,
}

/// The storage duration of an object (C99 6.2.4).
#[derive(Clone, Copy, PartialEq, Eq)]
pub enum Duration {
    Static,
    Automatic,
}

/// What an ordinary name stands for (C99 6.2.3).
#[derive(Drop)]
pub enum Means {
    Object {
        ctype: Shared<CType>,
        duration: Duration,
        linkage: Linkage,
    },
    Function {
        ctype: Shared<CType>,
        linkage: Linkage,
    },
    Typedef {
        ctype: Shared<CType>,
    },
    /// An enumeration constant (C99 6.7.2.2), of type `int`.
    Constant {
        value: i32,
    },
    /// A name whose declaration breaks a rule: nothing is known of it, and what uses it breaks no rule itself.
    Faulty,
}

/// An ordinary name in force. Its offset is that of its declaration; for a name with linkage, of the first
/// declaration of
/// that object or function.
#[derive(Drop)]
pub struct Entry {
    pub at: u32,
    pub name: Name,
    pub means: Means,
}

/// Which type a tag stands for (C99 6.7.2.3), by its number in the tables.
#[derive(Clone, Copy, PartialEq, Eq)]
pub enum TagMeans {
    Aggregate(u32),
    Enumerated(u32),
}

/// A tag in force, and whether its list of members or enumerators was begun.
#[derive(Drop)]
pub struct Tag {
    pub name: Name,
    pub means: TagMeans,
    pub is_listed: bool,
}

/// An object or function with linkage (C99 6.2.2p2), by the offset of its first declaration, and whether it has a
/// definition.
#[derive(Drop)]
pub struct Linked {
    pub at: u32,
    pub name: Name,
    pub linkage: Linkage,
    pub is_defined: bool,
}
