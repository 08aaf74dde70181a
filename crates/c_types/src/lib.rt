//! Types of C for the crates above: layouts, conversions, constants, scopes and declarations (C99 6.2, 6.3, 6.6, 6.7).
#![tactic(auto)]

mod constants;
mod conversions;
mod faults;
mod scope;
mod sizes;

pub use c_declarations::{DeclarationSaid, FunctionSaid, tentative_type};
pub use c_initials::{Filling, Frame, Frames, Part, filling_of};
pub use c_language::{
    Aggregate, AggregateForm, Argument, Base, CType, Called, Class, Content, Derivation, Domain,
    Duration, Entry, Enumeration, Fault, FloatingKind, IntegerKind, Layout, LayoutRule, Linkage,
    Linked, Means, Member, OBJECT_LIMIT, OpaqueCause, Prototype, Qualifiers, RealKind, Rule, Shown,
    Signature, Tables, Tag, TagMeans, Told,
};
pub use c_type_scope::{Block, Scope as Names};
pub use c_typing::typed;
pub use constants::{const_value, layout};
pub use conversions::{promote, usual};
pub use faults::TypeFault;
pub use scope::Scope;
pub use sizes::{align_of, offset_of, size_of};
