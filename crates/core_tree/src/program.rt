//! Programs of the core.

use crate::code::{Code, Setting};
use crate::types::ValueType;
use c_language::Name;
use c_store::ObjectKind;
use plain_data::{Bytes, Items, Shared};

/// A parameter, by the offset of its name: an object, in which the argument is stored as a value of this type.
#[derive(Clone, Copy, PartialEq, Eq)]
pub struct Parameter {
    pub at: u32,
    pub stored: ValueType,
}

/// A function that is run by its body: the offset of its name; whether it is of the prelude, so that its loops take as
/// many turns as the limit of texts says; and whether a value of it can be missing where it is used: it returns one,
/// and the last item of its block is no `return`.
#[derive(Drop)]
pub struct Function {
    pub at: u32,
    pub name: Name,
    pub is_prelude: bool,
    pub may_miss: bool,
    pub parameters: Items<Parameter>,
    pub items: Items<Shared<Code>>,
}

/// The bytes that an object has before any initializer is evaluated.
#[derive(Drop)]
pub enum Contents {
    /// Those that the world gives.
    World,
    Zero,
    /// These, and 0 behind them.
    Text(Bytes),
}

/// An object that lives throughout the run, by its place. A function is one of size 0.
#[derive(Drop)]
pub struct LastingObject {
    pub place: u64,
    pub kind: ObjectKind,
    pub size: u32,
    pub contents: Contents,
}

/// What an initializer sets of the object of a place.
#[derive(Drop)]
pub struct LastingSetting {
    pub place: u64,
    pub setting: Setting,
}

/// A program: its functions by number; the places that are met before `main` is called, in order; the objects that are
/// made then, in the order in which they are made; what their initializers set, in order; how many places these take
/// together; and the number of `main`, and whether it is given arguments.
#[derive(Drop)]
pub struct Core {
    pub functions: Items<Function>,
    pub met: Items<u64>,
    pub objects: Items<LastingObject>,
    pub settings: Items<LastingSetting>,
    pub places: u64,
    pub main: u32,
    pub has_arguments: bool,
}
