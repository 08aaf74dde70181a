//! What a report rests on, of what the source doesn't define.
use plain_data::{Bytes, Shared};

/// Which arguments of a function, by their indices from 0, are the buffer that it fills and the length of that.
#[derive(Clone, Copy, PartialEq, Eq)]
pub struct Filling {
    pub buffer: u32,
    pub length: u32,
}

/// What is outside the source, and is assumed to do nothing but what is said of it.
#[derive(Drop)]
pub enum Assumption {
    /// A function without a body that a reached function calls: what it fills, and whether it answers no null pointer.
    Outside {
        name: Shared<Bytes>,
        fills: Option<Filling>,
        never_null: bool,
    },
    /// An object that the program needs and doesn't define.
    Object {
        name: Shared<Bytes>,
    },
}
