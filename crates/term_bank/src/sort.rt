use plain_data::Width;

/// What a node's value is.
#[derive(Clone, Copy, PartialEq, Eq, Hash)]
pub enum Sort {
    /// A truth value.
    Truth,
    /// A word of this width.
    Word(Width),
    /// A memory: a byte at each address, and the live objects.
    Memory,
    /// What happened in a run, in order.
    Events,
    /// Whole numbers, in order.
    Numbers,
}

/// A node of a bank: its number there, and its sort.
#[derive(Clone, Copy, PartialEq, Eq)]
pub struct Node {
    pub index: u32,
    pub sort: Sort,
}
