/// What an object is: how long it lives, and whether it may be written (C99 6.2.4).
#[derive(Clone, Copy, PartialEq, Eq, Hash)]
pub enum ObjectKind {
    /// Of static storage duration: it lives as long as the program runs.
    Static,
    /// Of automatic storage duration: it lives from its block's entry to its exit.
    Automatic,
    /// The array of a string literal, which may not be written (C99 6.4.5p6).
    Literal,
    /// Allocated by `malloc` or `calloc`, and alive until it is freed (C99 7.20.3).
    Heap,
    /// What an outside function's answer points to.
    Outside,
}

/// A live object: its kind, and its size in bytes. A function is an object of size 0.
#[derive(Clone, Copy, PartialEq, Eq)]
pub struct Object {
    pub kind: ObjectKind,
    pub size: u32,
}
