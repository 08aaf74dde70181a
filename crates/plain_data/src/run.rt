use crate::Items;
use crate::bytes::{Bytes, Numbers};

/// The kinds of undefined behaviour that a run can meet, numbered from 1 in this order.
#[derive(Clone, Copy, PartialEq, Eq)]
pub enum Undefined {
    /// A signed result outside its type (C99 6.5).
    Overflow,
    /// A division by zero (C99 6.5.5).
    ZeroDivisor,
    /// A shift by a count outside the width, or a signed shift that doesn't fit (C99 6.5.7).
    Shift,
    /// A pointer that leaves its object (C99 6.5.6).
    PointerRange,
    /// An access outside each live object (C99 6.5.3.2).
    Dereference,
    /// A write to a string literal (C99 6.4.5).
    LiteralWrite,
    /// A `free` of what isn't a live heap object's start (C99 7.20.3.2).
    Free,
    /// A comparison or difference of pointers into different objects (C99 6.5.6, 6.5.8).
    PointerOrder,
    /// A used value of a function that reached its `}` (C99 6.9.1).
    MissingValue,
}

/// How a run ends. `at` is the byte offset of a token in the source.
#[derive(Clone, Copy, PartialEq, Eq)]
pub enum Finish {
    /// `main` returned this value.
    Return(i32),
    /// `exit` was called with this value.
    Exit(i32),
    /// `abort` was called.
    Abort,
    /// The step at the token has undefined behaviour of this kind.
    Stopped { kind: Undefined, at: u32 },
    /// The run left the bounds at the token.
    Left { at: u32 },
}

/// The side that a branch takes.
#[derive(Clone, Copy, PartialEq, Eq, Hash)]
pub enum Side {
    /// The condition, or the left operand, is not zero.
    Yes,
    /// The condition, or the left operand, is zero.
    No,
    /// The case of a `switch` with this value.
    Case(i128),
    /// No case of the `switch`.
    Otherwise,
}

/// What a run does that facts speak of. `at` is the byte offset of a token in the source.
#[derive(Drop)]
pub enum Happening {
    /// The branch at the token takes a side.
    Branch { at: u32, side: Side },
    /// The call at the callee's name begins, its arguments evaluated.
    Call { at: u32 },
    /// The log call prints `length` bytes; `seen` are the values of its watched variables, in order.
    Print { at: u32, length: u64, seen: Numbers },
}

/// A happening, and how many bytes were printed before it.
#[derive(Drop)]
pub struct Event {
    pub what: Happening,
    pub printed: u64,
}

/// The events of a run, in order.
pub type Events = Items<Event>;

/// A run: what was printed, what happened, and how it ended.
#[derive(Drop)]
pub struct Run {
    pub printed: Bytes,
    pub events: Events,
    pub finish: Finish,
}
