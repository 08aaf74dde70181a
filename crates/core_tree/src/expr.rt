//! Expressions of the core: each is worth a value. An address is one too.

use crate::types::{Access, Answered, Operator, Turning, ValueType, WordType};
use plain_data::{Bytes, Items, Shared};
use printf_text::Pieces;

/// Where an object is that has a name: made anew at each entry of its block, or there throughout the run, with the
/// number of its place.
#[derive(Clone, Copy, PartialEq, Eq)]
pub enum Holder {
    Local,
    Fixed { place: u64 },
}

/// A variable that a print shows, by the offset of its name in its first declaration.
#[derive(Clone, Copy, PartialEq, Eq)]
pub struct Watched {
    pub at: u32,
    pub holder: Holder,
    pub stored: ValueType,
}

/// What a pointer from outside points to.
#[derive(Clone, Copy, PartialEq, Eq)]
pub enum Pointee {
    /// Characters that end with 0, by the bound on strings from outside.
    Text,
    /// So many bytes.
    Bytes { size: u64 },
}

/// What a function outside answers.
#[derive(Clone, Copy, PartialEq, Eq)]
pub enum OutsideAnswer {
    Nothing,
    /// The word of the call's first place.
    Number,
    /// A new object, or null where the word of the first place is 0 and null may come.
    Pointer { never_null: bool, pointee: Pointee },
}

/// A buffer that a function outside fills: the indices of the buffer and of its length among the arguments, and
/// whether the answer is how many bytes were filled, or -1.
#[derive(Clone, Copy, PartialEq, Eq)]
pub struct Fill {
    pub buffer: u32,
    pub length: u32,
    pub counts: bool,
}

/// What is called.
#[derive(Drop)]
pub enum Callee {
    /// The function of this number, by its body.
    Body {
        function: u32,
    },
    /// A log call: the pieces of its format, how many arguments stand before those of the format, the integer types of
    /// all arguments (of another argument any), and the variables that are shown, in order.
    Log {
        pieces: Pieces,
        before: u64,
        types: Items<WordType>,
        watched: Items<Watched>,
    },
    /// Its argument of this index is answered.
    Identity {
        index: u32,
    },
    Exit,
    Abort,
    Malloc,
    Calloc,
    Free,
    Outside {
        answer: OutsideAnswer,
        fill: Option<Fill>,
    },
}

/// An expression of the core. `at` is the byte offset of a token in the source. Those that are marked as conversions
/// are no nodes in the measure; each other one stands for one node of the source.
#[derive(Drop)]
pub enum Expr {
    Constant {
        value: i128,
    },
    /// The first address of the object of this place, which lives throughout the run.
    Fixed {
        place: u64,
    },
    /// The first address of the automatic object that is declared at this offset.
    Local {
        at: u32,
    },
    /// A conversion: what stands at an address (C99 6.3.2.1p2).
    Load {
        access: Access,
        address: Shared<Expr>,
    },
    /// `*`: the address that a pointer is (C99 6.5.3.2p4).
    Target {
        operand: Shared<Expr>,
    },
    /// `&`: an address as a pointer (C99 6.5.3.2p3).
    Pointer {
        operand: Shared<Expr>,
    },
    /// `.` or `->`: so many bytes behind an address, modulo 2^64 (C99 6.5.2.3).
    Offset {
        bytes: u64,
        operand: Shared<Expr>,
    },
    /// `.` of a value: the bytes of a member of this type, so many behind its first (C99 6.5.2.3p3).
    Extract {
        bytes: u64,
        member: ValueType,
        operand: Shared<Expr>,
    },
    /// A conversion (C99 6.3).
    Convert {
        to: ValueType,
        operand: Shared<Expr>,
    },
    /// A cast (C99 6.5.4).
    Cast {
        to: ValueType,
        operand: Shared<Expr>,
    },
    /// `+`, `-` or `~`; `is_constant` where it is a constant expression, so that no undefined kind is listed for it.
    Turn {
        at: u32,
        operator: Turning,
        word: WordType,
        is_constant: bool,
        operand: Shared<Expr>,
    },
    /// `!` (C99 6.5.3.3p5).
    Not {
        operand: Shared<Expr>,
    },
    /// An operator on the values of two operands; `is_constant` as above.
    Operate {
        at: u32,
        operator: Operator,
        is_constant: bool,
        left: Shared<Expr>,
        right: Shared<Expr>,
    },
    /// `&&` (C99 6.5.13).
    And {
        at: u32,
        left: Shared<Expr>,
        right: Shared<Expr>,
    },
    /// `||` (C99 6.5.14).
    Or {
        at: u32,
        left: Shared<Expr>,
        right: Shared<Expr>,
    },
    /// `?:` (C99 6.5.15).
    Choose {
        at: u32,
        condition: Shared<Expr>,
        positive: Shared<Expr>,
        negative: Shared<Expr>,
    },
    /// `=`: the address, the value, and the store, by the operator's token (C99 6.5.16.1).
    Store {
        at: u32,
        access: Access,
        target: Shared<Expr>,
        value: Shared<Expr>,
    },
    /// `op=`: the address, its value, the other operand, the operator and the store (C99 6.5.16.2).
    Update {
        at: u32,
        operator: Operator,
        access: Access,
        target: Shared<Expr>,
        value: Shared<Expr>,
    },
    /// `++` or `--`: the same with the number 1 (C99 6.5.2.4, 6.5.3.1).
    Step {
        at: u32,
        operator: Operator,
        access: Access,
        answer: Answered,
        target: Shared<Expr>,
    },
    /// `,` (C99 6.5.17).
    Comma {
        first: Shared<Expr>,
        second: Shared<Expr>,
    },
    /// A call, at the callee's name: the arguments as they are converted, what is called, the type of the answer, and
    /// whether the answer is used, so that it may not be missing (C99 6.9.1p12).
    Call {
        at: u32,
        arguments: Items<Shared<Expr>>,
        callee: Callee,
        answer: ValueType,
        is_used: bool,
    },
}
