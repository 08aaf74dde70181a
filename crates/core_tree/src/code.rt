//! Statements and declarations of the core.

use crate::expr::Expr;
use crate::types::{ValueType, WordType};
use c_language::Name;
use plain_data::{Bytes, Items, Shared};

/// A part of an object that is set where it is initialised, so many bytes behind its first (C99 6.7.8).
#[derive(Drop)]
pub enum Setting {
    /// A value, stored as one of this type.
    Value {
        offset: u64,
        stored: ValueType,
        value: Shared<Expr>,
    },
    /// The bytes of a literal in so many bytes, and 0 behind them.
    Text {
        offset: u64,
        size: u64,
        bytes: Bytes,
    },
}

/// A statement or declaration of the core. `at` is the byte offset of a token in the source. `is_node` tells whether
/// it is a statement of the source, which counts in the measure; each other one that has no such mark is.
#[derive(Drop)]
pub enum Code {
    Nothing {
        is_node: bool,
    },
    /// An expression whose value isn't used.
    Value {
        is_node: bool,
        value: Shared<Expr>,
    },
    /// An automatic object of so many bytes, by the offset of its name: made at its block's entry, and initialised
    /// here.
    Declare {
        at: u32,
        size: u64,
        is_zeroed: bool,
        settings: Items<Setting>,
    },
    /// An object that lives throughout the run and is declared in a block, with what its initializer evaluates: not
    /// here, but before `main` is called.
    Static {
        is_node: bool,
        values: Items<Shared<Expr>>,
    },
    /// A block, whose objects live while it runs.
    Block {
        is_node: bool,
        items: Items<Shared<Code>>,
    },
    Label {
        name: Name,
        body: Shared<Code>,
    },
    /// The value is compared; `label` is the expression that it is of, which isn't evaluated here.
    Case {
        value: i128,
        label: Shared<Expr>,
        body: Shared<Code>,
    },
    Default {
        body: Shared<Code>,
    },
    If {
        at: u32,
        condition: Shared<Expr>,
        positive: Shared<Code>,
        negative: Shared<Code>,
    },
    /// The value is compared as one of this type with the cases, in order; its body is a block of these items.
    Switch {
        at: u32,
        word: WordType,
        cases: Items<i128>,
        value: Shared<Expr>,
        is_node: bool,
        items: Items<Shared<Code>>,
    },
    /// `while` and `for`: the test stands before each turn, and the step behind it.
    Loop {
        at: u32,
        test: Option<Shared<Expr>>,
        step: Option<Shared<Expr>>,
        body: Shared<Code>,
    },
    /// `do`: the test stands behind each turn.
    Repeat {
        at: u32,
        test: Shared<Expr>,
        body: Shared<Code>,
    },
    Goto {
        name: Name,
    },
    Continue,
    Break,
    Return {
        value: Option<Shared<Expr>>,
    },
}
