//! The steps by which a tree is made.

use c_language::{BinaryOperator, TypeWord, UnaryOperator};

/// A step: it takes the parts of a node from where they were put, and puts the node there. Each `at` is the offset of a
/// token in the text of the prelude; a letter is a variable's name, and `star` the offset of a `*` before it.
#[derive(Clone, Copy)]
pub(crate) enum Step {
    /// A specifier of one word.
    Word {
        at: u16,
        word: TypeWord,
    },
    /// `const`.
    Const {
        at: u16,
    },
    /// A parameter of these specifiers.
    Parameter {
        star: Option<u16>,
        at: u16,
        letter: u8,
    },
    Integer {
        at: u16,
        value: u8,
    },
    Character {
        at: u16,
        value: u8,
    },
    Variable {
        at: u16,
        letter: u8,
    },
    /// An expression in parentheses.
    Group {
        at: u16,
    },
    Subscript {
        at: u16,
    },
    /// `++` behind an expression.
    Increment {
        at: u16,
    },
    Unary {
        at: u16,
        operator: UnaryOperator,
    },
    Binary {
        at: u16,
        operator: BinaryOperator,
    },
    Assign {
        at: u16,
    },
    /// A cast to these specifiers.
    Cast {
        at: u16,
        star: Option<u16>,
    },
    /// A declaration of these specifiers, with or without an expression to begin with.
    Declared {
        star: Option<u16>,
        at: u16,
        letter: u8,
        is_initialised: bool,
    },
    /// An expression as a statement.
    Value {
        at: u16,
    },
    Return {
        at: u16,
    },
    While {
        at: u16,
    },
    If {
        at: u16,
        has_else: bool,
    },
    /// A `for` with its three expressions.
    For {
        at: u16,
    },
    /// The statements that follow are those of a block.
    Begin,
    /// A statement is the next one of its block.
    Next,
    Block {
        at: u16,
    },
}
