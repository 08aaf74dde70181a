//! Types of values, and operators, by widths and byte sizes.

use plain_data::Width;

/// An integer type other than `_Bool`, by what it says of its values (C99 6.2.6.2).
#[derive(Clone, Copy, PartialEq, Eq)]
pub struct WordType {
    pub width: Width,
    pub is_signed: bool,
}

/// The type of a value. Each value is a whole number: of an integer type the number itself, of a pointer its 64-bit
/// address, of a structure or union the number that its bytes spell, the least first.
#[derive(Clone, Copy, PartialEq, Eq)]
pub enum ValueType {
    /// No value: the number 0.
    Void,
    /// `_Bool`.
    Truth,
    Word(WordType),
    Pointer,
    /// A structure or union of so many bytes.
    Block { bytes: u64 },
}

/// An operator on two numbers of an integer type (C99 6.5.5 to 6.5.12).
#[derive(Clone, Copy, PartialEq, Eq)]
pub enum Arithmetic {
    Multiply,
    Divide,
    Remainder,
    Add,
    Subtract,
    ShiftLeft,
    ShiftRight,
    Less,
    Greater,
    LessEqual,
    GreaterEqual,
    Equal,
    NotEqual,
    BitAnd,
    BitXor,
    BitOr,
}

/// An order of two pointers (C99 6.5.8).
#[derive(Clone, Copy, PartialEq, Eq)]
pub enum Relation {
    Less,
    Greater,
    LessEqual,
    GreaterEqual,
}

/// What is done with two operands. Sizes are bytes of what a pointer points to.
#[derive(Clone, Copy, PartialEq, Eq)]
pub enum Operator {
    /// On integers, in this type, to which both operands are converted; a shift's count isn't.
    Numbers(Arithmetic, WordType),
    /// A pointer that an integer moves forward (C99 6.5.6p8).
    Forward { size: u64 },
    /// An integer that moves a pointer forward.
    ForwardBy { size: u64 },
    /// A pointer that an integer moves back.
    Back { size: u64 },
    /// How many elements are between two pointers (C99 6.5.6p9).
    Distance { size: u64 },
    /// Two pointers into one object (C99 6.5.8p5).
    Order(Relation),
    /// Two pointers of one number (C99 6.5.9p6).
    Same,
    /// Two pointers of two numbers.
    Different,
}

/// A unary operator on a number of an integer type (C99 6.5.3.3).
#[derive(Clone, Copy, PartialEq, Eq)]
pub enum Turning {
    Plus,
    Minus,
    Complement,
}

/// How an object is read or written: by the offset of the lvalue's token, as a value of this type; and whether its
/// bytes may be of no live object, or of a string literal, which is tested then.
#[derive(Clone, Copy, PartialEq, Eq)]
pub struct Access {
    pub at: u32,
    pub stored: ValueType,
    pub is_tested: bool,
}

/// Which value `++` or `--` has (C99 6.5.2.4p2, 6.5.3.1p2).
#[derive(Clone, Copy, PartialEq, Eq)]
pub enum Answered {
    /// The one that was there.
    Before,
    /// The one that was stored.
    Stored,
}
