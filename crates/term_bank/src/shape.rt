ghost use Rattle.std.specs.Prelude.{◌≡◌};
ghost use Rattle.term_bank.specs.Shapes.{sort_of};

use crate::sort::Sort;
use c_store::ObjectKind;
use plain_data::{Side, Width};

/// An operator on two words of one width. Division by 0 and a shift by the width or more give 0.
#[derive(Clone, Copy, PartialEq, Eq, Hash)]
pub enum WordOperator {
    Add,
    Sub,
    Mul,
    Udiv,
    Urem,
    Sdiv,
    Srem,
    And,
    Or,
    Xor,
    Shl,
    Lshr,
    Ashr,
}

/// A test of two words of one width. Those named `Over` say that the signed result leaves the type (C99 6.5p5).
#[derive(Clone, Copy, PartialEq, Eq, Hash)]
pub enum WordTest {
    Equal,
    /// `<` of unsigned words.
    Below,
    /// `<` of signed words.
    SignedBelow,
    AddOver,
    SubOver,
    MulOver,
    /// The least signed word by -1.
    DivOver,
    ShlOver,
}

/// A connective of two truths.
#[derive(Clone, Copy, PartialEq, Eq, Hash)]
pub enum Connective {
    And,
    Or,
}

/// How a word is read where it is converted to another width (C99 6.3.1.3).
#[derive(Clone, Copy, PartialEq, Eq, Hash)]
pub enum Extension {
    Zero,
    Sign,
}

/// A node's operator over the numbers of its parts. The operator tells each part's sort, and the node's.
/// Addresses, lengths in bytes, object numbers, sizes and places are words of 64 bits.
#[derive(Clone, Copy, PartialEq, Eq, Hash)]
pub enum Shape {
    /// A truth value.
    Flag(bool),
    /// A word, below 2 to its number of bits.
    Constant {
        bits: u64,
        width: Width,
    },
    /// The word of the parameter of this number, counted from 0.
    Parameter {
        number: u32,
        width: Width,
    },
    /// The number from which places are counted.
    Base,
    /// The memory as the entry finds it.
    Entry,
    /// The memory of the world's initial bytes, with no object.
    Initial,
    /// The world's word at a place.
    WorldWord {
        width: Width,
        place: u32,
    },
    /// A row of a table of initial bytes: the byte at an address.
    InitialByte {
        row: u32,
        address: u32,
    },
    /// An operator on two words.
    Binary {
        operator: WordOperator,
        width: Width,
        left: u32,
        right: u32,
    },
    /// A test of two words.
    Test {
        test: WordTest,
        width: Width,
        left: u32,
        right: u32,
    },
    /// A word in another width.
    Convert {
        extension: Extension,
        from: Width,
        to: Width,
        operand: u32,
    },
    /// The other truth value.
    Not(u32),
    /// A connective of two truths.
    Connect {
        connective: Connective,
        left: u32,
        right: u32,
    },
    /// Of two nodes of one sort, the first where the condition is true.
    Choose {
        sort: Sort,
        condition: u32,
        yes: u32,
        no: u32,
    },
    /// A memory in which a word was written, little endian.
    Write {
        width: Width,
        memory: u32,
        address: u32,
        value: u32,
    },
    /// A memory in which so many bytes from an address on are 0.
    ZeroRange {
        memory: u32,
        from: u32,
        length: u32,
    },
    /// A memory in which so many bytes from `to` on are those that `source` has from `from` on.
    CopyRange {
        memory: u32,
        to: u32,
        source: u32,
        from: u32,
        length: u32,
    },
    /// A memory in which an object of this number and size lives.
    Made {
        kind: ObjectKind,
        memory: u32,
        object: u32,
        size: u32,
    },
    /// A memory in which no object of this number lives.
    Ended {
        memory: u32,
        object: u32,
    },
    /// The word at an address, little endian.
    Read {
        width: Width,
        memory: u32,
        address: u32,
    },
    /// The size in bytes of the object of this number, 0 of none.
    ObjectSize {
        memory: u32,
        object: u32,
    },
    /// Whether so many bytes from an address on are of one live object.
    IsLive {
        memory: u32,
        address: u32,
        length: u32,
    },
    /// Whether a live object of this kind has this number.
    HasKind {
        kind: ObjectKind,
        memory: u32,
        object: u32,
    },
    /// Nothing happened.
    NoEvents,
    /// What happened, and behind it that the branch at the token takes a side, where so many bytes were printed before.
    BranchEvent {
        events: u32,
        printed: u64,
        at: u32,
        side: Side,
    },
    /// What happened, and behind it that the call at the token begins, where so many bytes were printed before.
    CallEvent {
        events: u32,
        printed: u64,
        at: u32,
    },
    /// What happened, and behind it that the log call at the token prints so many bytes, where so many were printed
    /// before; `seen` are the values of its watched variables.
    PrintEvent {
        events: u32,
        printed: u64,
        at: u32,
        length: u64,
        seen: u32,
    },
    /// What happened first, and behind it what happened second.
    EventsBehind {
        first: u32,
        second: u32,
    },
    /// No number.
    NoNumbers,
    /// Numbers, and behind them the one that a word is, signed or not.
    NumberBehind {
        numbers: u32,
        width: Width,
        is_signed: bool,
        word: u32,
    },
}

impl Shape {
    /// The sort of a node of this shape.
    pub fn sort(&self) -> Sort
        ensures { result ≡ sort_of self.now }
    {
        match *self {
            Shape::Flag(_)
            | Shape::Test { .. }
            | Shape::Not(_)
            | Shape::Connect { .. }
            | Shape::IsLive { .. }
            | Shape::HasKind { .. } => Sort::Truth,
            Shape::Constant { width, .. }
            | Shape::Parameter { width, .. }
            | Shape::WorldWord { width, .. }
            | Shape::Binary { width, .. }
            | Shape::Read { width, .. } => Sort::Word(width),
            Shape::Convert { to, .. } => Sort::Word(to),
            Shape::InitialByte { .. } => Sort::Word(Width::W8),
            Shape::Base | Shape::ObjectSize { .. } => Sort::Word(Width::W64),
            Shape::Choose { sort, .. } => sort,
            Shape::Entry
            | Shape::Initial
            | Shape::Write { .. }
            | Shape::ZeroRange { .. }
            | Shape::CopyRange { .. }
            | Shape::Made { .. }
            | Shape::Ended { .. } => Sort::Memory,
            Shape::NoEvents
            | Shape::BranchEvent { .. }
            | Shape::CallEvent { .. }
            | Shape::PrintEvent { .. }
            | Shape::EventsBehind { .. } => Sort::Events,
            Shape::NoNumbers | Shape::NumberBehind { .. } => Sort::Numbers,
        }
    }
}
