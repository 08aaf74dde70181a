use core_tree::{Access, Operator, Turning, ValueType, WordType};

/// What an expression does with the values of its parts. `at` is the byte offset of a token in the source.
#[derive(Clone, Copy, PartialEq, Eq)]
pub enum Leaf {
    Constant {
        value: i128,
    },
    /// The first address of the object of the place that is so many places behind the base.
    Local {
        offset: u64,
    },
    /// The first address of the object of this place, which lives throughout the run.
    Fixed {
        place: u64,
    },
    Convert {
        to: ValueType,
    },
    /// So many bytes behind an address, modulo 2^64.
    Offset {
        bytes: u64,
    },
    Not,
    Turn {
        at: u32,
        operator: Turning,
        word: WordType,
    },
    /// An operator on the values of two operands.
    Operate {
        at: u32,
        operator: Operator,
    },
    /// The scalar that stands at an address.
    Load {
        access: Access,
    },
    /// A scalar is converted and stored at the address that stands below it; its value stays.
    Put {
        at: u32,
        access: Access,
    },
    /// The value on top isn't used.
    Drop,
    /// The value on top stands there twice.
    Again,
    /// The value on top stands below the next one too.
    Tuck,
}
