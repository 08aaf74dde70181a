//! Why a type or a constant has no answer.

use c_language::LayoutRule;
use thiserror::Error;

/// Why there is no type, or no constant value.
#[derive(Clone, Copy, Debug, PartialEq, Eq, Drop, Error)]
pub enum TypeFault {
    /// A type has no size where one is wanted.
    #[error("a type has no size where one is wanted")]
    Incomplete,
    /// A type, or one of which it is made, has more than 1,048,576 bytes.
    #[error("a type has more bytes than an object may have")]
    ObjectTooLarge,
    /// An expression that must be constant isn't, or the length of an array is below 0.
    #[error("an expression that must be constant isn't")]
    NotConstant,
    /// Another rule is broken, here or in a declaration that is in force.
    #[error("a rule on names or types is broken")]
    Unknown,
    /// Want of memory.
    #[error("out of memory")]
    Memory,
}
