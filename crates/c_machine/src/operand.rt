//! What an operator sees of an operand.

use crate::value::Value;
use c_language::IntegerKind;

/// What an operator sees of an operand: the kind of integer that it is, where it is no pointer, the bytes of what it
/// points to, where it is one, and its value.
#[derive(Drop)]
pub struct Operand {
    pub kind: Option<IntegerKind>,
    pub element: u64,
    pub value: Value,
}
