//! Types of the core for types of C.
ghost use Rattle.std.specs.Prelude.{◌≡◌, Some, MatchOption, ⊤, IfSome};
ghost use Rattle.elaborate.specs.Types as spec;

use c_language::{BinaryOperator, Class, IntegerKind};
use core_tree::{Arithmetic, ValueType, WordType};

/// The width and sign of an integer type, `_Bool` as the unsigned type of its byte.
pub fn word_type(kind: IntegerKind) -> WordType
    ensures { result ≡ spec.word_type kind }
{
    WordType {
        width: kind.width(),
        is_signed: kind.is_signed(),
    }
}

/// The type of a value of this class; a structure or union has so many bytes.
pub fn value_type(class: Class, bytes: u64) -> ValueType
    ensures { result ≡ spec.value_type class bytes }
{
    match class {
        Class::Void => ValueType::Void,
        Class::Integer(IntegerKind::Bool) => ValueType::Truth,
        Class::Integer(kind) => ValueType::Word(word_type(kind)),
        Class::Pointer => ValueType::Pointer,
        Class::Floating | Class::Array | Class::Function | Class::Aggregate(_) | Class::Opaque => {
            ValueType::Block { bytes }
        }
    }
}

/// The operator on numbers that a binary operator is; `&&` and `||` are none.
pub fn arithmetic(operator: BinaryOperator) -> Option<Arithmetic>
    ensures { result ≡ spec.arithmetic operator }
{
    match operator {
        BinaryOperator::Multiply => Some(Arithmetic::Multiply),
        BinaryOperator::Divide => Some(Arithmetic::Divide),
        BinaryOperator::Remainder => Some(Arithmetic::Remainder),
        BinaryOperator::Add => Some(Arithmetic::Add),
        BinaryOperator::Subtract => Some(Arithmetic::Subtract),
        BinaryOperator::ShiftLeft => Some(Arithmetic::ShiftLeft),
        BinaryOperator::ShiftRight => Some(Arithmetic::ShiftRight),
        BinaryOperator::Less => Some(Arithmetic::Less),
        BinaryOperator::Greater => Some(Arithmetic::Greater),
        BinaryOperator::LessEqual => Some(Arithmetic::LessEqual),
        BinaryOperator::GreaterEqual => Some(Arithmetic::GreaterEqual),
        BinaryOperator::Equal => Some(Arithmetic::Equal),
        BinaryOperator::NotEqual => Some(Arithmetic::NotEqual),
        BinaryOperator::BitAnd => Some(Arithmetic::BitAnd),
        BinaryOperator::BitXor => Some(Arithmetic::BitXor),
        BinaryOperator::BitOr => Some(Arithmetic::BitOr),
        BinaryOperator::LogicalAnd | BinaryOperator::LogicalOr => None,
    }
}
