//! Values by their types, and operators on numbers (C99 6.3, 6.5.3.3, 6.5.5 to 6.5.12).
ghost use Rattle.std.specs.Prelude.{◌≡◌, ℕ, IfOk, not, unsigned_abs};
ghost use Rattle.c_language.specs.Integers.{is_zero, number_of};
ghost use Rattle.c_means.specs.Values.{bytes_within};
ghost use Rattle.c_machine.specs.Worth.{worth};
ghost use Rattle.core_tree.specs.Numbers as core;
ghost use Rattle.run_values.specs.Types as types;

use c_language::{BinaryOperator, Class, IntegerKind, UnaryOperator};
use c_machine::Value;
use c_type_forms as forms;
use core_tree::{Arithmetic, Turning, ValueType, WordType};
use plain_data::{Undefined, Width};
use std::alloc::{AllocError, Global};

/// An integer type of this width and sign.
pub fn kind_of(word: WordType) -> IntegerKind
    ensures { result ≡ types.kind_as word }
{
    match (word.width, word.is_signed) {
        (Width::W8, true) => IntegerKind::SignedChar,
        (Width::W8, false) => IntegerKind::UnsignedChar,
        (Width::W16, true) => IntegerKind::Short,
        (Width::W16, false) => IntegerKind::UnsignedShort,
        (Width::W32, true) => IntegerKind::Int,
        (Width::W32, false) => IntegerKind::UnsignedInt,
        (Width::W64, true) => IntegerKind::Long,
        (Width::W64, false) => IntegerKind::UnsignedLong,
    }
}

/// A class whose values are those of the type.
pub(crate) fn class_of(value_type: ValueType) -> Class
    ensures { result ≡ types.class_as value_type }
{
    match value_type {
        ValueType::Void => Class::Void,
        ValueType::Truth => Class::Integer(IntegerKind::Bool),
        ValueType::Word(word) => Class::Integer(kind_of(word)),
        ValueType::Pointer => Class::Pointer,
        ValueType::Block { .. } => Class::Aggregate(0),
    }
}

/// The bytes of the type, where its class has none of its own.
pub(crate) fn size_of(value_type: ValueType) -> Option<u64>
    ensures { result ≡ types.size_as value_type }
{
    match value_type {
        ValueType::Void => None,
        ValueType::Truth => None,
        ValueType::Word(_) => None,
        ValueType::Pointer => None,
        ValueType::Block { bytes } => Some(bytes),
    }
}

/// Conversion to a type, as by a cast or an assignment (C99 6.3.1.2, 6.3.1.3, 6.3.2.3).
#[tactic(auto, using(crate::proofs::Types::converted_as))]
pub fn convert(to: ValueType, value: Value) -> Value
    ensures { worth result ≡ core.converted_to to (worth value) }
{
    value.converted(class_of(to))
}

/// The value of a type that stands in the bytes of another, from an offset on (C99 6.5.2.3p3). It fails for want of
/// memory alone.
#[tactic(auto, using(crate::proofs::Types::part_as))]
pub(crate) fn extract(
    alloc: Global,
    bytes: u64,
    member: ValueType,
    value: &Value,
) -> Result<Value, AllocError>
    ensures { IfOk result (λ v. worth v ≡ core.value_of_bytes member (bytes_within bytes (core.size_of member) (unsigned_abs (worth value.now)))) }
{
    value.part(alloc, bytes, class_of(member), size_of(member))
}

/// The number that a value is. A structure is none, and no operator of a program of C has one as its operand: that is
/// answered as want of memory.
pub(crate) fn number_in(value: &Value) -> Result<i128, AllocError>
    ensures { IfOk result (λ z. z ≡ worth value.now) }
{
    match value {
        Value::Number(number) => Ok(*number),
        Value::Bytes(_) => Err(AllocError),
    }
}

/// The address that a value is. One beyond 64 bits reaches no memory, which is answered as want of it.
pub(crate) fn address_in(value: &Value) -> Result<u64, AllocError>
    ensures { IfOk result (λ a. a ≡ unsigned_abs (worth value.now)) }
{
    let number = number_in(value)?.unsigned_abs();
    if number > u128::from(u64::MAX) {
        return Err(AllocError);
    }
    Ok(number as u64)
}

/// Whether a value isn't 0, as a number.
pub(crate) fn truth(value: &Value) -> Value
    ensures { worth result ≡ number_of (not (is_zero (worth value.now))) }
{
    Value::Number(i128::from(!value.is_zero()))
}

/// Whether a value is 0, as a number (C99 6.5.3.3p5).
pub(crate) fn negation(value: &Value) -> Value
    ensures { worth result ≡ number_of (is_zero (worth value.now)) }
{
    Value::Number(i128::from(value.is_zero()))
}

fn operator_of(operator: Arithmetic) -> BinaryOperator
    ensures { result ≡ types.operator_as operator }
{
    match operator {
        Arithmetic::Multiply => BinaryOperator::Multiply,
        Arithmetic::Divide => BinaryOperator::Divide,
        Arithmetic::Remainder => BinaryOperator::Remainder,
        Arithmetic::Add => BinaryOperator::Add,
        Arithmetic::Subtract => BinaryOperator::Subtract,
        Arithmetic::ShiftLeft => BinaryOperator::ShiftLeft,
        Arithmetic::ShiftRight => BinaryOperator::ShiftRight,
        Arithmetic::Less => BinaryOperator::Less,
        Arithmetic::Greater => BinaryOperator::Greater,
        Arithmetic::LessEqual => BinaryOperator::LessEqual,
        Arithmetic::GreaterEqual => BinaryOperator::GreaterEqual,
        Arithmetic::Equal => BinaryOperator::Equal,
        Arithmetic::NotEqual => BinaryOperator::NotEqual,
        Arithmetic::BitAnd => BinaryOperator::BitAnd,
        Arithmetic::BitXor => BinaryOperator::BitXor,
        Arithmetic::BitOr => BinaryOperator::BitOr,
    }
}

/// What an operator makes of two numbers in an integer type (C99 6.5.5 to 6.5.12), or the undefined kind that is met.
#[tactic(auto, using(crate::proofs::Types::worked_as))]
pub fn worked(operator: Arithmetic, word: WordType, x: i128, y: i128) -> Result<i128, Undefined>
    ensures { result ≡ core.worked operator word x y }
{
    forms::worked(operator_of(operator), kind_of(word), x, y)
}

/// What `+`, `-` or `~` makes of a number in an integer type (C99 6.5.3.3p2 to p4), or the undefined kind that is met.
#[tactic(auto, using(crate::proofs::Types::plus_as, crate::proofs::Types::minus_as, crate::proofs::Types::complement_as))]
pub fn turned(operator: Turning, word: WordType, x: i128) -> Result<i128, Undefined>
    ensures { result ≡ core.turned operator word x }
{
    let kind = kind_of(word);
    match operator {
        Turning::Plus => forms::turned(UnaryOperator::Plus, kind, x),
        Turning::Minus => forms::turned(UnaryOperator::Minus, kind, x),
        Turning::Complement => forms::turned(UnaryOperator::Complement, kind, x),
    }
}
