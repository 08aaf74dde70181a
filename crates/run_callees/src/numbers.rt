//! Numbers by the types of the core (C99 6.3.1), and the values of arguments.
ghost use Rattle.std.specs.Prelude.{◌≡◌, ◌<◌, ◌^◌, map, IsTrue, IfSome};
ghost use Rattle.plain_data.specs.Words.{bits, word};
ghost use Rattle.c_means.specs.Values.{address};
ghost use Rattle.c_machine.specs.Worth.{worth, IsNumber};
ghost use Rattle.core_tree.specs.Callees.{value_or_zero};
ghost use Rattle.core_tree.specs.Numbers as numbers;

use c_machine::Value;
use core_tree::{ValueType, WordType};
use plain_data::{Width, to_signed, wrap};

/// `int`.
pub(crate) fn int_type() -> WordType
    ensures { result ≡ numbers.int }
{
    WordType {
        width: Width::W32,
        is_signed: true,
    }
}

/// The value that a word is in an integer type.
pub(crate) fn value_of_word(word: WordType, a: u64) -> i128
    requires { a < 2 ^ numbers.bits_of word }
    ensures { result ≡ numbers.value_of_word word a }
{
    if word.is_signed {
        i128::from(to_signed(a, word.width))
    } else {
        i128::from(a)
    }
}

/// A number, converted to an integer type.
#[tactic(auto, unfolding(core_tree::specs::Numbers::wrapped))]
pub(crate) fn wrapped(word: WordType, value: i128) -> i128
    ensures { result ≡ numbers.wrapped word value }
{
    value_of_word(word, wrap(value, word.width))
}

/// A number, converted to a type.
pub(crate) fn converted(to: ValueType, value: i128) -> i128
    ensures { result ≡ numbers.converted_to to value }
{
    match to {
        ValueType::Void => 0,
        ValueType::Truth => i128::from(value != 0),
        ValueType::Word(word) => wrapped(word, value),
        ValueType::Pointer => i128::from(wrap(value, Width::W64)),
        ValueType::Block { .. } => value,
    }
}

/// The lowest bits of a value.
pub(crate) fn word_of(width: Width, value: &Value) -> u64
    ensures value { result ≡ word width (worth value.now) }
    ensures within { result < 2 ^ bits width }
{
    wrap(value.scalar(), width)
}

/// The number that a value is, unless it is kept as bytes.
fn number_of(value: &Value) -> Option<i128>
    ensures { IfSome result (λ z. z ≡ worth value.now) }
{
    if is_number(value) {
        Some(value.scalar())
    } else {
        None
    }
}

fn is_number(value: &Value) -> bool
    ensures { IsTrue result → IsNumber value.now }
{
    match value {
        Value::Number(_) => true,
        Value::Bytes(_) => false,
    }
}

/// A value, converted to an integer type.
#[tactic(auto, unfolding(core_tree::specs::Numbers::wrapped))]
fn wrapped_value(word: WordType, value: &Value) -> i128
    ensures { result ≡ numbers.wrapped word (worth value.now) }
{
    value_of_word(word, word_of(word.width, value))
}

/// A value, converted to a type: nothing where it is no number but a structure's bytes.
fn converted_value(to: ValueType, value: &Value) -> Option<i128>
    ensures { IfSome result (λ z. z ≡ numbers.converted_to to (worth value.now)) }
{
    match to {
        ValueType::Void => Some(0),
        ValueType::Truth => Some(i128::from(!value.is_zero())),
        ValueType::Word(word) => Some(wrapped_value(word, value)),
        ValueType::Pointer => Some(i128::from(value.address())),
        ValueType::Block { .. } => number_of(value),
    }
}

/// The value of an argument, converted to a type, or that of 0 where there is none: nothing where it is no number but a
/// structure's bytes.
#[tactic(auto, using(crate::proofs::Values::got, crate::proofs::Values::missed))]
pub(crate) fn converted_at(to: ValueType, values: &[Value], index: u32) -> Option<i128>
    ensures { IfSome result (λ z. z ≡ numbers.converted_to to (value_or_zero (map worth values.now) index)) }
{
    match values.get(index as usize) {
        Some(value) => converted_value(to, value),
        None => Some(converted(to, 0)),
    }
}

/// The number that an argument is, or 0 where there is none: nothing where it is a structure's bytes.
#[tactic(auto, using(crate::proofs::Values::got, crate::proofs::Values::missed))]
pub(crate) fn number_at(values: &[Value], index: u32) -> Option<i128>
    ensures { IfSome result (λ z. z ≡ value_or_zero (map worth values.now) index) }
{
    match values.get(index as usize) {
        Some(value) => number_of(value),
        None => Some(0),
    }
}

/// The address that an argument is, or 0 where there is none.
#[tactic(auto, using(crate::proofs::Values::got, crate::proofs::Values::missed))]
pub(crate) fn address_at(values: &[Value], index: u32) -> u64
    ensures { result ≡ address (value_or_zero (map worth values.now) index) }
{
    match values.get(index as usize) {
        Some(value) => value.address(),
        None => 0,
    }
}
