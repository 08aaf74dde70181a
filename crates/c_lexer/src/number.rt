//! Numeric constants (C99 6.4.4, 6.4.8).

ghost use Rattle.std.specs.Prelude.{◌≡◌, ◌<◌, ◌≤◌, ◌+◌, ◌^◌, length, SomeIff, IfSome, IfOk, true};
ghost use Rattle.c_lexer.specs.Class.{past, is_in};
ghost use Rattle.c_lexer.specs.Number as spec;

use crate::class::{Class, byte, is_in, past};
use crate::lookup::suffix;
use crate::table::{Length, Suffix};
use c_language::{IntegerConstant, IntegerType};

/// How an integer constant is written.
#[derive(Clone, Copy)]
pub enum Base {
    Decimal,
    Octal,
    Hexadecimal,
}

/// Why a number is no constant.
#[derive(Clone, Copy, PartialEq, Eq)]
pub enum NumberFault {
    /// An integer constant of 2^64 or more.
    Wide,
    /// Neither an integer constant that some type holds nor a floating constant.
    Bad,
}

/// What a preprocessing number means.
#[derive(Clone, Copy)]
pub enum Numeric {
    Integer(IntegerConstant),
    Floating,
}

/// The length of what goes on a preprocessing number (C99 6.4.8) after the byte `previous`.
pub fn number_more(mut previous: u8, mut text: &[u8]) -> usize
    requires { length text.now < 2 ^ 63 }
    ensures value { result ≡ spec.number_more previous text.entry.now }
    ensures within { result ≤ length text.entry.now }
{
    let mut count = 0;
    while let [b, rest @ ..] = text {
        if !goes_on(previous, *b) {
            return count;
        }
        previous = *b;
        count += 1;
        text = rest;
    }
    count
}

/// Whether a byte goes on a preprocessing number (C99 6.4.8).
fn goes_on(previous: u8, b: u8) -> bool
    ensures { result ≡ spec.goes_on previous b }
{
    is_in(Class::Word, b)
        || b == b'.'
        || (is_in(Class::Sign, b)
            && (is_in(Class::Exponent, previous) || is_in(Class::BinaryExponent, previous)))
}

/// The value of a digit (C99 6.4.4.1).
fn digit_of(b: u8) -> u8
    ensures value { result ≡ spec.digit_of b }
    ensures small { result < 16 }
{
    match b {
        b'0'..=b'9' => b - b'0',
        b'a'..=b'f' => b - b'a' + 10,
        b'A'..=b'F' => b - b'A' + 10,
        _ => 0,
    }
}

/// The number that digits spell (C99 6.4.4.1), where it is below 2^64.
pub fn value_of(base: u64, digits: &[u8]) -> Option<u64>
    requires { 0 < base }
    ensures { SomeIff result (spec.value_of base digits.now < 2 ^ 64) (spec.value_of base digits.now) }
{
    let mut value: u64 = 0;
    for digit in digits {
        value = value
            .checked_mul(base)?
            .checked_add(u64::from(digit_of(*digit)))?;
    }
    Some(value)
}

/// Whether a constant has a hexadecimal prefix (C99 6.4.4.1).
fn is_hexadecimal(text: &[u8]) -> bool
    ensures value { result ≡ spec.is_hexadecimal text.now }
    ensures within { result ≡ true → 2 ≤ length text.now }
{
    let x = byte(text, 1);
    byte(text, 0) == b'0' && (x == b'x' || x == b'X')
}

/// Whether a floating suffix (C99 6.4.4.2) or nothing stands from an index on.
fn is_suffix_of_float(text: &[u8], at: usize) -> bool
    requires { at ≤ length text.now }
    ensures { result ≡ spec.is_suffix_of_float text.now at }
{
    at == text.len() || (at + 1 == text.len() && is_in(Class::FloatSuffix, byte(text, at)))
}

/// Where an exponent part ends (C99 6.4.4.2), from behind its letter.
fn exponent_end(text: &[u8], at: usize) -> Option<usize>
    requires { at ≤ length text.now }
    ensures value { result ≡ spec.exponent_end text.now at }
    ensures within { IfSome result (λ end. end ≤ length text.now) }
{
    let from = if is_in(Class::Sign, byte(text, at)) {
        at + 1
    } else {
        at
    };
    let end = past(Class::Digit, text, from);
    if from < end { Some(end) } else { None }
}

/// Whether digits, a point, an exponent part and a suffix are a floating constant (C99 6.4.4.2).
#[tactic(auto, unfolding(crate::specs::Number::has_floating_form))]
fn has_floating_form(
    text: &[u8],
    from: usize,
    digit: Class,
    letter: Class,
    point_is_enough: bool,
) -> bool
    requires { from ≤ length text.now }
    ensures { result ≡ spec.has_floating_form text.now from digit letter point_is_enough }
{
    let whole = past(digit, text, from);
    let has_point = byte(text, whole) == b'.';
    let end = if has_point {
        past(digit, text, whole + 1)
    } else {
        whole
    };
    if !(from < whole || whole + 1 < end) {
        return false;
    }
    if end < text.len() && is_in(letter, byte(text, end)) {
        match exponent_end(text, end + 1) {
            Some(stop) => is_suffix_of_float(text, stop),
            None => false,
        }
    } else {
        point_is_enough && has_point && is_suffix_of_float(text, end)
    }
}

/// Whether a preprocessing number is a floating constant (C99 6.4.4.2).
#[tactic(auto, unfolding(crate::specs::Number::is_floating))]
fn is_floating(text: &[u8]) -> bool
    ensures { result ≡ spec.is_floating text.now }
{
    if is_hexadecimal(text) {
        has_floating_form(text, 2, Class::Hex, Class::BinaryExponent, false)
    } else {
        has_floating_form(text, 0, Class::Digit, Class::Exponent, true)
    }
}

/// The base of an integer constant (C99 6.4.4.1).
fn base_of(text: &[u8]) -> Base
    ensures { result ≡ spec.base_of text.now }
{
    if is_hexadecimal(text) {
        Base::Hexadecimal
    } else if byte(text, 0) == b'0' {
        Base::Octal
    } else {
        Base::Decimal
    }
}

/// Whether a type holds a value (C99 6.2.5, 6.4.4.1).
fn holds(integer_type: IntegerType, value: u64) -> bool
    ensures { result ≡ spec.holds value integer_type }
{
    match integer_type {
        IntegerType::Int => value < 1 << 31,
        IntegerType::Unsigned => value < 1 << 32,
        IntegerType::Long => value < 1 << 63,
        IntegerType::UnsignedLong => true,
        IntegerType::LongLong => value < 1 << 63,
        IntegerType::UnsignedLongLong => true,
    }
}

const DECIMAL: [IntegerType; 3] = [IntegerType::Int, IntegerType::Long, IntegerType::LongLong];

const ANY: [IntegerType; 6] = [
    IntegerType::Int,
    IntegerType::Unsigned,
    IntegerType::Long,
    IntegerType::UnsignedLong,
    IntegerType::LongLong,
    IntegerType::UnsignedLongLong,
];

const UNSIGNED: [IntegerType; 3] = [
    IntegerType::Unsigned,
    IntegerType::UnsignedLong,
    IntegerType::UnsignedLongLong,
];

/// How many steps of the list of types a long suffix leaves out (C99 6.4.4.1).
fn steps(length: Length) -> usize
    ensures value { result ≡ spec.steps length }
    ensures within { result ≤ 2 }
{
    match length {
        Length::Plain => 0,
        Length::Long => 1,
        Length::LongLong => 2,
    }
}

/// The types that an integer constant may have (C99 6.4.4.1), in the standard's order.
fn candidates(base: Base, suffix: Suffix) -> &'static [IntegerType]
    ensures { result.now ≡ spec.candidates base suffix }
{
    match suffix {
        Suffix::Unsigned(length) => &UNSIGNED[steps(length)..],
        Suffix::Signed(length) => match base {
            Base::Decimal => &DECIMAL[steps(length)..],
            Base::Octal => &ANY[2 * steps(length)..],
            Base::Hexadecimal => &ANY[2 * steps(length)..],
        },
    }
}

/// The first of some types that holds a value (C99 6.4.4.1).
fn first_that_holds(mut types: &[IntegerType], value: u64) -> Option<IntegerType>
    ensures { result ≡ spec.first_that_holds types.entry.now value }
{
    while let [integer_type, rest @ ..] = types {
        if holds(*integer_type, value) {
            return Some(*integer_type);
        }
        types = rest;
    }
    None
}

/// The index of the first digit of an integer constant in this base (C99 6.4.4.1).
fn first_digit(base: Base) -> usize
    ensures { result ≡ spec.first_digit base }
{
    match base {
        Base::Hexadecimal => 2,
        _ => 0,
    }
}

/// The digits of a base (C99 6.4.4.1).
fn digit_class(base: Base) -> Class
    ensures { result ≡ spec.digit_class base }
{
    match base {
        Base::Decimal => Class::Digit,
        Base::Octal => Class::Octal,
        Base::Hexadecimal => Class::Hex,
    }
}

/// The number of digits of a base (C99 6.4.4.1).
fn radix(base: Base) -> u64
    ensures value { result ≡ spec.radix base }
    ensures positive { 0 < result }
{
    match base {
        Base::Decimal => 10,
        Base::Octal => 8,
        Base::Hexadecimal => 16,
    }
}

/// What an integer constant says (C99 6.4.4.1).
#[tactic(auto, unfolding(crate::specs::Number::integer))]
fn integer(text: &[u8]) -> Result<IntegerConstant, NumberFault>
    ensures { result ≡ spec.integer text.now }
{
    let base = base_of(text);
    let from = first_digit(base);
    if text.len() < from {
        return Err(NumberFault::Bad);
    }
    let end = past(digit_class(base), text, from);
    let Some(suffix) = suffix(&text[end..]) else {
        return Err(NumberFault::Bad);
    };
    if from == end {
        return Err(NumberFault::Bad);
    }
    let Some(value) = value_of(radix(base), &text[from..end]) else {
        return Err(NumberFault::Wide);
    };
    match first_that_holds(candidates(base, suffix), value) {
        Some(integer_type) => Ok(IntegerConstant {
            value,
            integer_type,
        }),
        None => Err(NumberFault::Bad),
    }
}

/// What a preprocessing number means (C99 6.4.4).
#[tactic(auto, unfolding(crate::specs::Number::number))]
pub fn number(text: &[u8]) -> Result<Numeric, NumberFault>
    ensures { result ≡ spec.number text.now }
{
    if is_floating(text) {
        return Ok(Numeric::Floating);
    }
    match integer(text) {
        Ok(constant) => Ok(Numeric::Integer(constant)),
        Err(fault) => Err(fault),
    }
}
