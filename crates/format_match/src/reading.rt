ghost use Rattle.std.specs.Prelude.{◌≡◌, ◌%◌, ◌^◌, ◌<◌, ◌≤◌, ◌+◌, ◌*◌, IsTrue, ℕ, if◌then◌else◌};
ghost use Rattle.std.specs.Char.{digit_value, is_digit};
ghost use Rattle.plain_data.specs.Words.{bits};
ghost use Rattle.printf_text.specs.Texts.{base};
ghost use Rattle.format_match.specs.Reading.{digits_read, signed_read, first_byte, last_byte, pads_right, form_width, word_read};

use crate::way::Sizes;
use plain_data::{Width, wrap};
use printf_text::{Flags, Form, Radix};

/// The value of a digit in a base up to 36, or 36.
fn digit_value(byte: u8) -> u64
    ensures { result ≡ digit_value byte }
{
    match byte {
        b'0'..=b'9' => u64::from(byte - b'0'),
        b'A'..=b'Z' => u64::from(byte - b'A') + 10,
        b'a'..=b'z' => u64::from(byte - b'a') + 10,
        _ => 36,
    }
}

/// A number, with one more digit where the byte is one in the base, modulo 2^64.
fn with_byte(base: u64, number: u64, byte: u8) -> u64
    ensures value { result ≡ (if is_digit byte base then (number * base + digit_value byte) % 2 ^ 64 else number) }
    ensures below { result < 2 ^ 64 }
{
    let digit = digit_value(byte);
    if digit < base {
        number.wrapping_mul(base).wrapping_add(digit)
    } else {
        number
    }
}

/// The number that the digits among these bytes write in a base, modulo 2^64.
fn digits_read(base: u64, slice: &[u8]) -> u64
    ensures { result ≡ digits_read base slice.now }
{
    let mut number: u64 = 0;
    'bytes: for byte in slice {
        number = with_byte(base, number, *byte);
    }
    number
}

/// The number that the digits among these bytes write, below 0 where a `-` stands among them.
fn signed_read(slice: &[u8]) -> i128
    ensures { result ≡ signed_read slice.now }
{
    let number = i128::from(digits_read(10, slice));
    if slice.contains(&b'-') {
        return -number;
    }
    number
}

/// The first byte, or 0.
fn first_byte(slice: &[u8]) -> u8
    ensures { result ≡ first_byte slice.now }
{
    match slice {
        [byte, ..] => *byte,
        [] => 0,
    }
}

/// The last byte, or 0.
fn last_byte(slice: &[u8]) -> u8
    ensures { result ≡ last_byte slice.now }
{
    match slice {
        [.., byte] => *byte,
        [] => 0,
    }
}

/// The base of a radix.
fn base(radix: Radix) -> u64
    ensures { result ≡ base radix }
{
    match radix {
        Radix::Decimal => 10,
        Radix::Octal => 8,
        Radix::LowerHex | Radix::UpperHex => 16,
    }
}

/// The width of the type to which an integer argument is converted.
pub fn form_width(form: Form) -> Width
    ensures { result ≡ form_width form }
{
    match form {
        Form::Signed(width) | Form::Unsigned(_, width) => width,
        Form::Char | Form::Text | Form::Pointer => Width::W8,
    }
}

/// Whether padding stands after the text.
pub fn pads_right(flags: Flags, sizes: Sizes) -> bool
    ensures { result ≡ pads_right flags sizes }
{
    flags.left || sizes.width.value < 0
}

/// The number of a shown pointer, if one prints the bytes.
pub fn pointer_read(slice: &[u8]) -> u64
    ensures { result ≡ digits_read 16 slice.now }
{
    digits_read(16, slice)
}

/// The only word that may print the bytes.
pub fn word_read(flags: Flags, form: Form, sizes: Sizes, slice: &[u8]) -> u64
    ensures value { result ≡ word_read flags form sizes slice.now }
    ensures below { result < 2 ^ bits (form_width form) }
{
    match form {
        Form::Signed(width) => wrap(signed_read(slice), width),
        Form::Unsigned(radix, width) => wrap(i128::from(digits_read(base(radix), slice)), width),
        Form::Char if pads_right(flags, sizes) => u64::from(first_byte(slice)),
        Form::Char => u64::from(last_byte(slice)),
        Form::Text | Form::Pointer => 0,
    }
}
