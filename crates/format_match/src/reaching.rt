//! How many bytes of a log a conversion can take at most.
ghost use Rattle.std.specs.Prelude.{◌≡◌, ◌≤◌, ◌&&◌, ◌||◌, ◌==◌, nat_le, ℕ, List, true, false, length, IfSome};
ghost use Rattle.std.specs.List.{list_any};
ghost use Rattle.printf_text.specs.Texts.{HaveKinds, conversion_kinds, conversion_text};
ghost use Rattle.printf_text.specs.declared.piece.Arg.{Arg};
ghost use Rattle.format_match.specs.Splits.{begins};
ghost use Rattle.format_match.specs.Reaches.{is_numeric, is_hex, is_mark, is_numeral, is_other, HasMostDigits, IsWidest, IsLongest, IsLongestNumber, IsLongestField, Reaches};

use plain_data::Width;
use printf_text::{Conversion, Form, Radix, Size};

/// Whether a form prints a number or a pointer.
fn is_numeric(form: Form) -> bool
    ensures { result ≡ is_numeric form }
{
    match form {
        Form::Char | Form::Text => false,
        Form::Signed(_) | Form::Unsigned(_, _) | Form::Pointer => true,
    }
}

/// Whether a byte is a letter from this `a` on that is a hexadecimal digit, or this `x`.
fn is_hex(byte: u8, a: u8, x: u8) -> bool
    requires { a ≤ 97 }
    ensures { result ≡ is_hex byte a x }
{
    a <= byte && byte <= a + 5 || byte == x
}

/// Whether a byte is a sign, a letter or a bracket that can stand in the text of a form.
fn is_mark(form: Form, byte: u8) -> bool
    ensures { result ≡ is_mark form byte }
{
    match form {
        Form::Signed(_) => byte == b'+' || byte == b'-',
        Form::Unsigned(Radix::LowerHex, _) => is_hex(byte, b'a', b'x'),
        Form::Unsigned(Radix::UpperHex, _) => is_hex(byte, b'A', b'X'),
        Form::Pointer => is_hex(byte, b'a', b'x') || b"()iln".contains(&byte),
        Form::Unsigned(_, _) | Form::Char | Form::Text => false,
    }
}

/// Whether a byte can stand in the text of a number or a pointer of this form.
fn is_numeral(form: Form, byte: u8) -> bool
    ensures { result ≡ is_numeral form byte }
{
    byte == b' ' || b'0' <= byte && byte <= b'9' || is_mark(form, byte)
}

/// How many of so many bytes stand before the first one that stands in no text of the form.
fn numerals(form: Form, rest: &[u8], most: usize) -> usize
    requires { most ≤ length rest.now }
    ensures within { result ≤ most }
    ensures before { (t : List ℕ) → begins t rest.now ≡ true → list_any (is_other form) t ≡ false → length t ≤ most → length t ≤ result }
{
    'bytes: for len in 0..most {
        if !is_numeral(form, rest[len]) {
            return len;
        }
    }
    most
}

/// The width of a field, where no `*` gives it.
fn widest(width: Size) -> Option<usize>
    ensures { IfSome result (λ n. IsWidest width n) }
{
    match width {
        Size::Omitted => Some(0),
        Size::Written(n) => Some(n as usize),
        Size::Star => None,
    }
}

/// The most digits of a word, which base 8 gives.
fn most_digits(width: Width) -> usize
    ensures digits { HasMostDigits width result }
    ensures some { 1 ≤ result }
    ensures small { result ≤ 22 }
{
    match width {
        Width::W8 => 3,
        Width::W16 => 6,
        Width::W32 => 11,
        Width::W64 => 22,
    }
}

/// The most bytes of an integer beside its padding: digits, and a sign, `0x` or the `0` that `#` puts before them.
fn longest_number(width: Width, precision: Size) -> Option<usize>
    ensures { IfSome result (λ n. IsLongestNumber width precision n) }
{
    let digits = most_digits(width);
    match precision {
        Size::Omitted => Some(digits + 2),
        Size::Written(n) => Some(digits.max(n as usize) + 2),
        Size::Star => None,
    }
}

/// The most bytes of a text beside its padding, where they are limited.
fn longest(form: Form, precision: Size) -> Option<usize>
    ensures { IfSome result (λ n. IsLongest form precision n) }
{
    match form {
        Form::Signed(width) | Form::Unsigned(_, width) => longest_number(width, precision),
        Form::Char => Some(1),
        Form::Text => match precision {
            Size::Written(n) => Some(n as usize),
            Size::Omitted | Size::Star => None,
        },
        Form::Pointer => Some(18),
    }
}

/// The most bytes of a field, where neither its width nor its text is open.
fn field(c: &Conversion) -> Option<usize>
    ensures { IfSome result (λ n. IsLongestField c.now n) }
{
    let width = widest(c.width)?;
    let text = longest(c.form, c.precision)?;
    Some(width.max(text))
}

/// How many bytes from here on a field can take at most.
fn field_within(c: &Conversion, rest: &[u8]) -> usize
    ensures within { result ≤ length rest.now }
    ensures reached { Reaches c.now rest.now result }
{
    match field(c) {
        Some(most) => most.min(rest.len()),
        None => rest.len(),
    }
}

/// The most bytes from here on that a conversion can take.
pub fn reach(c: &Conversion, rest: &[u8]) -> usize
    ensures within { result ≤ length rest.now }
    ensures reached { Reaches c.now rest.now result }
{
    let most = field_within(c, rest);
    if is_numeric(c.form) {
        return numerals(c.form, rest, most);
    }
    most
}
