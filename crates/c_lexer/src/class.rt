//! Classes of bytes, and the longest run of one class.

ghost use Rattle.std.specs.Prelude.{◌≡◌, ◌≢◌, ◌<◌, ◌≤◌, ◌^◌, length, slice_index, true};
ghost use Rattle.c_lexer.specs.Class as spec;

#[derive(Clone, Copy)]
pub enum Class {
    /// White space other than a newline.
    Blank,
    Digit,
    Octal,
    Hex,
    /// What may begin an identifier.
    Letter,
    /// What an identifier consists of.
    Word,
    /// Anything but a newline.
    Line,
    /// The flags of a line marker, and what stands between them.
    Flag,
    /// The letter of a decimal exponent.
    Exponent,
    /// The letter of a binary exponent.
    BinaryExponent,
    Sign,
    FloatSuffix,
}

/// Whether a byte is of a class (C99 5.2.1, 6.4).
pub fn is_in(class: Class, b: u8) -> bool
    ensures { result ≡ spec.is_in class b }
{
    match class {
        Class::Blank => b == b' ' || b == b'\t' || (11 <= b && b <= 13),
        Class::Digit => b.is_ascii_digit(),
        Class::Octal => b'0' <= b && b <= b'7',
        Class::Hex => b.is_ascii_hexdigit(),
        Class::Letter => b.is_ascii_alphabetic() || b == b'_',
        Class::Word => b.is_ascii_alphanumeric() || b == b'_',
        Class::Line => b != b'\n',
        Class::Flag => b.is_ascii_digit() || b == b' ' || b == b'\t' || (11 <= b && b <= 13),
        Class::Exponent => b == b'e' || b == b'E',
        Class::BinaryExponent => b == b'p' || b == b'P',
        Class::Sign => b == b'+' || b == b'-',
        Class::FloatSuffix => b == b'f' || b == b'F' || b == b'l' || b == b'L',
    }
}

/// The byte at an index (C99 6.4), or 0 past the end.
pub fn byte(text: &[u8], at: usize) -> u8
    ensures value { result ≡ slice_index text.now at }
    ensures within { result ≢ 0 → at < length text.now }
{
    if at < text.len() { text[at] } else { 0 }
}

/// Where a run of one class ends (C99 6.4): the first index from `at` on whose byte isn't of the class, or the text's
/// length.
pub fn past(class: Class, text: &[u8], at: usize) -> usize
    requires { at ≤ length text.now }
    ensures value { result ≡ spec.past class text.now at }
    ensures within { (at ≤ result) × (result ≤ length text.now) }
    ensures moves { at < length text.now → spec.is_in class (slice_index text.now at) ≡ true → at < result }
{
    let mut end = at;
    while end < text.len() && is_in(class, text[end]) {
        end += 1;
    }
    end
}
