//! Directives (C99 6.10): line markers and pragmas.

ghost use Rattle.std.specs.Prelude.{◌≡◌, ◌<◌, ◌≤◌, ◌*◌, ◌^◌, length, IfSome};
ghost use Rattle.c_lexer.specs.Directive as spec;

use crate::class::{Class, byte, past};
use crate::literal::closing;
use crate::number::value_of;

/// What a directive says.
#[derive(Clone, Copy)]
pub enum Directive {
    /// The line that follows has this number and is of the file whose name stands in the directive from
    /// `from` to before `to`.
    Marker { line: u32, from: usize, to: usize },
    Pragma,
}

/// Whether a file's name is UTF-8 (C99 6.10.4 leaves its form open).
fn is_text(bytes: &[u8]) -> bool
    ensures { result ≡ spec.is_text bytes.now }
{
    match std::str::from_utf8(bytes) {
        Ok(_) => true,
        Err(_) => false,
    }
}

/// The number of a line marker (C99 6.10.4), of one to nine digits.
fn line_number(digits: &[u8]) -> Option<u32>
    ensures value { result ≡ spec.line_number digits.now }
    ensures small { IfSome result (λ number. number < 2 * 10 ^ 9) }
{
    if digits.is_empty() || 9 < digits.len() {
        return None;
    }
    match value_of(10, digits) {
        Some(value) => Some(value as u32),
        None => None,
    }
}

/// A line marker (C99 6.10.4) from its number on, which stands at an index of its line; after the file's name stands
/// what is of the class `tail`.
#[tactic(auto, unfolding(crate::specs::Directive::marker))]
fn marker(line: &[u8], at: usize, tail: Class) -> Option<Directive>
    requires in_range { at ≤ length line.now }
    requires short { length line.now < 2 ^ 32 }
    ensures value { result ≡ spec.marker line.now at tail }
    ensures within { spec.IsNamedIn (length line.now) result }
{
    let end = past(Class::Digit, line, at);
    let number = line_number(&line[at..end])?;
    let open = past(Class::Blank, line, end);
    if byte(line, open) != b'"' {
        return None;
    }
    let from = open + 1;
    let close = closing(b'"', from, &line[from..])?;
    let to = close - 1;
    if is_text(&line[from..to]) && past(tail, line, close) == line.len() {
        Some(Directive::Marker {
            line: number,
            from,
            to,
        })
    } else {
        None
    }
}

/// What a directive says (C99 6.10) whose line begins with its `#`.
#[tactic(auto, unfolding(crate::specs::Directive::directive))]
pub fn read_directive(line: &[u8]) -> Option<Directive>
    requires some { 0 < length line.now }
    requires short { length line.now < 2 ^ 32 }
    ensures value { result ≡ spec.directive line.now }
    ensures within { spec.IsNamedIn (length line.now) result }
{
    let at = past(Class::Blank, line, 1);
    let end = past(Class::Word, line, at);
    let word = &line[at..end];
    if word == b"pragma".as_slice() {
        Some(Directive::Pragma)
    } else if word == b"line".as_slice() {
        marker(line, past(Class::Blank, line, end), Class::Blank)
    } else {
        marker(line, at, Class::Flag)
    }
}
