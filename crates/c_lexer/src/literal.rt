//! Character constants and string literals (C99 6.4.4.4, 6.4.5).

ghost use Rattle.std.specs.Prelude.{◌≡◌, ◌<◌, ◌≤◌, ◌+◌, ◌^◌, length, IfSome, false};
ghost use Rattle.c_lexer.specs.Fault.{Answers};
ghost use Rattle.c_lexer.specs.Literal as spec;

use crate::class::{Class, byte, is_in, past};
use crate::fault::LexFault;
use crate::number::value_of;
use std::alloc::Global;

/// Where a literal ends (C99 6.4.4.4, 6.4.5): the index after the closing quote, for a text that begins at `at`, right
/// after the opening one.
pub fn closing(quote: u8, mut at: usize, mut text: &[u8]) -> Option<usize>
    requires { at + length text.now < 2 ^ 63 }
    ensures value { result ≡ spec.closing quote false at text.entry.now }
    ensures within { IfSome result (λ end. (at < end) × (end ≤ at + length text.entry.now)) }
{
    let mut escaped = false;
    while let [b, rest @ ..] = text {
        if *b == b'\n' {
            return None;
        }
        at += 1;
        if !escaped && *b == quote {
            return Some(at);
        }
        escaped = !escaped && *b == b'\\';
        text = rest;
    }
    None
}

/// What the letter of a simple escape means (C99 6.4.4.4).
fn simple_escape(b: u8) -> Option<u8>
    ensures { result ≡ spec.simple_escape b }
{
    match b {
        b'\'' | b'"' | b'?' | b'\\' => Some(b),
        b'a' => Some(7),
        b'b' => Some(8),
        b'f' => Some(12),
        b'n' => Some(10),
        b'r' => Some(13),
        b't' => Some(9),
        b'v' => Some(11),
        _ => None,
    }
}

/// The byte that the digits of an escape spell (C99 6.4.4.4), with the index at which they end.
fn numeric_escape(base: u64, digits: &[u8], end: usize) -> Option<(u8, usize)>
    requires { 0 < base }
    ensures { result ≡ spec.numeric_escape base digits.now end }
{
    match value_of(base, digits) {
        Some(value) if value < 256 => Some((value as u8, end)),
        _ => None,
    }
}

/// The byte that the escape (C99 6.4.4.4) at the front of a text means, and its length.
#[tactic(auto, unfolding(crate::specs::Literal::escape))]
fn escape(text: &[u8]) -> Option<(u8, usize)>
    requires { 0 < length text.now }
    ensures value { result ≡ spec.escape text.now }
    ensures within { IfSome result (λ e. (2 ≤ e.1) × (e.1 ≤ length text.now)) }
{
    let first = byte(text, 1);
    if is_in(Class::Octal, first) {
        let digits = &text[..text.len().min(4)];
        let end = past(Class::Octal, digits, 1);
        numeric_escape(8, &text[1..end], end)
    } else if first == b'x' {
        let end = past(Class::Hex, text, 2);
        if end == 2 {
            None
        } else {
            numeric_escape(16, &text[2..end], end)
        }
    } else {
        match simple_escape(first) {
            Some(meant) => Some((meant, 2)),
            None => None,
        }
    }
}

/// The byte that the byte or the escape (C99 6.4.4.4) at the front of a text means, and its length.
fn unit(text: &[u8]) -> Option<(u8, usize)>
    requires { 0 < length text.now }
    ensures value { result ≡ spec.unit text.now }
    ensures within { IfSome result (λ u. (1 ≤ u.1) × (u.1 ≤ length text.now)) }
{
    if text[0] == b'\\' {
        escape(text)
    } else {
        Some((text[0], 1))
    }
}

/// The bytes that the text between the quotes of a literal (C99 6.4.4.4, 6.4.5) means, where it begins at the offset
/// `at`.
pub fn unescape(alloc: Global, mut at: u32, mut text: &[u8]) -> Result<Vec<u8>, LexFault>
    requires { at + length text.now < 2 ^ 32 }
    ensures { Answers (λ meant. meant.items) (spec.unescape 0 at text.entry.now) result }
{
    let mut meant = Vec::new(alloc);
    while !text.is_empty() {
        let (value, len) = unit(text).ok_or(LexFault::BadConstant(at))?;
        meant.push(value)?;
        at += len as u32;
        text = &text[len..];
    }
    Ok(meant)
}
