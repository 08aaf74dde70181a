//! Looking a spelling up in a table.

ghost use Rattle.std.specs.Prelude.{◌≡◌, ◌≤◌, length, map, IfSome};
ghost use Rattle.c_lexer.specs.Tables as spec;

use crate::table::{PUNCTUATORS, RESERVED, Reserved, SUFFIXES, Suffix};
use c_language::Punctuator;

/// What stands beside a spelling in a table of C99 6.4.
fn lookup<T: Copy>(mut table: &[(&[u8], T)], word: &[u8]) -> Option<T>
    ensures { result ≡ spec.lookup (map (λ row. (row.0.now, row.1)) table.entry.now) word.now }
{
    while let [row, rest @ ..] = table {
        if row.0 == word {
            return Some(row.1);
        }
        table = rest;
    }
    None
}

/// What a word means that isn't an identifier (C99 6.4.1, 6.4.2.2).
pub fn reserved(word: &[u8]) -> Option<Reserved>
    ensures { result ≡ spec.reserved word.now }
{
    lookup(&RESERVED, word)
}

/// What a suffix of an integer constant says (C99 6.4.4.1).
pub fn suffix(word: &[u8]) -> Option<Suffix>
    ensures { result ≡ spec.suffix word.now }
{
    lookup(&SUFFIXES, word)
}

/// The first spelling of a table of punctuators (C99 6.4.6) that a text begins with, and its length.
fn first_prefix(mut table: &[(&[u8], Punctuator)], text: &[u8]) -> Option<(Punctuator, usize)>
    ensures value { result ≡ spec.first_prefix (map (λ row. (row.0.now, row.1)) table.entry.now) text.now }
    ensures within { IfSome result (λ p. p.1 ≤ length text.now) }
{
    while let [row, rest @ ..] = table {
        if text.starts_with(row.0) {
            return Some((row.1, row.0.len()));
        }
        table = rest;
    }
    None
}

/// The longest punctuator (C99 6.4.6) that a text begins with, and its length.
pub fn punctuator(text: &[u8]) -> Option<(Punctuator, usize)>
    ensures value { result ≡ spec.punctuator text.now }
    ensures within { IfSome result (λ p. (1 ≤ p.1) × (p.1 ≤ length text.now)) }
{
    first_prefix(&PUNCTUATORS, text)
}
