//! Parts of the tokens of a source.
ghost use Rattle.std.specs.Prelude.{◌≡◌, ◌≤◌, drop, take, length};
ghost use Rattle.c_grammar.specs.UnitReading as spec;

use crate::cursor::Cursor;
use c_language::Token;

/// The tokens from a position on.
pub fn rest(tokens: &[Token], position: usize) -> &[Token]
    ensures { result.now ≡ drop position tokens.now }
{
    if position < tokens.len() {
        &tokens[position..]
    } else {
        &[]
    }
}

/// The first tokens.
pub fn front(tokens: &[Token], count: usize) -> &[Token]
    requires { count ≤ length tokens.now }
    ensures { result.now ≡ take count tokens.now }
{
    &tokens[..count]
}

/// The offset of the first token.
pub fn start_of(tokens: &[Token]) -> u32
    ensures { result ≡ spec.start_of tokens.now }
{
    match tokens {
        [first, ..] => first.start,
        [] => 0,
    }
}

/// Whether no token is left.
pub fn is_at_end(tokens: &[Token], c: &Cursor) -> bool
    ensures { result ≡ spec.is_end (drop c.now.position tokens.now) }
{
    match tokens.get(c.position) {
        Some(_) => false,
        None => true,
    }
}
