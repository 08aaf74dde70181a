//! The piece of a source that begins at a place.

ghost use Rattle.std.specs.Prelude.{◌≡◌, ◌<◌, ◌≤◌, ◌+◌, ◌^◌, length, slice_index, true, false, IfSome};
ghost use Rattle.c_lexer.specs.Piece as spec;

use crate::class::{Class, byte, is_in, past};
use crate::directive::{Directive, read_directive};
use crate::literal::closing;
use crate::lookup::punctuator;
use crate::number::number_more;
use c_language::Punctuator;

/// Why nothing begins at a byte.
#[derive(Clone, Copy)]
pub enum Stray {
    BadByte,
    OpenText,
    BadDirective,
}

/// What a piece of a source is.
#[derive(Clone, Copy)]
pub enum Lexeme {
    /// White space within a line.
    Blank,
    Newline,
    Comment,
    /// A line marker with its newline: the next line has this number and is of the file whose name stands
    /// in the piece from `from` to before `to`.
    Marker { line: u32, from: usize, to: usize },
    /// A directive that changes nothing, with its newline.
    Ignored,
    /// An identifier, a keyword or a word that is dropped.
    Word,
    /// A preprocessing number.
    Number,
    Character,
    Text,
    WideCharacter,
    WideText,
    Punctuator(Punctuator),
    /// A byte at which no piece begins.
    Stray(Stray),
}

/// What a piece is, and its length.
pub type Piece = (Lexeme, usize);

/// A character constant or a string literal (C99 6.4.4.4, 6.4.5), or a quote that nothing closes.
fn literal(lexeme: Lexeme, text: &[u8], quote: usize) -> Piece
    requires in_range { quote < length text.now }
    requires short { length text.now < 2 ^ 32 }
    ensures value { result ≡ spec.literal lexeme text.now quote }
    ensures within { (1 ≤ result.1) × (result.1 ≤ length text.now) }
{
    match closing(text[quote], quote + 1, &text[quote + 1..]) {
        Some(end) => (lexeme, end),
        None => (Lexeme::Stray(Stray::OpenText), 1),
    }
}

/// Where a comment ends (C99 6.4.9): the index after `*/`, for a text that begins at `at`, right after `/*`.
fn comment_end(mut at: usize, mut text: &[u8]) -> Option<usize>
    requires { at + length text.now < 2 ^ 63 }
    ensures value { result ≡ spec.comment_end false at text.entry.now }
    ensures within { IfSome result (λ end. (at < end) × (end ≤ at + length text.entry.now)) }
{
    let mut after_star = false;
    while let [b, rest @ ..] = text {
        at += 1;
        if after_star && *b == b'/' {
            return Some(at);
        }
        after_star = *b == b'*';
        text = rest;
    }
    None
}

/// A comment from `/*` on (C99 6.4.9).
fn block_comment(text: &[u8]) -> Piece
    requires long { 2 ≤ length text.now }
    requires short { length text.now < 2 ^ 32 }
    ensures value { result ≡ spec.block_comment text.now }
    ensures within { (1 ≤ result.1) × (result.1 ≤ length text.now) }
{
    match comment_end(2, &text[2..]) {
        Some(end) => (Lexeme::Comment, end),
        None => (Lexeme::Stray(Stray::OpenText), 1),
    }
}

/// A directive (C99 6.10), whose `#` comes first on its line.
fn directive_line(text: &[u8]) -> Piece
    requires hash { slice_index text.now 0 ≡ 35 }
    requires some { 0 < length text.now }
    requires short { length text.now < 2 ^ 32 }
    ensures value { result ≡ spec.directive_line text.now }
    ensures within { (1 ≤ result.1) × (result.1 ≤ length text.now) }
    ensures named { spec.IsNamedWithin result }
{
    let end = past(Class::Line, text, 0);
    let Some(directive) = read_directive(&text[..end]) else {
        return (Lexeme::Stray(Stray::BadDirective), 1);
    };
    if end == text.len() {
        return (Lexeme::Ignored, end);
    }
    let lexeme = match directive {
        Directive::Marker { line, from, to } => Lexeme::Marker { line, from, to },
        Directive::Pragma => Lexeme::Ignored,
    };
    (lexeme, end + 1)
}

/// Whether a preprocessing number begins here (C99 6.4.8): a digit, or a point and a digit.
fn begins_number(text: &[u8]) -> bool
    ensures value { result ≡ spec.begins_number text.now }
    ensures within { result ≡ true → 0 < length text.now }
{
    let b = byte(text, 0);
    is_in(Class::Digit, b) || (b == b'.' && is_in(Class::Digit, byte(text, 1)))
}

/// A literal with the prefix `L` (C99 6.4.4.4, 6.4.5), or a word that begins with this letter.
fn wide(text: &[u8]) -> Piece
    requires some { 0 < length text.now }
    requires short { length text.now < 2 ^ 32 }
    ensures value { result ≡ spec.wide text.now }
    ensures within { (1 ≤ result.1) × (result.1 ≤ length text.now) }
{
    match byte(text, 1) {
        b'\'' => literal(Lexeme::WideCharacter, text, 1),
        b'"' => literal(Lexeme::WideText, text, 1),
        _ => (Lexeme::Word, past(Class::Word, text, 1)),
    }
}

/// A punctuator (C99 6.4.6), or a byte that begins nothing.
fn punctuation(text: &[u8]) -> Piece
    requires { 0 < length text.now }
    ensures value { result ≡ spec.punctuation text.now }
    ensures within { (1 ≤ result.1) × (result.1 ≤ length text.now) }
{
    match punctuator(text) {
        Some((mark, len)) => (Lexeme::Punctuator(mark), len),
        None => (Lexeme::Stray(Stray::BadByte), 1),
    }
}

/// The piece (C99 6.4) at the front of a text that begins neither with white space nor a word nor a number.
#[tactic(auto, unfolding(crate::specs::Piece::other))]
fn other(fresh: bool, text: &[u8]) -> Piece
    requires some { 0 < length text.now }
    requires short { length text.now < 2 ^ 32 }
    ensures value { result ≡ spec.other fresh text.now }
    ensures within { (1 ≤ result.1) × (result.1 ≤ length text.now) }
    ensures named { spec.IsNamedWithin result }
{
    let next = byte(text, 1);
    match text[0] {
        b'\n' => (Lexeme::Newline, 1),
        b'"' => literal(Lexeme::Text, text, 0),
        b'\'' => literal(Lexeme::Character, text, 0),
        b'/' if next == b'*' => block_comment(text),
        b'/' if next == b'/' => (Lexeme::Comment, past(Class::Line, text, 2)),
        b'#' if fresh => directive_line(text),
        _ => punctuation(text),
    }
}

/// The piece at the front of a text (C99 6.4), the longest that begins there. Only white space and comments stand
/// before it on its line, where `fresh`.
#[tactic(auto, unfolding(crate::specs::Piece::piece_at))]
pub fn piece_at(fresh: bool, text: &[u8]) -> Piece
    requires some { 0 < length text.now }
    requires short { length text.now < 2 ^ 32 }
    ensures value { result ≡ spec.piece_at fresh text.now }
    ensures within { (1 ≤ result.1) × (result.1 ≤ length text.now) }
    ensures named { spec.IsNamedWithin result }
{
    let b = text[0];
    if is_in(Class::Blank, b) {
        (Lexeme::Blank, past(Class::Blank, text, 0))
    } else if b == b'L' {
        wide(text)
    } else if is_in(Class::Letter, b) {
        (Lexeme::Word, past(Class::Word, text, 1))
    } else if begins_number(text) {
        (Lexeme::Number, 1 + number_more(b, &text[1..]))
    } else {
        other(fresh, text)
    }
}
