//! What a piece of a source means.

ghost use Rattle.std.specs.Prelude.{◌≡◌, ◌<◌, ◌≤◌, ◌+◌, ◌^◌, length, OnOk};
ghost use Rattle.c_lexer.specs.Fault.{Answers};
ghost use Rattle.c_lexer.specs.Literal.{unescape};
ghost use Rattle.c_lexer.specs.Number.{number};
ghost use Rattle.c_lexer.specs.Words.{IsRight};
ghost use Rattle.c_lexer.specs.Meaning as spec;

use crate::fault::LexFault;
use crate::literal::unescape;
use crate::number::{NumberFault, Numeric, number};
use crate::piece::{Lexeme, Stray};
use crate::words::Words;
use c_language::TokenKind;
use plain_data::{Items, Shared};
use std::alloc::Global;

/// What a preprocessing number means (C99 6.4.4, 6.4.8).
fn numeric(at: u32, text: &[u8]) -> Result<Option<TokenKind>, LexFault>
    ensures { result ≡ spec.number_kind at (number text.now) }
{
    match number(text) {
        Ok(Numeric::Floating) => Ok(Some(TokenKind::Floating)),
        Ok(Numeric::Integer(constant)) => Ok(Some(TokenKind::Integer(constant))),
        Err(NumberFault::Wide) => Err(LexFault::WideNumber(at)),
        Err(NumberFault::Bad) => Err(LexFault::BadConstant(at)),
    }
}

/// What stands between the quotes of a literal (C99 6.4.4.4, 6.4.5).
fn between_quotes(text: &[u8]) -> &[u8]
    ensures value { result.now ≡ spec.between_quotes text.now }
    ensures within { length result.now + 1 ≤ length text.now + 1 }
{
    if text.len() < 2 {
        &[]
    } else {
        &text[1..text.len() - 1]
    }
}

/// What a character constant means (C99 6.4.4.4).
fn character(alloc: Global, at: u32, text: &[u8]) -> Result<Option<TokenKind>, LexFault>
    requires { at + length text.now + 1 < 2 ^ 32 }
    ensures { Answers (λ kind. kind)
        (spec.character_kind at (unescape 0 (at + 1) (spec.between_quotes text.now))) result }
{
    let meant = unescape(alloc, at + 1, between_quotes(text))?;
    match meant.as_slice() {
        [b] => Ok(Some(TokenKind::Character(i32::from(b.cast_signed())))),
        _ => Err(LexFault::BadConstant(at)),
    }
}

/// What a string literal means (C99 6.4.5).
fn string(alloc: Global, at: u32, text: &[u8]) -> Result<Option<TokenKind>, LexFault>
    requires { at + length text.now + 1 < 2 ^ 32 }
    ensures { Answers (λ kind. kind) (spec.string_kind (unescape 0 (at + 1) (spec.between_quotes text.now))) result }
{
    let meant = unescape(alloc, at + 1, between_quotes(text))?;
    Ok(Some(TokenKind::StringLiteral(Shared::new(alloc, Items::from_vec(meant))?)))
}

/// The fault of a byte at which no piece begins (C99 6.4).
fn stray_fault(at: u32, stray: Stray) -> LexFault
    ensures { result ≡ spec.stray_fault at stray }
{
    match stray {
        Stray::BadByte => LexFault::BadByte(at),
        Stray::OpenText => LexFault::OpenText(at),
        Stray::BadDirective => LexFault::BadDirective(at),
    }
}

/// What a piece means (C99 6.4) that has these bytes and begins at an offset: a token's kind, nothing, or a fault.
#[tactic(auto, unfolding(crate::specs::Meaning::meaning))]
pub fn meaning<'a>(
    alloc: Global,
    words: &mut Words<'a>,
    at: u32,
    lexeme: Lexeme,
    text: &'a [u8],
) -> Result<Option<TokenKind>, LexFault>
    requires short { at + length text.now + 1 < 2 ^ 32 }
    requires right { IsRight words.old }
    ensures value { Answers (λ kind. kind) (spec.meaning at (lexeme, text.entry.now)) result }
    ensures right { OnOk result (IsRight words.new) }
{
    match lexeme {
        Lexeme::Word => words.kind(alloc, text),
        Lexeme::Punctuator(mark) => Ok(Some(TokenKind::Punctuator(mark))),
        Lexeme::Number => numeric(at, text),
        Lexeme::Character => character(alloc, at, text),
        Lexeme::Text => string(alloc, at, text),
        Lexeme::WideCharacter => Ok(Some(TokenKind::WideCharacter)),
        Lexeme::WideText => Ok(Some(TokenKind::WideString)),
        Lexeme::Stray(stray) => Err(stray_fault(at, stray)),
        Lexeme::Blank
        | Lexeme::Newline
        | Lexeme::Comment
        | Lexeme::Ignored
        | Lexeme::Marker { .. } => Ok(None),
    }
}
