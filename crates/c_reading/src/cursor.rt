//! The tokens that are left, and the names in scope.
ghost use Rattle.std.specs.Prelude.{◌≡◌};
ghost use Rattle.c_grammar.specs.Reading as spec;
ghost use Rattle.c_grammar.specs.Parts.{specifies_in, specifies_by, begins_type};
ghost use Rattle.c_grammar.specs.Parts as parts;
ghost use Rattle.c_reading.specs.Cursor.{here, Gives};
ghost use Rattle.c_reading.specs.Reads.{Reads};

use crate::fault::ParseFault;
use c_grammar::{binding_of, unary_of};
use c_language::{Keyword, Name, Punctuator, TagName, Token, TokenKind, UnaryOperator};
use c_scope::{FileNames, Names};
use std::alloc::Global;

/// How far the tokens are read, and the names that are in scope there.
#[derive(Drop)]
pub struct Cursor {
    pub position: usize,
    pub names: Names,
}

/// What is read: the tokens, and the names of the file.
#[derive(Clone, Copy)]
pub struct Source<'a> {
    pub tokens: &'a [Token],
    pub file: &'a FileNames,
}

/// Whether a token is this punctuator.
fn is_mark(kind: &TokenKind, wanted: Punctuator) -> bool
    ensures { result ≡ spec.holds_some (spec.a_mark wanted kind.now) }
{
    match kind {
        TokenKind::Punctuator(mark) => *mark == wanted,
        _ => false,
    }
}

fn is_keyword(kind: &TokenKind, wanted: Keyword) -> bool
    ensures { result ≡ spec.holds_some (spec.a_keyword wanted kind.now) }
{
    match kind {
        TokenKind::Keyword(keyword) => *keyword == wanted,
        _ => false,
    }
}

impl<'a> Source<'a> {
    /// Whether this punctuator comes next.
    pub fn begins(&self, c: &Cursor, wanted: Punctuator) -> bool
        ensures { result ≡ spec.begins wanted (here self.now c.now) }
    {
        match self.tokens.get(c.position) {
            Some(token) => is_mark(&token.kind, wanted),
            None => false,
        }
    }

    /// Whether this keyword comes next.
    pub fn begins_keyword(&self, c: &Cursor, wanted: Keyword) -> bool
        ensures { result ≡ spec.begins_keyword wanted (here self.now c.now) }
    {
        match self.tokens.get(c.position) {
            Some(token) => is_keyword(&token.kind, wanted),
            None => false,
        }
    }

    /// Takes this punctuator; its offset.
    pub fn expect(&self, c: &mut Cursor, wanted: Punctuator) -> Result<u32, ParseFault>
        ensures { Gives (λ at. (tt, at, here self.now c.new)) result (spec.expect wanted (here self.now c.old)) }
    {
        match self.tokens.get(c.position) {
            Some(token) => match &token.kind {
                TokenKind::Punctuator(mark) => {
                    if *mark == wanted {
                        c.position += 1;
                        Ok(token.start)
                    } else {
                        Err(ParseFault::Syntax(c.position))
                    }
                }
                _ => Err(ParseFault::Syntax(c.position)),
            },
            None => Err(ParseFault::Syntax(c.position)),
        }
    }

    /// Takes this keyword; its offset.
    pub fn expect_keyword(&self, c: &mut Cursor, wanted: Keyword) -> Result<u32, ParseFault>
        ensures { Gives (λ at. (tt, at, here self.now c.new)) result
            (spec.expect_keyword wanted (here self.now c.old)) }
    {
        match self.tokens.get(c.position) {
            Some(token) => {
                if is_keyword(&token.kind, wanted) {
                    c.position += 1;
                    Ok(token.start)
                } else {
                    Err(ParseFault::Syntax(c.position))
                }
            }
            None => Err(ParseFault::Syntax(c.position)),
        }
    }

    /// Takes the next token where it is an identifier; its name and offset.
    pub fn name(&self, c: &mut Cursor) -> Result<(Name, u32), ParseFault>
        ensures { Gives (λ x. (x.0, x.1, here self.now c.new)) result (spec.name_at (here self.now c.old)) }
    {
        match self.tokens.get(c.position) {
            Some(token) => match &token.kind {
                TokenKind::Identifier(name) => {
                    let name = name.clone()?;
                    c.position += 1;
                    Ok((name, token.start))
                }
                _ => Err(ParseFault::Syntax(c.position)),
            },
            None => Err(ParseFault::Syntax(c.position)),
        }
    }

    /// Takes the next token where it is an identifier, as the tag of a structure, union or enumeration.
    pub fn tag(&self, c: &mut Cursor) -> Result<TagName, ParseFault>
        ensures { Reads (λ tag. tag) self.now c.old c.new result spec.tag_at }
    {
        let (name, at) = self.name(c)?;
        Ok(TagName { at, name })
    }

    /// How loosely the operator binds that comes next, behind an operand; 17 where none does.
    pub fn binds(&self, c: &Cursor) -> u32
        ensures { result ≡ spec.binds (here self.now c.now) }
    {
        match self.tokens.get(c.position) {
            Some(token) => match &token.kind {
                TokenKind::Punctuator(mark) => binding_of(*mark),
                TokenKind::StringLiteral(_) => 0,
                _ => 17,
            },
            None => 17,
        }
    }

    /// Whether a unary operator comes next.
    pub fn begins_unary(&self, c: &Cursor) -> bool
        ensures { result ≡ spec.begins_by spec.a_unary (here self.now c.now).0 }
    {
        match self.tokens.get(c.position) {
            Some(token) => match &token.kind {
                TokenKind::Punctuator(mark) => unary_of(*mark).is_some(),
                _ => false,
            },
            None => false,
        }
    }

    /// Takes the unary operator that comes next; it and its offset.
    pub fn unary(&self, c: &mut Cursor) -> Result<(UnaryOperator, u32), ParseFault>
        ensures { Gives (λ x. (x.0, x.1, here self.now c.new)) result
            (spec.take_by spec.a_unary (here self.now c.old).0 (here self.now c.old).1) }
    {
        match self.tokens.get(c.position) {
            Some(token) => match &token.kind {
                TokenKind::Punctuator(mark) => match unary_of(*mark) {
                    Some(operator) => {
                        c.position += 1;
                        Ok((operator, token.start))
                    }
                    None => Err(ParseFault::Syntax(c.position)),
                },
                _ => Err(ParseFault::Syntax(c.position)),
            },
            None => Err(ParseFault::Syntax(c.position)),
        }
    }

    fn token_specifies(&self, c: &Cursor, kind: &TokenKind, typed: bool) -> bool
        ensures { result ≡ specifies_by (here self.now c.now).1 typed kind.now }
    {
        match kind {
            TokenKind::Keyword(keyword) => begins_type_word(*keyword),
            TokenKind::Identifier(name) => {
                let known = self.is_typedef(c, name);
                !typed && known
            }
            _ => false,
        }
    }

    /// Whether a declaration specifier comes next; where a type was read, a name is none.
    pub fn specifies(&self, c: &Cursor, typed: bool) -> bool
        ensures { result ≡ specifies_in typed (here self.now c.now).0 (here self.now c.now).1 }
    {
        match self.tokens.get(c.position) {
            Some(token) => self.token_specifies(c, &token.kind, typed),
            None => false,
        }
    }

    /// Whether `(` and a type come next. The cursor ends where it began.
    pub fn begins_typed(&self, c: &mut Cursor) -> bool
        ensures typed { result ≡ spec.typed_in (here self.now c.old).0 (here self.now c.old).1 }
        ensures same { here self.now c.new ≡ here self.now c.old }
    {
        match self.tokens.get(c.position) {
            Some(token) => match &token.kind {
                TokenKind::Punctuator(Punctuator::LeftParen) => {
                    c.position += 1;
                    let typed = self.specifies(c, false);
                    c.position -= 1;
                    typed
                }
                _ => false,
            },
            None => false,
        }
    }
}

/// Whether a keyword begins a declaration specifier (C99 6.7).
fn begins_type_word(keyword: Keyword) -> bool
    ensures { result ≡ begins_type keyword }
{
    match keyword {
        Keyword::Break
        | Keyword::Case
        | Keyword::Continue
        | Keyword::Default
        | Keyword::Do
        | Keyword::Else
        | Keyword::For
        | Keyword::Goto
        | Keyword::If
        | Keyword::Return
        | Keyword::Sizeof
        | Keyword::Switch
        | Keyword::While
        | Keyword::Asm => false,
        _ => true,
    }
}
