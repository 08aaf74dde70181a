//! A declaration specifier, by its first token (C99 6.7).
ghost use Rattle.std.specs.Prelude.{◌≡◌, ◌<◌, ◌+◌, IfSome, option_map};
ghost use Rattle.c_grammar.specs.Operators as table;
ghost use Rattle.c_grammar.specs.Reading as spec;
ghost use Rattle.c_grammar.specs.Reading.{rules};
ghost use Rattle.c_exprs.specs.Below.{Reaches};
ghost use Rattle.c_exprs.specs.Reads.{ReadsSpecifier};

use crate::below::Below;
use c_grammar::{DeclaratorPlace, aggregate_of, class_of, qualifier_of, type_word_of};
use c_language::{Keyword, Token, TokenKind};
use c_nodes::{FoundDeclarator, FoundExpr, FoundSpecifier, specifier};
use c_reading::{Cursor, ParseFault};
use c_scope::FileNames;
use std::alloc::Global;

/// The declaration specifier that a keyword at an offset is by itself.
fn by_word(at: u32, keyword: Keyword) -> Option<FoundSpecifier>
    ensures tree { option_map (λ f. f.tree) result ≡ table.word_specifier at keyword }
    ensures height { IfSome result (λ f. f.height ≡ 1) }
{
    if keyword == Keyword::Inline {
        return Some(specifier::inline(at));
    }
    if let Some(class) = class_of(keyword) {
        return Some(specifier::storage(at, class));
    }
    if let Some(qualifier) = qualifier_of(keyword) {
        return Some(specifier::qualifier(at, qualifier));
    }
    match type_word_of(keyword) {
        Some(word) => Some(specifier::word(at, word)),
        None => None,
    }
}

impl<
    'a,
    E: Fn(Global, &[Token], &FileNames, &mut Cursor, u32, u32) -> Result<FoundExpr, ParseFault>,
    S: Fn(Global, &[Token], &FileNames, &mut Cursor, u32) -> Result<FoundSpecifier, ParseFault>,
    D: Fn(
        Global,
        &[Token],
        &FileNames,
        &mut Cursor,
        u32,
        DeclaratorPlace,
    ) -> Result<FoundDeclarator, ParseFault>,
> Below<'a, E, S, D> {
    /// `declaration-specifier: struct-or-union-specifier | enum-specifier | type-word | qualifier | class | inline`
    /// (C99 6.7), after the keyword that begins it.
    fn keyword_specifier(
        &self,
        c: &mut Cursor,
        at: u32,
        keyword: Keyword,
    ) -> Result<FoundSpecifier, ParseFault>
        requires reaches { Reaches E.Fn S.Fn D.Fn self.now }
        requires small { self.now.height < 500 }
        ensures { ReadsSpecifier self.now.source c.old c.new result
            (spec.keyword_specifier (rules self.now.height) at keyword (table.aggregate_of keyword))
            (self.now.height + 1) }
    {
        if let Some(kind) = aggregate_of(keyword) {
            return self.tagged(c, at, kind);
        }
        match keyword {
            Keyword::Enum => self.enumerated(c, at),
            _ => match by_word(at, keyword) {
                Some(found) => Ok(found),
                None => Err(ParseFault::Syntax(c.position)),
            },
        }
    }

    /// `declaration-specifier: storage-class-specifier | type-specifier | type-qualifier | function-specifier`
    /// (C99 6.7), of at most the height above that of its parts.
    pub fn read_specifier(&self, c: &mut Cursor) -> Result<FoundSpecifier, ParseFault>
        requires reaches { Reaches E.Fn S.Fn D.Fn self.now }
        requires small { self.now.height < 500 }
        ensures { ReadsSpecifier self.now.source c.old c.new result
            (λ s. spec.specifier_in (rules self.now.height) s.0 s.1) (self.now.height + 1) }
    {
        match self.source.tokens.get(c.position) {
            Some(token) => match &token.kind {
                TokenKind::Keyword(keyword) => {
                    c.position += 1;
                    self.keyword_specifier(c, token.start, *keyword)
                }
                TokenKind::Identifier(name) => {
                    let name = name.clone()?;
                    c.position += 1;
                    Ok(specifier::typedef(token.start, name))
                }
                _ => Err(ParseFault::Syntax(c.position)),
            },
            None => Err(ParseFault::Syntax(c.position)),
        }
    }
}
