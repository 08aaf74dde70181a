//! Direct declarators, and what stands behind them (C99 6.7.5, 6.7.6).
ghost use Rattle.std.specs.Prelude.{◌≤◌, ◌<◌, ◌+◌, length, suc};
ghost use Rattle.c_grammar.specs.Reading as spec;
ghost use Rattle.c_grammar.specs.Reading.{rules};
ghost use Rattle.c_exprs.specs.Below.{Reaches, ReachesDeclarator};
ghost use Rattle.c_exprs.specs.Reads.{ReadsDeclarator};

use crate::below::Below;
use crate::discarding::discard_declarator;
use c_grammar::DeclaratorPlace;
use c_language::{Name, Punctuator, Token, TokenKind};
use c_nodes::{FoundDeclarator, FoundExpr, FoundSpecifier, declarator};
use c_reading::{Cursor, ParseFault, may_omit};
use c_scope::FileNames;
use std::alloc::Global;

impl<
    'a,
    E: Fn(Global, &[Token], &FileNames, &mut Cursor, u32, u32) -> Result<FoundExpr, ParseFault>,
    S: Fn(Global, &[Token], &FileNames, &mut Cursor, u32) -> Result<FoundSpecifier, ParseFault>,
    D: Fn(
        Global,
        &[Token],
        &FileNames,
        &mut Cursor,
        u32,
        DeclaratorPlace,
    ) -> Result<FoundDeclarator, ParseFault>,
> Below<'a, E, S, D> {
    /// `[ abstract-declarator ]` that is left out (C99 6.7.5, 6.7.6): no name, where there may be none.
    pub fn omitted(&self, c: &Cursor, place: DeclaratorPlace) -> Result<FoundDeclarator, ParseFault>
        ensures { ReadsDeclarator self.now.source c.now c.now result (spec.omitted_at place) (self.now.height + 1) }
    {
        if may_omit(place) {
            Ok(declarator::omitted())
        } else {
            Err(ParseFault::Syntax(c.position))
        }
    }

    /// `direct-declarator: identifier | ( declarator )` (C99 6.7.5), or nothing where the name may be left out.
    pub fn direct(
        &self,
        c: &mut Cursor,
        place: DeclaratorPlace,
    ) -> Result<FoundDeclarator, ParseFault>
        requires declarators { ReachesDeclarator D.Fn self.now.source self.now.height self.now.declarator }
        requires small { self.now.height < 500 }
        ensures { ReadsDeclarator self.now.source c.old c.new result
            (λ s. spec.direct_in (rules self.now.height) place s.0 s.1) (self.now.height + 1) }
    {
        match self.source.tokens.get(c.position) {
            Some(token) => match &token.kind {
                TokenKind::Identifier(name) => {
                    if place == DeclaratorPlace::TypeName {
                        return Ok(declarator::omitted());
                    }
                    let name = name.clone()?;
                    c.position += 1;
                    Ok(declarator::name(token.start, name)?)
                }
                TokenKind::Punctuator(Punctuator::LeftParen) => {
                    c.position += 1;
                    if may_omit(place) && self.source.begins_parameters(c) {
                        c.position -= 1;
                        return Ok(declarator::omitted());
                    }
                    self.grouped_declarator(c, place, token.start)
                }
                _ => self.omitted(c, place),
            },
            None => self.omitted(c, place),
        }
    }

    /// `direct-declarator: direct-declarator ( [ .. ] | ( .. ) )` (C99 6.7.5): a declarator and the suffix behind it.
    pub fn suffix(
        &self,
        c: &mut Cursor,
        place: DeclaratorPlace,
        before: FoundDeclarator,
    ) -> Result<FoundDeclarator, ParseFault>
        requires reaches { Reaches E.Fn S.Fn D.Fn self.now }
        requires small { self.now.height < 500 }
        requires low_before { before.height ≤ self.now.height + 1 }
        ensures { ReadsDeclarator self.now.source c.old c.new result
            (λ s. spec.suffix_in (rules self.now.height) place before.tree s.0 s.1) (self.now.height + 2) }
    {
        match self.source.tokens.get(c.position) {
            Some(token) => match &token.kind {
                TokenKind::Punctuator(Punctuator::LeftBracket) => {
                    c.position += 1;
                    self.array(c, token.start, before)
                }
                TokenKind::Punctuator(Punctuator::LeftParen) => {
                    c.position += 1;
                    self.function(c, place, token.start, before)
                }
                _ => {
                    discard_declarator(before);
                    Err(ParseFault::Syntax(c.position))
                }
            },
            None => {
                discard_declarator(before);
                Err(ParseFault::Syntax(c.position))
            }
        }
    }

    /// `direct-declarator: direct-declarator { [ .. ] | ( .. ) }` (C99 6.7.5): a declarator and the suffixes behind it.
    pub fn suffixes(
        &self,
        c: &mut Cursor,
        place: DeclaratorPlace,
        before: FoundDeclarator,
    ) -> Result<FoundDeclarator, ParseFault>
        requires reaches { Reaches E.Fn S.Fn D.Fn self.now }
        requires small { self.now.height < 500 }
        requires low_before { before.height ≤ self.now.height + 1 }
        ensures { ReadsDeclarator self.now.source c.old c.new result
            (λ s. spec.suffixes_at (rules self.now.height) (suc self.now.height) place (suc (length s.0)) before.tree s)
            (self.now.height + 1) }
    {
        let mut all = before;
        let mut left = self.source.turns(c);
        'suffixes: while left > 0 {
            left -= 1;
            if !self.source.is_suffixed(c) {
                return Ok(all);
            }
            all = self.suffix(c, place, all)?;
            if all.height > self.height + 1 {
                discard_declarator(all);
                return Err(ParseFault::TooDeep(c.position));
            }
        }
        discard_declarator(all);
        Err(ParseFault::Syntax(c.position))
    }

    /// `direct-declarator: ( identifier | ( declarator ) ) { [ .. ] | ( .. ) }` (C99 6.7.5).
    #[tactic(auto, unfolding(c_grammar::specs::Reading::suffixed_at))]
    pub fn suffixed(
        &self,
        c: &mut Cursor,
        place: DeclaratorPlace,
    ) -> Result<FoundDeclarator, ParseFault>
        requires reaches { Reaches E.Fn S.Fn D.Fn self.now }
        requires small { self.now.height < 500 }
        ensures { ReadsDeclarator self.now.source c.old c.new result
            (spec.suffixed_at (rules self.now.height) (suc self.now.height) place) (self.now.height + 1) }
    {
        let direct = self.direct(c, place)?;
        self.suffixes(c, place, direct)
    }

    /// `declarator: [ pointer ] direct-declarator` (C99 6.7.5), of at most the height above that of its parts.
    #[tactic(auto, unfolding(c_grammar::specs::Reading::declarator_by))]
    pub fn read_declarator(
        &self,
        c: &mut Cursor,
        place: DeclaratorPlace,
    ) -> Result<FoundDeclarator, ParseFault>
        requires reaches { Reaches E.Fn S.Fn D.Fn self.now }
        requires small { self.now.height < 500 }
        ensures { ReadsDeclarator self.now.source c.old c.new result
            (spec.declarator_by (rules self.now.height) (suc self.now.height) place) (self.now.height + 1) }
    {
        if self.source.begins(c, Punctuator::Star) {
            self.pointer(c, place)
        } else {
            self.suffixed(c, place)
        }
    }
}
