//! Structures and unions (C99 6.7.2.1).
ghost use Rattle.std.specs.Prelude.{◌<◌, ◌+◌, length, suc};
ghost use Rattle.c_grammar.specs.Reading as spec;
ghost use Rattle.c_grammar.specs.Reading.{rules};
ghost use Rattle.c_exprs.specs.Below.{Reaches};
ghost use Rattle.c_reading.specs.Reads.{ReadsLow};
ghost use Rattle.c_exprs.specs.Reads.{ReadsSpecifier};

use crate::below::Below;
use c_grammar::DeclaratorPlace;
use c_language::{AggregateKind, Punctuator, TagName, Token};
use c_nodes::{FoundDeclarator, FoundExpr, FoundMembers, FoundSpecifier, pieces, specifier};
use c_reading::{Cursor, ParseFault};
use c_scope::FileNames;
use std::alloc::Global;

impl<
    'a,
    E: Fn(Global, &[Token], &FileNames, &mut Cursor, u32, u32) -> Result<FoundExpr, ParseFault>,
    S: Fn(Global, &[Token], &FileNames, &mut Cursor, u32) -> Result<FoundSpecifier, ParseFault>,
    D: Fn(
        Global,
        &[Token],
        &FileNames,
        &mut Cursor,
        u32,
        DeclaratorPlace,
    ) -> Result<FoundDeclarator, ParseFault>,
> Below<'a, E, S, D> {
    /// `struct-declaration-list: { struct-declaration }` (C99 6.7.2.1), up to `}`.
    pub fn members(&self, c: &mut Cursor) -> Result<FoundMembers, ParseFault>
        requires reaches { Reaches E.Fn S.Fn D.Fn self.now }
        ensures { ReadsLow (λ f. f.trees) (λ f. f.height) self.now.source c.old c.new result
            (λ s. spec.members_at (rules self.now.height) (suc (length s.0)) s) self.now.height }
    {
        let mut all = pieces::no_members(self.alloc);
        let mut left = self.source.turns(c);
        'members: while left > 0 {
            left -= 1;
            if self.source.begins(c, Punctuator::RightBrace) {
                return Ok(all);
            }
            let found = self.member_declaration(c)?;
            all = pieces::and_member(self.alloc, all, found)?;
        }
        Err(ParseFault::Syntax(c.position))
    }

    /// `struct-or-union-specifier: struct-or-union [ identifier ] { struct-declaration-list }` (C99 6.7.2.1), from
    /// `{` on.
    #[tactic(auto, unfolding(c_grammar::specs::Reading::aggregate_at))]
    pub fn aggregate(
        &self,
        c: &mut Cursor,
        at: u32,
        kind: AggregateKind,
        tag: Option<TagName>,
    ) -> Result<FoundSpecifier, ParseFault>
        requires reaches { Reaches E.Fn S.Fn D.Fn self.now }
        requires small { self.now.height < 500 }
        ensures { ReadsSpecifier self.now.source c.old c.new result
            (spec.aggregate_at (rules self.now.height) at kind tag) (self.now.height + 1) }
    {
        self.source.expect(c, Punctuator::LeftBrace)?;
        let members = self.members(c)?;
        self.source.expect(c, Punctuator::RightBrace)?;
        Ok(specifier::aggregate(at, kind, tag, members.trees, members.height))
    }

    /// `struct-or-union-specifier: struct-or-union ( [ identifier ] { struct-declaration-list } | identifier )`
    /// (C99 6.7.2.1), after the word `struct` or `union`.
    #[tactic(auto, unfolding(c_grammar::specs::Reading::tagged_at))]
    pub fn tagged(
        &self,
        c: &mut Cursor,
        at: u32,
        kind: AggregateKind,
    ) -> Result<FoundSpecifier, ParseFault>
        requires reaches { Reaches E.Fn S.Fn D.Fn self.now }
        requires small { self.now.height < 500 }
        ensures { ReadsSpecifier self.now.source c.old c.new result
            (spec.tagged_at (rules self.now.height) at kind) (self.now.height + 1) }
    {
        if self.source.begins(c, Punctuator::LeftBrace) {
            return self.aggregate(c, at, kind, None);
        }
        let tag = self.source.tag(c)?;
        if self.source.begins(c, Punctuator::LeftBrace) {
            return self.aggregate(c, at, kind, Some(tag));
        }
        Ok(specifier::tag(at, kind, tag))
    }
}
