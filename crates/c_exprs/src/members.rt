//! Members of structures and unions (C99 6.7.2.1).
ghost use Rattle.std.specs.Prelude.{◌≤◌, length, suc};
ghost use Rattle.c_grammar.specs.Reading as spec;
ghost use Rattle.c_grammar.specs.Reading.{rules};
ghost use Rattle.c_exprs.specs.Below.{Reaches, ReachesExpr};
ghost use Rattle.c_reading.specs.Cursor.{after};
ghost use Rattle.c_reading.specs.Reads.{ReadsLow};

use crate::below::Below;
use c_grammar::DeclaratorPlace;
use c_language::{Punctuator, Token};
use c_nodes::{
    FoundDeclarator, FoundExpr, FoundField, FoundFieldName, FoundFields, FoundMember,
    FoundSpecifier, pieces,
};
use c_reading::{Cursor, ParseFault};
use c_scope::FileNames;
use std::alloc::Global;

impl<
    'a,
    E: Fn(Global, &[Token], &FileNames, &mut Cursor, u32, u32) -> Result<FoundExpr, ParseFault>,
    S: Fn(Global, &[Token], &FileNames, &mut Cursor, u32) -> Result<FoundSpecifier, ParseFault>,
    D: Fn(
        Global,
        &[Token],
        &FileNames,
        &mut Cursor,
        u32,
        DeclaratorPlace,
    ) -> Result<FoundDeclarator, ParseFault>,
> Below<'a, E, S, D> {
    /// `struct-declarator: [ declarator ] : constant-expression` (C99 6.7.2.1), from `:` on: a bit-field.
    #[tactic(auto, unfolding(c_grammar::specs::Reading::bits_at))]
    pub fn bits(&self, c: &mut Cursor, name: FoundFieldName) -> Result<FoundField, ParseFault>
        requires exprs { ReachesExpr E.Fn self.now.source self.now.height self.now.expr }
        requires low_name { name.height ≤ self.now.height }
        ensures { ReadsLow (λ f. f.tree) (λ f. f.height) self.now.source c.old c.new result
            (spec.bits_at (rules self.now.height) name.tree) self.now.height }
    {
        let at = self.source.expect(c, Punctuator::Colon)?;
        let width = self.expr(c, 14)?;
        Ok(pieces::bits(self.alloc, at, name, width)?)
    }

    /// `struct-declarator: declarator | [ declarator ] : constant-expression` (C99 6.7.2.1): one member.
    #[tactic(auto, unfolding(c_grammar::specs::Reading::field_at))]
    pub fn field(&self, c: &mut Cursor) -> Result<FoundField, ParseFault>
        requires reaches { Reaches E.Fn S.Fn D.Fn self.now }
        ensures { ReadsLow (λ f. f.tree) (λ f. f.height) self.now.source c.old c.new result
            (spec.field_at (rules self.now.height)) self.now.height }
    {
        if self.source.begins(c, Punctuator::Colon) {
            return self.bits(c, pieces::unnamed());
        }
        let found = self.declarator(c, DeclaratorPlace::Member)?;
        if self.source.begins(c, Punctuator::Colon) {
            let name = pieces::named(self.alloc, found)?;
            return self.bits(c, name);
        }
        Ok(pieces::plain(self.alloc, found)?)
    }

    /// `struct-declarator-list: struct-declarator { , struct-declarator }` (C99 6.7.2.1), behind the first: these
    /// members, and those behind a comma.
    pub fn more_fields(&self, c: &mut Cursor, first: FoundFields) -> Result<FoundFields, ParseFault>
        requires reaches { Reaches E.Fn S.Fn D.Fn self.now }
        requires low_first { first.height ≤ self.now.height }
        ensures { ReadsLow (λ f. f.trees) (λ f. f.height) self.now.source c.old c.new result
            (λ s. after first.trees (spec.more_fields_at (rules self.now.height) (suc (length s.0)) s))
            self.now.height }
    {
        let mut all = first;
        let mut left = self.source.turns(c);
        'fields: while left > 0 {
            left -= 1;
            if !self.source.begins(c, Punctuator::Comma) {
                return Ok(all);
            }
            self.source.expect(c, Punctuator::Comma)?;
            let found = self.field(c)?;
            all = pieces::and_field(self.alloc, all, found)?;
        }
        Err(ParseFault::Syntax(c.position))
    }

    /// `[ struct-declarator-list ]` (C99 6.7.2.1): the members that a declaration declares, or none.
    #[tactic(auto, unfolding(c_grammar::specs::Reading::fields_at))]
    pub fn fields(&self, c: &mut Cursor) -> Result<FoundFields, ParseFault>
        requires reaches { Reaches E.Fn S.Fn D.Fn self.now }
        ensures { ReadsLow (λ f. f.trees) (λ f. f.height) self.now.source c.old c.new result
            (spec.fields_at (rules self.now.height)) self.now.height }
    {
        let none = pieces::no_fields(self.alloc);
        if self.source.begins(c, Punctuator::Semicolon) {
            return Ok(none);
        }
        let first = self.field(c)?;
        let first = pieces::and_field(self.alloc, none, first)?;
        self.more_fields(c, first)
    }

    /// `struct-declaration: specifier-qualifier-list [ struct-declarator-list ] ;` (C99 6.7.2.1).
    #[tactic(auto, unfolding(c_grammar::specs::Reading::member_at))]
    pub fn member_declaration(&self, c: &mut Cursor) -> Result<FoundMember, ParseFault>
        requires reaches { Reaches E.Fn S.Fn D.Fn self.now }
        ensures { ReadsLow (λ f. f.tree) (λ f. f.height) self.now.source c.old c.new result
            (spec.member_at (rules self.now.height)) self.now.height }
    {
        let specifiers = self.specification(c)?;
        let fields = self.fields(c)?;
        self.source.expect(c, Punctuator::Semicolon)?;
        Ok(pieces::member(specifiers, fields))
    }
}
