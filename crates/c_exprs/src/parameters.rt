//! Functions in declarators, and their parameters (C99 6.7.5.3).
ghost use Rattle.std.specs.Prelude.{◌≡◌, ◌≤◌, ◌<◌, ◌+◌, false, length, suc};
ghost use Rattle.c_grammar.specs.Reading as spec;
ghost use Rattle.c_grammar.specs.Reading.{rules};
ghost use Rattle.c_exprs.specs.Below.{Reaches};
ghost use Rattle.c_reading.specs.Cursor.{behind};
ghost use Rattle.c_reading.specs.Reads.{ReadsLow};
ghost use Rattle.c_exprs.specs.Reads.{ReadsDeclarator};

use crate::below::Below;
use crate::discarding::discard_declarator;
use c_grammar::DeclaratorPlace;
use c_language::{Punctuator, Token};
use c_nodes::{
    FoundDeclarator, FoundExpr, FoundParameter, FoundParameters, FoundSpecifier, declarator,
};
use c_reading::{Cursor, ParseFault};
use c_scope::FileNames;
use std::alloc::Global;

impl<
    'a,
    E: Fn(Global, &[Token], &FileNames, &mut Cursor, u32, u32) -> Result<FoundExpr, ParseFault>,
    S: Fn(Global, &[Token], &FileNames, &mut Cursor, u32) -> Result<FoundSpecifier, ParseFault>,
    D: Fn(
        Global,
        &[Token],
        &FileNames,
        &mut Cursor,
        u32,
        DeclaratorPlace,
    ) -> Result<FoundDeclarator, ParseFault>,
> Below<'a, E, S, D> {
    /// `parameter-declaration: declaration-specifiers ( declarator | [ abstract-declarator ] )` (C99 6.7.5); its
    /// name is in scope behind it.
    #[tactic(auto, unfolding(c_grammar::specs::Reading::parameter_at))]
    pub fn parameter(&self, c: &mut Cursor) -> Result<FoundParameter, ParseFault>
        requires reaches { Reaches E.Fn S.Fn D.Fn self.now }
        ensures { ReadsLow (λ f. f.tree) (λ f. f.height) self.now.source c.old c.new result
            (spec.parameter_at (rules self.now.height)) self.now.height }
    {
        let specifiers = self.specification(c)?;
        let found = self.declarator(c, DeclaratorPlace::Parameter)?;
        self.source.declare(c, &found.name)?;
        Ok(declarator::parameter(self.alloc, specifiers, found)?)
    }

    /// `parameter-type-list: parameter-declaration { , parameter-declaration } [ , ... ]` (C99 6.7.5), behind the
    /// first: these parameters, and those behind a comma, up to `)` or `...`.
    pub fn more_parameters(
        &self,
        c: &mut Cursor,
        first: FoundParameters,
    ) -> Result<FoundParameters, ParseFault>
        requires reaches { Reaches E.Fn S.Fn D.Fn self.now }
        requires low_first { first.height ≤ self.now.height }
        requires fixed { first.variadic ≡ false }
        ensures { ReadsLow (λ f. (f.trees, f.variadic)) (λ f. f.height) self.now.source c.old c.new result
            (λ s. behind first.trees (spec.more_parameters_at (rules self.now.height) (suc (length s.0)) s))
            self.now.height }
    {
        let mut all = first;
        let mut left = self.source.turns(c);
        'parameters: while left > 0 {
            left -= 1;
            if !self.source.begins(c, Punctuator::Comma) {
                return Ok(all);
            }
            self.source.expect(c, Punctuator::Comma)?;
            if self.source.begins(c, Punctuator::Ellipsis) {
                self.source.expect(c, Punctuator::Ellipsis)?;
                return Ok(declarator::variadic(all));
            }
            let found = self.parameter(c)?;
            all = declarator::and_parameter(self.alloc, all, found)?;
        }
        Err(ParseFault::Syntax(c.position))
    }

    /// `[ parameter-type-list ]` (C99 6.7.5): parameters, or none before `)`.
    #[tactic(auto, unfolding(c_grammar::specs::Reading::parameters_at))]
    pub fn parameters(&self, c: &mut Cursor) -> Result<FoundParameters, ParseFault>
        requires reaches { Reaches E.Fn S.Fn D.Fn self.now }
        ensures { ReadsLow (λ f. (f.trees, f.variadic)) (λ f. f.height) self.now.source c.old c.new result
            (spec.parameters_at (rules self.now.height)) self.now.height }
    {
        let none = declarator::no_parameters(self.alloc);
        if self.source.begins(c, Punctuator::RightParen) {
            return Ok(none);
        }
        let first = self.parameter(c)?;
        let first = declarator::and_parameter(self.alloc, none, first)?;
        self.more_parameters(c, first)
    }

    /// `direct-declarator: direct-declarator ( [ parameter-type-list ] )` (C99 6.7.5.3), after `(`.
    #[tactic(auto, unfolding(c_grammar::specs::Reading::function_at))]
    pub fn function(
        &self,
        c: &mut Cursor,
        place: DeclaratorPlace,
        at: u32,
        inner: FoundDeclarator,
    ) -> Result<FoundDeclarator, ParseFault>
        requires reaches { Reaches E.Fn S.Fn D.Fn self.now }
        requires small { self.now.height < 500 }
        requires low_inner { inner.height ≤ self.now.height + 1 }
        ensures { ReadsDeclarator self.now.source c.old c.new result
            (spec.function_at (rules self.now.height) place at inner.tree) (self.now.height + 2) }
    {
        match self.source.enter(c) {
            Ok(()) => (),
            Err(_) => {
                discard_declarator(inner);
                return Err(ParseFault::Memory);
            }
        }
        let parameters = match self.parameters(c) {
            Ok(parameters) => parameters,
            Err(fault) => {
                discard_declarator(inner);
                return Err(fault);
            }
        };
        self.source.close(c, place, inner.derived);
        match self.source.expect(c, Punctuator::RightParen) {
            Ok(_) => Ok(declarator::function(self.alloc, at, inner, parameters)?),
            Err(fault) => {
                discard_declarator(inner);
                Err(fault)
            }
        }
    }
}
