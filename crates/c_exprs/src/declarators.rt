//! Declarators (C99 6.7.5, 6.7.6).
ghost use Rattle.std.specs.Prelude.{◌≤◌, ◌<◌, ◌+◌};
ghost use Rattle.c_grammar.specs.Reading as spec;
ghost use Rattle.c_grammar.specs.Reading.{rules};
ghost use Rattle.c_exprs.specs.Below.{ReachesDeclarator, ReachesExpr};
ghost use Rattle.c_reading.specs.Reads.{ReadsLow};
ghost use Rattle.c_exprs.specs.Reads.{ReadsDeclarator};

use crate::below::Below;
use crate::discarding::discard_declarator;
use c_grammar::DeclaratorPlace;
use c_language::{Punctuator, Token};
use c_nodes::{FoundDeclarator, FoundExpr, FoundOptional, FoundSpecifier, declarator, expr};
use c_reading::{Cursor, ParseFault};
use c_scope::FileNames;
use std::alloc::Global;

impl<
    'a,
    E: Fn(Global, &[Token], &FileNames, &mut Cursor, u32, u32) -> Result<FoundExpr, ParseFault>,
    S: Fn(Global, &[Token], &FileNames, &mut Cursor, u32) -> Result<FoundSpecifier, ParseFault>,
    D: Fn(
        Global,
        &[Token],
        &FileNames,
        &mut Cursor,
        u32,
        DeclaratorPlace,
    ) -> Result<FoundDeclarator, ParseFault>,
> Below<'a, E, S, D> {
    /// `pointer: * [ type-qualifier-list ] [ pointer ]`, and the declarator behind it (C99 6.7.5.1).
    #[tactic(auto, unfolding(c_grammar::specs::Reading::pointer_at))]
    pub fn pointer(
        &self,
        c: &mut Cursor,
        place: DeclaratorPlace,
    ) -> Result<FoundDeclarator, ParseFault>
        requires declarators { ReachesDeclarator D.Fn self.now.source self.now.height self.now.declarator }
        requires small { self.now.height < 500 }
        ensures { ReadsDeclarator self.now.source c.old c.new result
            (spec.pointer_at (rules self.now.height) place) (self.now.height + 1) }
    {
        let at = self.source.expect(c, Punctuator::Star)?;
        let qualifiers = self.source.qualifiers(self.alloc, c)?;
        let inner = self.declarator(c, place)?;
        Ok(declarator::pointer(self.alloc, at, qualifiers, inner)?)
    }

    /// `[ assignment-expression ]` before `]` (C99 6.7.5.2): the length of an array.
    #[tactic(auto, unfolding(c_grammar::specs::Reading::length_at))]
    pub fn length(&self, c: &mut Cursor) -> Result<FoundOptional, ParseFault>
        requires exprs { ReachesExpr E.Fn self.now.source self.now.height self.now.expr }
        ensures { ReadsLow (λ f. f.tree) (λ f. f.height) self.now.source c.old c.new result
            (spec.length_at (rules self.now.height)) self.now.height }
    {
        if self.source.begins(c, Punctuator::RightBracket) {
            return Ok(expr::absent());
        }
        let length = self.expr(c, 15)?;
        Ok(expr::present(self.alloc, length)?)
    }

    /// `direct-declarator: direct-declarator [ [ static ] [ type-qualifier-list ] [ assignment-expression ] ]`
    /// (C99 6.7.5.2), after the `[`.
    #[tactic(auto, unfolding(c_grammar::specs::Reading::array_at))]
    pub fn array(
        &self,
        c: &mut Cursor,
        at: u32,
        inner: FoundDeclarator,
    ) -> Result<FoundDeclarator, ParseFault>
        requires exprs { ReachesExpr E.Fn self.now.source self.now.height self.now.expr }
        requires small { self.now.height < 500 }
        requires low_inner { inner.height ≤ self.now.height + 1 }
        ensures { ReadsDeclarator self.now.source c.old c.new result
            (spec.array_at (rules self.now.height) at inner.tree) (self.now.height + 2) }
    {
        let words = match self.source.array_words(self.alloc, c) {
            Ok(words) => words,
            Err(fault) => {
                discard_declarator(inner);
                return Err(fault);
            }
        };
        let length = match self.length(c) {
            Ok(length) => length,
            Err(fault) => {
                discard_declarator(inner);
                return Err(fault);
            }
        };
        match self.source.expect(c, Punctuator::RightBracket) {
            Ok(_) => Ok(declarator::array(self.alloc, at, inner, words, length)?),
            Err(fault) => {
                discard_declarator(inner);
                Err(fault)
            }
        }
    }

    /// `direct-declarator: ( declarator )` (C99 6.7.5), after `(`.
    #[tactic(auto, unfolding(c_grammar::specs::Reading::grouped_declarator_at))]
    pub fn grouped_declarator(
        &self,
        c: &mut Cursor,
        place: DeclaratorPlace,
        at: u32,
    ) -> Result<FoundDeclarator, ParseFault>
        requires declarators { ReachesDeclarator D.Fn self.now.source self.now.height self.now.declarator }
        requires small { self.now.height < 500 }
        ensures { ReadsDeclarator self.now.source c.old c.new result
            (spec.grouped_declarator_at (rules self.now.height) place at) (self.now.height + 1) }
    {
        let inner = self.declarator(c, place)?;
        match self.source.expect(c, Punctuator::RightParen) {
            Ok(_) => Ok(declarator::grouped(self.alloc, at, inner)?),
            Err(fault) => {
                discard_declarator(inner);
                Err(fault)
            }
        }
    }
}
