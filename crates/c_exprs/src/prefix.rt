//! Types in parentheses before an operand: casts and `sizeof` (C99 6.5.3.4, 6.5.4).
ghost use Rattle.std.specs.Prelude.{◌<◌, ◌+◌};
ghost use Rattle.c_grammar.specs.Reading as spec;
ghost use Rattle.c_grammar.specs.Reading.{rules};
ghost use Rattle.c_exprs.specs.Below.{Reaches};
ghost use Rattle.c_reading.specs.Reads.{ReadsLow};
ghost use Rattle.c_exprs.specs.Reads.{ReadsExpr};

use crate::below::Below;
use c_grammar::DeclaratorPlace;
use c_language::{Keyword, Punctuator, Token};
use c_nodes::{FoundDeclarator, FoundExpr, FoundSpecifier, FoundType, expr};
use c_reading::{Cursor, ParseFault};
use c_scope::FileNames;
use std::alloc::Global;

impl<
    'a,
    E: Fn(Global, &[Token], &FileNames, &mut Cursor, u32, u32) -> Result<FoundExpr, ParseFault>,
    S: Fn(Global, &[Token], &FileNames, &mut Cursor, u32) -> Result<FoundSpecifier, ParseFault>,
    D: Fn(
        Global,
        &[Token],
        &FileNames,
        &mut Cursor,
        u32,
        DeclaratorPlace,
    ) -> Result<FoundDeclarator, ParseFault>,
> Below<'a, E, S, D> {
    /// `( type-name )` (C99 6.5.3, 6.5.4): the offset of `(`, and the type name.
    #[tactic(auto, unfolding(c_grammar::specs::Reading::parenthesized_type_at))]
    fn parenthesized_type(&self, c: &mut Cursor) -> Result<(u32, FoundType), ParseFault>
        requires reaches { Reaches E.Fn S.Fn D.Fn self.now }
        ensures { ReadsLow (λ x. (x.0, x.1.tree)) (λ x. x.1.height) self.now.source c.old c.new result
            (spec.parenthesized_type_at (rules self.now.height)) self.now.height }
    {
        let at = self.source.expect(c, Punctuator::LeftParen)?;
        let named = self.type_name(c)?;
        self.source.expect(c, Punctuator::RightParen)?;
        Ok((at, named))
    }

    /// `unary-expression: sizeof ( unary-expression | ( type-name ) )` (C99 6.5.3.4), after the word `sizeof`.
    #[tactic(auto, unfolding(c_grammar::specs::Reading::sizeof_at))]
    fn size(&self, c: &mut Cursor, at: u32) -> Result<FoundExpr, ParseFault>
        requires reaches { Reaches E.Fn S.Fn D.Fn self.now }
        requires small { self.now.height < 500 }
        ensures { ReadsExpr self.now.source c.old c.new result
            (spec.sizeof_at (rules self.now.height) at) (self.now.height + 1) }
    {
        if self.source.begins_typed(c) {
            let (_, named) = self.parenthesized_type(c)?;
            return Ok(expr::sizeof_type(self.alloc, at, named)?);
        }
        let operand = self.expr(c, 2)?;
        Ok(expr::sizeof_expr(self.alloc, at, operand)?)
    }

    /// `unary-expression: sizeof unary-expression | sizeof ( type-name )` (C99 6.5.3.4).
    pub fn sized(&self, c: &mut Cursor) -> Result<FoundExpr, ParseFault>
        requires reaches { Reaches E.Fn S.Fn D.Fn self.now }
        requires small { self.now.height < 500 }
        ensures { ReadsExpr self.now.source c.old c.new result
            (spec.sized_at (rules self.now.height)) (self.now.height + 1) }
    {
        let at = self.source.expect_keyword(c, Keyword::Sizeof)?;
        self.size(c, at)
    }

    /// `cast-expression: ( type-name ) cast-expression` (C99 6.5.4).
    #[tactic(auto, unfolding(c_grammar::specs::Reading::cast_at))]
    pub fn cast(&self, c: &mut Cursor) -> Result<FoundExpr, ParseFault>
        requires reaches { Reaches E.Fn S.Fn D.Fn self.now }
        requires small { self.now.height < 500 }
        ensures { ReadsExpr self.now.source c.old c.new result
            (spec.cast_at (rules self.now.height)) (self.now.height + 1) }
    {
        let (at, named) = self.parenthesized_type(c)?;
        let operand = self.expr(c, 3)?;
        Ok(expr::cast(self.alloc, at, named, operand)?)
    }
}
