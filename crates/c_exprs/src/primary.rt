//! Primary expressions (C99 6.5.1), and operators before an operand (C99 6.5.3, 6.5.4).
ghost use Rattle.std.specs.Prelude.{◌<◌, ◌+◌};
ghost use Rattle.c_grammar.specs.Reading as spec;
ghost use Rattle.c_grammar.specs.Reading.{rules};
ghost use Rattle.c_exprs.specs.Below.{ReachesExpr};
ghost use Rattle.c_exprs.specs.Reads.{ReadsExpr};

use crate::below::Below;
use crate::discarding::discard_expr;
use c_grammar::{DeclaratorPlace, operand_rank};
use c_language::{Name, Punctuator, Token, TokenKind};
use c_nodes::{FoundDeclarator, FoundExpr, FoundSpecifier, expr};
use c_reading::{Cursor, ParseFault};
use c_scope::FileNames;
use plain_data::{Bytes, Shared};
use std::alloc::Global;

impl<
    'a,
    E: Fn(Global, &[Token], &FileNames, &mut Cursor, u32, u32) -> Result<FoundExpr, ParseFault>,
    S: Fn(Global, &[Token], &FileNames, &mut Cursor, u32) -> Result<FoundSpecifier, ParseFault>,
    D: Fn(
        Global,
        &[Token],
        &FileNames,
        &mut Cursor,
        u32,
        DeclaratorPlace,
    ) -> Result<FoundDeclarator, ParseFault>,
> Below<'a, E, S, D> {
    /// `primary-expression: ( expression )` (C99 6.5.1), after `(`.
    #[tactic(auto, unfolding(c_grammar::specs::Reading::parenthesized_at))]
    pub fn parenthesized(&self, c: &mut Cursor, at: u32) -> Result<FoundExpr, ParseFault>
        requires exprs { ReachesExpr E.Fn self.now.source self.now.height self.now.expr }
        requires small { self.now.height < 500 }
        ensures { ReadsExpr self.now.source c.old c.new result
            (spec.parenthesized_at (rules self.now.height) at) (self.now.height + 1) }
    {
        let inner = self.expr(c, 16)?;
        match self.source.expect(c, Punctuator::RightParen) {
            Ok(_) => Ok(expr::parenthesized(self.alloc, at, inner)?),
            Err(fault) => {
                discard_expr(inner);
                Err(fault)
            }
        }
    }

    /// `primary-expression: string-literal { string-literal }` (C99 6.5.1, 5.1.1.2), after the first literal.
    fn strings(
        &self,
        c: &mut Cursor,
        at: u32,
        first: Shared<Bytes>,
    ) -> Result<FoundExpr, ParseFault>
        ensures { ReadsExpr self.now.source c.old c.new result (spec.literal_at at first) 1 }
    {
        let pieces = self.source.literals(self.alloc, c, first)?;
        Ok(expr::string_literal(at, pieces))
    }

    /// `primary-expression: identifier` (C99 6.5.1), which was taken and is no typedef name.
    fn identifier(&self, c: &Cursor, at: u32, name: &Name) -> Result<FoundExpr, ParseFault>
        requires taken { 0 < c.now.position }
        ensures { ReadsExpr self.now.source c.now c.now result (spec.identifier_at at name.now) 1 }
    {
        if self.source.is_typedef(c, name) {
            return Err(ParseFault::Syntax(c.position - 1));
        }
        Ok(expr::identifier(at, name.clone()?))
    }

    /// `primary-expression: identifier | constant | string-literal | ( expression )` (C99 6.5.1), after its first
    /// token.
    fn primary_by(&self, c: &mut Cursor, at: u32, kind: &TokenKind) -> Result<FoundExpr, ParseFault>
        requires exprs { ReachesExpr E.Fn self.now.source self.now.height self.now.expr }
        requires small { self.now.height < 500 }
        requires taken { 0 < c.old.position }
        ensures { ReadsExpr self.now.source c.old c.new result
            (spec.primary_by (rules self.now.height) kind.now at) (self.now.height + 1) }
    {
        match kind {
            TokenKind::Integer(constant) => Ok(expr::integer(at, *constant)),
            TokenKind::Floating => Ok(expr::floating(at)),
            TokenKind::Character(value) => Ok(expr::character(at, *value)),
            TokenKind::StringLiteral(bytes) => {
                let first = bytes.clone()?;
                self.strings(c, at, first)
            }
            TokenKind::FunctionName => Ok(expr::function_name(at)),
            TokenKind::Identifier(name) => self.identifier(c, at, name),
            TokenKind::Punctuator(Punctuator::LeftParen) => self.parenthesized(c, at),
            _ => Err(ParseFault::Syntax(c.position - 1)),
        }
    }

    /// `primary-expression: identifier | constant | string-literal | ( expression )` (C99 6.5.1).
    pub fn primary(&self, c: &mut Cursor) -> Result<FoundExpr, ParseFault>
        requires exprs { ReachesExpr E.Fn self.now.source self.now.height self.now.expr }
        requires small { self.now.height < 500 }
        ensures { ReadsExpr self.now.source c.old c.new result
            (λ s. spec.primary_in (rules self.now.height) s.0 s.1) (self.now.height + 1) }
    {
        match self.source.tokens.get(c.position) {
            Some(token) => {
                c.position += 1;
                self.primary_by(c, token.start, &token.kind)
            }
            None => Err(ParseFault::Syntax(c.position)),
        }
    }

    /// `unary-expression: ( ++ | -- ) unary-expression | unary-operator cast-expression` (C99 6.5.3).
    #[tactic(auto, unfolding(c_grammar::specs::Reading::unary_at))]
    pub fn unary(&self, c: &mut Cursor) -> Result<FoundExpr, ParseFault>
        requires exprs { ReachesExpr E.Fn self.now.source self.now.height self.now.expr }
        requires small { self.now.height < 500 }
        ensures { ReadsExpr self.now.source c.old c.new result
            (spec.unary_at (rules self.now.height)) (self.now.height + 1) }
    {
        let (operator, at) = self.source.unary(c)?;
        let operand = self.expr(c, operand_rank(operator))?;
        Ok(expr::unary(self.alloc, at, operator, operand)?)
    }
}
