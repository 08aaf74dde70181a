//! Operators behind an operand, one after the other (C99 6.5.2, 6.5.5 to 6.5.17).
ghost use Rattle.std.specs.Prelude.{◌≤◌, ◌<◌, ◌+◌, length, suc};
ghost use Rattle.c_grammar.specs.Reading as spec;
ghost use Rattle.c_grammar.specs.Reading.{rules};
ghost use Rattle.c_exprs.specs.Below.{ReachesExpr};
ghost use Rattle.c_exprs.specs.Reads.{ReadsExpr};

use crate::below::Below;
use crate::discarding::discard_expr;
use c_grammar::{DeclaratorPlace, infix_of};
use c_language::{PostfixOperator, Punctuator, Token, TokenKind};
use c_nodes::{FoundDeclarator, FoundExpr, FoundSpecifier, expr};
use c_reading::{Cursor, ParseFault};
use c_scope::FileNames;
use std::alloc::Global;

impl<
    'a,
    E: Fn(Global, &[Token], &FileNames, &mut Cursor, u32, u32) -> Result<FoundExpr, ParseFault>,
    S: Fn(Global, &[Token], &FileNames, &mut Cursor, u32) -> Result<FoundSpecifier, ParseFault>,
    D: Fn(
        Global,
        &[Token],
        &FileNames,
        &mut Cursor,
        u32,
        DeclaratorPlace,
    ) -> Result<FoundDeclarator, ParseFault>,
> Below<'a, E, S, D> {
    /// `postfix-expression: postfix-expression ( [ .. ] | ( .. ) | . .. | -> .. | ++ | -- )` (C99 6.5.2), or the
    /// operator and the right operand of a looser expression (C99 6.5.5 to 6.5.17), after the first punctuator of
    /// it.
    fn extend_by(
        &self,
        c: &mut Cursor,
        at: u32,
        mark: Punctuator,
        left: FoundExpr,
    ) -> Result<FoundExpr, ParseFault>
        requires exprs { ReachesExpr E.Fn self.now.source self.now.height self.now.expr }
        requires small { self.now.height < 500 }
        requires low_left { left.height ≤ self.now.height + 1 }
        ensures { ReadsExpr self.now.source c.old c.new result
            (spec.extend_by (rules self.now.height) left.tree mark at) (self.now.height + 2) }
    {
        match mark {
            Punctuator::LeftBracket => self.subscript(c, at, left),
            Punctuator::LeftParen => self.call(c, at, left),
            Punctuator::Dot => self.member(c, at, left),
            Punctuator::Arrow => self.arrow(c, at, left),
            Punctuator::PlusPlus => {
                Ok(expr::postfix(self.alloc, at, PostfixOperator::Increment, left)?)
            }
            Punctuator::MinusMinus => {
                Ok(expr::postfix(self.alloc, at, PostfixOperator::Decrement, left)?)
            }
            Punctuator::Question => self.conditional(c, at, left),
            Punctuator::Comma => self.comma(c, at, left),
            _ => self.infix(c, at, infix_of(mark), left),
        }
    }

    /// `postfix-expression: postfix-expression ( [ .. ] | ( .. ) | . .. | -> .. | ++ | -- )` (C99 6.5.2), or the
    /// operator and the right operand of a looser expression (C99 6.5.5 to 6.5.17): what follows the operand on its
    /// left.
    fn extend(&self, c: &mut Cursor, left: FoundExpr) -> Result<FoundExpr, ParseFault>
        requires exprs { ReachesExpr E.Fn self.now.source self.now.height self.now.expr }
        requires small { self.now.height < 500 }
        requires low_left { left.height ≤ self.now.height + 1 }
        ensures { ReadsExpr self.now.source c.old c.new result
            (λ s. spec.extend_in (rules self.now.height) left.tree s.0 s.1) (self.now.height + 2) }
    {
        match self.source.tokens.get(c.position) {
            Some(token) => match &token.kind {
                TokenKind::Punctuator(mark) => {
                    c.position += 1;
                    self.extend_by(c, token.start, *mark, left)
                }
                _ => {
                    discard_expr(left);
                    Err(ParseFault::Syntax(c.position))
                }
            },
            None => {
                discard_expr(left);
                Err(ParseFault::Syntax(c.position))
            }
        }
    }

    /// `additive-expression: multiplicative-expression { ( + | - ) multiplicative-expression }`, and so at each rank
    /// (C99 6.5.2, 6.5.5 to 6.5.17): the operators of a rank, each with all before it as its left operand.
    pub fn more(&self, c: &mut Cursor, rank: u32, left: FoundExpr) -> Result<FoundExpr, ParseFault>
        requires exprs { ReachesExpr E.Fn self.now.source self.now.height self.now.expr }
        requires small { self.now.height < 500 }
        requires low_left { left.height ≤ self.now.height + 1 }
        ensures { ReadsExpr self.now.source c.old c.new result
            (λ s. spec.more_at (rules self.now.height) (suc self.now.height) rank (suc (length s.0)) left.tree s)
            (self.now.height + 1) }
    {
        let mut all = left;
        let mut turns = self.source.turns(c);
        'operators: while turns > 0 {
            turns -= 1;
            if self.source.binds(c) != rank {
                return Ok(all);
            }
            all = self.extend(c, all)?;
            if all.height > self.height + 1 {
                discard_expr(all);
                return Err(ParseFault::TooDeep(c.position));
            }
        }
        discard_expr(all);
        Err(ParseFault::Syntax(c.position))
    }
}
