//! Operators behind an operand (C99 6.5.2, 6.5.5 to 6.5.17).
ghost use Rattle.std.specs.Prelude.{◌≤◌, ◌<◌, ◌+◌, IfOk};
ghost use Rattle.c_grammar.specs.Reading as spec;
ghost use Rattle.c_grammar.specs.Reading.{rules};
ghost use Rattle.c_exprs.specs.Below.{ReachesExpr};
ghost use Rattle.c_reading.specs.Reads.{Reads};
ghost use Rattle.c_exprs.specs.Reads.{ReadsExpr};
ghost use Rattle.c_exprs.specs.Conditional.{arms_at, chosen_at};

use crate::below::Below;
use crate::discarding::discard_expr;
use c_grammar::{DeclaratorPlace, Infix};
use c_language::{BinaryOperator, Punctuator, Token};
use c_nodes::{FoundDeclarator, FoundExpr, FoundSpecifier, expr};
use c_reading::{Cursor, ParseFault, right_rank};
use c_scope::FileNames;
use std::alloc::Global;

impl<
    'a,
    E: Fn(Global, &[Token], &FileNames, &mut Cursor, u32, u32) -> Result<FoundExpr, ParseFault>,
    S: Fn(Global, &[Token], &FileNames, &mut Cursor, u32) -> Result<FoundSpecifier, ParseFault>,
    D: Fn(
        Global,
        &[Token],
        &FileNames,
        &mut Cursor,
        u32,
        DeclaratorPlace,
    ) -> Result<FoundDeclarator, ParseFault>,
> Below<'a, E, S, D> {
    /// `postfix-expression: postfix-expression [ expression ]` (C99 6.5.2.1), after the `[`.
    #[tactic(auto, unfolding(c_grammar::specs::Reading::subscript_at))]
    pub fn subscript(
        &self,
        c: &mut Cursor,
        at: u32,
        left: FoundExpr,
    ) -> Result<FoundExpr, ParseFault>
        requires exprs { ReachesExpr E.Fn self.now.source self.now.height self.now.expr }
        requires small { self.now.height < 500 }
        requires low_left { left.height ≤ self.now.height + 1 }
        ensures { ReadsExpr self.now.source c.old c.new result
            (spec.subscript_at (rules self.now.height) at left.tree) (self.now.height + 2) }
    {
        let index = match self.expr(c, 16) {
            Ok(index) => index,
            Err(fault) => {
                discard_expr(left);
                return Err(fault);
            }
        };
        match self.source.expect(c, Punctuator::RightBracket) {
            Ok(_) => Ok(expr::subscript(self.alloc, at, left, index)?),
            Err(fault) => {
                discard_expr(left);
                discard_expr(index);
                Err(fault)
            }
        }
    }

    /// `multiplicative-expression: multiplicative-expression ( * | / | % ) cast-expression`, and so at each rank up to
    /// `logical-OR-expression` (C99 6.5.5 to 6.5.14), after the operator.
    #[tactic(auto, unfolding(c_grammar::specs::Reading::binary_at))]
    pub fn binary(
        &self,
        c: &mut Cursor,
        at: u32,
        operator: BinaryOperator,
        left: FoundExpr,
    ) -> Result<FoundExpr, ParseFault>
        requires exprs { ReachesExpr E.Fn self.now.source self.now.height self.now.expr }
        requires small { self.now.height < 500 }
        requires low_left { left.height ≤ self.now.height + 1 }
        ensures { ReadsExpr self.now.source c.old c.new result
            (spec.binary_at (rules self.now.height) at operator left.tree) (self.now.height + 2) }
    {
        match self.expr(c, right_rank(operator)) {
            Ok(right) => Ok(expr::binary(self.alloc, at, operator, left, right)?),
            Err(fault) => {
                discard_expr(left);
                Err(fault)
            }
        }
    }

    /// `expression : conditional-expression` (C99 6.5.15): both arms, with the `:` between them.
    #[tactic(auto, unfolding(crate::specs::Conditional::arms_at))]
    fn arms(&self, c: &mut Cursor) -> Result<(FoundExpr, FoundExpr), ParseFault>
        requires exprs { ReachesExpr E.Fn self.now.source self.now.height self.now.expr }
        ensures reads { Reads (λ x. (x.0.tree, x.1.tree)) self.now.source c.old c.new result
            (arms_at (rules self.now.height)) }
        ensures low { IfOk result (λ x. (x.0.height ≤ self.now.height) × (x.1.height ≤ self.now.height)) }
    {
        let positive = self.expr(c, 16)?;
        match self.source.expect(c, Punctuator::Colon) {
            Ok(_) => (),
            Err(fault) => {
                discard_expr(positive);
                return Err(fault);
            }
        }
        match self.expr(c, 14) {
            Ok(negative) => Ok((positive, negative)),
            Err(fault) => {
                discard_expr(positive);
                Err(fault)
            }
        }
    }

    /// `? expression : conditional-expression` (C99 6.5.15), after the `?`, where the condition may stand there.
    #[tactic(auto, unfolding(crate::specs::Conditional::chosen_at))]
    fn choose(&self, c: &mut Cursor, at: u32, left: FoundExpr) -> Result<FoundExpr, ParseFault>
        requires exprs { ReachesExpr E.Fn self.now.source self.now.height self.now.expr }
        requires small { self.now.height < 500 }
        requires low_left { left.height ≤ self.now.height + 1 }
        ensures { ReadsExpr self.now.source c.old c.new result
            (chosen_at (rules self.now.height) at left.tree) (self.now.height + 2) }
    {
        match self.arms(c) {
            Ok((positive, negative)) => {
                Ok(expr::conditional(self.alloc, at, left, positive, negative)?)
            }
            Err(fault) => {
                discard_expr(left);
                Err(fault)
            }
        }
    }

    /// `conditional-expression: logical-OR-expression [ ? expression : conditional-expression ]` (C99 6.5.15),
    /// after `?`.
    #[tactic(auto, using(crate::proofs::Choosing::conditional_none, crate::proofs::Choosing::conditional_goes))]
    pub fn conditional(
        &self,
        c: &mut Cursor,
        at: u32,
        left: FoundExpr,
    ) -> Result<FoundExpr, ParseFault>
        requires exprs { ReachesExpr E.Fn self.now.source self.now.height self.now.expr }
        requires small { self.now.height < 500 }
        requires low_left { left.height ≤ self.now.height + 1 }
        ensures { ReadsExpr self.now.source c.old c.new result
            (spec.conditional_at (rules self.now.height) at left.tree) (self.now.height + 2) }
    {
        if left.rank > 13 {
            discard_expr(left);
            return Err(ParseFault::Syntax(c.position.saturating_sub(1)));
        }
        self.choose(c, at, left)
    }

    /// `postfix-expression: postfix-expression . identifier` (C99 6.5.2.3), after `.`.
    #[tactic(auto, unfolding(c_grammar::specs::Reading::member_of_at))]
    pub fn member(&self, c: &mut Cursor, at: u32, left: FoundExpr) -> Result<FoundExpr, ParseFault>
        requires small { self.now.height < 500 }
        requires low_left { left.height ≤ self.now.height + 1 }
        ensures { ReadsExpr self.now.source c.old c.new result
            (spec.member_of_at at left.tree) (self.now.height + 2) }
    {
        match self.source.name(c) {
            Ok((member, _)) => Ok(expr::member(self.alloc, at, member, left)?),
            Err(fault) => {
                discard_expr(left);
                Err(fault)
            }
        }
    }

    /// `postfix-expression: postfix-expression -> identifier` (C99 6.5.2.3), after `->`.
    #[tactic(auto, unfolding(c_grammar::specs::Reading::arrow_at))]
    pub fn arrow(&self, c: &mut Cursor, at: u32, left: FoundExpr) -> Result<FoundExpr, ParseFault>
        requires small { self.now.height < 500 }
        requires low_left { left.height ≤ self.now.height + 1 }
        ensures { ReadsExpr self.now.source c.old c.new result (spec.arrow_at at left.tree) (self.now.height + 2) }
    {
        match self.source.name(c) {
            Ok((member, _)) => Ok(expr::arrow(self.alloc, at, member, left)?),
            Err(fault) => {
                discard_expr(left);
                Err(fault)
            }
        }
    }

    /// `assignment-expression: unary-expression assignment-operator assignment-expression` (C99 6.5.16), after the
    /// operator.
    #[tactic(auto, unfolding(c_grammar::specs::Reading::assign_at))]
    pub fn assign(
        &self,
        c: &mut Cursor,
        at: u32,
        operator: Option<BinaryOperator>,
        left: FoundExpr,
    ) -> Result<FoundExpr, ParseFault>
        requires exprs { ReachesExpr E.Fn self.now.source self.now.height self.now.expr }
        requires small { self.now.height < 500 }
        requires low_left { left.height ≤ self.now.height + 1 }
        ensures { ReadsExpr self.now.source c.old c.new result
            (spec.assign_at (rules self.now.height) at operator left.tree) (self.now.height + 2) }
    {
        if left.rank > 2 {
            discard_expr(left);
            return Err(ParseFault::Syntax(c.position.saturating_sub(1)));
        }
        match self.expr(c, 15) {
            Ok(value) => Ok(expr::assign(self.alloc, at, operator, left, value)?),
            Err(fault) => {
                discard_expr(left);
                Err(fault)
            }
        }
    }

    /// `expression: expression , assignment-expression` (C99 6.5.17), after `,`.
    #[tactic(auto, unfolding(c_grammar::specs::Reading::comma_at))]
    pub fn comma(&self, c: &mut Cursor, at: u32, left: FoundExpr) -> Result<FoundExpr, ParseFault>
        requires exprs { ReachesExpr E.Fn self.now.source self.now.height self.now.expr }
        requires small { self.now.height < 500 }
        requires low_left { left.height ≤ self.now.height + 1 }
        ensures { ReadsExpr self.now.source c.old c.new result
            (spec.comma_at (rules self.now.height) at left.tree) (self.now.height + 2) }
    {
        match self.expr(c, 15) {
            Ok(right) => Ok(expr::comma(self.alloc, at, left, right)?),
            Err(fault) => {
                discard_expr(left);
                Err(fault)
            }
        }
    }

    /// After an operator between two operands.
    pub fn infix(
        &self,
        c: &mut Cursor,
        at: u32,
        found: Option<Infix>,
        left: FoundExpr,
    ) -> Result<FoundExpr, ParseFault>
        requires exprs { ReachesExpr E.Fn self.now.source self.now.height self.now.expr }
        requires small { self.now.height < 500 }
        requires low_left { left.height ≤ self.now.height + 1 }
        ensures { ReadsExpr self.now.source c.old c.new result
            (spec.infix_at (rules self.now.height) at found left.tree) (self.now.height + 2) }
    {
        match found {
            None => {
                discard_expr(left);
                Err(ParseFault::Syntax(c.position))
            }
            Some(Infix::Binary(operator)) => self.binary(c, at, operator, left),
            Some(Infix::Assign(operator)) => self.assign(c, at, operator, left),
        }
    }
}
