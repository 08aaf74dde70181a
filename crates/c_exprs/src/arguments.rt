//! The arguments of a call (C99 6.5.2.2).
ghost use Rattle.std.specs.Prelude.{◌≡◌, ◌≤◌, ◌<◌, ◌+◌, ◌++◌, ◌∷◌, [], IfOk, length, map, max, suc};
ghost use Rattle.c_grammar.specs.Grammar.{highest_shape, shape};
ghost use Rattle.c_grammar.specs.Reading as spec;
ghost use Rattle.c_grammar.specs.Reading.{rules};
ghost use Rattle.c_exprs.specs.Below.{ReachesExpr};
ghost use Rattle.c_reading.specs.Cursor.{after};
ghost use Rattle.c_reading.specs.Reads.{ReadsLow};
ghost use Rattle.c_exprs.specs.Reads.{ReadsExpr};

use crate::below::Below;
use crate::discarding::discard_expr;
use c_grammar::DeclaratorPlace;
use c_language::{Expr, Punctuator, Token};
use c_nodes::{FoundDeclarator, FoundExpr, FoundSpecifier, expr};
use c_reading::{Cursor, ParseFault};
use c_scope::FileNames;
use plain_data::{Items, Shared};
use std::alloc::{AllocError, Global};

/// The arguments of a call, and the height of the highest.
#[derive(Drop)]
pub struct FoundArguments {
    pub trees: Items<Shared<Expr>>,
    pub height: u32,
    pub ghost height_is: { height ≡ highest_shape (map shape trees) },
}

/// No arguments yet.
fn no_arguments(alloc: Global) -> FoundArguments
    ensures trees { result.trees ≡ [] }
    ensures height { result.height ≡ 0 }
{
    FoundArguments {
        trees: Items::new(alloc),
        height: 0,
    }
}

/// Arguments and one more behind them.
#[tactic(auto, using(crate::proofs::Arguing::height_arguments))]
fn and_argument(
    alloc: Global,
    all: FoundArguments,
    last: FoundExpr,
) -> Result<FoundArguments, AllocError>
    ensures trees { IfOk result (λ f. f.trees ≡ all.trees ++ last.tree ∷ []) }
    ensures height { IfOk result (λ f. f.height ≡ max all.height last.height) }
{
    let height = expr::most(all.height, last.height);
    let mut trees = all.trees;
    trees.push(Shared::new(alloc, last.tree)?)?;
    Ok(FoundArguments { trees, height })
}

impl<
    'a,
    E: Fn(Global, &[Token], &FileNames, &mut Cursor, u32, u32) -> Result<FoundExpr, ParseFault>,
    S: Fn(Global, &[Token], &FileNames, &mut Cursor, u32) -> Result<FoundSpecifier, ParseFault>,
    D: Fn(
        Global,
        &[Token],
        &FileNames,
        &mut Cursor,
        u32,
        DeclaratorPlace,
    ) -> Result<FoundDeclarator, ParseFault>,
> Below<'a, E, S, D> {
    /// `argument-expression-list: assignment-expression { , assignment-expression }` (C99 6.5.2), behind the first:
    /// these arguments, and those behind a comma.
    fn more_arguments(
        &self,
        c: &mut Cursor,
        first: FoundArguments,
    ) -> Result<FoundArguments, ParseFault>
        requires exprs { ReachesExpr E.Fn self.now.source self.now.height self.now.expr }
        requires low_first { first.height ≤ self.now.height }
        ensures { ReadsLow (λ f. f.trees) (λ f. f.height) self.now.source c.old c.new result
            (λ s. after first.trees (spec.more_arguments_at (rules self.now.height) (suc (length s.0)) s))
            self.now.height }
    {
        let mut all = first;
        let mut left = self.source.turns(c);
        'arguments: while left > 0 {
            left -= 1;
            if !self.source.begins(c, Punctuator::Comma) {
                return Ok(all);
            }
            self.source.expect(c, Punctuator::Comma)?;
            let found = self.expr(c, 15)?;
            all = and_argument(self.alloc, all, found)?;
        }
        Err(ParseFault::Syntax(c.position))
    }

    /// `[ argument-expression-list ]` (C99 6.5.2): arguments, or none before `)`.
    #[tactic(auto, unfolding(c_grammar::specs::Reading::arguments_at))]
    fn arguments(&self, c: &mut Cursor) -> Result<FoundArguments, ParseFault>
        requires exprs { ReachesExpr E.Fn self.now.source self.now.height self.now.expr }
        ensures { ReadsLow (λ f. f.trees) (λ f. f.height) self.now.source c.old c.new result
            (spec.arguments_at (rules self.now.height)) self.now.height }
    {
        let none = no_arguments(self.alloc);
        if self.source.begins(c, Punctuator::RightParen) {
            return Ok(none);
        }
        let first = self.expr(c, 15)?;
        let first = and_argument(self.alloc, none, first)?;
        self.more_arguments(c, first)
    }

    /// `postfix-expression: postfix-expression ( [ argument-expression-list ] )` (C99 6.5.2.2), after `(`.
    #[tactic(auto, unfolding(c_grammar::specs::Reading::call_at))]
    pub fn call(&self, c: &mut Cursor, at: u32, left: FoundExpr) -> Result<FoundExpr, ParseFault>
        requires exprs { ReachesExpr E.Fn self.now.source self.now.height self.now.expr }
        requires small { self.now.height < 500 }
        requires low_left { left.height ≤ self.now.height + 1 }
        ensures { ReadsExpr self.now.source c.old c.new result
            (spec.call_at (rules self.now.height) at left.tree) (self.now.height + 2) }
    {
        let arguments = match self.arguments(c) {
            Ok(arguments) => arguments,
            Err(fault) => {
                discard_expr(left);
                return Err(fault);
            }
        };
        match self.source.expect(c, Punctuator::RightParen) {
            Ok(_) => Ok(expr::call(self.alloc, at, left, arguments.trees, arguments.height)?),
            Err(fault) => {
                discard_expr(left);
                Err(fault)
            }
        }
    }
}
