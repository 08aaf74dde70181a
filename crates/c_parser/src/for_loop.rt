//! The `for` statement (C99 6.8.5.3).
ghost use Rattle.std.specs.Prelude.{◌≤◌};
ghost use Rattle.c_grammar.specs.Reading.{rules};
ghost use Rattle.c_grammar.specs.UnitReading as spec;
ghost use Rattle.c_grammar.specs.UnitReading.{stmt_at, initializer_at};
ghost use Rattle.c_reading.specs.Reads.{Reads};
ghost use Rattle.c_parser.specs.Control.{turning_at, heading_at};
ghost use Rattle.c_parser.specs.Turns.{ReachesStatement};

use crate::declarations::declaration;
use crate::jumps::optional;
use crate::turns::Turns;
use c_exprs::Trees;
use c_language::{Expr, ForStart, Punctuator, Stmt, Token};
use c_reading::{Cursor, ParseFault};
use c_scope::FileNames;
use plain_data::Shared;
use std::alloc::Global;

/// `declaration` that a `for` statement begins with (C99 6.8.5).
#[tactic(auto, unfolding(c_grammar::specs::UnitReading::for_declaration_at))]
fn declared_start(trees: &Trees<'_>, c: &mut Cursor) -> Result<ForStart, ParseFault>
    requires small { trees.now.height ≤ 256 }
    ensures { Reads (λ x. x) trees.now.source c.old c.new result
        (spec.for_declaration_at (rules trees.now.height) (initializer_at trees.now.height)) }
{
    let declaration = declaration(trees, c)?;
    Ok(ForStart::Declared { declaration })
}

/// `[ expression ] ;` that a `for` statement begins with (C99 6.8.5).
#[tactic(auto, unfolding(c_grammar::specs::UnitReading::for_value_at))]
fn value_start(trees: &Trees<'_>, c: &mut Cursor) -> Result<ForStart, ParseFault>
    requires small { trees.now.height ≤ 256 }
    ensures { Reads (λ x. x) trees.now.source c.old c.new result (spec.for_value_at (rules trees.now.height)) }
{
    let value = optional(trees, c, Punctuator::Semicolon)?;
    trees.source.expect(c, Punctuator::Semicolon)?;
    Ok(ForStart::Value { value })
}

/// `declaration | [ expression ] ;` (C99 6.8.5): what a `for` statement begins with.
fn start(trees: &Trees<'_>, c: &mut Cursor) -> Result<ForStart, ParseFault>
    requires small { trees.now.height ≤ 256 }
    ensures { Reads (λ x. x) trees.now.source c.old c.new result
        (spec.for_start_at (rules trees.now.height) (initializer_at trees.now.height)) }
{
    if trees.source.specifies(c, false) {
        declared_start(trees, c)
    } else {
        value_start(trees, c)
    }
}

/// `[ expression ] ; [ expression ] )` (C99 6.8.5): the condition and the step.
#[tactic(auto, unfolding(crate::specs::Control::turning_at))]
fn turning(
    trees: &Trees<'_>,
    c: &mut Cursor,
) -> Result<(Option<Shared<Expr>>, Option<Shared<Expr>>), ParseFault>
    requires small { trees.now.height ≤ 256 }
    ensures { Reads (λ x. x) trees.now.source c.old c.new result (turning_at (rules trees.now.height)) }
{
    let condition = optional(trees, c, Punctuator::Semicolon)?;
    trees.source.expect(c, Punctuator::Semicolon)?;
    let step = optional(trees, c, Punctuator::RightParen)?;
    trees.source.expect(c, Punctuator::RightParen)?;
    Ok((condition, step))
}

/// `( ( declaration | [ expression ] ; ) [ expression ] ; [ expression ] )` (C99 6.8.5).
#[tactic(auto, unfolding(crate::specs::Control::heading_at))]
fn heading(
    trees: &Trees<'_>,
    c: &mut Cursor,
) -> Result<(ForStart, Option<Shared<Expr>>, Option<Shared<Expr>>), ParseFault>
    requires small { trees.now.height ≤ 256 }
    ensures { Reads (λ x. x) trees.now.source c.old c.new result
        (heading_at (rules trees.now.height) (initializer_at trees.now.height)) }
{
    trees.source.expect(c, Punctuator::LeftParen)?;
    let start = start(trees, c)?;
    let (condition, step) = turning(trees, c)?;
    Ok((start, condition, step))
}

impl<
    'a,
    T: Fn(Global, &[Token], &FileNames, &mut Cursor, u32, u32) -> Result<Stmt, ParseFault>,
> Turns<'a, T> {
    /// `iteration-statement: for ( ( declaration | [ expression ] ; ) [ expression ] ; [ expression ] ) statement`
    /// (C99 6.8.5), behind `for`.
    #[tactic(auto, using(crate::proofs::Splits::for_is))]
    pub fn for_loop(&self, c: &mut Cursor, at: u32) -> Result<Stmt, ParseFault>
        requires reaches { ReachesStatement T.Fn self.now }
        requires small { self.now.trees.height ≤ 256 }
        ensures { Reads (λ x. x) self.now.trees.source c.old c.new result
            (spec.for_at (stmt_at self.now.trees.height) (rules self.now.trees.height)
            (initializer_at self.now.trees.height) at) }
    {
        self.trees.source.enter(c)?;
        let (start, condition, step) = heading(&self.trees, c)?;
        let body = self.substatement(c)?;
        self.trees.source.leave(c);
        Ok(Stmt::For {
            at,
            start,
            condition,
            step,
            body,
        })
    }
}
