//! Statements in which no other statement stands (C99 6.8.3, 6.8.6).
ghost use Rattle.std.specs.Prelude.{◌≤◌};
ghost use Rattle.c_grammar.specs.Reading.{rules};
ghost use Rattle.c_grammar.specs.UnitReading as spec;
ghost use Rattle.c_reading.specs.Reads.{Reads};

use crate::shared::expr;
use c_exprs::Trees;
use c_language::{Expr, Punctuator, Stmt};
use c_reading::{Cursor, ParseFault, Source};
use plain_data::Shared;

/// `[ expression ]` (C99 6.8.3, 6.8.5, 6.8.6): none where this token comes next.
#[tactic(auto, unfolding(c_grammar::specs::UnitReading::optional_at))]
pub fn optional(
    trees: &Trees<'_>,
    c: &mut Cursor,
    end: Punctuator,
) -> Result<Option<Shared<Expr>>, ParseFault>
    requires small { trees.now.height ≤ 256 }
    ensures { Reads (λ e. e) trees.now.source c.old c.new result (spec.optional_at (rules trees.now.height) end) }
{
    if trees.source.begins(c, end) {
        return Ok(None);
    }
    let value = expr(trees, c, 16)?;
    Ok(Some(value))
}

/// `expression-statement: [ expression ] ;` (C99 6.8.3).
#[tactic(auto, unfolding(c_grammar::specs::UnitReading::value_statement_at))]
pub fn value_statement(trees: &Trees<'_>, c: &mut Cursor) -> Result<Stmt, ParseFault>
    requires small { trees.now.height ≤ 256 }
    ensures { Reads (λ x. x) trees.now.source c.old c.new result (spec.value_statement_at (rules trees.now.height)) }
{
    let value = optional(trees, c, Punctuator::Semicolon)?;
    let at = trees.source.expect(c, Punctuator::Semicolon)?;
    Ok(Stmt::Value { at, value })
}

/// `jump-statement: goto identifier ;` (C99 6.8.6), behind `goto`.
#[tactic(auto, unfolding(c_grammar::specs::UnitReading::goto_at))]
pub fn goto(source: &Source<'_>, c: &mut Cursor, at: u32) -> Result<Stmt, ParseFault>
    ensures { Reads (λ x. x) source.now c.old c.new result (spec.goto_at at) }
{
    let (name, _) = source.name(c)?;
    source.expect(c, Punctuator::Semicolon)?;
    Ok(Stmt::Goto { at, name })
}

/// `jump-statement: continue ;` (C99 6.8.6), behind `continue`.
#[tactic(auto, unfolding(c_grammar::specs::UnitReading::continue_at))]
pub fn continue_statement(source: &Source<'_>, c: &mut Cursor, at: u32) -> Result<Stmt, ParseFault>
    ensures { Reads (λ x. x) source.now c.old c.new result (spec.continue_at at) }
{
    source.expect(c, Punctuator::Semicolon)?;
    Ok(Stmt::Continue { at })
}

/// `jump-statement: break ;` (C99 6.8.6), behind `break`.
#[tactic(auto, unfolding(c_grammar::specs::UnitReading::break_at))]
pub fn break_statement(source: &Source<'_>, c: &mut Cursor, at: u32) -> Result<Stmt, ParseFault>
    ensures { Reads (λ x. x) source.now c.old c.new result (spec.break_at at) }
{
    source.expect(c, Punctuator::Semicolon)?;
    Ok(Stmt::Break { at })
}

/// `jump-statement: return [ expression ] ;` (C99 6.8.6), behind `return`.
#[tactic(auto, unfolding(c_grammar::specs::UnitReading::return_at))]
pub fn return_statement(trees: &Trees<'_>, c: &mut Cursor, at: u32) -> Result<Stmt, ParseFault>
    requires small { trees.now.height ≤ 256 }
    ensures { Reads (λ x. x) trees.now.source c.old c.new result (spec.return_at (rules trees.now.height) at) }
{
    let value = optional(trees, c, Punctuator::Semicolon)?;
    trees.source.expect(c, Punctuator::Semicolon)?;
    Ok(Stmt::Return { at, value })
}

/// `( expression )` (C99 6.8.4, 6.8.5): a controlling expression.
#[tactic(auto, unfolding(c_grammar::specs::UnitReading::condition_at))]
pub fn condition(trees: &Trees<'_>, c: &mut Cursor) -> Result<Shared<Expr>, ParseFault>
    requires small { trees.now.height ≤ 256 }
    ensures { Reads (λ e. e) trees.now.source c.old c.new result (spec.condition_at (rules trees.now.height)) }
{
    trees.source.expect(c, Punctuator::LeftParen)?;
    let value = expr(trees, c, 16)?;
    trees.source.expect(c, Punctuator::RightParen)?;
    Ok(value)
}
