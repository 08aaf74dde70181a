//! The names of statements (C99 6.8), put on a stack: each is a block, but for declarations and labels. All fail for
//! want of memory alone.

ghost use Rattle.std.specs.Prelude.{◌≡◌, ◌∷◌, map, option_map, OnOk};
ghost use Rattle.c_means.specs.Names as names;

use crate::expressions::put_expr;
use crate::found::Found;
use crate::stack::Stack;
use crate::units::put_declaration;
use crate::working::{end_for, join, join_all, put_nothing, scope};
use c_language::{Expr, ForStart, Stmt};
use plain_data::Shared;
use std::alloc::{AllocError, Global};

fn put_value(
    alloc: Global,
    e: &Option<Shared<Expr>>,
    done: &mut Stack<Found>,
) -> Result<(), AllocError>
    ensures { OnOk result (done.new ≡ names.of_some names.names_of e.now ∷ done.old) }
{
    match e {
        None => put_nothing(alloc, done),
        Some(e) => put_expr(alloc, e.get(), done),
    }
}

fn put_start(alloc: Global, s: &ForStart, done: &mut Stack<Found>) -> Result<(), AllocError>
    ensures { OnOk result (done.new ≡ names.start_names s.now ∷ done.old) }
{
    match s {
        ForStart::Value { value } => put_value(alloc, value, done),
        ForStart::Declared { declaration } => put_declaration(alloc, declaration, done),
    }
}

/// Puts the names of a statement on (C99 6.8).
#[cycle(statement)]
pub(crate) fn put_stmt(alloc: Global, s: &Stmt, done: &mut Stack<Found>) -> Result<(), AllocError>
    ensures { OnOk result (done.new ≡ names.stmt_names s.now ∷ done.old) }
{
    match s {
        Stmt::Block { items, .. } => {
            put_stmts(alloc, items.as_slice(), done)?;
            scope(alloc, done)
        }
        Stmt::Declared { declaration } => put_declaration(alloc, declaration, done),
        Stmt::Value { value, .. } => put_value(alloc, value, done),
        Stmt::Label { body, .. } => put_stmt(alloc, body.get(), done),
        Stmt::Case { value, body, .. } => {
            put_expr(alloc, value.get(), done)?;
            put_stmt(alloc, body.get(), done)?;
            join(alloc, done)
        }
        Stmt::Default { body, .. } => put_stmt(alloc, body.get(), done),
        Stmt::If {
            condition,
            positive,
            negative,
            ..
        } => {
            put_expr(alloc, condition.get(), done)?;
            put_inner(alloc, positive.get(), done)?;
            put_else(alloc, negative, done)?;
            join(alloc, done)?;
            join(alloc, done)?;
            scope(alloc, done)
        }
        Stmt::Switch { value, body, .. } => {
            put_expr(alloc, value.get(), done)?;
            put_inner(alloc, body.get(), done)?;
            join(alloc, done)?;
            scope(alloc, done)
        }
        Stmt::While {
            condition,
            body,
            ..
        } => {
            put_expr(alloc, condition.get(), done)?;
            put_inner(alloc, body.get(), done)?;
            join(alloc, done)?;
            scope(alloc, done)
        }
        Stmt::Do {
            body,
            condition,
            ..
        } => {
            put_inner(alloc, body.get(), done)?;
            put_expr(alloc, condition.get(), done)?;
            join(alloc, done)?;
            scope(alloc, done)
        }
        Stmt::For {
            start,
            condition,
            step,
            body,
            ..
        } => {
            put_start(alloc, start, done)?;
            put_value(alloc, condition, done)?;
            put_value(alloc, step, done)?;
            put_inner(alloc, body.get(), done)?;
            end_for(alloc, done)
        }
        Stmt::Goto { .. } => put_nothing(alloc, done),
        Stmt::Continue { .. } => put_nothing(alloc, done),
        Stmt::Break { .. } => put_nothing(alloc, done),
        Stmt::Return { value, .. } => put_value(alloc, value, done),
    }
}

/// Puts the names of a substatement on, a block of its own.
#[cycle(statement)]
fn put_inner(alloc: Global, s: &Stmt, done: &mut Stack<Found>) -> Result<(), AllocError>
    ensures { OnOk result (done.new ≡ names.scoped (names.stmt_names s.now) ∷ done.old) }
{
    put_stmt(alloc, s, done)?;
    scope(alloc, done)
}

#[cycle(statement)]
fn put_else(
    alloc: Global,
    s: &Option<Shared<Stmt>>,
    done: &mut Stack<Found>,
) -> Result<(), AllocError>
    ensures { OnOk result (done.new ≡ names.scoped (names.if_some (option_map names.stmt_names s.now)) ∷ done.old) }
{
    match s {
        None => put_nothing(alloc, done),
        Some(s) => put_inner(alloc, s.get(), done),
    }
}

#[cycle(statement)]
fn put_stmts(
    alloc: Global,
    items: &[Shared<Stmt>],
    done: &mut Stack<Found>,
) -> Result<(), AllocError>
    ensures { OnOk result (done.new ≡ names.all (map names.stmt_names items.now) ∷ done.old) }
{
    for item in items {
        put_stmt(alloc, item.get(), done)?;
    }
    join_all(alloc, items.len(), done)
}
