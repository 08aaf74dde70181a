//! The recursion over statements (C99 6.8).
ghost use Rattle.std.specs.Prelude.{◌≡◌, ℕ, map, option_map, IfOk};
ghost use Rattle.c_means.specs.Items.{in_turn, sub};
ghost use Rattle.c_means.specs.Notes.{noted};
ghost use Rattle.c_means.specs.Statements as form;
ghost use Rattle.c_means.specs.Statements.{stmt};
ghost use Rattle.core_codes.specs.Made as spec;

use crate::context::Context;
use crate::made::{Body, Made, SubBlock};
use crate::parts::{Parts, Valued};
use crate::pieces::{
    IfBegun, break_made, case_constant, case_made, compared_in, compound_made, continue_made,
    declared_made, default_made, do_made, effect_made, for_begun, for_made, goto_made, if_made,
    label_made, maybe_effect, maybe_value, return_made, switch_made, while_made,
};
use c_language as tree;
use c_language::Stmt;
use c_type_scope::Scope;
use plain_data::Shared;
use std::alloc::{AllocError, Global};

/// The core of a statement, or of a declaration in a block, in front of which these names are in force; behind it the
/// scope has those that the definition says. A statement is one item, a declaration one for each declarator.
#[cycle(statements)]
pub fn statement<P: Parts>(
    alloc: Global,
    parts: &P,
    x: Context,
    node: &Stmt,
    scope: &mut Scope,
) -> Result<Made, AllocError>
    ensures { IfOk result (λ y. spec.IsMade (P.numbering parts.now) x scope.old (stmt node.now).here y scope.new) }
{
    match node {
        Stmt::Block { items, .. } => block(alloc, parts, x, items.as_slice(), scope),
        Stmt::Declared { declaration } => {
            let begun = parts.declaration(alloc, declaration, scope)?;
            declared_made(alloc, begun)
        }
        Stmt::Value { value, .. } => {
            let value = maybe_effect(alloc, parts, value, scope)?;
            effect_made(alloc, value)
        }
        Stmt::Label { name, body, .. } => {
            let body = statement(alloc, parts, x, body.get(), scope)?;
            label_made(alloc, name, body)
        }
        Stmt::Case { value, body, .. } => {
            case_statement(alloc, parts, x, body.get(), value.get(), scope)
        }
        Stmt::Default { body, .. } => {
            let body = statement(alloc, parts, x, body.get(), scope)?;
            default_made(alloc, body)
        }
        Stmt::If {
            at,
            condition,
            positive,
            negative,
        } => {
            let begun = if_begun(alloc, parts, x, positive.get(), condition.get(), scope)?;
            let second = else_block(alloc, parts, x, negative, scope)?;
            scope.leave();
            if_made(alloc, *at, begun, second)
        }
        Stmt::Switch { at, value, body } => {
            switch_statement(alloc, parts, x, body.get(), *at, value.get(), scope)
        }
        Stmt::While {
            at,
            condition,
            body,
        } => while_statement(alloc, parts, x, body.get(), *at, condition.get(), scope),
        Stmt::Do {
            at,
            body,
            condition,
        } => do_statement(alloc, parts, x, body.get(), *at, condition.get(), scope),
        Stmt::For {
            at,
            start,
            condition,
            step,
            body,
        } => {
            scope.enter()?;
            let begun = for_begun(alloc, parts, start, condition, step, scope)?;
            let body = sub_block(alloc, parts, x, body.get(), scope)?;
            scope.leave();
            for_made(alloc, *at, begun, body)
        }
        Stmt::Goto { name, .. } => goto_made(alloc, name),
        Stmt::Continue { .. } => continue_made(alloc),
        Stmt::Break { .. } => break_made(alloc),
        Stmt::Return { value, .. } => {
            let value = maybe_value(alloc, parts, value, scope)?;
            return_made(alloc, x, value)
        }
    }
}

/// A compound statement of these items (C99 6.8.2).
#[cycle(statements)]
fn block<P: Parts>(
    alloc: Global,
    parts: &P,
    x: Context,
    items: &[Shared<Stmt>],
    scope: &mut Scope,
) -> Result<Made, AllocError>
    ensures { IfOk result (λ y. spec.IsMade (P.numbering parts.now) x scope.old (form.compound (map stmt items.now)).here y scope.new) }
{
    scope.enter()?;
    let made = all_items(alloc, parts, x.within(), items, scope)?;
    scope.leave();
    compound_made(alloc, made)
}

/// The items of a block.
#[cycle(statements)]
fn all_items<P: Parts>(
    alloc: Global,
    parts: &P,
    x: Context,
    items: &[Shared<Stmt>],
    scope: &mut Scope,
) -> Result<Made, AllocError>
    ensures { IfOk result (λ y. spec.IsMade (P.numbering parts.now) x scope.old (in_turn (map stmt items.now)) y scope.new) }
{
    let mut made = Made::nothing(alloc);
    for item in items {
        let more = statement(alloc, parts, x, item.get(), scope)?;
        made = made.followed(more)?;
    }
    Ok(made)
}

/// What stands in the block that a statement is, in which these names are in force, as the body of a function with its
/// parameters; and what the initializers of the objects in it that live throughout the run set.
#[cycle(statements)]
pub fn content<P: Parts>(
    alloc: Global,
    parts: &P,
    x: Context,
    node: &Stmt,
    scope: &mut Scope,
) -> Result<Body, AllocError>
    ensures content { IfOk result (λ y. spec.IsContent (P.numbering parts.now) x scope.old (stmt node.now).content y scope.new) }
    ensures block { IfOk result (λ y. y.content.is_compound ≡ (stmt node.now).is_block) }
{
    match node {
        Stmt::Block { items, .. } => {
            let made = all_items(alloc, parts, x, items.as_slice(), scope)?;
            Ok(made.content(true))
        }
        _ => {
            let made = statement(alloc, parts, x, node, scope)?;
            Ok(made.content(false))
        }
    }
}

/// The block that a substatement is, in which no `switch` chooses.
#[cycle(statements)]
fn sub_block<P: Parts>(
    alloc: Global,
    parts: &P,
    x: Context,
    node: &Stmt,
    scope: &mut Scope,
) -> Result<SubBlock, AllocError>
    ensures { IfOk result (λ y. spec.IsSub (P.numbering parts.now) x scope.old (sub (stmt node.now)) y scope.new) }
{
    scope.enter()?;
    let inside = content(alloc, parts, x.within(), node, scope)?;
    scope.leave();
    let block = SubBlock::around(alloc, inside)?;
    Ok(block)
}

/// `case value: body` (C99 6.8.1p2, p3).
#[cycle(statements)]
fn case_statement<P: Parts>(
    alloc: Global,
    parts: &P,
    x: Context,
    body: &Stmt,
    value: &tree::Expr,
    scope: &mut Scope,
) -> Result<Made, AllocError>
    ensures { IfOk result (λ y. (at : ℕ) → spec.IsMade (P.numbering parts.now) x scope.old (form.case_labeled at (noted value.now) (stmt body.now)).here y scope.new) }
{
    let found = parts.value(alloc, value, scope)?;
    let constant = case_constant(x, &found.told);
    let body = statement(alloc, parts, x, body, scope)?;
    let Valued { value, .. } = found;
    case_made(alloc, constant, value, body)
}

/// The condition of an `if`, and what is done where it isn't 0, in the statement's own block.
#[cycle(statements)]
fn if_begun<P: Parts>(
    alloc: Global,
    parts: &P,
    x: Context,
    positive: &Stmt,
    condition: &tree::Expr,
    scope: &mut Scope,
) -> Result<IfBegun, AllocError>
    ensures { IfOk result (λ y. spec.IsIfBegun (P.numbering parts.now) x scope.old (noted condition.now) (stmt positive.now) y scope.new) }
{
    scope.enter()?;
    let found = parts.value(alloc, condition, scope)?;
    let positive = sub_block(alloc, parts, x, positive, scope)?;
    let Valued { value, .. } = found;
    Ok(IfBegun {
        condition: value,
        positive,
    })
}

/// What is done where the condition of an `if` is 0, where there is an `else`.
#[cycle(statements)]
fn else_block<P: Parts>(
    alloc: Global,
    parts: &P,
    x: Context,
    negative: &Option<Shared<Stmt>>,
    scope: &mut Scope,
) -> Result<Option<SubBlock>, AllocError>
    ensures { IfOk result (λ y. spec.MaybeSub (P.numbering parts.now) x scope.old (option_map stmt negative.now) y scope.new) }
{
    match negative {
        Some(negative) => {
            let second = sub_block(alloc, parts, x, negative.get(), scope)?;
            Ok(Some(second))
        }
        None => Ok(None),
    }
}

/// `switch` (C99 6.8.4.2).
#[cycle(statements)]
fn switch_statement<P: Parts>(
    alloc: Global,
    parts: &P,
    x: Context,
    body: &Stmt,
    at: u32,
    value: &tree::Expr,
    scope: &mut Scope,
) -> Result<Made, AllocError>
    ensures { IfOk result (λ y. spec.IsMade (P.numbering parts.now) x scope.old (form.switch_of at (noted value.now) (stmt body.now)).here y scope.new) }
{
    scope.enter()?;
    let found = parts.value(alloc, value, scope)?;
    let Valued { told, value } = found;
    let compared = compared_in(alloc, scope.tables(), told)?;
    scope.enter()?;
    let body = content(alloc, parts, x.choosing(compared), body, scope)?;
    scope.leave();
    scope.leave();
    switch_made(alloc, at, compared, value, body)
}

/// `while` (C99 6.8.5.1).
#[cycle(statements)]
fn while_statement<P: Parts>(
    alloc: Global,
    parts: &P,
    x: Context,
    body: &Stmt,
    at: u32,
    condition: &tree::Expr,
    scope: &mut Scope,
) -> Result<Made, AllocError>
    ensures { IfOk result (λ y. spec.IsMade (P.numbering parts.now) x scope.old (form.while_of at (noted condition.now) (stmt body.now)).here y scope.new) }
{
    scope.enter()?;
    let found = parts.value(alloc, condition, scope)?;
    let body = sub_block(alloc, parts, x, body, scope)?;
    scope.leave();
    let Valued { value, .. } = found;
    while_made(alloc, at, value, body)
}

/// `do` (C99 6.8.5.2).
#[cycle(statements)]
fn do_statement<P: Parts>(
    alloc: Global,
    parts: &P,
    x: Context,
    body: &Stmt,
    at: u32,
    condition: &tree::Expr,
    scope: &mut Scope,
) -> Result<Made, AllocError>
    ensures { IfOk result (λ y. spec.IsMade (P.numbering parts.now) x scope.old (form.do_of at (stmt body.now) (noted condition.now)).here y scope.new) }
{
    scope.enter()?;
    let body = sub_block(alloc, parts, x, body, scope)?;
    let found = parts.value(alloc, condition, scope)?;
    scope.leave();
    let Valued { value, .. } = found;
    do_made(alloc, at, body, value)
}
