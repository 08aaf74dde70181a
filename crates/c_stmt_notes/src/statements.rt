//! The recursion over statements (C99 6.8).

ghost use Rattle.std.specs.Prelude.{◌≡◌, map, option_map, IfOk, OnOk};
ghost use Rattle.c_means.specs.Items as items_;
ghost use Rattle.c_means.specs.Notes as notes;
ghost use Rattle.c_means.specs.Statements as statements;
ghost use Rattle.c_item_notes.specs.Levels.{judged};
ghost use Rattle.c_item_notes.specs.ItemTellings.{summed, summed_in};
ghost use Rattle.c_stmt_notes.specs.StatementTellings as spec;

use crate::context::{Context, labels_within};
use crate::gathering::{and_item, put_cases, set_aside, take_back, take_cases};
use crate::pieces::{
    case_front, declared, default_front, for_begun, goto_notes, jump_notes, label_front,
    maybe_effect, maybe_tested, return_notes, step_notes, switch_said, tested,
};
use c_checks::Label;
use c_item_notes::{ItemNotes, Source, nothing_noted};
use c_language::{Expr, Stmt};
use c_type_scope::Scope;
use plain_data::{Items, Shared};
use std::alloc::{AllocError, Global};

/// Notes a statement, or a declaration in a block, behind what was found.
#[cycle(statements)]
fn statement(
    alloc: Global,
    source: &Source<'_>,
    x: &Context<'_>,
    node: &Stmt,
    found: &mut ItemNotes,
    scope: &mut Scope,
) -> Result<(), AllocError>
    ensures { OnOk result (summed_in found.new scope.new ≡ spec.gathered (judged source.now) found.old scope.old ((statements.stmt node.now).here (spec.context_in x.now scope.old))) }
{
    match node {
        Stmt::Block { items, .. } => {
            let labels = labels_within(alloc, x.labels, node)?;
            compound(alloc, source, x, items.as_slice(), &labels, found, scope)?;
            Ok(())
        }
        Stmt::Declared { declaration } => {
            declared(alloc, source, declaration, found, scope)?;
            Ok(())
        }
        Stmt::Value { value, .. } => {
            maybe_effect(alloc, source, value, found, scope)?;
            Ok(())
        }
        Stmt::Label { at, name, body } => {
            label_front(x, *at, name, found);
            statement(alloc, source, x, body.get(), found, scope)?;
            Ok(())
        }
        Stmt::Case { at, value, body } => {
            case_front(alloc, source, x, *at, value.get(), found, scope)?;
            statement(alloc, source, x, body.get(), found, scope)?;
            Ok(())
        }
        Stmt::Default { at, body } => {
            default_front(x, *at, found)?;
            statement(alloc, source, x, body.get(), found, scope)?;
            Ok(())
        }
        Stmt::If {
            at,
            condition,
            positive,
            negative,
        } => {
            scope.enter()?;
            tested(alloc, source, *at, condition.get(), found, scope)?;
            sub_block(alloc, source, x, positive.get(), found, scope)?;
            else_block(alloc, source, x, negative, found, scope)?;
            scope.leave();
            Ok(())
        }
        Stmt::Switch { at, value, body } => {
            switch_statement(alloc, source, x, body.get(), *at, value.get(), found, scope)?;
            Ok(())
        }
        Stmt::While {
            at,
            condition,
            body,
        } => {
            scope.enter()?;
            tested(alloc, source, *at, condition.get(), found, scope)?;
            loop_body(alloc, source, x, body.get(), found, scope)?;
            scope.leave();
            Ok(())
        }
        Stmt::Do {
            at,
            body,
            condition,
        } => {
            scope.enter()?;
            loop_body(alloc, source, x, body.get(), found, scope)?;
            tested(alloc, source, *at, condition.get(), found, scope)?;
            scope.leave();
            Ok(())
        }
        Stmt::For {
            at,
            start,
            condition,
            step,
            body,
        } => {
            scope.enter()?;
            for_begun(alloc, source, start, found, scope)?;
            maybe_tested(alloc, source, *at, condition, found, scope)?;
            let last = step_notes(alloc, source, step, scope)?;
            loop_body(alloc, source, x, body.get(), found, scope)?;
            and_item(found, last)?;
            scope.leave();
            Ok(())
        }
        Stmt::Goto { at, name } => {
            goto_notes(x, *at, name, found);
            Ok(())
        }
        Stmt::Continue { at } => {
            jump_notes(x.continues, *at, found);
            Ok(())
        }
        Stmt::Break { at } => {
            jump_notes(x.breaks, *at, found);
            Ok(())
        }
        Stmt::Return { at, value } => {
            return_notes(alloc, source, x, *at, value, found, scope)?;
            Ok(())
        }
    }
}

/// A compound statement of these items, in which these labels are in force (C99 6.8.2).
#[cycle(statements)]
fn compound(
    alloc: Global,
    source: &Source<'_>,
    x: &Context<'_>,
    items: &[Shared<Stmt>],
    labels: &Shared<Items<Label>>,
    found: &mut ItemNotes,
    scope: &mut Scope,
) -> Result<(), AllocError>
    ensures { OnOk result (summed_in found.new scope.new ≡ spec.gathered (judged source.now) found.old scope.old (spec.block_of_items (map statements.stmt items.now) labels.now (spec.context_in x.now scope.old))) }
{
    let cases = take_cases(alloc, found);
    scope.enter()?;
    let inside = Context {
        labels,
        every: x.every,
        breaks: x.breaks,
        continues: x.continues,
        chooses: None,
        returned: x.returned,
    };
    all_items(alloc, source, &inside, items, found, scope)?;
    scope.leave();
    put_cases(found, cases);
    Ok(())
}

/// The items of a block.
#[cycle(statements)]
fn all_items(
    alloc: Global,
    source: &Source<'_>,
    x: &Context<'_>,
    items: &[Shared<Stmt>],
    found: &mut ItemNotes,
    scope: &mut Scope,
) -> Result<(), AllocError>
    ensures { OnOk result (summed_in found.new scope.new ≡ spec.gathered (judged source.now) found.old scope.old (items_.in_turn (map statements.stmt items.now) (spec.context_in x.now scope.old))) }
{
    for item in items {
        statement(alloc, source, x, item.get(), found, scope)?;
    }
    Ok(())
}

/// What stands in the block that a statement is.
#[cycle(statements)]
fn content(
    alloc: Global,
    source: &Source<'_>,
    x: &Context<'_>,
    node: &Stmt,
    found: &mut ItemNotes,
    scope: &mut Scope,
) -> Result<(), AllocError>
    ensures { OnOk result (summed_in found.new scope.new ≡ spec.gathered (judged source.now) found.old scope.old ((statements.stmt node.now).content (spec.context_in x.now scope.old))) }
{
    match node {
        Stmt::Block { items, .. } => {
            all_items(alloc, source, x, items.as_slice(), found, scope)?;
            Ok(())
        }
        _ => {
            statement(alloc, source, x, node, found, scope)?;
            Ok(())
        }
    }
}

/// The block that a substatement is, in which no `switch` chooses (C99 6.8.4p3, 6.8.5p5).
#[cycle(statements)]
fn sub_block(
    alloc: Global,
    source: &Source<'_>,
    x: &Context<'_>,
    node: &Stmt,
    found: &mut ItemNotes,
    scope: &mut Scope,
) -> Result<(), AllocError>
    ensures { OnOk result (summed_in found.new scope.new ≡ spec.gathered (judged source.now) found.old scope.old (items_.sub (statements.stmt node.now) (spec.context_in x.now scope.old))) }
{
    let labels = labels_within(alloc, x.labels, node)?;
    let cases = take_cases(alloc, found);
    scope.enter()?;
    let inside = Context {
        labels: &labels,
        every: x.every,
        breaks: x.breaks,
        continues: x.continues,
        chooses: None,
        returned: x.returned,
    };
    content(alloc, source, &inside, node, found, scope)?;
    scope.leave();
    put_cases(found, cases);
    Ok(())
}

/// The block that the body of a loop is (C99 6.8.5p5).
#[cycle(statements)]
fn loop_body(
    alloc: Global,
    source: &Source<'_>,
    x: &Context<'_>,
    node: &Stmt,
    found: &mut ItemNotes,
    scope: &mut Scope,
) -> Result<(), AllocError>
    ensures { OnOk result (summed_in found.new scope.new ≡ spec.gathered (judged source.now) found.old scope.old (items_.sub (statements.stmt node.now) (statements.in_loop scope.old (spec.context_in x.now scope.old)))) }
{
    let inside = Context {
        labels: x.labels,
        every: x.every,
        breaks: true,
        continues: true,
        chooses: None,
        returned: x.returned,
    };
    sub_block(alloc, source, &inside, node, found, scope)?;
    Ok(())
}

/// What is done where the condition of an `if` is 0, where there is an `else`.
#[cycle(statements)]
fn else_block(
    alloc: Global,
    source: &Source<'_>,
    x: &Context<'_>,
    negative: &Option<Shared<Stmt>>,
    found: &mut ItemNotes,
    scope: &mut Scope,
) -> Result<(), AllocError>
    ensures { OnOk result (summed_in found.new scope.new ≡ spec.gathered (judged source.now) found.old scope.old (statements.maybe_sub (option_map statements.stmt negative.now) (spec.context_in x.now scope.old))) }
{
    match negative {
        None => Ok(()),
        Some(negative) => {
            sub_block(alloc, source, x, negative.get(), found, scope)?;
            Ok(())
        }
    }
}

/// `switch` (C99 6.8.4.2).
#[cycle(statements)]
fn switch_statement(
    alloc: Global,
    source: &Source<'_>,
    x: &Context<'_>,
    body: &Stmt,
    at: u32,
    value: &Expr,
    found: &mut ItemNotes,
    scope: &mut Scope,
) -> Result<(), AllocError>
    ensures { OnOk result (summed_in found.new scope.new ≡ spec.gathered (judged source.now) found.old scope.old ((statements.switch_of at (notes.noted value.now) (statements.stmt body.now)).here (spec.context_in x.now scope.old))) }
{
    scope.enter()?;
    let said = switch_said(alloc, source, at, value, found, scope)?;
    let labels = labels_within(alloc, x.labels, body)?;
    let aside = set_aside(alloc, found);
    scope.enter()?;
    let inside = Context {
        labels: &labels,
        every: x.every,
        breaks: true,
        continues: x.continues,
        chooses: Some(said.kind),
        returned: x.returned,
    };
    content(alloc, source, &inside, body, found, scope)?;
    scope.leave();
    scope.leave();
    take_back(alloc, found, aside, said.breach)?;
    Ok(())
}

/// What is noted of a statement, or of a declaration in a block, in front of which these names are in force. It fails
/// for want of memory alone.
pub fn statement_notes(
    alloc: Global,
    source: &Source<'_>,
    x: &Context<'_>,
    stmt: &Stmt,
    scope: &mut Scope,
) -> Result<ItemNotes, AllocError>
    ensures { IfOk result (λ n. summed_in n scope.new ≡ summed (judged source.now) ((statements.stmt stmt.now).here (spec.context_in x.now scope.old))) }
{
    let mut found = nothing_noted(alloc);
    statement(alloc, source, x, stmt, &mut found, scope)?;
    Ok(found)
}

/// What is noted of what stands in the block that a statement is, in which these names and labels are in force. It
/// fails for want of memory alone.
pub fn content_notes(
    alloc: Global,
    source: &Source<'_>,
    x: &Context<'_>,
    stmt: &Stmt,
    scope: &mut Scope,
) -> Result<ItemNotes, AllocError>
    ensures { IfOk result (λ n. summed_in n scope.new ≡ summed (judged source.now) ((statements.stmt stmt.now).content (spec.context_in x.now scope.old))) }
{
    let mut found = nothing_noted(alloc);
    content(alloc, source, x, stmt, &mut found, scope)?;
    Ok(found)
}
