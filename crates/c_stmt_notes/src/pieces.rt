//! Statements without substatements, and the parts of those with some.

ghost use Rattle.std.specs.Prelude.{◌≡◌, option_map, IfOk, OnOk};
ghost use Rattle.c_means.specs.Notes as notes;
ghost use Rattle.c_means.specs.Statements as statements;
ghost use Rattle.c_checks.specs.Refusals.{least_of};
ghost use Rattle.c_checks.specs.Rules as rules;
ghost use Rattle.c_item_notes.specs.Levels.{judged};
ghost use Rattle.c_item_notes.specs.ItemTellings.{both, nothing_noted, summed, summed_in};
ghost use Rattle.c_stmt_notes.specs.StatementTellings as spec;

use crate::context::Context;
use crate::gathering::{and_broken, and_case, and_default, and_evaluated, and_item};
use c_checks::{
    SwitchSaid, bare_return, case_label, case_value, condition, default_label, goto, labeled,
    least_fault, misplaced_if, return_value, switch_value,
};
use c_item_notes::{ItemNotes, Source, declaration_notes, heard, nothing_noted};
use c_language::{CType, Declaration, Expr, ForStart, Name, Told};
use c_means::Breach;
use c_notes::NotedExpr;
use c_type_scope::Scope;
use plain_data::Shared;
use std::alloc::{AllocError, Global};

// ---- expressions

/// An expression whose value isn't used (C99 6.8.3p2).
fn effect(
    alloc: Global,
    source: &Source<'_>,
    expr: &Expr,
    found: &mut ItemNotes,
    scope: &mut Scope,
) -> Result<(), AllocError>
    ensures { OnOk result (summed_in found.new scope.new ≡ spec.gathered (judged source.now) found.old scope.old (statements.value_of (notes.noted expr.now scope.old))) }
{
    let x = heard(alloc, source, expr, scope)?;
    let NotedExpr { told, notes } = x;
    let breach = least_fault(told.faults.as_slice());
    and_evaluated(found, breach, notes)?;
    Ok(())
}

/// An expression whose value isn't used, where there is one.
pub(crate) fn maybe_effect(
    alloc: Global,
    source: &Source<'_>,
    value: &Option<Shared<Expr>>,
    found: &mut ItemNotes,
    scope: &mut Scope,
) -> Result<(), AllocError>
    ensures { OnOk result (summed_in found.new scope.new ≡ spec.gathered (judged source.now) found.old scope.old (statements.maybe_value (option_map notes.noted value.now) scope.old)) }
{
    match value {
        None => Ok(()),
        Some(value) => {
            effect(alloc, source, value.get(), found, scope)?;
            Ok(())
        }
    }
}

/// What is noted of the step of a `for`, which stands before the body and runs behind it (C99 6.8.5.3).
pub(crate) fn step_notes(
    alloc: Global,
    source: &Source<'_>,
    step: &Option<Shared<Expr>>,
    scope: &mut Scope,
) -> Result<ItemNotes, AllocError>
    ensures { IfOk result (λ n. summed_in n scope.new ≡ summed (judged source.now) (statements.maybe_value (option_map notes.noted step.now) scope.old)) }
{
    let mut found = nothing_noted(alloc);
    maybe_effect(alloc, source, step, &mut found, scope)?;
    Ok(found)
}

/// The condition of a statement, by the offset of its keyword (C99 6.8.4.1p1, 6.8.5p2).
pub(crate) fn tested(
    alloc: Global,
    source: &Source<'_>,
    at: u32,
    expr: &Expr,
    found: &mut ItemNotes,
    scope: &mut Scope,
) -> Result<(), AllocError>
    ensures { OnOk result (summed_in found.new scope.new ≡ spec.gathered (judged source.now) found.old scope.old (statements.test_of at (notes.noted expr.now scope.old)).item) }
{
    let x = heard(alloc, source, expr, scope)?;
    let NotedExpr { told, notes } = x;
    let breach = condition(alloc, scope, at, told)?;
    and_evaluated(found, breach, notes)?;
    Ok(())
}

/// The condition of a `for`, where there is one (C99 6.8.5.3p2).
pub(crate) fn maybe_tested(
    alloc: Global,
    source: &Source<'_>,
    at: u32,
    condition: &Option<Shared<Expr>>,
    found: &mut ItemNotes,
    scope: &mut Scope,
) -> Result<(), AllocError>
    ensures { OnOk result (summed_in found.new scope.new ≡ spec.gathered (judged source.now) found.old scope.old (statements.maybe_test at (option_map notes.noted condition.now) scope.old).item) }
{
    match condition {
        None => Ok(()),
        Some(condition) => {
            tested(alloc, source, at, condition.get(), found, scope)?;
            Ok(())
        }
    }
}

/// The value of a `switch`, whose rules are told apart from those before it (C99 6.8.4.2p1).
pub(crate) fn switch_said(
    alloc: Global,
    source: &Source<'_>,
    at: u32,
    expr: &Expr,
    found: &mut ItemNotes,
    scope: &mut Scope,
) -> Result<SwitchSaid, AllocError>
    ensures notes { OnOk result (summed_in found.new scope.new ≡ spec.gathered (judged source.now) found.old scope.old (statements.tested (notes.noted expr.now scope.old))) }
    ensures breach { IfOk result (λ x. x.breach ≡ least_of (statements.switch_breaches at (notes.noted expr.now scope.old))) }
    ensures kind { IfOk result (λ x. x.kind ≡ statements.switch_kind (notes.noted expr.now scope.old)) }
{
    let x = heard(alloc, source, expr, scope)?;
    let NotedExpr { told, notes } = x;
    let said = switch_value(alloc, scope, at, told)?;
    and_evaluated(found, None, notes)?;
    Ok(said)
}

// ---- labels, in front of the statement behind them

/// A label (C99 6.8.1p3).
pub(crate) fn label_front(x: &Context<'_>, at: u32, name: &Name, found: &mut ItemNotes)
    ensures { found.new ≡ both found.old (spec.broken (least_of (rules.label_breaches at name.now x.now.every.now))) }
{
    and_broken(found, labeled(at, name, x.every));
}

/// `case` and its value (C99 6.8.1p2, 6.8.4.2p3).
pub(crate) fn case_front(
    alloc: Global,
    source: &Source<'_>,
    x: &Context<'_>,
    at: u32,
    value: &Expr,
    found: &mut ItemNotes,
    scope: &mut Scope,
) -> Result<(), AllocError>
    ensures { OnOk result (summed_in found.new scope.new ≡ spec.gathered (judged source.now) found.old scope.old (spec.case_front at (notes.noted value.now scope.old) x.now.chooses)) }
{
    let y = heard(alloc, source, value, scope)?;
    let NotedExpr { told, notes } = y;
    let breach = case_label(at, &told, x.chooses);
    let constant = case_value(x.chooses, &told);
    and_case(found, at, breach, constant, notes)?;
    Ok(())
}

/// `default` (C99 6.8.1p2).
pub(crate) fn default_front(
    x: &Context<'_>,
    at: u32,
    found: &mut ItemNotes,
) -> Result<(), AllocError>
    ensures { OnOk result (found.new ≡ both found.old (spec.default_notes at (least_of (rules.default_breaches at x.now.chooses)))) }
{
    and_default(found, at, default_label(at, x.chooses))?;
    Ok(())
}

// ---- jumps (C99 6.8.6)

pub(crate) fn goto_notes(x: &Context<'_>, at: u32, name: &Name, found: &mut ItemNotes)
    ensures { found.new ≡ both found.old (spec.broken (least_of (rules.goto_breaches at name.now x.now.labels.now))) }
{
    and_broken(found, goto(at, name, x.labels.get().as_slice()));
}

/// `break` or `continue`, which may stand here or not.
pub(crate) fn jump_notes(may_stand: bool, at: u32, found: &mut ItemNotes)
    ensures { found.new ≡ both found.old (spec.broken (least_of (spec.jump_breaches may_stand at))) }
{
    and_broken(found, misplaced_if(!may_stand, at));
}

fn valued_return(
    alloc: Global,
    source: &Source<'_>,
    x: &Context<'_>,
    at: u32,
    expr: &Expr,
    found: &mut ItemNotes,
    scope: &mut Scope,
) -> Result<(), AllocError>
    ensures { OnOk result (summed_in found.new scope.new ≡ spec.gathered (judged source.now) found.old scope.old (statements.value_return at (notes.noted expr.now scope.old) (spec.context_in x.now scope.old))) }
{
    let y = heard(alloc, source, expr, scope)?;
    let NotedExpr { told, notes } = y;
    let breach = return_value(alloc, scope, at, x.returned, told)?;
    and_evaluated(found, breach, notes)?;
    Ok(())
}

/// `return`, with a value or without (C99 6.8.6.4).
pub(crate) fn return_notes(
    alloc: Global,
    source: &Source<'_>,
    x: &Context<'_>,
    at: u32,
    value: &Option<Shared<Expr>>,
    found: &mut ItemNotes,
    scope: &mut Scope,
) -> Result<(), AllocError>
    ensures { OnOk result (summed_in found.new scope.new ≡ spec.gathered (judged source.now) found.old scope.old (statements.return_of at (option_map notes.noted value.now) (spec.context_in x.now scope.old))) }
{
    match value {
        None => {
            and_broken(found, bare_return(at, x.returned));
            Ok(())
        }
        Some(value) => {
            valued_return(alloc, source, x, at, value.get(), found, scope)?;
            Ok(())
        }
    }
}

// ---- declarations

/// A declaration in a block (C99 6.7).
pub(crate) fn declared(
    alloc: Global,
    source: &Source<'_>,
    declaration: &Declaration,
    found: &mut ItemNotes,
    scope: &mut Scope,
) -> Result<(), AllocError>
    ensures { OnOk result (summed_in found.new scope.new ≡ spec.gathered (judged source.now) found.old scope.old (statements.declaration declaration.now scope.old)) }
{
    let more = declaration_notes(alloc, source, declaration, scope)?;
    and_item(found, more)?;
    Ok(())
}

/// What a `for` begins with (C99 6.8.5.3).
pub(crate) fn for_begun(
    alloc: Global,
    source: &Source<'_>,
    start: &ForStart,
    found: &mut ItemNotes,
    scope: &mut Scope,
) -> Result<(), AllocError>
    ensures { OnOk result (summed_in found.new scope.new ≡ spec.gathered (judged source.now) found.old scope.old (statements.begun_by start.now scope.old)) }
{
    match start {
        ForStart::Value { value } => {
            maybe_effect(alloc, source, value, found, scope)?;
            Ok(())
        }
        ForStart::Declared { declaration } => {
            declared(alloc, source, declaration, found, scope)?;
            Ok(())
        }
    }
}
