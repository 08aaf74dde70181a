//! An expression in the core, with what the types say of it as it stands.
ghost use Rattle.std.specs.Prelude.{◌≡◌, IfOk};
ghost use Rattle.c_means.specs.Parts.{Part};
ghost use Rattle.c_means.specs.Notes as notes;
ghost use Rattle.elaborate.specs.Means.{Numbering};
ghost use Rattle.core_exprs.specs.Found.{IsFoundOf};
ghost use Rattle.core_declarations.specs.Hearing.{IsHeard, IsHeardOf};

use c_language::{Entry, Expr, Shown, Told};
use c_type_scope::Scope;
use core_exprs::{Callees, Found, core_of};
use core_forms::{Used, operand};
use core_tree::Expr as CoreExpr;
use plain_data::{Bytes, Items, Shared};
use std::alloc::{AllocError, Global};

/// An expression: what the types say of it as it stands, the core of its value, and its bytes where it is a string
/// literal, parentheses and identity functions apart.
#[derive(Drop)]
pub struct Heard {
    pub told: Told,
    pub value: Shared<CoreExpr>,
    pub text: Option<Bytes>,
}

fn copied_entry(entry: &Option<Shared<Entry>>) -> Result<Option<Shared<Entry>>, AllocError>
    ensures { IfOk result (λ e. e ≡ entry.now) }
{
    match entry {
        None => Ok(None),
        Some(entry) => Ok(Some(entry.clone()?)),
    }
}

fn copied_shown(alloc: Global, shown: &Shown) -> Result<Shown, AllocError>
    ensures { IfOk result (λ s. s ≡ shown.now) }
{
    let ctype = shown.ctype.duplicate(alloc)?;
    let designates = copied_entry(&shown.designates)?;
    Ok(Shown {
        ctype,
        value: shown.value,
        is_null: shown.is_null,
        is_lvalue: shown.is_lvalue,
        is_literal: shown.is_literal,
        designates,
    })
}

fn maybe_shown(alloc: Global, shown: &Option<Shown>) -> Result<Option<Shown>, AllocError>
    ensures { IfOk result (λ s. s ≡ shown.now) }
{
    match shown {
        None => Ok(None),
        Some(shown) => Ok(Some(copied_shown(alloc, shown)?)),
    }
}

fn copied(alloc: Global, told: &Told) -> Result<Told, AllocError>
    ensures { IfOk result (λ t. t ≡ told.now) }
{
    let shown = maybe_shown(alloc, &told.shown)?;
    let faults = Items::from_slice(alloc, told.faults.as_slice())?;
    Ok(Told {
        at: told.at,
        shown,
        faults,
    })
}

/// The value of what was found, with what the types say of it as it stands.
fn as_value(alloc: Global, scope: &Scope, x: Found) -> Result<Heard, AllocError>
    ensures { (numbering : Numbering) (p : Part) → IsFoundOf numbering x p scope.now → IfOk result (λ y. IsHeardOf numbering y p scope.now) }
{
    let Found { built, text } = x;
    let told = copied(alloc, &built.told)?;
    let used = operand(alloc, scope.tables(), built)?;
    let Used { value, .. } = used;
    Ok(Heard { told, value, text })
}

/// An expression whose value is used (C99 6.5). It fails for want of memory alone.
pub fn hear<C: Callees>(
    alloc: Global,
    callees: &C,
    expr: &Expr,
    scope: &mut Scope,
) -> Result<Heard, AllocError>
    ensures { IfOk result (λ x. IsHeard (C.numbering callees.now) x (notes.noted expr.now scope.old) scope.new) }
{
    let x = core_of(alloc, callees, expr, scope)?;
    as_value(alloc, scope, x)
}
