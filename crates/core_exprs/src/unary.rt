//! Unary operators (C99 6.5.3).
ghost use Rattle.std.specs.Prelude.{IfOk};
ghost use Rattle.c_language.specs.declared.expr.UnaryOperator.TheVariants as u;
ghost use Rattle.c_means.specs.Expressions as form;
ghost use Rattle.c_means.specs.Parts.{Part};
ghost use Rattle.elaborate.specs.Means.{Numbering};
ghost use Rattle.core_exprs.specs.Found.{IsFoundOf, OverOne};

use crate::found::{Found, plain};
use c_language::UnaryOperator;
use c_type_scope::Scope;
use std::alloc::{AllocError, Global};

/// `&operand` (C99 6.5.3.2p3).
fn address_of(alloc: Global, scope: &Scope, at: u32, x: Found) -> Result<Found, AllocError>
    ensures { (n : Numbering) (p : Part) → IsFoundOf n x p scope.now → IfOk result (λ z. IsFoundOf n z (form.unary at u.Address p) scope.now) }
{
    let Found { built, .. } = x;
    let z = core_forms::address_of(alloc, scope.tables(), at, built)?;
    Ok(plain(z))
}

/// `*operand` (C99 6.5.3.2p4).
fn indirection(alloc: Global, scope: &Scope, at: u32, x: Found) -> Result<Found, AllocError>
    ensures { (n : Numbering) (p : Part) → IsFoundOf n x p scope.now → IfOk result (λ z. IsFoundOf n z (form.unary at u.Indirection p) scope.now) }
{
    let tables = scope.tables();
    let Found { built, .. } = x;
    let v = core_forms::operand(alloc, tables, built)?;
    let z = core_forms::indirection(alloc, tables, at, v)?;
    Ok(plain(z))
}

/// `+operand` (C99 6.5.3.3p2).
fn plus(alloc: Global, scope: &Scope, at: u32, x: Found) -> Result<Found, AllocError>
    ensures { (n : Numbering) (p : Part) → IsFoundOf n x p scope.now → IfOk result (λ z. IsFoundOf n z (form.unary at u.Plus p) scope.now) }
{
    let tables = scope.tables();
    let Found { built, .. } = x;
    let v = core_forms::operand(alloc, tables, built)?;
    let z = core_forms::plus(alloc, tables, at, v)?;
    Ok(plain(z))
}

/// `-operand` (C99 6.5.3.3p3).
fn minus(alloc: Global, scope: &Scope, at: u32, x: Found) -> Result<Found, AllocError>
    ensures { (n : Numbering) (p : Part) → IsFoundOf n x p scope.now → IfOk result (λ z. IsFoundOf n z (form.unary at u.Minus p) scope.now) }
{
    let tables = scope.tables();
    let Found { built, .. } = x;
    let v = core_forms::operand(alloc, tables, built)?;
    let z = core_forms::minus(alloc, tables, at, v)?;
    Ok(plain(z))
}

/// `~operand` (C99 6.5.3.3p4).
fn complement(alloc: Global, scope: &Scope, at: u32, x: Found) -> Result<Found, AllocError>
    ensures { (n : Numbering) (p : Part) → IsFoundOf n x p scope.now → IfOk result (λ z. IsFoundOf n z (form.unary at u.Complement p) scope.now) }
{
    let tables = scope.tables();
    let Found { built, .. } = x;
    let v = core_forms::operand(alloc, tables, built)?;
    let z = core_forms::complement(alloc, tables, at, v)?;
    Ok(plain(z))
}

/// `!operand` (C99 6.5.3.3p5).
fn not(alloc: Global, scope: &Scope, at: u32, x: Found) -> Result<Found, AllocError>
    ensures { (n : Numbering) (p : Part) → IsFoundOf n x p scope.now → IfOk result (λ z. IsFoundOf n z (form.unary at u.Not p) scope.now) }
{
    let tables = scope.tables();
    let Found { built, .. } = x;
    let v = core_forms::operand(alloc, tables, built)?;
    let z = core_forms::not(alloc, tables, at, v)?;
    Ok(plain(z))
}

/// `++operand` (C99 6.5.3.1p2).
fn increment(alloc: Global, scope: &Scope, at: u32, x: Found) -> Result<Found, AllocError>
    ensures { (n : Numbering) (p : Part) → IsFoundOf n x p scope.now → IfOk result (λ z. IsFoundOf n z (form.unary at u.Increment p) scope.now) }
{
    let Found { built, .. } = x;
    let z = core_forms::increment(alloc, scope.tables(), at, built)?;
    Ok(plain(z))
}

/// `--operand` (C99 6.5.3.1p3).
fn decrement(alloc: Global, scope: &Scope, at: u32, x: Found) -> Result<Found, AllocError>
    ensures { (n : Numbering) (p : Part) → IsFoundOf n x p scope.now → IfOk result (λ z. IsFoundOf n z (form.unary at u.Decrement p) scope.now) }
{
    let Found { built, .. } = x;
    let z = core_forms::decrement(alloc, scope.tables(), at, built)?;
    Ok(plain(z))
}

/// A unary operator over its operand, in the names in force behind it.
pub(crate) fn unary(
    alloc: Global,
    scope: &Scope,
    at: u32,
    operator: UnaryOperator,
    x: Result<Found, AllocError>,
) -> Result<Found, AllocError>
    ensures { (n : Numbering) → OverOne n scope.now (form.unary at operator) x result }
{
    let x = x?;
    match operator {
        UnaryOperator::Address => address_of(alloc, scope, at, x),
        UnaryOperator::Indirection => indirection(alloc, scope, at, x),
        UnaryOperator::Plus => plus(alloc, scope, at, x),
        UnaryOperator::Minus => minus(alloc, scope, at, x),
        UnaryOperator::Complement => complement(alloc, scope, at, x),
        UnaryOperator::Not => not(alloc, scope, at, x),
        UnaryOperator::Increment => increment(alloc, scope, at, x),
        UnaryOperator::Decrement => decrement(alloc, scope, at, x),
    }
}
