//! Expressions as statements and initializers have them.
ghost use Rattle.std.specs.Prelude.{◌≡◌, IfOk};
ghost use Rattle.c_means.specs.Parts.{Level};
ghost use Rattle.c_means.specs.Trees.{part};
ghost use Rattle.core_forms.specs.Built.{IsDiscarded, IsUsed};
ghost use Rattle.core_exprs.specs.Found.{IsConvertedAs};

use crate::callees::Callees;
use crate::forms::{unused, used};
use crate::found::Found;
use crate::trees::core_of;
use c_language::{CType, Expr};
use c_type_scope::Scope;
use core_forms::{Used, converted, operand};
use core_tree::Expr as CoreExpr;
use plain_data::{Bytes, Shared};
use std::alloc::{AllocError, Global};

/// An expression whose value is used, as a condition's is: its core, and what the types say of its value.
pub fn value<C: Callees>(
    alloc: Global,
    callees: &C,
    expr: &Expr,
    scope: &mut Scope,
) -> Result<Used, AllocError>
    ensures value { IfOk result (λ x. IsUsed (C.numbering callees.now) x (part expr.now scope.old)) }
    ensures after { IfOk result (λ x. scope.new ≡ (part expr.now scope.old).typed.after) }
{
    let x = core_of(alloc, callees, expr, scope);
    let u = used(alloc, scope, x)?;
    Ok(u)
}

/// An expression whose value isn't used, as that of an expression statement isn't (C99 6.8.3p2).
pub fn effect<C: Callees>(
    alloc: Global,
    callees: &C,
    expr: &Expr,
    scope: &mut Scope,
) -> Result<Used, AllocError>
    ensures effect { IfOk result (λ x. IsDiscarded (C.numbering callees.now) x (part expr.now scope.old)) }
    ensures after { IfOk result (λ x. scope.new ≡ (part expr.now scope.old).typed.after) }
{
    let x = core_of(alloc, callees, expr, scope);
    let u = unused(alloc, scope, x)?;
    Ok(u)
}

/// An expression whose value is converted to a type as by assignment, as that of `return` is (C99 6.8.6.4p3).
pub fn value_as<C: Callees>(
    alloc: Global,
    callees: &C,
    expr: &Expr,
    ctype: &Option<CType>,
    scope: &mut Scope,
) -> Result<Shared<CoreExpr>, AllocError>
    ensures value { IfOk result (λ x. IsConvertedAs (C.numbering callees.now) x (part expr.now scope.old) ctype.now) }
    ensures after { IfOk result (λ x. scope.new ≡ (part expr.now scope.old).typed.after) }
{
    let u = value(alloc, callees, expr, scope)?;
    let Used { value: inner, .. } = u;
    let e = converted(alloc, scope.tables(), ctype, inner)?;
    Ok(e)
}

/// An expression of an initializer: its value, and its bytes where it is a string literal.
#[derive(Drop)]
pub struct Initial {
    pub used: Used,
    pub text: Option<Bytes>,
}

/// An expression of an initializer (C99 6.7.8p11, p14).
pub fn initializer<C: Callees>(
    alloc: Global,
    callees: &C,
    expr: &Expr,
    scope: &mut Scope,
) -> Result<Initial, AllocError>
    ensures value { IfOk result (λ x. IsUsed (C.numbering callees.now) x.used (part expr.now scope.old)) }
    ensures text { IfOk result (λ x. (l : Level) → l.identity ≡ (C.numbering callees.now).identity → x.text ≡ (part expr.now scope.old).text l) }
    ensures after { IfOk result (λ x. scope.new ≡ (part expr.now scope.old).typed.after) }
{
    let x = core_of(alloc, callees, expr, scope)?;
    let Found { built, text } = x;
    let used = operand(alloc, scope.tables(), built)?;
    Ok(Initial { used, text })
}
