//! The parts of statements, over what a function's calls are.
ghost use Rattle.std.specs.Prelude.{IfOk};
ghost use Rattle.c_means.specs.Notes as notes;
ghost use Rattle.c_means.specs.Statements as form;
ghost use Rattle.core_codes.specs.Parts as spec;

use c_language as tree;
use c_type_scope::Scope;
use core_codes::{Begun, Parts, Valued};
use core_declarations::{Heard, hear};
use core_exprs::Callees;
use core_forms::Used;
use core_tree::Expr;
use plain_data::Shared;
use std::alloc::{AllocError, Global};

/// All parts of the statements of a function, by what its calls are.
#[derive(Clone, Copy)]
pub struct Whole<'a, C> {
    pub callees: &'a C,
}

fn used_value<C: Callees>(
    alloc: Global,
    callees: &C,
    expr: &tree::Expr,
    scope: &mut Scope,
) -> Result<Valued, AllocError>
    ensures { IfOk result (λ y. spec.IsValued (C.numbering callees.now) y (notes.noted expr.now scope.old) scope.new) }
{
    let x = hear(alloc, callees, expr, scope)?;
    let Heard { told, value, .. } = x;
    Ok(Valued { told, value })
}

fn unused_value<C: Callees>(
    alloc: Global,
    callees: &C,
    expr: &tree::Expr,
    scope: &mut Scope,
) -> Result<Shared<Expr>, AllocError>
    ensures { IfOk result (λ y. spec.IsDone (C.numbering callees.now) y (notes.noted expr.now scope.old) scope.new) }
{
    let x = core_exprs::effect(alloc, callees, expr, scope)?;
    let Used { value, .. } = x;
    Ok(value)
}

fn declared<C: Callees>(
    alloc: Global,
    callees: &C,
    declaration: &tree::Declaration,
    scope: &mut Scope,
) -> Result<Begun, AllocError>
    ensures { IfOk result (λ y. spec.IsBegun (C.numbering callees.now) y (form.declaration declaration.now scope.old) scope.new) }
{
    let begun = core_declarations::declaration(alloc, callees, declaration, scope)?;
    let core_declarations::Begun { codes, settings } = begun;
    Ok(Begun { codes, settings })
}

impl<'a, C: Callees> Parts for Whole<'a, C> {
    ghost numbering = { λ w. C.numbering w.callees.now };

    fn value(
        &self,
        alloc: Global,
        expr: &tree::Expr,
        scope: &mut Scope,
    ) -> Result<Valued, AllocError> {
        used_value(alloc, self.callees, expr, scope)
    }

    fn effect(
        &self,
        alloc: Global,
        expr: &tree::Expr,
        scope: &mut Scope,
    ) -> Result<Shared<Expr>, AllocError> {
        unused_value(alloc, self.callees, expr, scope)
    }

    fn declaration(
        &self,
        alloc: Global,
        declaration: &tree::Declaration,
        scope: &mut Scope,
    ) -> Result<Begun, AllocError> {
        declared(alloc, self.callees, declaration, scope)
    }
}
