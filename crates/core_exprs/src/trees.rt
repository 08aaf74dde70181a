//! Expressions (C99 6.5) in the core.
ghost use Rattle.std.specs.Prelude.{◌≡◌, IfOk};
ghost use Rattle.core_exprs.specs.Found.{AreFound, IsFound};

use crate::arguments::{Passing, and_passed, nothing_passed};
use crate::callees::Callees;
use crate::calls::call;
use crate::forms;
use crate::found::Found;
use crate::said::{named_type, typed_part};
use crate::unary::unary;
use c_language::{Expr, Fault, Told};
use c_type_scope::Scope;
use plain_data::{Items, Shared};
use std::alloc::{AllocError, Global};

/// The core of an expression (C99 6.5): operands and type names from left to right, each in the scope that those
/// before it leave. What `sizeof` is applied to isn't evaluated, and what is called is a name. What breaks a rule
/// isn't run. It fails for want of memory alone: a part that failed is handed to its form as it is, and the parts
/// behind it are walked all the same.
#[cycle(building)]
pub fn core_of<C: Callees>(
    alloc: Global,
    callees: &C,
    expr: &Expr,
    scope: &mut Scope,
) -> Result<Found, AllocError>
    ensures { IfOk result (λ x. IsFound (C.numbering callees.now) expr.now scope.old x scope.new) }
{
    match expr {
        Expr::Integer { at, constant } => forms::integer_constant(alloc, *at, constant),
        Expr::Floating { at } => forms::floating_constant(alloc, *at),
        Expr::Character { at, value } => forms::character_constant(alloc, *at, value),
        Expr::StringLiteral { at, pieces } => {
            forms::string_literal(alloc, callees, scope, *at, pieces.as_slice())
        }
        Expr::FunctionName { at } => forms::function_name(alloc, callees, scope, *at),
        Expr::Identifier { at, name } => forms::identifier(alloc, callees, scope, *at, name),
        Expr::Parenthesized { inner, .. } => core_of(alloc, callees, inner.get(), scope),
        Expr::Subscript { at, array, index } => {
            let x = core_of(alloc, callees, array.get(), scope);
            let x = forms::used(alloc, scope, x);
            let y = core_of(alloc, callees, index.get(), scope);
            forms::subscript(alloc, scope, *at, x, y)
        }
        Expr::Call {
            at,
            callee,
            arguments,
        } => {
            let f = typed_part(alloc, callee.get(), scope)?;
            let Told {
                at: name,
                shown,
                faults,
            } = f;
            let xs = all_arguments(alloc, callees, arguments.as_slice(), faults, scope)?;
            call(alloc, callees, scope, *at, name, shown, xs)
        }
        Expr::Member {
            at,
            object,
            member: name,
        } => {
            let x = core_of(alloc, callees, object.get(), scope);
            forms::member(alloc, scope, *at, name, x)
        }
        Expr::Arrow {
            at,
            pointer,
            member: name,
        } => {
            let x = core_of(alloc, callees, pointer.get(), scope);
            forms::arrow(alloc, scope, *at, name, x)
        }
        Expr::Postfix {
            at,
            operator,
            operand,
        } => {
            let x = core_of(alloc, callees, operand.get(), scope);
            forms::postfix(alloc, scope, *at, *operator, x)
        }
        Expr::Unary {
            at,
            operator,
            operand,
        } => {
            let x = core_of(alloc, callees, operand.get(), scope);
            unary(alloc, scope, *at, *operator, x)
        }
        Expr::SizeofExpr { at, operand } => {
            let x = typed_part(alloc, operand.get(), scope);
            forms::size_of_expression(alloc, scope, *at, x)
        }
        Expr::SizeofType {
            at,
            type_name: name,
        } => {
            let t = named_type(alloc, name.get(), scope);
            forms::size_of_type(alloc, scope, *at, t)
        }
        Expr::Cast {
            at,
            type_name: name,
            operand,
        } => {
            let to = named_type(alloc, name.get(), scope);
            let x = core_of(alloc, callees, operand.get(), scope);
            forms::cast(alloc, scope, *at, to, x)
        }
        Expr::Binary {
            at,
            operator,
            left,
            right,
        } => {
            let x = core_of(alloc, callees, left.get(), scope);
            let x = forms::used(alloc, scope, x);
            let y = core_of(alloc, callees, right.get(), scope);
            forms::binary(alloc, scope, *at, *operator, x, y)
        }
        Expr::Conditional {
            at,
            condition,
            positive,
            negative,
        } => {
            let c = core_of(alloc, callees, condition.get(), scope);
            let c = forms::used(alloc, scope, c);
            let x = core_of(alloc, callees, positive.get(), scope);
            let x = forms::used(alloc, scope, x);
            let y = core_of(alloc, callees, negative.get(), scope);
            forms::choice(alloc, scope, *at, c, x, y)
        }
        Expr::Assign {
            at,
            operator,
            target,
            value,
        } => {
            let x = core_of(alloc, callees, target.get(), scope);
            let y = core_of(alloc, callees, value.get(), scope);
            forms::assignment(alloc, scope, *at, *operator, x, y)
        }
        Expr::Comma { at, left, right } => {
            let x = core_of(alloc, callees, left.get(), scope);
            let x = forms::unused(alloc, scope, x);
            let y = core_of(alloc, callees, right.get(), scope);
            forms::comma(alloc, scope, *at, x, y)
        }
    }
}

/// Arguments, from left to right, behind the faults of the callee.
#[cycle(building)]
fn all_arguments<C: Callees>(
    alloc: Global,
    callees: &C,
    items: &[Shared<Expr>],
    faults: Items<Fault>,
    scope: &mut Scope,
) -> Result<Passing, AllocError>
    ensures { IfOk result (λ xs. AreFound (C.numbering callees.now) faults items.now scope.old xs scope.new) }
{
    let mut all = nothing_passed(alloc, faults);
    for item in items {
        let x = core_of(alloc, callees, item.get(), scope)?;
        all = and_passed(alloc, scope, all, x)?;
    }
    Ok(all)
}
