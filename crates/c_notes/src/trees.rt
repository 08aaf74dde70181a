//! Expressions (C99 6.5): what they say to the types, with what is noted of them.

ghost use Rattle.std.specs.Prelude.{IfOk, IsOkAnd};
ghost use Rattle.c_notes.specs.Relations.{IsNoted, IsCallOf};

use crate::arguments::{NotedCall, and_noted, no_arguments_noted};
use crate::calling::call;
use crate::forms;
use crate::notes::NotedExpr;
use c_language::Expr;
use c_means::Profile;
use c_type_forms::{floating_constant, integer_constant};
use c_type_scope::Scope;
use c_typing::{character_constant, function_name, identifier, string_literal, type_name};
use plain_data::Shared;
use std::alloc::{AllocError, Global};

/// What an expression says to the types (C99 6.5), and what is noted of it: operands and type names from left to right,
/// each in the scope that those before it leave. It fails for want of memory alone. A part that failed is handed to
/// its form as it is, and the parts behind it are walked all the same.
#[cycle(noting)]
pub fn noted(
    alloc: Global,
    profile: &Profile,
    expr: &Expr,
    scope: &mut Scope,
) -> Result<NotedExpr, AllocError>
    ensures { IfOk result (λ x. IsNoted profile.now expr.now scope.old x scope.new) }
{
    match expr {
        Expr::Integer { at, constant } => {
            forms::leaf(alloc, integer_constant(alloc, *at, constant))
        }
        Expr::Floating { at } => forms::leaf(alloc, floating_constant(alloc, *at)),
        Expr::Character { at, value } => {
            forms::leaf(alloc, character_constant(alloc, *at, value))
        }
        Expr::StringLiteral { at, pieces } => {
            let told = string_literal(alloc, scope, *at, pieces.as_slice());
            forms::literal(alloc, told, pieces.as_slice())
        }
        Expr::FunctionName { at } => {
            forms::placed_leaf(alloc, true, function_name(alloc, scope, *at))
        }
        Expr::Identifier { at, name } => {
            let told = identifier(alloc, scope, *at, name);
            forms::placed_leaf(alloc, forms::is_fixed_name(scope, name), told)
        }
        Expr::Parenthesized { inner, .. } => noted(alloc, profile, inner.get(), scope),
        Expr::Subscript { at, array, index } => {
            let x = noted(alloc, profile, array.get(), scope);
            let x = forms::value(alloc, scope, x);
            let y = noted(alloc, profile, index.get(), scope);
            forms::subscript(alloc, scope, *at, x, y)
        }
        Expr::Call {
            at,
            callee,
            arguments,
        } => {
            let f = noted(alloc, profile, callee.get(), scope);
            let parts = all_arguments(alloc, profile, arguments.as_slice(), f, scope);
            call(alloc, profile, scope, *at, parts)
        }
        Expr::Member {
            at,
            object,
            member: name,
        } => {
            let x = noted(alloc, profile, object.get(), scope);
            forms::member(alloc, scope, *at, name, x)
        }
        Expr::Arrow {
            at,
            pointer,
            member: name,
        } => {
            let x = noted(alloc, profile, pointer.get(), scope);
            forms::arrow(alloc, scope, *at, name, x)
        }
        Expr::Postfix { at, operand, .. } => {
            let x = noted(alloc, profile, operand.get(), scope);
            forms::postfix(alloc, scope, *at, x)
        }
        Expr::Unary {
            at,
            operator,
            operand,
        } => {
            let x = noted(alloc, profile, operand.get(), scope);
            forms::unary(alloc, scope, *at, *operator, x)
        }
        Expr::SizeofExpr { at, operand } => {
            let x = noted(alloc, profile, operand.get(), scope);
            forms::size_of_expression(alloc, scope, *at, x)
        }
        Expr::SizeofType {
            at,
            type_name: name,
        } => {
            let t = type_name(alloc, name.get(), scope);
            forms::size_of_type(alloc, scope, *at, t)
        }
        Expr::Cast {
            at,
            type_name: name,
            operand,
        } => {
            let to = type_name(alloc, name.get(), scope);
            let x = noted(alloc, profile, operand.get(), scope);
            forms::cast(alloc, scope, *at, to, x)
        }
        Expr::Binary {
            at,
            operator,
            left,
            right,
        } => {
            let x = noted(alloc, profile, left.get(), scope);
            let x = forms::value(alloc, scope, x);
            let y = noted(alloc, profile, right.get(), scope);
            forms::binary(alloc, scope, *at, *operator, x, y)
        }
        Expr::Conditional {
            at,
            condition,
            positive,
            negative,
        } => {
            let c = noted(alloc, profile, condition.get(), scope);
            let c = forms::value(alloc, scope, c);
            let x = noted(alloc, profile, positive.get(), scope);
            let x = forms::value(alloc, scope, x);
            let y = noted(alloc, profile, negative.get(), scope);
            forms::choice(alloc, scope, *at, c, x, y)
        }
        Expr::Assign {
            at,
            operator,
            target,
            value,
        } => {
            let x = noted(alloc, profile, target.get(), scope);
            let y = noted(alloc, profile, value.get(), scope);
            forms::assignment(alloc, scope, *at, *operator, x, y)
        }
        Expr::Comma { at, left, right } => {
            let x = noted(alloc, profile, left.get(), scope);
            let y = noted(alloc, profile, right.get(), scope);
            forms::comma(alloc, scope, *at, x, y)
        }
    }
}

/// A call of what was noted, with its arguments from left to right.
#[cycle(noting)]
fn all_arguments(
    alloc: Global,
    profile: &Profile,
    items: &[Shared<Expr>],
    callee: Result<NotedExpr, AllocError>,
    scope: &mut Scope,
) -> Result<NotedCall, AllocError>
    ensures { IfOk result (λ c. IsOkAnd callee (λ f. IsCallOf profile.now f items.now scope.old c scope.new)) }
{
    let mut all = no_arguments_noted(alloc, callee);
    for item in items {
        let x = noted(alloc, profile, item.get(), scope);
        let x = forms::value(alloc, scope, x);
        all = and_noted(alloc, all, x);
    }
    all
}
