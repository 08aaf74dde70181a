//! The names of expressions, and of the types that stand in them (C99 6.5, 6.7), put on a stack. All fail for want of
//! memory alone.

ghost use Rattle.std.specs.Prelude.{◌≡◌, ◌∷◌, map, option_map, OnOk};
ghost use Rattle.c_means.specs.Names as names;
ghost use Rattle.c_names.specs.Trees as trees;

use crate::found::Found;
use crate::stack::Stack;
use crate::working::{
    derive, join, join_all, name_last, put_declarator_name, put_declared, put_declared_tag,
    put_enumeration, put_function_name, put_literal, put_name, put_nothing, put_tag, settle,
    to_function,
};
use c_language::{
    Declarator, Enumerator, Expr, Field, MemberDeclaration, Parameter, Specifier, TypeName,
};
use plain_data::Shared;
use std::alloc::{AllocError, Global};

/// Puts the names of an expression on (C99 6.5).
#[cycle(naming)]
pub(crate) fn put_expr(alloc: Global, e: &Expr, done: &mut Stack<Found>) -> Result<(), AllocError>
    ensures { OnOk result (done.new ≡ names.names_of e.now ∷ done.old) }
{
    match e {
        Expr::Integer { .. } => put_nothing(alloc, done),
        Expr::Floating { .. } => put_nothing(alloc, done),
        Expr::Character { .. } => put_nothing(alloc, done),
        Expr::StringLiteral { at, pieces } => put_literal(alloc, *at, pieces.as_slice(), done),
        Expr::FunctionName { at } => put_function_name(alloc, *at, done),
        Expr::Identifier { name, .. } => put_name(alloc, name, done),
        Expr::Parenthesized { inner, .. } => put_expr(alloc, inner.get(), done),
        Expr::Subscript { array, index, .. } => {
            put_expr(alloc, array.get(), done)?;
            put_expr(alloc, index.get(), done)?;
            join(alloc, done)
        }
        Expr::Call {
            callee,
            arguments,
            ..
        } => {
            put_expr(alloc, callee.get(), done)?;
            put_exprs(alloc, arguments.as_slice(), done)?;
            join(alloc, done)
        }
        Expr::Member { object, .. } => put_expr(alloc, object.get(), done),
        Expr::Arrow { pointer, .. } => put_expr(alloc, pointer.get(), done),
        Expr::Postfix { operand, .. } => put_expr(alloc, operand.get(), done),
        Expr::Unary { operand, .. } => put_expr(alloc, operand.get(), done),
        Expr::SizeofExpr { operand, .. } => put_expr(alloc, operand.get(), done),
        Expr::SizeofType { type_name, .. } => put_type_name(alloc, type_name.get(), done),
        Expr::Cast {
            type_name,
            operand,
            ..
        } => {
            put_type_name(alloc, type_name.get(), done)?;
            put_expr(alloc, operand.get(), done)?;
            join(alloc, done)
        }
        Expr::Binary { left, right, .. } => {
            put_expr(alloc, left.get(), done)?;
            put_expr(alloc, right.get(), done)?;
            join(alloc, done)
        }
        Expr::Conditional {
            condition,
            positive,
            negative,
            ..
        } => {
            put_expr(alloc, condition.get(), done)?;
            put_expr(alloc, positive.get(), done)?;
            put_expr(alloc, negative.get(), done)?;
            join(alloc, done)?;
            join(alloc, done)
        }
        Expr::Assign { target, value, .. } => {
            put_expr(alloc, target.get(), done)?;
            put_expr(alloc, value.get(), done)?;
            join(alloc, done)
        }
        Expr::Comma { left, right, .. } => {
            put_expr(alloc, left.get(), done)?;
            put_expr(alloc, right.get(), done)?;
            join(alloc, done)
        }
    }
}

#[cycle(naming)]
fn put_exprs(
    alloc: Global,
    items: &[Shared<Expr>],
    done: &mut Stack<Found>,
) -> Result<(), AllocError>
    ensures { OnOk result (done.new ≡ names.all (map names.names_of items.now) ∷ done.old) }
{
    for item in items {
        put_expr(alloc, item.get(), done)?;
    }
    join_all(alloc, items.len(), done)
}

#[cycle(naming)]
fn put_optional_expr(
    alloc: Global,
    e: &Option<Shared<Expr>>,
    done: &mut Stack<Found>,
) -> Result<(), AllocError>
    ensures { OnOk result (done.new ≡ names.if_some (option_map names.names_of e.now) ∷ done.old) }
{
    match e {
        None => put_nothing(alloc, done),
        Some(e) => put_expr(alloc, e.get(), done),
    }
}

#[cycle(naming)]
fn put_type_name(alloc: Global, t: &TypeName, done: &mut Stack<Found>) -> Result<(), AllocError>
    ensures { OnOk result (done.new ≡ trees.type_name_names t.now ∷ done.old) }
{
    put_specifiers(alloc, t.specifiers.as_slice(), done)?;
    put_declarator(alloc, t.declarator.get(), done)?;
    join(alloc, done)?;
    settle(alloc, done)
}

/// Puts the names of specifiers on, one behind the other (C99 6.7).
#[cycle(naming)]
pub(crate) fn put_specifiers(
    alloc: Global,
    items: &[Shared<Specifier>],
    done: &mut Stack<Found>,
) -> Result<(), AllocError>
    ensures { OnOk result (done.new ≡ names.all (map names.specifier_of items.now) ∷ done.old) }
{
    for item in items {
        put_specifier(alloc, item.get(), done)?;
    }
    join_all(alloc, items.len(), done)
}

#[cycle(naming)]
fn put_specifier(alloc: Global, s: &Specifier, done: &mut Stack<Found>) -> Result<(), AllocError>
    ensures { OnOk result (done.new ≡ names.specifier_of s.now ∷ done.old) }
{
    match s {
        Specifier::Storage { .. } => put_nothing(alloc, done),
        Specifier::Qualifier { .. } => put_nothing(alloc, done),
        Specifier::Inline { .. } => put_nothing(alloc, done),
        Specifier::Word { .. } => put_nothing(alloc, done),
        Specifier::Typedef { name, .. } => put_name(alloc, name, done),
        Specifier::Tag { tag, .. } => put_tag(alloc, tag, done),
        Specifier::Aggregate { tag, members, .. } => {
            put_declared_tag(alloc, tag, done)?;
            put_members(alloc, members.as_slice(), done)?;
            join(alloc, done)?;
            settle(alloc, done)
        }
        Specifier::EnumTag { tag, .. } => put_enumeration(alloc, tag, done),
        Specifier::Enumeration {
            tag,
            enumerators,
            ..
        } => {
            put_declared_tag(alloc, tag, done)?;
            put_enumerators(alloc, enumerators.as_slice(), done)?;
            join(alloc, done)
        }
    }
}

#[cycle(naming)]
fn put_members(
    alloc: Global,
    items: &[Shared<MemberDeclaration>],
    done: &mut Stack<Found>,
) -> Result<(), AllocError>
    ensures { OnOk result (done.new ≡ names.all (map trees.member_names items.now) ∷ done.old) }
{
    for item in items {
        put_member(alloc, item.get(), done)?;
    }
    join_all(alloc, items.len(), done)
}

#[cycle(naming)]
fn put_member(
    alloc: Global,
    m: &MemberDeclaration,
    done: &mut Stack<Found>,
) -> Result<(), AllocError>
    ensures { OnOk result (done.new ≡ trees.member_names m.now ∷ done.old) }
{
    put_specifiers(alloc, m.specifiers.as_slice(), done)?;
    put_fields(alloc, m.fields.as_slice(), done)?;
    join(alloc, done)?;
    settle(alloc, done)
}

#[cycle(naming)]
fn put_fields(
    alloc: Global,
    items: &[Shared<Field>],
    done: &mut Stack<Found>,
) -> Result<(), AllocError>
    ensures { OnOk result (done.new ≡ names.all (map trees.field_names items.now) ∷ done.old) }
{
    for item in items {
        put_field(alloc, item.get(), done)?;
    }
    join_all(alloc, items.len(), done)
}

#[cycle(naming)]
fn put_field(alloc: Global, f: &Field, done: &mut Stack<Found>) -> Result<(), AllocError>
    ensures { OnOk result (done.new ≡ trees.field_names f.now ∷ done.old) }
{
    match f {
        Field::Plain { declarator } => put_declarator(alloc, declarator.get(), done),
        Field::Bits {
            declarator,
            width,
            ..
        } => {
            put_optional_declarator(alloc, declarator, done)?;
            put_expr(alloc, width.get(), done)?;
            join(alloc, done)
        }
    }
}

#[cycle(naming)]
fn put_optional_declarator(
    alloc: Global,
    d: &Option<Shared<Declarator>>,
    done: &mut Stack<Found>,
) -> Result<(), AllocError>
    ensures { OnOk result (done.new ≡ names.if_some (option_map names.declarator_names d.now) ∷ done.old) }
{
    match d {
        None => put_nothing(alloc, done),
        Some(d) => put_declarator(alloc, d.get(), done),
    }
}

#[cycle(naming)]
fn put_enumerators(
    alloc: Global,
    items: &[Shared<Enumerator>],
    done: &mut Stack<Found>,
) -> Result<(), AllocError>
    ensures { OnOk result (done.new ≡ names.all (map trees.enumerator_names items.now) ∷ done.old) }
{
    for item in items {
        put_enumerator(alloc, item.get(), done)?;
    }
    join_all(alloc, items.len(), done)
}

/// Puts an enumeration constant on, which is declared behind its value (C99 6.2.1p7).
#[cycle(naming)]
fn put_enumerator(alloc: Global, e: &Enumerator, done: &mut Stack<Found>) -> Result<(), AllocError>
    ensures { OnOk result (done.new ≡ trees.enumerator_names e.now ∷ done.old) }
{
    put_optional_expr(alloc, &e.value, done)?;
    put_declared(alloc, e.at, &e.name, done)?;
    join(alloc, done)
}

/// Puts the names of a declarator on (C99 6.7.5).
#[cycle(naming)]
pub(crate) fn put_declarator(
    alloc: Global,
    d: &Declarator,
    done: &mut Stack<Found>,
) -> Result<(), AllocError>
    ensures { OnOk result (done.new ≡ names.declarator_names d.now ∷ done.old) }
{
    match d {
        Declarator::Name { at, name } => put_declarator_name(alloc, *at, name, done),
        Declarator::Omitted => put_nothing(alloc, done),
        Declarator::Grouped { inner, .. } => put_declarator(alloc, inner.get(), done),
        Declarator::Pointer { inner, .. } => {
            put_declarator(alloc, inner.get(), done)?;
            put_nothing(alloc, done)?;
            derive(alloc, done)
        }
        Declarator::Array { inner, length, .. } => {
            put_declarator(alloc, inner.get(), done)?;
            put_optional_expr(alloc, length, done)?;
            derive(alloc, done)
        }
        Declarator::Function {
            inner,
            parameters,
            ..
        } => {
            put_declarator(alloc, inner.get(), done)?;
            put_parameters(alloc, parameters.as_slice(), done)?;
            to_function(alloc, done)
        }
    }
}

#[cycle(naming)]
fn put_parameters(
    alloc: Global,
    items: &[Shared<Parameter>],
    done: &mut Stack<Found>,
) -> Result<(), AllocError>
    ensures { OnOk result (done.new ≡ names.all (map trees.parameter_names items.now) ∷ done.old) }
{
    for item in items {
        put_parameter(alloc, item.get(), done)?;
    }
    join_all(alloc, items.len(), done)
}

#[cycle(naming)]
fn put_parameter(alloc: Global, p: &Parameter, done: &mut Stack<Found>) -> Result<(), AllocError>
    ensures { OnOk result (done.new ≡ trees.parameter_names p.now ∷ done.old) }
{
    put_specifiers(alloc, p.specifiers.as_slice(), done)?;
    put_declarator(alloc, p.declarator.get(), done)?;
    name_last(alloc, done)?;
    join(alloc, done)?;
    settle(alloc, done)
}
