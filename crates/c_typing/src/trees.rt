//! Expressions (C99 6.5), and the declarations that stand in them (C99 6.7): one function a kind of tree, and one a list.
ghost use Rattle.std.specs.Prelude.{◌≡◌, [], map, pos, Some, IfOk, OnOk};
ghost use Rattle.c_language.specs.Typing as spec;
ghost use Rattle.c_language.specs.Scopes as scopes;
ghost use Rattle.c_language.specs.Declares as declares;
ghost use Rattle.c_language.specs.Trees as trees;
ghost use Rattle.c_typing.specs.Parts.{behind, length_says, bits_say};
ghost use Rattle.c_declares.specs.Views.{said_in, formed_in, counted_in, type_said_in, laid_in, counting_in, listed_in, named_in};

use crate::arguments::{Arguments, and_argument, no_arguments};
use crate::{forms, parts};
use c_declares::{Counted, Counting, Formed, Laid, Listed, Named, Said, TypeSaid, prototype};
use c_language::{
    AggregateKind, CType, Declarator, Enumerator, Expr, Fault, Field, MemberDeclaration, Parameter,
    Specifier, Told, TypeName,
};
use c_type_forms::{floating_constant, integer_constant};
use c_type_scope::Scope;
use plain_data::{Items, Shared};
use std::alloc::{AllocError, Global};

/// What an expression says (C99 6.5): operands and type names from left to right, each in the scope that those before it
/// leave. It fails for want of memory alone.
#[cycle(typing)]
pub fn typed(alloc: Global, expr: &Expr, scope: &mut Scope) -> Result<Told, AllocError>
    ensures { IfOk result (λ told. spec.typed_in told scope.new ≡ trees.typed expr.now scope.old) }
{
    match expr {
        Expr::Integer { at, constant } => integer_constant(alloc, *at, constant),
        Expr::Floating { at } => floating_constant(alloc, *at),
        Expr::Character { at, value } => forms::character_constant(alloc, *at, value),
        Expr::StringLiteral { at, pieces } => {
            forms::string_literal(alloc, scope, *at, pieces.as_slice())
        }
        Expr::FunctionName { at } => forms::function_name(alloc, scope, *at),
        Expr::Identifier { at, name } => forms::identifier(alloc, scope, *at, name),
        Expr::Parenthesized { inner, .. } => typed(alloc, inner.get(), scope),
        Expr::Subscript { at, array, index } => {
            let x = typed(alloc, array.get(), scope);
            let x = parts::value(alloc, scope, x);
            let y = typed(alloc, index.get(), scope);
            parts::subscript(alloc, scope, *at, x, y)
        }
        Expr::Call {
            at,
            callee,
            arguments,
        } => {
            let f = typed(alloc, callee.get(), scope)?;
            let xs = all_arguments(alloc, arguments.as_slice(), f.faults, scope);
            parts::call(alloc, scope, *at, f.at, f.shown, xs)
        }
        Expr::Member {
            at,
            object,
            member: name,
        } => {
            let x = typed(alloc, object.get(), scope)?;
            forms::member(alloc, scope, *at, name, x)
        }
        Expr::Arrow {
            at,
            pointer,
            member: name,
        } => {
            let x = typed(alloc, pointer.get(), scope)?;
            forms::arrow(alloc, scope, *at, name, x)
        }
        Expr::Postfix { at, operand, .. } => {
            let x = typed(alloc, operand.get(), scope)?;
            forms::postfix(alloc, scope, *at, x)
        }
        Expr::Unary {
            at,
            operator,
            operand,
        } => {
            let x = typed(alloc, operand.get(), scope)?;
            forms::unary(alloc, scope, *at, *operator, x)
        }
        Expr::SizeofExpr { at, operand } => {
            let x = typed(alloc, operand.get(), scope)?;
            forms::size_of_expression(alloc, scope, *at, x)
        }
        Expr::SizeofType {
            at,
            type_name: name,
        } => {
            let t = type_name(alloc, name.get(), scope)?;
            forms::size_of_type(alloc, scope, *at, t)
        }
        Expr::Cast {
            at,
            type_name: name,
            operand,
        } => {
            let to = type_name(alloc, name.get(), scope);
            let x = typed(alloc, operand.get(), scope);
            parts::cast(alloc, scope, *at, to, x)
        }
        Expr::Binary {
            at,
            operator,
            left,
            right,
        } => {
            let x = typed(alloc, left.get(), scope);
            let x = parts::value(alloc, scope, x);
            let y = typed(alloc, right.get(), scope);
            parts::binary(alloc, scope, *at, *operator, x, y)
        }
        Expr::Conditional {
            at,
            condition,
            positive,
            negative,
        } => {
            let c = typed(alloc, condition.get(), scope);
            let c = parts::value(alloc, scope, c);
            let x = typed(alloc, positive.get(), scope);
            let x = parts::value(alloc, scope, x);
            let y = typed(alloc, negative.get(), scope);
            parts::choice(alloc, scope, *at, c, x, y)
        }
        Expr::Assign {
            at,
            operator,
            target,
            value,
        } => {
            let x = typed(alloc, target.get(), scope);
            let y = typed(alloc, value.get(), scope);
            parts::assignment(alloc, scope, *at, *operator, x, y)
        }
        Expr::Comma { at, left, right } => {
            let x = typed(alloc, left.get(), scope);
            let y = typed(alloc, right.get(), scope);
            parts::comma(alloc, scope, *at, x, y)
        }
    }
}

/// What is said of arguments together, from left to right, behind the faults of the callee.
#[cycle(typing)]
fn all_arguments(
    alloc: Global,
    items: &[Shared<Expr>],
    faults: Items<Fault>,
    scope: &mut Scope,
) -> Result<Arguments, AllocError>
    ensures { IfOk result (λ xs. behind xs scope.new ≡ trees.through (behind (spec.no_arguments faults) scope.old) (map trees.typed items.now)) }
{
    let mut all = no_arguments(alloc, faults);
    for item in items {
        let x = typed(alloc, item.get(), scope)?;
        let x = forms::value(alloc, scope, x)?;
        all = and_argument(all, x)?;
    }
    Ok(all)
}

/// What a type name says (C99 6.7.6): its type, or the rule that it breaks. It fails for want of memory alone.
#[cycle(typing)]
pub fn type_name(alloc: Global, name: &TypeName, scope: &mut Scope) -> Result<TypeSaid, AllocError>
    ensures { IfOk result (λ x. type_said_in x scope.new ≡ trees.type_name_says name.now scope.old) }
{
    let none = Items::new(alloc);
    let said = all_specifiers(alloc, name.specifiers.as_slice(), false, none, scope)?;
    let formed = declarator(alloc, name.declarator.get(), scope)?;
    TypeSaid::new(alloc, said, formed, scope)
}

/// What specifiers say, from left to right, behind some faults; `alone` tells that no declarator follows.
#[cycle(typing)]
fn all_specifiers(
    alloc: Global,
    items: &[Shared<Specifier>],
    alone: bool,
    faults: Items<Fault>,
    scope: &mut Scope,
) -> Result<Said, AllocError>
    ensures { IfOk result (λ x. said_in x scope.new ≡ declares.said_by (map trees.specifier_says items.now) alone faults scope.old) }
{
    let mut said = Said::new(alloc, alone, faults);
    for item in items {
        specifier(alloc, item.get(), &mut said, scope)?;
    }
    Ok(said)
}

#[cycle(typing)]
fn specifier(
    alloc: Global,
    specifier: &Specifier,
    said: &mut Said,
    scope: &mut Scope,
) -> Result<(), AllocError>
    ensures { OnOk result (said_in said.new scope.new ≡ trees.specifier_says specifier.now (said_in said.old scope.old)) }
{
    match specifier {
        Specifier::Storage { at, class } => {
            said.add_storage(*at, *class);
            Ok(())
        }
        Specifier::Qualifier { at, qualifier } => {
            said.add_qualifier(*at, *qualifier);
            Ok(())
        }
        Specifier::Inline { at } => {
            said.add_inline(*at);
            Ok(())
        }
        Specifier::Word { at, word } => said.add_word(*at, *word),
        Specifier::Typedef { at, name } => said.add_typedef_name(alloc, *at, name, scope),
        Specifier::Tag { at, kind, tag } => said.add_tag(alloc, *at, *kind, tag, scope),
        Specifier::Aggregate {
            at,
            kind,
            tag,
            members,
        } => {
            let begun = said.begin_members(alloc, *at, *kind, tag, scope)?;
            let laid = all_members(alloc, members.as_slice(), *kind, begun.faults, scope)?;
            said.end_members(alloc, *kind, begun.number, laid, scope);
            Ok(())
        }
        Specifier::EnumTag { at, tag } => said.add_enumeration_tag(alloc, *at, tag, scope),
        Specifier::Enumeration {
            at,
            tag,
            enumerators,
            ..
        } => {
            let begun = said.begin_enumerators(alloc, *at, tag, scope)?;
            let counting = all_enumerators(alloc, enumerators.as_slice(), begun.faults, scope)?;
            said.end_enumerators(alloc, begun.number, counting, scope);
            Ok(())
        }
    }
}

#[cycle(typing)]
fn all_members(
    alloc: Global,
    items: &[Shared<MemberDeclaration>],
    kind: AggregateKind,
    faults: Items<Fault>,
    scope: &mut Scope,
) -> Result<Laid, AllocError>
    ensures { IfOk result (λ x. laid_in x scope.new ≡ declares.in_order (map trees.member_says items.now) (declares.none_laid (declares.form_of kind) faults scope.old)) }
{
    let mut laid = Laid::new(alloc, kind, faults);
    for item in items {
        member_declaration(alloc, item.get(), &mut laid, scope)?;
    }
    Ok(laid)
}

#[cycle(typing)]
fn member_declaration(
    alloc: Global,
    member: &MemberDeclaration,
    laid: &mut Laid,
    scope: &mut Scope,
) -> Result<(), AllocError>
    ensures { OnOk result (laid_in laid.new scope.new ≡ trees.member_says member.now (laid_in laid.old scope.old)) }
{
    let faults = laid.take_faults(alloc);
    let said = all_specifiers(alloc, member.specifiers.as_slice(), false, faults, scope)?;
    let ctype = laid.take_specifiers(alloc, said)?;
    all_fields(alloc, member.fields.as_slice(), &ctype, laid, scope)
}

#[cycle(typing)]
fn all_fields(
    alloc: Global,
    items: &[Shared<Field>],
    ctype: &Option<CType>,
    laid: &mut Laid,
    scope: &mut Scope,
) -> Result<(), AllocError>
    ensures { OnOk result (laid_in laid.new scope.new ≡ declares.fields_of (map trees.field_says items.now) ctype.now (laid_in laid.old scope.old)) }
{
    if items.is_empty() {
        return laid.add_no_field();
    }
    for item in items {
        field(alloc, item.get(), ctype, laid, scope)?;
    }
    Ok(())
}

#[cycle(typing)]
fn field(
    alloc: Global,
    field: &Field,
    ctype: &Option<CType>,
    laid: &mut Laid,
    scope: &mut Scope,
) -> Result<(), AllocError>
    ensures { OnOk result (laid_in laid.new scope.new ≡ trees.field_says field.now ctype.now (laid_in laid.old scope.old)) }
{
    match field {
        Field::Plain { declarator: inner } => {
            let formed = declarator(alloc, inner.get(), scope)?;
            laid.add_member(alloc, formed, ctype, scope)
        }
        Field::Bits {
            declarator: named,
            width,
            ..
        } => {
            bits_declarator(alloc, named, laid, scope)?;
            let width = typed(alloc, width.get(), scope)?;
            laid.add_width(width)
        }
    }
}

#[cycle(typing)]
fn bits_declarator(
    alloc: Global,
    named: &Option<Shared<Declarator>>,
    laid: &mut Laid,
    scope: &mut Scope,
) -> Result<(), AllocError>
    ensures { OnOk result (laid_in laid.new scope.new ≡ bits_say named.now (laid_in laid.old scope.old)) }
{
    match named {
        None => laid.add_unnamed_bits(),
        Some(inner) => {
            let formed = declarator(alloc, inner.get(), scope)?;
            laid.add_bits(formed)
        }
    }
}

#[cycle(typing)]
fn all_enumerators(
    alloc: Global,
    items: &[Shared<Enumerator>],
    faults: Items<Fault>,
    scope: &mut Scope,
) -> Result<Counting, AllocError>
    ensures { IfOk result (λ x. counting_in x scope.new ≡ declares.in_order (map trees.enumerator_says items.now) (record { next = Some (pos 0); faults = faults; scope = scope.old })) }
{
    let mut counting = Counting::new(faults);
    for item in items {
        enumerator(alloc, item.get(), &mut counting, scope)?;
    }
    Ok(counting)
}

#[cycle(typing)]
fn enumerator(
    alloc: Global,
    enumerator: &Enumerator,
    counting: &mut Counting,
    scope: &mut Scope,
) -> Result<(), AllocError>
    ensures { OnOk result (counting_in counting.new scope.new ≡ trees.enumerator_says enumerator.now (counting_in counting.old scope.old)) }
{
    match &enumerator.value {
        None => counting.add_next(alloc, enumerator.at, &enumerator.name, scope),
        Some(value) => {
            let value = typed(alloc, value.get(), scope)?;
            counting.add_given(alloc, enumerator.at, &enumerator.name, value, scope)
        }
    }
}

/// What a declarator says (C99 6.7.5). It fails for want of memory alone.
#[cycle(typing)]
pub fn declarator(
    alloc: Global,
    declarator_: &Declarator,
    scope: &mut Scope,
) -> Result<Formed, AllocError>
    ensures { IfOk result (λ x. formed_in x scope.new ≡ trees.declarator_says declarator_.now scope.old) }
{
    match declarator_ {
        Declarator::Name { at, name } => Ok(Formed::new(alloc, Some((*at, name.clone()?)))),
        Declarator::Omitted => Ok(Formed::new(alloc, None)),
        Declarator::Grouped { inner, .. } => declarator(alloc, inner.get(), scope),
        Declarator::Pointer {
            qualifiers,
            inner,
            ..
        } => {
            let formed = declarator(alloc, inner.get(), scope);
            parts::pointer(qualifiers.as_slice(), formed)
        }
        Declarator::Array {
            inner,
            words,
            length,
            ..
        } => {
            let formed = declarator(alloc, inner.get(), scope);
            let length = array_length(alloc, length, scope);
            parts::array(words.as_slice(), formed, length)
        }
        Declarator::Function {
            inner,
            parameters,
            variadic,
            ..
        } => {
            let formed = declarator(alloc, inner.get(), scope);
            let listed = all_parameters(alloc, parameters.as_slice(), scope);
            let prototype = prototype(parameters.as_slice(), *variadic);
            parts::function(alloc, prototype, formed, listed, scope)
        }
    }
}

#[cycle(typing)]
fn array_length(
    alloc: Global,
    length: &Option<Shared<Expr>>,
    scope: &mut Scope,
) -> Result<Counted, AllocError>
    ensures { IfOk result (λ x. counted_in x scope.new ≡ length_says length.now scope.old) }
{
    match length {
        None => Ok(Counted::new(alloc)),
        Some(length) => {
            let x = typed(alloc, length.get(), scope)?;
            Counted::by(x)
        }
    }
}

/// Parameters, in a scope of their own that is left open (C99 6.2.1p4).
#[cycle(typing)]
fn all_parameters(
    alloc: Global,
    items: &[Shared<Parameter>],
    scope: &mut Scope,
) -> Result<Listed, AllocError>
    ensures { IfOk result (λ x. listed_in x scope.new ≡ declares.listed (declares.none_listed (scopes.enter scope.old)) (map trees.parameter_says items.now)) }
{
    scope.enter()?;
    let mut listed = Listed::new(alloc);
    for item in items {
        let named = parameter(alloc, item.get(), scope)?;
        listed.add(alloc, named, scope)?;
    }
    Ok(listed)
}

#[cycle(typing)]
fn parameter(alloc: Global, parameter: &Parameter, scope: &mut Scope) -> Result<Named, AllocError>
    ensures { IfOk result (λ x. named_in x scope.new ≡ trees.parameter_says parameter.now scope.old) }
{
    let none = Items::new(alloc);
    let said = all_specifiers(alloc, parameter.specifiers.as_slice(), false, none, scope)?;
    let formed = declarator(alloc, parameter.declarator.get(), scope)?;
    Named::new(alloc, said, formed, scope)
}

/// What declaration specifiers say (C99 6.7), from left to right; `alone` tells that no declarator follows. It fails for
/// want of memory alone.
pub fn specifiers(
    alloc: Global,
    specifiers: &[Shared<Specifier>],
    alone: bool,
    scope: &mut Scope,
) -> Result<Said, AllocError>
    ensures { IfOk result (λ x. said_in x scope.new ≡ declares.said_by (map trees.specifier_says specifiers.now) alone [] scope.old) }
{
    all_specifiers(alloc, specifiers, alone, Items::new(alloc), scope)
}
