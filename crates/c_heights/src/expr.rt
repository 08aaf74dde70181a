//! Heights of expressions, and of the types that stand in them.
ghost use Rattle.std.specs.Prelude.{◌≡◌, suc, map, option_map};
ghost use Rattle.c_grammar.specs.Grammar.{shape, form, highest_shape};
ghost use Rattle.c_grammar.specs.Grammar as grammar;
ghost use Rattle.c_heights.specs.Capped.{capped};

use c_language::{
    Declarator, Enumerator, Expr, Field, MemberDeclaration, Parameter, Specifier, TypeName,
};
use plain_data::Shared;

/// One more than the greatest height in a node.
pub fn above(below: u32) -> u32
    ensures { result ≡ capped (suc below) }
{
    below.saturating_add(1)
}

/// The height of an expression, or the greatest of 32 bits where it is greater.
#[cycle(heights)]
pub fn expr_height(e: &Expr) -> u32
    ensures { result ≡ capped (shape e.now).height }
{
    match e {
        Expr::Integer { .. } => 1,
        Expr::Floating { .. } => 1,
        Expr::Character { .. } => 1,
        Expr::StringLiteral { .. } => 1,
        Expr::FunctionName { .. } => 1,
        Expr::Identifier { .. } => 1,
        Expr::Parenthesized { inner, .. } => above(expr_height(inner.get())),
        Expr::Subscript { array, index, .. } => {
            above(expr_height(array.get()).max(expr_height(index.get())))
        }
        Expr::Call {
            callee,
            arguments,
            ..
        } => above(expr_height(callee.get()).max(highest_expr(arguments.as_slice()))),
        Expr::Member { object, .. } => above(expr_height(object.get())),
        Expr::Arrow { pointer, .. } => above(expr_height(pointer.get())),
        Expr::Postfix { operand, .. } => above(expr_height(operand.get())),
        Expr::Unary { operand, .. } => above(expr_height(operand.get())),
        Expr::SizeofExpr { operand, .. } => above(expr_height(operand.get())),
        Expr::SizeofType { type_name, .. } => above(type_name_height(type_name.get())),
        Expr::Cast {
            type_name,
            operand,
            ..
        } => above(type_name_height(type_name.get()).max(expr_height(operand.get()))),
        Expr::Binary { left, right, .. } => {
            above(expr_height(left.get()).max(expr_height(right.get())))
        }
        Expr::Conditional {
            condition,
            positive,
            negative,
            ..
        } => {
            let sides = expr_height(positive.get()).max(expr_height(negative.get()));
            above(expr_height(condition.get()).max(sides))
        }
        Expr::Assign { target, value, .. } => {
            above(expr_height(target.get()).max(expr_height(value.get())))
        }
        Expr::Comma { left, right, .. } => {
            above(expr_height(left.get()).max(expr_height(right.get())))
        }
    }
}

#[cycle(heights)]
fn highest_expr(items: &[Shared<Expr>]) -> u32
    ensures { result ≡ capped (highest_shape (map shape items.now)) }
{
    let mut highest = 0;
    for item in items {
        highest = expr_height(item.get()).max(highest);
    }
    highest
}

#[cycle(heights)]
fn type_name_height(t: &TypeName) -> u32
    ensures { result ≡ capped (grammar.type_name_of t.now).height }
{
    highest_specifier(t.specifiers.as_slice()).max(declarator_height(t.declarator.get()))
}

/// The greatest height of specifiers, or the greatest of 32 bits where it is greater.
#[cycle(heights)]
pub fn highest_specifier(items: &[Shared<Specifier>]) -> u32
    ensures { result ≡ capped (grammar.highest_specifier (map grammar.specifier_of items.now)) }
{
    let mut highest = 0;
    for item in items {
        highest = specifier_height(item.get()).max(highest);
    }
    highest
}

#[cycle(heights)]
fn specifier_height(s: &Specifier) -> u32
    ensures { result ≡ capped (grammar.specifier_of s.now).height }
{
    match s {
        Specifier::Storage { .. } => 1,
        Specifier::Qualifier { .. } => 1,
        Specifier::Inline { .. } => 1,
        Specifier::Word { .. } => 1,
        Specifier::Typedef { .. } => 1,
        Specifier::Tag { .. } => 1,
        Specifier::Aggregate { members, .. } => above(highest_member(members.as_slice())),
        Specifier::EnumTag { .. } => 1,
        Specifier::Enumeration { enumerators, .. } => {
            above(highest_enumerator(enumerators.as_slice()))
        }
    }
}

#[cycle(heights)]
fn highest_member(items: &[Shared<MemberDeclaration>]) -> u32
    ensures { result ≡ capped (grammar.highest (map grammar.member_of items.now)) }
{
    let mut highest = 0;
    for item in items {
        highest = member_height(item.get()).max(highest);
    }
    highest
}

#[cycle(heights)]
fn member_height(m: &MemberDeclaration) -> u32
    ensures { result ≡ capped (grammar.member_of m.now).height }
{
    highest_specifier(m.specifiers.as_slice()).max(highest_field(m.fields.as_slice()))
}

#[cycle(heights)]
fn highest_field(items: &[Shared<Field>]) -> u32
    ensures { result ≡ capped (grammar.highest (map grammar.field_of items.now)) }
{
    let mut highest = 0;
    for item in items {
        highest = field_height(item.get()).max(highest);
    }
    highest
}

#[cycle(heights)]
fn field_height(f: &Field) -> u32
    ensures { result ≡ capped (grammar.field_of f.now).height }
{
    match f {
        Field::Plain { declarator } => declarator_height(declarator.get()),
        Field::Bits {
            declarator,
            width,
            ..
        } => optional_declarator(declarator).max(expr_height(width.get())),
    }
}

#[cycle(heights)]
fn optional_declarator(d: &Option<Shared<Declarator>>) -> u32
    ensures { result ≡ capped (grammar.form_height (option_map form d.now)) }
{
    match d {
        None => 0,
        Some(d) => declarator_height(d.get()),
    }
}

#[cycle(heights)]
fn highest_enumerator(items: &[Shared<Enumerator>]) -> u32
    ensures { result ≡ capped (grammar.highest (map grammar.enumerator_of items.now)) }
{
    let mut highest = 0;
    for item in items {
        highest = enumerator_height(item.get()).max(highest);
    }
    highest
}

#[cycle(heights)]
fn enumerator_height(e: &Enumerator) -> u32
    ensures { result ≡ capped (grammar.enumerator_of e.now).height }
{
    optional_height(&e.value)
}

#[cycle(heights)]
fn optional_height(e: &Option<Shared<Expr>>) -> u32
    ensures { result ≡ capped (grammar.height_of (option_map shape e.now)) }
{
    match e {
        None => 0,
        Some(e) => expr_height(e.get()),
    }
}

/// The height of a declarator, or the greatest of 32 bits where it is greater.
#[cycle(heights)]
pub fn declarator_height(d: &Declarator) -> u32
    ensures { result ≡ capped (form d.now).height }
{
    match d {
        Declarator::Name { .. } => 1,
        Declarator::Omitted => 1,
        Declarator::Grouped { inner, .. } => above(declarator_height(inner.get())),
        Declarator::Pointer { inner, .. } => above(declarator_height(inner.get())),
        Declarator::Array { inner, length, .. } => {
            above(declarator_height(inner.get()).max(optional_height(length)))
        }
        Declarator::Function {
            inner,
            parameters,
            ..
        } => above(declarator_height(inner.get()).max(highest_parameter(parameters.as_slice()))),
    }
}

#[cycle(heights)]
fn highest_parameter(items: &[Shared<Parameter>]) -> u32
    ensures { result ≡ capped (grammar.highest (map grammar.parameter_of items.now)) }
{
    let mut highest = 0;
    for item in items {
        highest = parameter_height(item.get()).max(highest);
    }
    highest
}

#[cycle(heights)]
fn parameter_height(p: &Parameter) -> u32
    ensures { result ≡ capped (grammar.parameter_of p.now).height }
{
    highest_specifier(p.specifiers.as_slice()).max(declarator_height(p.declarator.get()))
}
