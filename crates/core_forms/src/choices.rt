//! The conditional operator (C99 6.5.15), and casts (C99 6.5.4).
ghost use Rattle.std.specs.Prelude.{◌≡◌, ◌++◌, IfOk};
ghost use Rattle.c_language.specs.Typing as says;
ghost use Rattle.c_means.specs.Expressions as form;
ghost use Rattle.core_tree.specs.declared.expr.Expr.TheVariants as expr;
ghost use Rattle.core_forms.specs.Nodes as nodes;
ghost use Rattle.core_forms.specs.Nodes.{a_value, cast_type, type_by, HasWorth};

use crate::built::{Built, Used, value_of, valued};
use crate::types::{type_as, type_of};
use c_language::{CType, Class, Fault, Rule, Tables};
use c_type_forms as forms;
use core_tree::Expr;
use elaborate::value_type;
use plain_data::{Items, Shared};
use std::alloc::{AllocError, Global};

/// `condition ? positive : negative`: each side is converted to the type of both. It fails for want of memory alone.
pub fn choice(
    alloc: Global,
    tables: &Tables,
    at: u32,
    condition: Used,
    positive: Used,
    negative: Used,
) -> Result<Built, AllocError>
    ensures { let told = says.choice_over at condition.told.shown positive.told.shown negative.told.shown (condition.told.faults ++ positive.told.faults ++ negative.told.faults) in
        IfOk result (λ y. y ≡ a_value told (expr.Choose at condition.value (expr.Convert (type_by tables.now told) positive.value) (expr.Convert (type_by tables.now told) negative.value))) }
{
    let Used {
        told,
        value: condition,
    } = condition;
    let Used {
        told: first,
        value: left,
    } = positive;
    let Used {
        told: second,
        value: right,
    } = negative;
    let told = forms::choice(alloc, at, told, first, second)?;
    let to = type_of(tables, &told);
    let positive = Shared::new(alloc, Expr::Convert { to, operand: left })?;
    let negative = Shared::new(alloc, Expr::Convert { to, operand: right })?;
    let node = Expr::Choose {
        at,
        condition,
        positive,
        negative,
    };
    valued(alloc, told, node)
}

/// Whether the value of what is cast to a type of this class is used.
fn is_cast_of_used(class: Class) -> bool
    ensures { result ≡ nodes.is_cast_of_used class }
{
    match class {
        Class::Void => false,
        _ => true,
    }
}

/// The class of a named type, as which a cast to it is evaluated.
fn named_class(named: &Option<Result<CType, Rule>>) -> Class
    ensures { result ≡ form.named_class named.now }
{
    match named {
        Some(Ok(ctype)) => ctype.class(),
        Some(Err(_)) => Class::Void,
        None => Class::Void,
    }
}

/// A part as the operand of a cast to a named type: of one to void, the value isn't used (C99 6.3.2.2). It fails for
/// want of memory alone.
pub fn cast_operand(
    alloc: Global,
    tables: &Tables,
    named: &Option<Result<CType, Rule>>,
    x: Built,
) -> Result<Used, AllocError>
    ensures { IfOk result (λ y. HasWorth (nodes.is_cast_of_used (form.named_class named.now)) tables.now x (says.used_told tables.now x.told) y) }
{
    let Built { told, rooted, node } = x;
    let is_used = is_cast_of_used(named_class(named));
    let value = value_of(alloc, tables, &told, rooted, node, is_used)?;
    let told = forms::used(alloc, tables, told)?;
    Ok(Used { told, value })
}

/// A cast to a named type. It fails for want of memory alone.
pub fn cast(
    alloc: Global,
    at: u32,
    named: Option<Result<CType, Rule>>,
    faults: Items<Fault>,
    x: Used,
) -> Result<Built, AllocError>
    ensures { let told = says.cast_over at named x.told.shown (faults ++ x.told.faults) in IfOk result (λ y. y ≡ a_value told (expr.Cast (cast_type named) x.value)) }
{
    let Used { told, value } = x;
    let to = value_type(named_class(&named), 0);
    let told = forms::cast(alloc, at, named, faults, told)?;
    valued(alloc, told, Expr::Cast { to, operand: value })
}

/// A value, converted to a type as by assignment (C99 6.5.16.1p2). It fails for want of memory alone.
pub fn converted(
    alloc: Global,
    tables: &Tables,
    ctype: &Option<CType>,
    value: Shared<Expr>,
) -> Result<Shared<Expr>, AllocError>
    ensures { IfOk result (λ e. e ≡ expr.Convert (nodes.type_as tables.now ctype.now) value) }
{
    Shared::new(
        alloc,
        Expr::Convert {
            to: type_as(tables, ctype),
            operand: value,
        },
    )
}
