//! Constants, and what is worth one (C99 6.4.4, 6.5.3.4).
ghost use Rattle.std.specs.Prelude.{◌≡◌, pos, false, unwrap_or, IfOk};
ghost use Rattle.c_language.specs.Typing as says;
ghost use Rattle.core_tree.specs.declared.expr.Expr.TheVariants as expr;
ghost use Rattle.core_forms.specs.Nodes.{a_part, a_value, unmeant};

use crate::built::{Built, valued};
use crate::names::left;
use c_language::{CType, Fault, IntegerConstant, Rule, Tables, Told};
use c_type_forms as forms;
use core_tree::Expr;
use plain_data::Items;
use std::alloc::{AllocError, Global};

/// An integer constant (C99 6.4.4.1). It fails for want of memory alone.
pub fn integer_constant(
    alloc: Global,
    at: u32,
    constant: &IntegerConstant,
) -> Result<Built, AllocError>
    ensures { IfOk result (λ y. y ≡ a_value (says.integer_told at constant.now) (expr.Constant (pos constant.now.value))) }
{
    let told = forms::integer_constant(alloc, at, constant)?;
    valued(
        alloc,
        told,
        Expr::Constant {
            value: i128::from(constant.value),
        },
    )
}

/// A character constant (C99 6.4.4.4). It fails for want of memory alone.
pub fn character_constant(alloc: Global, at: u32, value: i32) -> Result<Built, AllocError>
    ensures { IfOk result (λ y. y ≡ a_value (says.character_told at value) (expr.Constant value)) }
{
    let told = forms::character_constant(alloc, at, value)?;
    valued(
        alloc,
        told,
        Expr::Constant {
            value: i128::from(value),
        },
    )
}

/// A constant of floating type (C99 6.4.4.2) breaks a rule, and isn't run. It fails for want of memory alone.
pub fn floating_constant(alloc: Global, at: u32) -> Result<Built, AllocError>
    ensures { IfOk result (λ y. y ≡ a_part (says.floating_told at) false unmeant) }
{
    let told = forms::floating_constant(alloc, at)?;
    left(alloc, told)
}

/// The value of an expression that is constant.
fn constant_of(told: &Told) -> i128
    ensures { result ≡ unwrap_or (says.value_in told.now.shown) (pos 0) }
{
    match &told.shown {
        Some(shown) => shown.value.unwrap_or(0),
        None => 0,
    }
}

/// `sizeof` of an expression, which isn't evaluated (C99 6.5.3.4p2). It fails for want of memory alone.
pub fn size_of_expression(
    alloc: Global,
    tables: &Tables,
    at: u32,
    x: Told,
) -> Result<Built, AllocError>
    ensures { let told = says.node_over at x.shown (says.size_shown tables.now) x.faults in IfOk result (λ y. y ≡ a_value told (expr.Constant (unwrap_or (says.value_in told.shown) (pos 0)))) }
{
    let told = forms::size_of_expression(alloc, tables, at, x)?;
    let value = constant_of(&told);
    valued(alloc, told, Expr::Constant { value })
}

/// `sizeof` of a type. It fails for want of memory alone.
pub fn size_of_type(
    alloc: Global,
    tables: &Tables,
    at: u32,
    named: Option<Result<CType, Rule>>,
    faults: Items<Fault>,
) -> Result<Built, AllocError>
    ensures { let told = says.over_named at named (says.size_in tables.now) faults in IfOk result (λ y. y ≡ a_value told (expr.Constant (unwrap_or (says.value_in told.shown) (pos 0)))) }
{
    let told = forms::size_of_type(alloc, tables, at, named, faults)?;
    let value = constant_of(&told);
    valued(alloc, told, Expr::Constant { value })
}
