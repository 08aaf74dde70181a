//! Binary operators (C99 6.5.5 to 6.5.14), and the comma (C99 6.5.17).
ghost use Rattle.std.specs.Prelude.{◌≡◌, ◌++◌, IfOk};
ghost use Rattle.c_language.specs.declared.expr.BinaryOperator.TheVariants as o;
ghost use Rattle.c_language.specs.Typing as says;
ghost use Rattle.core_tree.specs.declared.expr.Expr.TheVariants as expr;
ghost use Rattle.elaborate.specs.Operators as operators;
ghost use Rattle.core_forms.specs.Nodes as nodes;
ghost use Rattle.core_forms.specs.Nodes.{a_value, binary_node, operand_by, operated_node};

use crate::built::{Built, Used, left_out, valued};
use crate::types::{is_constant, operand_type};
use c_language::{BinaryOperator, Tables};
use c_type_forms as forms;
use core_tree::{Expr, Operator};
use elaborate::operator_of;
use plain_data::Shared;
use std::alloc::{AllocError, Global};

/// `left && right` (C99 6.5.13). It fails for want of memory alone.
fn and(alloc: Global, tables: &Tables, at: u32, x: Used, y: Used) -> Result<Built, AllocError>
    ensures { IfOk result (λ z. z ≡ a_value (says.node_over_two at x.told.shown y.told.shown (says.operated tables.now o.LogicalAnd) (x.told.faults ++ y.told.faults)) (expr.And at x.value y.value)) }
{
    let Used { told, value: left } = x;
    let Used {
        told: more,
        value: right,
    } = y;
    let told = forms::binary(alloc, tables, at, BinaryOperator::LogicalAnd, told, more)?;
    valued(alloc, told, Expr::And { at, left, right })
}

/// `left || right` (C99 6.5.14). It fails for want of memory alone.
fn or(alloc: Global, tables: &Tables, at: u32, x: Used, y: Used) -> Result<Built, AllocError>
    ensures { IfOk result (λ z. z ≡ a_value (says.node_over_two at x.told.shown y.told.shown (says.operated tables.now o.LogicalOr) (x.told.faults ++ y.told.faults)) (expr.Or at x.value y.value)) }
{
    let Used { told, value: left } = x;
    let Used {
        told: more,
        value: right,
    } = y;
    let told = forms::binary(alloc, tables, at, BinaryOperator::LogicalOr, told, more)?;
    valued(alloc, told, Expr::Or { at, left, right })
}

/// An operator on two operands, which are left where there is none. It fails for want of memory alone.
fn operated(
    alloc: Global,
    at: u32,
    operator: Option<Operator>,
    is_constant: bool,
    left: Shared<Expr>,
    right: Shared<Expr>,
) -> Result<Expr, AllocError>
    ensures { IfOk result (λ e. e ≡ operated_node at operator is_constant left right) }
{
    match operator {
        Some(operator) => {
            Ok(Expr::Operate {
                at,
                operator,
                is_constant,
                left,
                right,
            })
        }
        None => left_out(alloc, left, right),
    }
}

/// An operator whose operands are both evaluated, the left one first (C99 6.5.5 to 6.5.12). It fails for want of memory
/// alone.
fn both(
    alloc: Global,
    tables: &Tables,
    at: u32,
    operator: BinaryOperator,
    x: Used,
    y: Used,
) -> Result<Built, AllocError>
    ensures { let told = says.node_over_two at x.told.shown y.told.shown (says.operated tables.now operator) (x.told.faults ++ y.told.faults) in IfOk result (λ z. z ≡ a_value told (operated_node at (operators.operator_of operator (operand_by tables.now x.told) (operand_by tables.now y.told)) (nodes.is_constant told) x.value y.value)) }
{
    let first = operand_type(alloc, tables, &x.told)?;
    let second = operand_type(alloc, tables, &y.told)?;
    let chosen = operator_of(operator, first, second);
    let Used { told, value: left } = x;
    let Used {
        told: more,
        value: right,
    } = y;
    let told = forms::binary(alloc, tables, at, operator, told, more)?;
    let node = operated(alloc, at, chosen, is_constant(&told), left, right)?;
    valued(alloc, told, node)
}

/// A binary operator over two values, in the names in force behind the second. It fails for want of memory alone.
pub fn binary(
    alloc: Global,
    tables: &Tables,
    at: u32,
    operator: BinaryOperator,
    x: Used,
    y: Used,
) -> Result<Built, AllocError>
    ensures { let told = says.node_over_two at x.told.shown y.told.shown (says.operated tables.now operator) (x.told.faults ++ y.told.faults) in IfOk result (λ z. z ≡ a_value told (binary_node at operator tables.now (nodes.is_constant told) x y)) }
{
    match operator {
        BinaryOperator::LogicalAnd => and(alloc, tables, at, x, y),
        BinaryOperator::LogicalOr => or(alloc, tables, at, x, y),
        _ => both(alloc, tables, at, operator, x, y),
    }
}

/// `left, right` (C99 6.5.17p2): the value on the left isn't used. It fails for want of memory alone.
pub fn comma(alloc: Global, at: u32, x: Used, y: Used) -> Result<Built, AllocError>
    ensures { IfOk result (λ z. z ≡ a_value (says.node_over_two at x.told.shown y.told.shown (λ a b. says.second_judged b) (x.told.faults ++ y.told.faults)) (expr.Comma x.value y.value)) }
{
    let Used { told, value: first } = x;
    let Used {
        told: more,
        value: second,
    } = y;
    let told = forms::comma(at, told, more)?;
    valued(alloc, told, Expr::Comma { first, second })
}
