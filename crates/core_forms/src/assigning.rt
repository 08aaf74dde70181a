//! Assignment (C99 6.5.16), `++` and `--` (C99 6.5.2.4, 6.5.3.1).
ghost use Rattle.std.specs.Prelude.{◌≡◌, ◌++◌, IfOk, Some, None};
ghost use Rattle.c_language.specs.declared.expr.BinaryOperator.TheVariants as o;
ghost use Rattle.c_language.specs.declared.expr.UnaryOperator.TheVariants as u;
ghost use Rattle.c_language.specs.Typing as says;
ghost use Rattle.core_tree.specs.declared.types.Answered.TheVariants as answered;
ghost use Rattle.elaborate.specs.Operators as operators;
ghost use Rattle.core_forms.specs.Nodes.{a_value, access_by, address_in, one_more, operand_by, scalar_access_by, step_behind, stepped_by, stepped_node, stored_node, updated_by};

use crate::built::{Built, Node, Used, address_of_node, left_out, valued};
use crate::types::{operand_type, scalar_type, type_of};
use c_language::{BinaryOperator, IntegerKind, PostfixOperator, Tables, Told, UnaryOperator};
use c_type_forms as forms;
use core_tree::{Access, Answered, Expr, Operator, ValueType};
use elaborate::{OperandType, operator_of};
use plain_data::Shared;
use std::alloc::{AllocError, Global};

/// How an lvalue is written, and read before.
fn access_of(told: &Told, rooted: bool, stored: ValueType) -> Access
    ensures { result ≡ access_by told.now rooted stored }
{
    Access {
        at: told.at,
        stored,
        is_tested: !rooted,
    }
}

/// `target = value` (C99 6.5.16.1), in the names in force behind the value. It fails for want of memory alone.
pub fn simple(
    alloc: Global,
    tables: &Tables,
    at: u32,
    x: Built,
    y: Used,
) -> Result<Built, AllocError>
    ensures { IfOk result (λ z. z ≡ a_value (says.node_over_two at x.told.shown y.told.shown (says.assignment_judged tables.now None) (x.told.faults ++ y.told.faults))
        (stored_node at tables.now x.told x.rooted x.node y.value)) }
{
    let Built { told, rooted, node } = x;
    let access = access_of(&told, rooted, type_of(tables, &told));
    let target = address_of_node(alloc, node)?;
    let Used { told: more, value } = y;
    let told = forms::assignment(alloc, tables, at, None, told, more)?;
    let node = Expr::Store {
        at,
        access,
        target,
        value,
    };
    valued(alloc, told, node)
}

/// What is read, and stored behind an operator on its value and another: both are left where there is no such
/// operator. It fails for want of memory alone.
fn updated(
    alloc: Global,
    at: u32,
    operator: Option<Operator>,
    access: Option<Access>,
    target: Shared<Expr>,
    value: Shared<Expr>,
) -> Result<Expr, AllocError>
    ensures { IfOk result (λ e. e ≡ updated_by at access operator target value) }
{
    match access {
        Some(access) => match operator {
            Some(operator) => {
                Ok(Expr::Update {
                    at,
                    operator,
                    access,
                    target,
                    value,
                })
            }
            None => left_out(alloc, target, value),
        },
        None => left_out(alloc, target, value),
    }
}

/// How an integer or a pointer is accessed.
fn scalar_access(told: &Told, rooted: bool) -> Option<Access>
    ensures { result ≡ scalar_access_by told.now rooted }
{
    match scalar_type(told) {
        Some(stored) => Some(access_of(told, rooted, stored)),
        None => None,
    }
}

/// `target op= value` (C99 6.5.16.2): the target's value is taken before the other operand is evaluated. It fails for
/// want of memory alone.
pub fn compound(
    alloc: Global,
    tables: &Tables,
    at: u32,
    operator: BinaryOperator,
    x: Built,
    y: Used,
) -> Result<Built, AllocError>
    ensures { IfOk result (λ z. z ≡ a_value (says.node_over_two at x.told.shown y.told.shown (says.assignment_judged tables.now (Some operator)) (x.told.faults ++ y.told.faults))
        (updated_by at (scalar_access_by x.told x.rooted) (operators.operator_of operator (operand_by tables.now x.told) (operand_by tables.now y.told)) (address_in x.node) y.value)) }
{
    let left = operand_type(alloc, tables, &x.told)?;
    let right = operand_type(alloc, tables, &y.told)?;
    let Built { told, rooted, node } = x;
    let access = scalar_access(&told, rooted);
    let target = address_of_node(alloc, node)?;
    let Used { told: more, value } = y;
    let chosen = operator_of(operator, left, right);
    let told = forms::assignment(alloc, tables, at, Some(operator), told, more)?;
    let node = updated(alloc, at, chosen, access, target, value)?;
    valued(alloc, told, node)
}

/// What is read, and stored with 1 more or less; its address is left where it is no integer or pointer.
fn stepped(
    at: u32,
    operator: Option<Operator>,
    answer: Answered,
    access: Option<Access>,
    target: Shared<Expr>,
) -> Expr
    ensures { result ≡ stepped_by at answer access operator target }
{
    match access {
        Some(access) => match operator {
            Some(operator) => Expr::Step {
                at,
                operator,
                access,
                answer,
                target,
            },
            None => Expr::Cast {
                to: ValueType::Void,
                operand: target,
            },
        },
        None => Expr::Cast {
            to: ValueType::Void,
            operand: target,
        },
    }
}

/// An integer or pointer that is read, and stored with 1 more or less (C99 6.5.2.4p2, 6.5.3.1p2). It fails for want of
/// memory alone.
fn step(
    alloc: Global,
    tables: &Tables,
    at: u32,
    operator: BinaryOperator,
    answer: Answered,
    told: &Told,
    rooted: bool,
    node: Node,
) -> Result<Expr, AllocError>
    ensures { IfOk result (λ e. e ≡ stepped_by at answer (scalar_access_by told.now rooted) (operators.operator_of operator (operand_by tables.now told.now) one_more) (address_in node)) }
{
    let left = operand_type(alloc, tables, told)?;
    let right = OperandType {
        kind: Some(IntegerKind::Int),
        element: 0,
    };
    let target = address_of_node(alloc, node)?;
    let access = scalar_access(told, rooted);
    Ok(stepped(
        at,
        operator_of(operator, left, right),
        answer,
        access,
        target,
    ))
}

/// The operator that `++` or `--` behind its operand is (C99 6.5.2.4p2, p3).
fn behind(operator: PostfixOperator) -> BinaryOperator
    ensures { result ≡ step_behind operator }
{
    match operator {
        PostfixOperator::Increment => BinaryOperator::Add,
        PostfixOperator::Decrement => BinaryOperator::Subtract,
    }
}

/// `operand++` or `operand--` (C99 6.5.2.4): the value before. It fails for want of memory alone.
pub fn postfix(
    alloc: Global,
    tables: &Tables,
    at: u32,
    operator: PostfixOperator,
    x: Built,
) -> Result<Built, AllocError>
    ensures { IfOk result (λ y. y ≡ a_value (says.node_over at x.told.shown (says.stepped tables.now) x.told.faults) (stepped_node at (step_behind operator) answered.Before tables.now x)) }
{
    let Built { told, rooted, node } = x;
    let value = step(
        alloc,
        tables,
        at,
        behind(operator),
        Answered::Before,
        &told,
        rooted,
        node,
    )?;
    let told = forms::postfix(alloc, tables, at, told)?;
    valued(alloc, told, value)
}

/// `++operand` (C99 6.5.3.1p2): the value that is stored. It fails for want of memory alone.
pub fn increment(alloc: Global, tables: &Tables, at: u32, x: Built) -> Result<Built, AllocError>
    ensures { IfOk result (λ y. y ≡ a_value (says.node_over at x.told.shown (says.unary_judged tables.now u.Increment) x.told.faults) (stepped_node at o.Add answered.Stored tables.now x)) }
{
    let Built { told, rooted, node } = x;
    let value = step(
        alloc,
        tables,
        at,
        BinaryOperator::Add,
        Answered::Stored,
        &told,
        rooted,
        node,
    )?;
    let told = forms::unary(alloc, tables, at, UnaryOperator::Increment, told)?;
    valued(alloc, told, value)
}

/// `--operand` (C99 6.5.3.1p3): the value that is stored. It fails for want of memory alone.
pub fn decrement(alloc: Global, tables: &Tables, at: u32, x: Built) -> Result<Built, AllocError>
    ensures { IfOk result (λ y. y ≡ a_value (says.node_over at x.told.shown (says.unary_judged tables.now u.Decrement) x.told.faults) (stepped_node at o.Subtract answered.Stored tables.now x)) }
{
    let Built { told, rooted, node } = x;
    let value = step(
        alloc,
        tables,
        at,
        BinaryOperator::Subtract,
        Answered::Stored,
        &told,
        rooted,
        node,
    )?;
    let told = forms::unary(alloc, tables, at, UnaryOperator::Decrement, told)?;
    valued(alloc, told, value)
}
