//! Addresses of lvalues that operators give, and the address operator (C99 6.5.2.1, 6.5.2.3, 6.5.3.2).
ghost use Rattle.std.specs.Prelude.{◌≡◌, ◌++◌, false, Some, IfOk};
ghost use Rattle.c_language.specs.declared.expr.UnaryOperator.TheVariants as u;
ghost use Rattle.c_language.specs.declared.expr.BinaryOperator.TheVariants as o;
ghost use Rattle.c_language.specs.Typing as says;
ghost use Rattle.c_language.specs.Typing.{type_in};
ghost use Rattle.c_means.specs.Expressions as form;
ghost use Rattle.c_means.specs.Operators.{target_in};
ghost use Rattle.core_tree.specs.declared.expr.Expr.TheVariants as expr;
ghost use Rattle.core_tree.specs.declared.types.ValueType.TheVariants as v;
ghost use Rattle.elaborate.specs.Operators as operators;
ghost use Rattle.core_forms.specs.Nodes.{a_part, a_place, a_value, address_in, member_node, member_rooted, operand_by, target_of_sum, type_by};

use crate::built::{Built, Node, Used, address_of_node, called, left_out, placed, valued};
use crate::types::{operand_type, type_of};
use c_language::{BinaryOperator, CType, Name, Tables, Told, UnaryOperator};
use c_type_forms as forms;
use core_tree::{Expr, Operator, ValueType};
use elaborate::operator_of;
use plain_data::Shared;
use std::alloc::{AllocError, Global};

/// `&operand` (C99 6.5.3.2p3): nothing is read. It fails for want of memory alone.
pub fn address_of(alloc: Global, tables: &Tables, at: u32, x: Built) -> Result<Built, AllocError>
    ensures { IfOk result (λ y. y ≡ a_value (says.node_over at x.told.shown (says.unary_judged tables.now u.Address) x.told.faults) (expr.Pointer (address_in x.node))) }
{
    let Built { told, node, .. } = x;
    let operand = address_of_node(alloc, node)?;
    let told = forms::unary(alloc, tables, at, UnaryOperator::Address, told)?;
    valued(alloc, told, Expr::Pointer { operand })
}

/// `*operand` (C99 6.5.3.2p4). It fails for want of memory alone.
pub fn indirection(alloc: Global, tables: &Tables, at: u32, x: Used) -> Result<Built, AllocError>
    ensures { IfOk result (λ y. y ≡ a_place (says.node_over at x.told.shown (says.unary_judged tables.now u.Indirection) x.told.faults) false (expr.Target x.value)) }
{
    let Used { told, value } = x;
    let told = forms::unary(alloc, tables, at, UnaryOperator::Indirection, told)?;
    placed(alloc, told, false, Expr::Target { operand: value })
}

/// The target of a sum, whose operands are left where there is no sum. It fails for want of memory alone.
fn sum_target(
    alloc: Global,
    at: u32,
    operator: Option<Operator>,
    left: Shared<Expr>,
    right: Shared<Expr>,
) -> Result<Expr, AllocError>
    ensures { IfOk result (λ e. e ≡ target_of_sum at operator left right) }
{
    let Some(operator) = operator else {
        return left_out(alloc, left, right);
    };
    let sum = Expr::Operate {
        at,
        operator,
        is_constant: false,
        left,
        right,
    };
    let operand = Shared::new(alloc, sum)?;
    Ok(Expr::Convert {
        to: ValueType::Pointer,
        operand,
    })
}

/// `left[right]`: the target of the sum (C99 6.5.2.1p2), in the names in force behind the second. It fails for want of
/// memory alone.
pub fn subscript(
    alloc: Global,
    tables: &Tables,
    at: u32,
    x: Used,
    y: Used,
) -> Result<Built, AllocError>
    ensures { let told = says.node_over_two at x.told.shown y.told.shown (says.element tables.now) (x.told.faults ++ y.told.faults) in
        IfOk result (λ z. z ≡ a_place told false (target_of_sum at (operators.operator_of o.Add (operand_by tables.now x.told) (operand_by tables.now y.told)) x.value y.value)) }
{
    let first = operand_type(alloc, tables, &x.told)?;
    let second = operand_type(alloc, tables, &y.told)?;
    let operator = operator_of(BinaryOperator::Add, first, second);
    let Used { told, value: left } = x;
    let Used {
        told: more,
        value: right,
    } = y;
    let told = forms::subscript(alloc, tables, at, told, more)?;
    let node = sum_target(alloc, at, operator, left, right)?;
    placed(alloc, told, false, node)
}

/// Where a member lies in a structure or union (C99 6.7.2.1): 0 where there is none of this name.
fn offset_of(tables: &Tables, ctype: &CType, name: &Name) -> u64
    ensures { result ≡ form.offset_of tables.now (Some ctype.now) name.now }
{
    match tables.member_of(ctype, name) {
        Some(member) => member.offset,
        None => 0,
    }
}

/// Where a member lies in what an expression is.
fn member_offset(tables: &Tables, told: &Told, name: &Name) -> u64
    ensures { result ≡ form.offset_of tables.now (type_in told.now.shown) name.now }
{
    match &told.shown {
        Some(shown) => offset_of(tables, &shown.ctype, name),
        None => 0,
    }
}

/// Some bytes of a value, of the type that is told. It fails for want of memory alone.
fn extracted(
    alloc: Global,
    tables: &Tables,
    told: Told,
    bytes: u64,
    operand: Shared<Expr>,
) -> Result<Built, AllocError>
    ensures { IfOk result (λ y. y ≡ a_value told (expr.Extract bytes (type_by tables.now told) operand)) }
{
    let node = Expr::Extract {
        bytes,
        member: type_of(tables, &told),
        operand,
    };
    valued(alloc, told, node)
}

/// `object.member`: of what has an address the address, else some bytes of the value (C99 6.5.2.3p3). It fails for want
/// of memory alone.
pub fn member(
    alloc: Global,
    tables: &Tables,
    at: u32,
    name: &Name,
    x: Built,
) -> Result<Built, AllocError>
    ensures { let told = says.node_over at x.told.shown (says.member_shown_of tables.now name.now) x.told.faults in
        IfOk result (λ y. y ≡ a_part told (member_rooted x.rooted x.node) (member_node (form.offset_of tables.now (type_in x.told.shown) name.now) (type_by tables.now told) x.node)) }
{
    let Built { told, rooted, node } = x;
    let bytes = member_offset(tables, &told, name);
    let told = forms::member(alloc, tables, at, name, told)?;
    match node {
        Node::Place(operand) => placed(alloc, told, rooted, Expr::Offset { bytes, operand }),
        Node::Value(value) => extracted(alloc, tables, told, bytes, value),
        Node::Call(call) => {
            let value = called(alloc, call, true)?;
            extracted(alloc, tables, told, bytes, value)
        }
    }
}

/// Where a member lies in what a value points to.
fn arrow_offset(alloc: Global, tables: &Tables, told: &Told, name: &Name) -> Result<u64, AllocError>
    ensures { IfOk result (λ n. n ≡ form.offset_of tables.now (target_in (type_in told.now.shown)) name.now) }
{
    match &told.shown {
        Some(shown) => match shown.ctype.target(alloc)? {
            Some(target) => Ok(offset_of(tables, &target, name)),
            None => Ok(0),
        },
        None => Ok(0),
    }
}

/// `pointer->member` (C99 6.5.2.3p4). It fails for want of memory alone.
pub fn arrow(
    alloc: Global,
    tables: &Tables,
    at: u32,
    name: &Name,
    x: Used,
) -> Result<Built, AllocError>
    ensures { IfOk result (λ y. y ≡ a_place (says.node_over at x.told.shown (says.pointed_member tables.now name.now) x.told.faults) false
        (expr.Offset (form.offset_of tables.now (target_in (type_in x.told.shown)) name.now) (expr.Convert v.Pointer x.value))) }
{
    let Used { told, value } = x;
    let bytes = arrow_offset(alloc, tables, &told, name)?;
    let told = forms::arrow(alloc, tables, at, name, told)?;
    let operand = Shared::new(
        alloc,
        Expr::Convert {
            to: ValueType::Pointer,
            operand: value,
        },
    )?;
    placed(alloc, told, false, Expr::Offset { bytes, operand })
}
