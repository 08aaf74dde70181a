//! Unary arithmetic operators (C99 6.5.3.3).
ghost use Rattle.std.specs.Prelude.{◌≡◌, IfOk};
ghost use Rattle.c_language.specs.declared.expr.UnaryOperator.TheVariants as u;
ghost use Rattle.c_language.specs.Typing as says;
ghost use Rattle.c_means.specs.Operators.{kind_in};
ghost use Rattle.core_tree.specs.declared.expr.Expr.TheVariants as expr;
ghost use Rattle.core_tree.specs.declared.types.Turning.TheVariants as turn;
ghost use Rattle.core_forms.specs.Nodes as nodes;
ghost use Rattle.core_forms.specs.Nodes.{a_value, turned_node};

use crate::built::{Built, Used, valued};
use crate::types::{is_constant, kind_of};
use c_language::{IntegerKind, Tables, Told, UnaryOperator};
use c_type_forms::unary;
use core_tree::{Expr, Turning, ValueType};
use elaborate::word_type;
use plain_data::Shared;
use std::alloc::{AllocError, Global};

/// `!operand` (C99 6.5.3.3p5). It fails for want of memory alone.
pub fn not(alloc: Global, tables: &Tables, at: u32, x: Used) -> Result<Built, AllocError>
    ensures { IfOk result (λ y. y ≡ a_value (says.node_over at x.told.shown (says.unary_judged tables.now u.Not) x.told.faults) (expr.Not x.value)) }
{
    let Used { told, value } = x;
    let told = unary(alloc, tables, at, UnaryOperator::Not, told)?;
    valued(alloc, told, Expr::Not { operand: value })
}

/// An operator on an integer, in the promoted type: of what is no integer the value is left.
fn turned(
    at: u32,
    operator: Turning,
    kind: Option<IntegerKind>,
    is_constant: bool,
    operand: Shared<Expr>,
) -> Expr
    ensures { result ≡ turned_node at operator kind is_constant operand }
{
    match kind {
        Some(kind) => Expr::Turn {
            at,
            operator,
            word: word_type(kind.promoted()),
            is_constant,
            operand,
        },
        None => Expr::Cast {
            to: ValueType::Void,
            operand,
        },
    }
}

/// `-operand` (C99 6.5.3.3p3), in the promoted type. It fails for want of memory alone.
pub fn minus(alloc: Global, tables: &Tables, at: u32, x: Used) -> Result<Built, AllocError>
    ensures { let told = says.node_over at x.told.shown (says.unary_judged tables.now u.Minus) x.told.faults in IfOk result (λ y. y ≡ a_value told (turned_node at turn.Minus (kind_in (says.type_in x.told.shown)) (nodes.is_constant told) x.value)) }
{
    let Used { told, value } = x;
    let kind = kind_of(&told);
    let told = unary(alloc, tables, at, UnaryOperator::Minus, told)?;
    let node = turned(at, Turning::Minus, kind, is_constant(&told), value);
    valued(alloc, told, node)
}

/// `+operand` (C99 6.5.3.3p2), in the promoted type. It fails for want of memory alone.
pub fn plus(alloc: Global, tables: &Tables, at: u32, x: Used) -> Result<Built, AllocError>
    ensures { let told = says.node_over at x.told.shown (says.unary_judged tables.now u.Plus) x.told.faults in IfOk result (λ y. y ≡ a_value told (turned_node at turn.Plus (kind_in (says.type_in x.told.shown)) (nodes.is_constant told) x.value)) }
{
    let Used { told, value } = x;
    let kind = kind_of(&told);
    let told = unary(alloc, tables, at, UnaryOperator::Plus, told)?;
    let node = turned(at, Turning::Plus, kind, is_constant(&told), value);
    valued(alloc, told, node)
}

/// `~operand` (C99 6.5.3.3p4), in the promoted type. It fails for want of memory alone.
pub fn complement(alloc: Global, tables: &Tables, at: u32, x: Used) -> Result<Built, AllocError>
    ensures { let told = says.node_over at x.told.shown (says.unary_judged tables.now u.Complement) x.told.faults in IfOk result (λ y. y ≡ a_value told (turned_node at turn.Complement (kind_in (says.type_in x.told.shown)) (nodes.is_constant told) x.value)) }
{
    let Used { told, value } = x;
    let kind = kind_of(&told);
    let told = unary(alloc, tables, at, UnaryOperator::Complement, told)?;
    let node = turned(at, Turning::Complement, kind, is_constant(&told), value);
    valued(alloc, told, node)
}
