//! Whether expressions call functions of numbers below a bound alone.
ghost use Rattle.std.specs.Prelude.{◌≡◌};
ghost use Rattle.std.specs.List.{list_all};
ghost use Rattle.core_prefix.specs.Calls as calls;

use core_tree::{Callee, Expr};
use plain_data::Shared;

fn calls_below(bound: u32, callee: &Callee) -> bool
    ensures { result ≡ calls.callee_below bound callee.now }
{
    match callee {
        Callee::Body { function } => *function < bound,
        Callee::Log { .. } => true,
        Callee::Identity { .. } => true,
        Callee::Exit => true,
        Callee::Abort => true,
        Callee::Malloc => true,
        Callee::Calloc => true,
        Callee::Free => true,
        Callee::Outside { .. } => true,
    }
}

/// Whether each call in an expression is of a function below a bound.
#[cycle(bounding)]
pub(crate) fn value_below(bound: u32, e: &Expr) -> bool
    ensures { result ≡ calls.value_below bound e.now }
{
    match e {
        Expr::Constant { .. } => true,
        Expr::Fixed { .. } => true,
        Expr::Local { .. } => true,
        Expr::Load { address, .. } => value_below(bound, address.get()),
        Expr::Target { operand } => value_below(bound, operand.get()),
        Expr::Pointer { operand } => value_below(bound, operand.get()),
        Expr::Offset { operand, .. } => value_below(bound, operand.get()),
        Expr::Extract { operand, .. } => value_below(bound, operand.get()),
        Expr::Convert { operand, .. } => value_below(bound, operand.get()),
        Expr::Cast { operand, .. } => value_below(bound, operand.get()),
        Expr::Turn { operand, .. } => value_below(bound, operand.get()),
        Expr::Not { operand } => value_below(bound, operand.get()),
        Expr::Operate { left, right, .. } => {
            value_below(bound, left.get()) && value_below(bound, right.get())
        }
        Expr::And { left, right, .. } => {
            value_below(bound, left.get()) && value_below(bound, right.get())
        }
        Expr::Or { left, right, .. } => {
            value_below(bound, left.get()) && value_below(bound, right.get())
        }
        Expr::Choose {
            condition,
            positive,
            negative,
            ..
        } => {
            value_below(bound, condition.get())
                && value_below(bound, positive.get())
                && value_below(bound, negative.get())
        }
        Expr::Store { target, value, .. } => {
            value_below(bound, target.get()) && value_below(bound, value.get())
        }
        Expr::Update { target, value, .. } => {
            value_below(bound, target.get()) && value_below(bound, value.get())
        }
        Expr::Step { target, .. } => value_below(bound, target.get()),
        Expr::Comma { first, second } => {
            value_below(bound, first.get()) && value_below(bound, second.get())
        }
        Expr::Call {
            arguments,
            callee,
            ..
        } => calls_below(bound, callee) && values_below(bound, arguments.as_slice()),
    }
}

/// Whether each call in expressions is of a function below a bound.
#[cycle(bounding)]
pub(crate) fn values_below(bound: u32, items: &[Shared<Expr>]) -> bool
    ensures { result ≡ list_all (calls.value_below bound) items.now }
{
    for item in items {
        if !value_below(bound, item.get()) {
            return false;
        }
    }
    true
}
