//! How many nodes an expression unrolls to.
ghost use Rattle.std.specs.Prelude.{◌≡◌};
ghost use Rattle.core_tree.specs.Callees as callees;
ghost use Rattle.core_sizes.specs.Nodes.{capped, value_nodes, values_nodes};

use crate::sizes::Sizes;
use core_tree::{Callee, Expr};
use plain_data::Shared;

/// How many nodes what is called unrolls to, or the greatest number of 64 bits where it has more.
fn callee_size<S: Sizes>(scene: &S, callee: &Callee) -> u64
    ensures { result ≡ capped (callees.callee_size callee.now (S.measures scene.now)) }
{
    match callee {
        Callee::Body { function } => scene.size(*function),
        Callee::Log { .. } => 0,
        Callee::Identity { .. } => 0,
        Callee::Exit => 0,
        Callee::Abort => 0,
        Callee::Malloc => 0,
        Callee::Calloc => 0,
        Callee::Free => 0,
        Callee::Outside { .. } => 0,
    }
}

/// How many nodes an expression unrolls to, or the greatest number of 64 bits where it has more.
#[cycle(sizes)]
pub fn value_size<S: Sizes>(scene: &S, e: &Expr) -> u64
    ensures { result ≡ capped (value_nodes (S.measures scene.now) e.now) }
{
    match e {
        Expr::Constant { .. } => 1,
        Expr::Fixed { .. } => 1,
        Expr::Local { .. } => 1,
        Expr::Load { address, .. } => value_size(scene, address.get()),
        Expr::Target { operand } => value_size(scene, operand.get()).saturating_add(1),
        Expr::Pointer { operand } => value_size(scene, operand.get()).saturating_add(1),
        Expr::Offset { operand, .. } => value_size(scene, operand.get()).saturating_add(1),
        Expr::Extract { operand, .. } => value_size(scene, operand.get()).saturating_add(1),
        Expr::Convert { operand, .. } => value_size(scene, operand.get()),
        Expr::Cast { operand, .. } => value_size(scene, operand.get()).saturating_add(1),
        Expr::Turn { operand, .. } => value_size(scene, operand.get()).saturating_add(1),
        Expr::Not { operand } => value_size(scene, operand.get()).saturating_add(1),
        Expr::Operate { left, right, .. } => {
            value_size(scene, left.get())
                .saturating_add(value_size(scene, right.get()))
                .saturating_add(1)
        }
        Expr::And { left, right, .. } => {
            value_size(scene, left.get())
                .saturating_add(value_size(scene, right.get()))
                .saturating_add(1)
        }
        Expr::Or { left, right, .. } => {
            value_size(scene, left.get())
                .saturating_add(value_size(scene, right.get()))
                .saturating_add(1)
        }
        Expr::Choose {
            condition,
            positive,
            negative,
            ..
        } => {
            let arms = value_size(scene, positive.get()).saturating_add(value_size(
                scene,
                negative.get(),
            ));
            value_size(scene, condition.get())
                .saturating_add(arms)
                .saturating_add(1)
        }
        Expr::Store { target, value, .. } => {
            value_size(scene, target.get())
                .saturating_add(value_size(scene, value.get()))
                .saturating_add(1)
        }
        Expr::Update { target, value, .. } => {
            value_size(scene, target.get())
                .saturating_add(value_size(scene, value.get()))
                .saturating_add(1)
        }
        Expr::Step { target, .. } => value_size(scene, target.get()).saturating_add(1),
        Expr::Comma { first, second } => {
            value_size(scene, first.get())
                .saturating_add(value_size(scene, second.get()))
                .saturating_add(1)
        }
        Expr::Call {
            arguments,
            callee,
            ..
        } => values_size(scene, arguments.as_slice())
            .saturating_add(callee_size(scene, callee))
            .saturating_add(1),
    }
}

#[cycle(sizes)]
pub(crate) fn values_size<S: Sizes>(scene: &S, items: &[Shared<Expr>]) -> u64
    ensures { result ≡ capped (values_nodes (S.measures scene.now) items.now) }
{
    let mut size: u64 = 0;
    for item in items {
        size = value_size(scene, item.get()).saturating_add(size);
    }
    size
}
