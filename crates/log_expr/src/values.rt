//! Where expressions lead along a log.
ghost use Rattle.std.specs.Prelude.{◌≡◌, map, IfOk};
ghost use Rattle.core_tree.specs.Values as core;
ghost use Rattle.log_expr.specs.Below.{Finds, WalksValue, WalksValues, WalksCallee};

use crate::callees::{Walk, walk_callee};
use crate::stage::Stage;
use crate::table::{EndTable, Ends};
use crate::trail::Trail;
use core_tree::{Callee, Expr};
use plain_data::Shared;
use std::alloc::{AllocError, Global};

/// Where what is called with so many arguments leads. It fails for want of memory alone.
fn step_callee<
    'a,
    L: Stage,
    K: Fn(Global, &L, u32, usize, &mut EndTable) -> Result<Ends, AllocError>,
>(
    walk: &Walk<'a, L, K>,
    callee: &Callee,
    count: usize,
    trail: &mut Trail,
    table: &mut EndTable,
) -> Result<(), AllocError>
    requires { Finds L.site K.Fn walk.now.stage walk.now.call.now }
    ensures { IfOk result (λ _. WalksCallee (L.site walk.now.stage.now)
        table.old table.new callee.now count trail.old trail.new) }
{
    let to = walk_callee(walk, callee, count, &trail.at, &mut trail.ended, table)?;
    trail.at = to;
    Ok(())
}

/// Where an expression leads. It fails for want of memory alone.
#[cycle(values)]
pub fn walk_value<
    'a,
    L: Stage,
    K: Fn(Global, &L, u32, usize, &mut EndTable) -> Result<Ends, AllocError>,
>(
    walk: &Walk<'a, L, K>,
    e: &Expr,
    trail: &mut Trail,
    table: &mut EndTable,
) -> Result<(), AllocError>
    requires { Finds L.site K.Fn walk.now.stage walk.now.call.now }
    ensures { IfOk result (λ _. WalksValue (L.site walk.now.stage.now) table.old table.new
        (core.value e.now) trail.old trail.new) }
{
    match e {
        Expr::Constant { .. } => Ok(()),
        Expr::Fixed { .. } => Ok(()),
        Expr::Local { .. } => Ok(()),
        Expr::Target { operand } => {
            walk_value(walk, operand.get(), trail, table)?;
            Ok(())
        }
        Expr::Pointer { operand } => {
            walk_value(walk, operand.get(), trail, table)?;
            Ok(())
        }
        Expr::Not { operand } => {
            walk_value(walk, operand.get(), trail, table)?;
            Ok(())
        }
        Expr::Offset { operand, .. } => {
            walk_value(walk, operand.get(), trail, table)?;
            Ok(())
        }
        Expr::Extract { operand, .. } => {
            walk_value(walk, operand.get(), trail, table)?;
            Ok(())
        }
        Expr::Convert { operand, .. } => {
            walk_value(walk, operand.get(), trail, table)?;
            Ok(())
        }
        Expr::Cast { operand, .. } => {
            walk_value(walk, operand.get(), trail, table)?;
            Ok(())
        }
        Expr::Load { address, .. } => {
            walk_value(walk, address.get(), trail, table)?;
            trail.stop()?;
            Ok(())
        }
        Expr::Turn { operand, .. } => {
            walk_value(walk, operand.get(), trail, table)?;
            trail.stop()?;
            Ok(())
        }
        Expr::Step { target, .. } => {
            walk_value(walk, target.get(), trail, table)?;
            trail.stop()?;
            Ok(())
        }
        Expr::Operate { left, right, .. } => {
            walk_value(walk, left.get(), trail, table)?;
            walk_value(walk, right.get(), trail, table)?;
            trail.stop()?;
            Ok(())
        }
        Expr::Store { target, value, .. } => {
            walk_value(walk, target.get(), trail, table)?;
            walk_value(walk, value.get(), trail, table)?;
            trail.stop()?;
            Ok(())
        }
        Expr::Update { target, value, .. } => {
            walk_value(walk, target.get(), trail, table)?;
            trail.stop()?;
            walk_value(walk, value.get(), trail, table)?;
            trail.stop()?;
            Ok(())
        }
        Expr::Comma { first, second } => {
            walk_value(walk, first.get(), trail, table)?;
            walk_value(walk, second.get(), trail, table)?;
            Ok(())
        }
        Expr::And { left, right, .. } => {
            walk_value(walk, left.get(), trail, table)?;
            trail.save(walk.alloc)?;
            walk_value(walk, right.get(), trail, table)?;
            trail.join()?;
            Ok(())
        }
        Expr::Or { left, right, .. } => {
            walk_value(walk, left.get(), trail, table)?;
            trail.save(walk.alloc)?;
            walk_value(walk, right.get(), trail, table)?;
            trail.join()?;
            Ok(())
        }
        Expr::Choose {
            condition,
            positive,
            negative,
            ..
        } => {
            walk_value(walk, condition.get(), trail, table)?;
            trail.save(walk.alloc)?;
            walk_value(walk, positive.get(), trail, table)?;
            trail.switch(walk.alloc)?;
            walk_value(walk, negative.get(), trail, table)?;
            trail.join()?;
            Ok(())
        }
        Expr::Call {
            arguments,
            callee,
            ..
        } => {
            walk_values(walk, arguments.as_slice(), trail, table)?;
            step_callee(walk, callee, arguments.len(), trail, table)?;
            trail.stop()?;
            Ok(())
        }
    }
}

/// Where arguments lead, from left to right.
#[cycle(values)]
fn walk_values<
    'a,
    L: Stage,
    K: Fn(Global, &L, u32, usize, &mut EndTable) -> Result<Ends, AllocError>,
>(
    walk: &Walk<'a, L, K>,
    es: &[Shared<Expr>],
    trail: &mut Trail,
    table: &mut EndTable,
) -> Result<(), AllocError>
    requires { Finds L.site K.Fn walk.now.stage walk.now.call.now }
    ensures { IfOk result (λ _. WalksValues (L.site walk.now.stage.now)
        table.old table.new (map core.value es.now) trail.old trail.new) }
{
    for e in es {
        walk_value(walk, e.get(), trail, table)?;
    }
    Ok(())
}
