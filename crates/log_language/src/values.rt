//! What expressions can print.
ghost use Rattle.std.specs.Prelude.{map, IfOk};
ghost use Rattle.core_tree.specs.Values as core;
ghost use Rattle.log_language.specs.Tells.{GoesValue, GoesValues, GoesCall};

use crate::told::{Told, copy_pieces};
use crate::tree::LogExpr;
use core_tree::{Callee, Expr};
use plain_data::Shared;
use std::alloc::{AllocError, Global};

/// What is called may print. It fails for want of memory alone.
fn tell_callee(alloc: Global, callee: &Callee, told: &mut Told) -> Result<(), AllocError>
    ensures { IfOk result (λ _. GoesCall callee.now told.old told.new) }
{
    match callee {
        Callee::Body { function } => {
            let called = LogExpr::Called {
                function: *function,
            };
            told.may_print(alloc, called)?;
            Ok(())
        }
        Callee::Log { pieces, .. } => {
            let copy = copy_pieces(alloc, pieces.as_slice())?;
            told.may_print(alloc, LogExpr::Texts { pieces: copy })?;
            Ok(())
        }
        Callee::Exit => Ok(()),
        Callee::Abort => Ok(()),
        Callee::Identity { .. } => Ok(()),
        Callee::Malloc => Ok(()),
        Callee::Calloc => Ok(()),
        Callee::Free => Ok(()),
        Callee::Outside { .. } => Ok(()),
    }
}

/// What an expression can print. It fails for want of memory alone.
#[cycle(values)]
pub(crate) fn tell_value(alloc: Global, e: &Expr, told: &mut Told) -> Result<(), AllocError>
    ensures { IfOk result (λ _. GoesValue (core.value e.now) told.old told.new) }
{
    match e {
        Expr::Constant { .. } => Ok(()),
        Expr::Fixed { .. } => Ok(()),
        Expr::Local { .. } => Ok(()),
        Expr::Target { operand } => {
            tell_value(alloc, operand.get(), told)?;
            Ok(())
        }
        Expr::Pointer { operand } => {
            tell_value(alloc, operand.get(), told)?;
            Ok(())
        }
        Expr::Not { operand } => {
            tell_value(alloc, operand.get(), told)?;
            Ok(())
        }
        Expr::Offset { operand, .. } => {
            tell_value(alloc, operand.get(), told)?;
            Ok(())
        }
        Expr::Extract { operand, .. } => {
            tell_value(alloc, operand.get(), told)?;
            Ok(())
        }
        Expr::Convert { operand, .. } => {
            tell_value(alloc, operand.get(), told)?;
            Ok(())
        }
        Expr::Cast { operand, .. } => {
            tell_value(alloc, operand.get(), told)?;
            Ok(())
        }
        Expr::Turn { operand, .. } => {
            tell_value(alloc, operand.get(), told)?;
            Ok(())
        }
        Expr::Load { address, .. } => {
            tell_value(alloc, address.get(), told)?;
            Ok(())
        }
        Expr::Step { target, .. } => {
            tell_value(alloc, target.get(), told)?;
            Ok(())
        }
        Expr::Operate { left, right, .. } => {
            tell_value(alloc, left.get(), told)?;
            tell_value(alloc, right.get(), told)?;
            Ok(())
        }
        Expr::And { left, right, .. } => {
            tell_value(alloc, left.get(), told)?;
            tell_value(alloc, right.get(), told)?;
            Ok(())
        }
        Expr::Or { left, right, .. } => {
            tell_value(alloc, left.get(), told)?;
            tell_value(alloc, right.get(), told)?;
            Ok(())
        }
        Expr::Store { target, value, .. } => {
            tell_value(alloc, target.get(), told)?;
            tell_value(alloc, value.get(), told)?;
            Ok(())
        }
        Expr::Update { target, value, .. } => {
            tell_value(alloc, target.get(), told)?;
            tell_value(alloc, value.get(), told)?;
            Ok(())
        }
        Expr::Comma { first, second } => {
            tell_value(alloc, first.get(), told)?;
            tell_value(alloc, second.get(), told)?;
            Ok(())
        }
        Expr::Choose {
            condition,
            positive,
            negative,
            ..
        } => {
            tell_value(alloc, condition.get(), told)?;
            told.save()?;
            tell_value(alloc, positive.get(), told)?;
            told.switch()?;
            tell_value(alloc, negative.get(), told)?;
            told.join(alloc)?;
            Ok(())
        }
        Expr::Call {
            arguments,
            callee,
            ..
        } => {
            tell_values(alloc, arguments.as_slice(), told)?;
            tell_callee(alloc, callee, told)?;
            Ok(())
        }
    }
}

/// What arguments can print, from left to right. It fails for want of memory alone.
#[cycle(values)]
fn tell_values(alloc: Global, es: &[Shared<Expr>], told: &mut Told) -> Result<(), AllocError>
    ensures { IfOk result (λ _. GoesValues (map core.value es.now) told.old told.new) }
{
    for e in es {
        tell_value(alloc, e.get(), told)?;
    }
    Ok(())
}
